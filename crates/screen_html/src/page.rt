//! Rows as HTML, with links that are kept elsewhere.
ghost use Rattle.std.specs.Prelude.{◌≡◌};
ghost use Rattle.anstyle_parse.specs.Io.Output.{Adds};

use crate::rows::{put_line_feed, put_row};
use crate::table::LinkTable;
use ansi_html::{Link, StyledWriter, Styling};
use ansi_screen::{Cell, TakeRow, goes_on};
use anstyle_parse::io::{Output, Sink};

/// Writes rows as HTML, as [`HtmlRows`](crate::HtmlRows) does; cells have the links of a table that stays as it is,
/// where what is spare there pays for them, and what the lines before have earned.
#[derive(Drop)]
pub struct PageRows<'a, W> {
    writer: StyledWriter<W>,
    links: &'a LinkTable,
    /// The link of the last text.
    last: Link,
    /// What is spare to begin links with.
    spare: usize,
    /// The last row goes on.
    is_open: bool,
}

impl<'a, W: Sink> PageRows<'a, W> {
    ghost use Rattle.std.specs.Prelude.{[], false};
    ghost use Rattle.ansi_html.specs.Html.{no_element};
    ghost use Rattle.screen_html.specs.Shown.{linked};
    ghost use Rattle.screen_html.specs.Writer.{closing_html};
    ghost use Rattle.screen_html.specs.PageWriter.{output_of, standing_of};

    /// One that writes to this output, says styles in this way, and has taken no row.
    pub fn new(styling: Styling, links: &'a LinkTable, output: Output<W>) -> PageRows<'a, W>
        ensures output { output_of result ≡ output }
        ensures new { standing_of result ≡ record {
          styling = styling;
          shown = no_element;
          linking = linked [] links.now;
          is_open = false;
        } }
    {
        PageRows {
            writer: StyledWriter::new(styling, output),
            links,
            last: Link::none(),
            spare: links.spare(),
            is_open: false,
        }
    }

    /// Ends the last line, where the last row goes on, and hands the output back.
    pub fn into_output(self) -> Output<W>
        ensures { Adds W.Sink (closing_html (standing_of self.entry)) (output_of self.entry) result }
    {
        let PageRows {
            mut writer,
            links,
            is_open,
            ..
        } = self;
        if is_open {
            put_line_feed(&mut writer, links);
        }
        writer.into_output()
    }
}

impl<'a, W: Sink> TakeRow for PageRows<'a, W> {
    ghost use Rattle.screen_html.specs.PageWriter.{TakesRow, PassesOn};

    ghost takes = { TakesRow W.Sink };

    ghost passes_on = { PassesOn W.Sink };

    fn take_row(&mut self, row: &[Cell], written: usize) {
        put_row(
            &mut self.writer,
            self.links,
            &mut self.last,
            &mut self.spare,
            row,
            written,
        );
        self.is_open = goes_on(row);
    }

    fn pass_on(&mut self) {
        self.writer.pass_on();
    }
}
