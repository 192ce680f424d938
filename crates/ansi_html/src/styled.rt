//! Texts that have styles and links, as HTML.
ghost use Rattle.std.specs.Prelude.{◌≡◌, ◌++◌, [], encode_utf8};
ghost use Rattle.anstyle_parse.specs.Io.Output.{Adds};
ghost use Rattle.ansi_html.specs.Html.{element, no_element, change, span_begin, span_end, element_begin, element_end, escaped_text};
ghost use Rattle.ansi_html.specs.Blocks.{block_begin, block_end};
ghost use Rattle.ansi_html.specs.ShownLinks.{link_in};
ghost use Rattle.ansi_html.specs.Styled.{output_of, styling_of, shown_in};

use crate::block::{put_block_begin, put_block_end};
use crate::link::Link;
use crate::performer::{
    put_begin, put_character, put_end, put_escaped, put_span_begin, put_span_end,
};
use crate::scheme::Styling;
use ansi_style::Style;
use anstyle_parse::io::{Output, Sink};

/// Writes texts that have styles and links, such as the cells of a screen, as HTML: text that is not plain stands
/// in `<span style="…">…</span>`, one for each run of equal style and link, and text of a link in
/// `<a … href="…" style="…">…</a>`, one for each run of equal link; by classes the attribute is `class`.
/// `& < > " '` and a carriage return are written as character references.
///
/// No memory is taken. A write that fails stops it: nothing more is written, and the fault is kept.
#[derive(Drop)]
pub struct StyledWriter<W> {
    output: Output<W>,
    /// How it says a style.
    styling: Styling,
    /// The style of the last text; plain where there was none.
    shown: Style,
    /// Its link.
    link: Link,
}

impl<W: Sink> StyledWriter<W> {
    /// One that writes to this output, says styles in this way, and has written no text.
    pub fn new(styling: Styling, output: Output<W>) -> StyledWriter<W>
        ensures output { output_of result ≡ output }
        ensures styling { styling_of result ≡ styling }
        ensures shown { shown_in result ≡ no_element }
    {
        StyledWriter {
            output,
            styling,
            shown: Style::default(),
            link: Link::none(),
        }
    }

    /// Text of this style and this link follows: where they are others than those of the last text, the element
    /// of that one is closed and one of these opened. A link that goes on stays open.
    pub fn select(&mut self, style: Style, link: &Link)
        ensures styling { styling_of self.new ≡ styling_of self.old }
        ensures shown { shown_in self.new ≡ element style (link_in link.now) }
        ensures added { Adds W.Sink
            (change (styling_of self.old) (shown_in self.old) (element style (link_in link.now)))
            (output_of self.old) (output_of self.new) }
    {
        if self.link.uri() != link.uri() {
            self.change_to(style, link);
        } else if self.shown != style {
            self.change_style(style);
        }
    }

    /// Closes the element of the last text, and opens one of this style and this link.
    fn change_to(&mut self, style: Style, link: &Link)
        ensures styling { styling_of self.new ≡ styling_of self.old }
        ensures shown { shown_in self.new ≡ element style (link_in link.now) }
        ensures added { Adds W.Sink
            (element_end (shown_in self.old) ++ element_begin (styling_of self.old) (element style (link_in link.now)))
            (output_of self.old) (output_of self.new) }
    {
        put_end(&mut self.output, &self.shown, self.link.uri());
        put_begin(&mut self.output, self.styling, &style, link.uri());
        self.shown = style;
        self.link.assign(link);
    }

    /// Closes the span of the last text, and opens one of this style, in the same link.
    fn change_style(&mut self, style: Style)
        ensures styling { styling_of self.new ≡ styling_of self.old }
        ensures shown { shown_in self.new ≡ element style (shown_in self.old).link }
        ensures added { Adds W.Sink (span_end (shown_in self.old).style ++ span_begin (styling_of self.old) style)
            (output_of self.old) (output_of self.new) }
    {
        put_span_end(&mut self.output, &self.shown);
        put_span_begin(&mut self.output, self.styling, &style);
        self.shown = style;
    }

    /// Writes a character of the style and the link that are selected.
    pub fn put_char(&mut self, c: char)
        ensures styling { styling_of self.new ≡ styling_of self.old }
        ensures shown { shown_in self.new ≡ shown_in self.old }
        ensures added { Adds W.Sink (escaped_text (encode_utf8 c)) (output_of self.old) (output_of self.new) }
    {
        put_character(&mut self.output, c);
    }

    /// Writes text of the style and the link that are selected, with a character reference for each byte that has a
    /// meaning in HTML, and what is between these at once.
    pub fn put_text(&mut self, text: &[u8])
        ensures styling { styling_of self.new ≡ styling_of self.old }
        ensures shown { shown_in self.new ≡ shown_in self.old }
        ensures added { Adds W.Sink (escaped_text text.now) (output_of self.old) (output_of self.new) }
    {
        put_escaped(&mut self.output, text);
    }

    /// Begins the element of a block. None of text is open.
    pub fn begin_block(&mut self)
        ensures styling { styling_of self.new ≡ styling_of self.old }
        ensures shown { shown_in self.new ≡ shown_in self.old }
        ensures added { Adds W.Sink block_begin (output_of self.old) (output_of self.new) }
    {
        put_block_begin(&mut self.output);
    }

    /// Ends it.
    pub fn end_block(&mut self)
        ensures styling { styling_of self.new ≡ styling_of self.old }
        ensures shown { shown_in self.new ≡ shown_in self.old }
        ensures added { Adds W.Sink block_end (output_of self.old) (output_of self.new) }
    {
        put_block_end(&mut self.output);
    }

    /// The output that it writes to.
    pub fn output(&self) -> &Output<W>
        ensures { result.now ≡ output_of self.now }
    {
        &self.output
    }

    /// Hands on what the writer of its output holds back.
    pub fn pass_on(&mut self)
        ensures styling { styling_of self.new ≡ styling_of self.old }
        ensures shown { shown_in self.new ≡ shown_in self.old }
        ensures added { Adds W.Sink [] (output_of self.old) (output_of self.new) }
    {
        self.output.pass_on();
    }

    /// Closes the last element, and hands the output back.
    pub fn into_output(self) -> Output<W>
        ensures { Adds W.Sink (element_end (shown_in self)) (output_of self) result }
    {
        let StyledWriter {
            mut output,
            shown,
            link,
            ..
        } = self;
        put_end(&mut output, &shown, link.uri());
        output
    }
}
