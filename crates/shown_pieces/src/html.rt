//! HTML of a whole log, or of what a screen showed of it.
ghost use Rattle.std.specs.Prelude.{IfSome};
ghost use Rattle.html_urls.specs.Linked.{linked};
ghost use Rattle.shown_pieces.specs.Running.{IsEmpty};
ghost use Rattle.shown_pieces.specs.Shown.{seen, kept, html_in, html_by, IsTextOf};

use crate::following::Memory;
use crate::how::How;
use crate::whole::written;
use ansi_html::{HtmlWriter, LinesWriter, Styling};
use ansi_screen::Scrollable;
use anstyle_parse::io::Output;
use html_urls::Linking;
use std::alloc::Global;

/// HTML, in lines or not, with addresses as they are; `None` where memory is wanting.
fn unlinked(
    alloc: Global,
    screen: Option<Scrollable>,
    how: How,
    styling: Styling,
    output: Output<Memory>,
    log: &[u8],
) -> Option<Vec<u8>>
    requires { IsEmpty output }
    ensures { IfSome result (λ written. IsTextOf
        (λ calls. html_in how.has_lines styling (kept how.no_hidden (seen screen calls))) log.now written.items) }
{
    if how.has_lines {
        let lines = LinesWriter::new(styling, output);
        written(alloc, screen, how.no_hidden, lines, log)
    } else {
        let html = HtmlWriter::new(styling, output);
        written(alloc, screen, how.no_hidden, html, log)
    }
}

/// The same with addresses as links.
fn linked(
    alloc: Global,
    screen: Option<Scrollable>,
    how: How,
    styling: Styling,
    output: Output<Memory>,
    log: &[u8],
) -> Option<Vec<u8>>
    requires { IsEmpty output }
    ensures { IfSome result (λ written. IsTextOf
        (λ calls. html_in how.has_lines styling (linked (kept how.no_hidden (seen screen calls))))
        log.now written.items) }
{
    if how.has_lines {
        let lines = LinesWriter::new(styling, output);
        let linking = Linking::new(lines);
        written(alloc, screen, how.no_hidden, linking, log)
    } else {
        let html = HtmlWriter::new(styling, output);
        let linking = Linking::new(html);
        written(alloc, screen, how.no_hidden, linking, log)
    }
}

/// HTML as it is asked for.
pub(crate) fn html(
    alloc: Global,
    screen: Option<Scrollable>,
    how: How,
    styling: Styling,
    output: Output<Memory>,
    log: &[u8],
) -> Option<Vec<u8>>
    requires { IsEmpty output }
    ensures { IfSome result (λ written. IsTextOf (html_by how styling screen) log.now written.items) }
{
    if how.has_urls {
        linked(alloc, screen, how, styling, output, log)
    } else {
        unlinked(alloc, screen, how, styling, output, log)
    }
}
