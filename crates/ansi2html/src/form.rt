//! What stands around the text.
ghost use Rattle.std.specs.Prelude.{◌≡◌, ◌<◌, ◌++◌, ℕ, List, option_copied, IfOk, OnOk};
ghost use Rattle.anstyle_parse.specs.Io.Output.{Adds, Causes, Writes};
ghost use Rattle.ansi2html.specs.Page.{page_colors, named_scheme, page_rules, number_color, line_rules, page_lines, text_rules, page_style, page_link, page_looks, wraps_by_class, before_text, page_head, name_shown, heading, head_of, heading_of, before_part, after_part, linked_rules, site_rules};
ghost use Rattle.ansi_html.specs.Html.{escaped_text};
ghost use Rattle.ansi_html.specs.Reader.{Attributes, Place, in_value, seen_from};

use crate::names::visible;
use ansi_html::{Scheme, Styling, put_stylesheet, put_text};
use anstyle_parse::io::{Fault, FromWrite, Output, Sink};
use std::alloc::{AllocError, Global};

/// What is written.
#[derive(Debug, Clone, Copy, PartialEq, Eq)]
pub enum Form {
    /// The text alone, for a `<pre>` of another page.
    Fragment,
    /// A page.
    Page,
}

/// What is said of a page, for its head.
#[derive(Debug, Clone, Copy)]
pub struct Said<'a> {
    /// The language, a tag such as `en`.
    pub language: &'a str,
    /// The title.
    pub title: &'a str,
    /// Where its stylesheet is, in place of rules of its own.
    pub stylesheet: Option<&'a str>,
    /// Its text is in lines, which have rules.
    pub has_lines: bool,
    /// Long lines are not wrapped.
    pub scrolls: bool,
}

/// The title of a page that is given none.
pub const TITLE: &str = "Terminal output";

/// The language of a page that is given none.
pub const LANGUAGE: &str = "en";

/// The page before its language.
const BEFORE_LANGUAGE: &[u8] = br#"<!DOCTYPE html>
<html lang=""#;

/// The page from its language to its title.
const BEFORE_TITLE: &[u8] = br#"">
<head>
<meta charset="utf-8">
<meta name="viewport" content="width=device-width">
<title>"#;

/// The page from its title to what says how it looks.
const AFTER_TITLE: &[u8] = b"</title>\n";

/// What stands before the rules of a page that has them.
const BEFORE_RULES: &[u8] = b"<style>\n";

/// What stands after its colours and rules.
const AFTER_RULES: &[u8] = b"</style>\n";

/// What stands before the address of a stylesheet, after the colours of the page.
const BEFORE_ADDRESS: &[u8] = br#"<link rel="stylesheet" href=""#;

/// What stands after the address.
const AFTER_ADDRESS: &[u8] = b"\">\n";

/// The end of the head, to the body.
const AFTER_HEAD: &[u8] = br#"</head>
<body>
"#;

/// What stands before a text. Browsers drop the newline after `<pre>`, so that one which begins the text stays.
const BEFORE_TEXT: &[u8] = b"<pre>\n";

/// The same of a page that has its long lines wrapped by the stylesheet elsewhere.
const BEFORE_WRAPPED: &[u8] = b"<pre class=\"ansi-wrap\">\n";

/// What stands after a text that is not the last.
const AFTER_TEXT: &[u8] = b"</pre>\n";

/// The page after its last text.
const PAGE_TAIL: &[u8] = br#"</pre>
</body>
</html>
"#;

/// What stands before the name of a file that heads its text.
const BEFORE_NAME: &[u8] = b"<h2>";

/// What stands after it.
const AFTER_NAME: &[u8] = b"</h2>\n";

/// The name by which standard input is read.
pub const STANDARD: &str = "-";

/// Its heading.
const STANDARD_INPUT: &str = "standard input";

/// The colours of a page: as its reader has it, or black on white, or white on a dark ground.
fn colors(scheme: Scheme) -> &'static [u8]
    ensures { result.now ≡ page_colors scheme }
{
    match scheme {
        Scheme::Light =>
            b":root { color-scheme: light; color: #000000; background-color: #ffffff; }\n",
        Scheme::Dark =>
            b":root { color-scheme: dark; color: #ffffff; background-color: #121212; }\n",
        Scheme::Both => b":root { color-scheme: light dark; }\n",
    }
}

/// Writes the rules of the classes, where styles are said by classes.
fn put_rules<W: Sink>(output: &mut Output<W>, styling: Styling, scheme: Scheme)
    ensures { Adds W.Sink (page_rules styling scheme) output.old output.new }
{
    if styling == Styling::Classes {
        put_stylesheet(output, scheme);
    }
}

/// The same colours, for a page without rules: as its reader has it, or light, or dark.
fn color_scheme(scheme: Scheme) -> &'static [u8]
    ensures { result.now ≡ named_scheme scheme }
{
    match scheme {
        Scheme::Light => b"<meta name=\"color-scheme\" content=\"light\">\n",
        Scheme::Dark => b"<meta name=\"color-scheme\" content=\"dark\">\n",
        Scheme::Both => b"<meta name=\"color-scheme\" content=\"light dark\">\n",
    }
}

/// Writes a text into the quoted value of an attribute, `& < > " '` and carriage returns as references.
fn put_value<W: Sink>(output: &mut Output<W>, text: &str)
    ensures added { Adds W.Sink (escaped_text text.now) output.old output.new }

    // The text can't end its attribute: a reader in any attribute of any tag, in any elements, reads exactly this
    // text more of the value, and is then in that value still.
    ensures stays_within { (elements : List Attributes) (tag : Attributes) (name value rest : List ℕ) →
        seen_from (in_value elements tag name value) (escaped_text text.now ++ rest)
        ≡ seen_from (in_value elements tag name (value ++ text.now)) rest }
{
    put_text(output, text);
}

/// The colour of the numbers of lines.
fn number_color(scheme: Scheme) -> &'static [u8]
    ensures { result.now ≡ number_color scheme }
{
    match scheme {
        Scheme::Light => b"color: #59636e;",
        Scheme::Dark => b"color: #9198a1;",
        Scheme::Both => b"color: #59636e; color: light-dark(#59636e, #9198a1);",
    }
}

/// The rules of lines before the colour of their numbers.
const BEFORE_NUMBER_COLOR: &[u8] = br#"pre [id^=L] { display: block; padding-left: 9ch; }
pre [id^=L]:target { box-shadow: inset 4px 0 #bf8700; }
[data-line] { float: left; margin-left: -8ch; min-width: 7ch; text-align: right; text-decoration: none; "#;

/// The rules of lines after it.
const AFTER_NUMBER_COLOR: &[u8] = br#" }
[data-line]::before { content: attr(data-line); }
@media (max-width: 40em) {
pre [id^=L] { padding-left: 6ch; }
[data-line] { margin-left: -6ch; min-width: 5ch; }
}
"#;

/// Writes the rules of lines.
fn put_line_rules<W: Sink>(output: &mut Output<W>, scheme: Scheme)
    ensures { Adds W.Sink (line_rules scheme) output.old output.new }
{
    output.put(BEFORE_NUMBER_COLOR);
    output.put(number_color(scheme));
    output.put(AFTER_NUMBER_COLOR);
}

/// Writes the rules of lines, where there are lines.
fn put_lines<W: Sink>(output: &mut Output<W>, has_lines: bool, scheme: Scheme)
    ensures { Adds W.Sink (page_lines has_lines scheme) output.old output.new }
{
    if has_lines {
        put_line_rules(output, scheme);
    }
}

/// How long lines of the text are drawn, and blocks of lines: those out of sight are not laid out.
fn text_rules(scrolls: bool) -> &'static [u8]
    ensures { result.now ≡ text_rules scrolls }
{
    if scrolls {
        br#"pre { white-space: pre; }
pre > [data-lines] { display: block; width: max-content; min-width: 100%; content-visibility: auto; contain-intrinsic-height: auto 500lh; }
"#
    } else {
        br#"pre { white-space: pre-wrap; overflow-wrap: anywhere; }
pre > [data-lines] { display: block; content-visibility: auto; contain-intrinsic-height: auto 500lh; }
"#
    }
}

/// Writes the rules of a page, in its head.
fn put_style<W: Sink>(output: &mut Output<W>, styling: Styling, scheme: Scheme, said: Said<'_>)
    ensures { Adds W.Sink (page_style styling scheme said.entry.has_lines said.entry.scrolls) output.old output.new }
{
    output.put(BEFORE_RULES);
    output.put(colors(scheme));
    put_rules(output, styling, scheme);
    put_lines(output, said.has_lines, scheme);
    output.put(text_rules(said.scrolls));
    output.put(AFTER_RULES);
}

/// Writes what leads to the stylesheet at an address, in place of rules.
fn put_link<W: Sink>(output: &mut Output<W>, scheme: Scheme, address: &str)
    ensures { Adds W.Sink (page_link scheme address.now) output.old output.new }
{
    output.put(color_scheme(scheme));
    output.put(BEFORE_ADDRESS);
    put_value(output, address);
    output.put(AFTER_ADDRESS);
}

/// Writes what says how a page looks: its rules, or where a stylesheet is.
fn put_looks<W: Sink>(output: &mut Output<W>, styling: Styling, scheme: Scheme, said: Said<'_>)
    ensures { Adds W.Sink (page_looks styling scheme said.entry) output.old output.new }
{
    match said.stylesheet {
        None => put_style(output, styling, scheme, said),
        Some(address) => put_link(output, scheme, address),
    }
}

/// Whether the text of a page wraps by a class: where it has no rules, and does not scroll.
fn wraps_by_class(said: Said<'_>) -> bool
    ensures { result ≡ wraps_by_class said.entry }
{
    said.stylesheet.is_some() && !said.scrolls
}

/// What stands before a text.
fn before_text(wraps: bool) -> &'static [u8]
    ensures { result.now ≡ before_text wraps }
{
    if wraps { BEFORE_WRAPPED } else { BEFORE_TEXT }
}

/// Writes the page as far as its body.
fn put_head<W: Sink>(output: &mut Output<W>, styling: Styling, scheme: Scheme, said: Said<'_>)
    ensures { Adds W.Sink (page_head styling scheme said.entry) output.old output.new }
{
    output.put(BEFORE_LANGUAGE);
    put_value(output, said.language);
    output.put(BEFORE_TITLE);
    put_text(output, said.title);
    output.put(AFTER_TITLE);
    put_looks(output, styling, scheme, said);
    output.put(AFTER_HEAD);
}

/// Writes the head, before the first file.
fn put_head_once<W: Sink>(
    output: &mut Output<W>,
    is_first: bool,
    styling: Styling,
    scheme: Scheme,
    said: Said<'_>,
)
    ensures { Adds W.Sink (head_of is_first styling scheme said.entry) output.old output.new }
{
    if is_first {
        put_head(output, styling, scheme, said);
    }
}

/// A name as a heading has it.
fn name_shown(name: &str) -> &str
    ensures { result.now ≡ name_shown name.now }
{
    if name == STANDARD {
        STANDARD_INPUT
    } else {
        name
    }
}

/// Writes the heading of a file, whose name is shown so.
fn put_heading<W: Sink>(output: &mut Output<W>, shown: &str)
    ensures { Adds W.Sink (heading shown.now) output.old output.new }
{
    output.put(BEFORE_NAME);
    put_text(output, shown);
    output.put(AFTER_NAME);
}

/// The same, where it is one of many.
fn put_heading_of<W: Sink>(output: &mut Output<W>, is_one_of_many: bool, shown: &str)
    ensures { Adds W.Sink (heading_of is_one_of_many shown.now) output.old output.new }
{
    if is_one_of_many {
        put_heading(output, shown);
    }
}

/// Which file of a page one is.
#[derive(Debug, Clone, Copy)]
pub struct Place {
    /// How many there are.
    pub count: usize,
    /// Its number, from 0.
    pub number: usize,
}

impl Place {
    /// What stands before the text of the file of this name: before the first one the head of the page, with these
    /// words, in which `& < > " '` and carriage returns are character references, and with the colours of the scheme.
    /// Where no stylesheet is named, the rules are in the head, with those of the classes where styles are said by
    /// classes. Where there are several files, each name is a heading, visible and escaped likewise. It takes memory.
    pub fn before(
        self,
        alloc: Global,
        name: &str,
        styling: Styling,
        scheme: Scheme,
        said: Said<'_>,
    ) -> Result<Vec<u8>, AllocError>
        ensures { IfOk result (λ text. text.items
            ≡ before_part styling scheme said.entry self.count self.number name.now) }
    {
        let shown = visible(alloc, name_shown(name))?;
        let mut output = Output::new(FromWrite::new(Vec::new(alloc)));
        put_head_once(&mut output, self.number == 0, styling, scheme, said);
        put_heading_of(&mut output, self.count > 1, shown.as_str());
        output.put(before_text(wraps_by_class(said)));
        let (writer, answer) = output.finish();
        match answer {
            Ok(()) => Ok(writer.into_inner()),
            Err(_) => Err(AllocError),
        }
    }

    /// What stands after it.
    pub fn after(self) -> &'static [u8]
        requires { self.number < self.count }
        ensures { result.now ≡ after_part self.count self.number }
    {
        if self.number + 1 == self.count {
            PAGE_TAIL
        } else {
            AFTER_TEXT
        }
    }
}

/// The rules of a page that has none of its own.
const LINKED_RULES: &[u8] = br#".ansi-wrap { white-space: pre-wrap; overflow-wrap: anywhere; }
[data-lines] { display: block; width: max-content; min-width: 100%; content-visibility: auto; contain-intrinsic-height: auto 500lh; }
.ansi-wrap > [data-lines] { width: auto; }
"#;

/// Writes the rules of the classes, of lines, and of pages without rules.
fn put_site_rules<W: Sink>(output: &mut Output<W>, scheme: Scheme)
    ensures { Adds W.Sink (site_rules scheme) output.old output.new }
{
    put_stylesheet(output, scheme);
    put_line_rules(output, scheme);
    output.put(LINKED_RULES);
}

/// Writes the stylesheet for pages of the scheme: the rules of the classes, of lines, and of pages by `--css`. The
/// writer is handed back, flushed; the answer is that of a write or of the flush that failed.
pub fn write_stylesheet<W: Sink>(scheme: Scheme, writer: W) -> (W, Result<(), Fault>)
    ensures written { Writes (site_rules scheme) (W.contents writer) (W.contents result.0) result.1 }

    // With Ok nothing of it is held back.
    ensures handed_on { OnOk result.1 (W.holds_nothing result.0) }

    // Only a writer that fails is a reason for a fault.
    ensures causes { Causes (W.has_failed writer) (W.has_failed result.0) result.1 }
{
    let mut output = Output::new(writer);
    put_site_rules(&mut output, scheme);
    output.finish()
}
