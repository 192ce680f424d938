//! The performer that writes HTML.
ghost use Rattle.std.specs.Prelude.{◌≡◌, ◌&&◌, ◌∷◌, ◌++◌, [], true, false, encode_utf8, codes, refl, length};
ghost use Rattle.anstyle_parse.specs.Io.Output.{Adds};
ghost use Rattle.ansi_style.specs.Style.{plain};
ghost use Rattle.ansi_html.specs.Classes.{class_names, classes_of};
ghost use Rattle.ansi_html.specs.Grammar.{is_special, AreClear, BeginWithClear};
ghost use Rattle.ansi_html.specs.Links.{is_none};
ghost use Rattle.ansi_html.specs.ShownLinks.{has_next, shown_link, selected_link};
ghost use Rattle.ansi_html.specs.Lines.{line_begin, line_end, ended, going_on};
ghost use Rattle.ansi_html.specs.Blocks.{block_begin};
ghost use Rattle.ansi_html.specs.Html.{is_plain, line_break, beginning, value_of, attribute_text, span_begin, span_end, link_begin, link_end, element, element_begin, element_end, change, escaped, escaped_text};

use crate::block::put_block_begin;
use crate::chunks::{CHUNK, clear_count, specials};
use crate::class::put_classes;
use crate::css::is_plain;
use crate::line::put_line_begin;
use crate::link::{Links, is_link_command};
use crate::scheme::{Scheme, Styling};
use crate::standing::{Element, Standing};
use crate::tag::put_tag;
use ansi_strip::is_layout;
use ansi_style::Style;
use anstyle_parse::io::{Output, Sink, WritingPerformer};
use anstyle_parse::{Padded, Params, Perform, PerformText};
use std::simd::prelude::*;

/// Writes the text of a stream as HTML, in the style that the stream selects.
///
/// Each printed character, and of the controls tab (09), line feed (0A) and carriage return
/// (0D), is text; `& < > " '` and 0D are written as character references, and text after 0D
/// that is not 0A begins with `<br>`. Text that is not plain stands in `<span style="…">…</span>`, one for
/// each run of equal style and link, and text of a link in `<a … href="…" style="…">…</a>`, one for each run of
/// equal link; by classes the attribute is `class`. An element is opened only before text, and closed before text of
/// another one or at the end. All other calls write nothing.
///
/// No memory is taken. A write that fails stops it: nothing more is written, and the fault is
/// kept.
#[derive(Drop)]
pub struct HtmlWriter<W> {
    output: Output<W>,
    /// How it says a style.
    styling: Styling,
    /// The style of the last text; plain where there was none.
    shown: Style,
    /// The style that is selected for what comes.
    selected: Style,
    /// A sequence has selected a style or a link since the last text.
    has_selected: bool,
    /// The link of the last text, and the one for what comes.
    links: Links,
    /// The last text was 0D.
    returned: bool,
    ghost same_style: { has_selected ≡ false → selected ≡ shown },
    ghost same_link: { has_selected ≡ false → has_next links ≡ false },
}

impl<W: Sink> HtmlWriter<W> {
    ghost use Rattle.ansi_html.specs.Writer.{output_of, styling_of, standing_of, standing_in, kept, in_element, IsNew, TakesBytes};

    /// One that writes to this output, says styles in this way, and has received no call.
    /// Nothing is written.
    #[inline]
    pub fn new(styling: Styling, output: Output<W>) -> HtmlWriter<W>
        ensures output { output_of result ≡ output }
        ensures new { IsNew styling result }
    {
        HtmlWriter {
            output,
            styling,
            shown: Style::default(),
            selected: Style::default(),
            has_selected: false,
            links: Links::none(),
            returned: false,
        }
    }

    /// One that writes to this output and goes on where the HTML of a stream stands. A link that is
    /// longer than any, or whose URI is not one that a link may have, counts for none.
    #[inline(always)]
    pub fn resume(styling: Styling, standing: Standing<'_>, output: Output<W>) -> HtmlWriter<W>
        ensures output { output_of result ≡ output }
        ensures styling { styling_of result ≡ styling }
        ensures standing { standing_of result ≡ kept (standing_in standing.entry) }
    {
        let mut writer = HtmlWriter::new(styling, output);
        writer.go_on(standing);
        writer
    }

    /// Goes on where the HTML of a stream stands, as one does that [`HtmlWriter::resume`] makes, but in its place: it
    /// is large to copy.
    #[inline(always)]
    pub fn go_on(&mut self, standing: Standing<'_>)
        ensures output { output_of self.new ≡ output_of self.old }
        ensures styling { styling_of self.new ≡ styling_of self.old }
        ensures standing { standing_of self.new ≡ kept (standing_in standing.entry) }
    {
        self.has_selected = true;
        self.shown = standing.shown.style;
        self.selected = standing.selected.style;
        self.links
            .resume(standing.shown.link, standing.selected.link);
        self.returned = standing.returned;
    }

    /// Where the HTML stands.
    pub fn standing(&self) -> Standing<'_>
        ensures { standing_in result ≡ standing_of self.now }
    {
        let shown = Element {
            style: self.shown,
            link: self.links.shown(),
        };
        let selected = Element {
            style: self.selected,
            link: self.links.selected(),
        };
        Standing {
            shown,
            selected,
            returned: self.returned,
        }
    }

    /// Hands the output back. The element that is open stays open: the HTML goes on.
    pub fn suspend(self) -> Output<W>
        ensures { result ≡ output_of self }
    {
        self.output
    }

    /// Text of the selected style and link may follow. After 0D it begins with a line break, unless it is 0A.
    #[inline(always)]
    fn begin_text(&mut self, is_line_feed: bool)
        ensures styling { styling_of self.new ≡ styling_of self.old }
        ensures standing { standing_of self.new ≡ in_element (standing_of self.old).selected false }
        ensures added { Adds W.Sink (beginning (styling_of self.old) (standing_of self.old) is_line_feed)
            (output_of self.old) (output_of self.new) }
    {
        self.show_selected();
        if self.returned {
            self.returned = false;
            put_line_break(&mut self.output, is_line_feed);
        }
    }

    /// Begins the element of a block, where no element is open.
    pub(crate) fn begin_block(&mut self)
        ensures styling { styling_of self.new ≡ styling_of self.old }
        ensures standing { standing_of self.new ≡ standing_of self.old }
        ensures added { Adds W.Sink block_begin (output_of self.old) (output_of self.new) }
    {
        put_block_begin(&mut self.output);
    }

    /// Begins the element of a line, where no element is open.
    #[inline(never)]
    pub(crate) fn begin_line(&mut self, number: u64)
        ensures styling { styling_of self.new ≡ styling_of self.old }
        ensures standing { standing_of self.new ≡ standing_of self.old }
        ensures added { Adds W.Sink (line_begin number) (output_of self.old) (output_of self.new) }
    {
        put_line_begin(&mut self.output, number);
    }

    /// Ends the element that is open, and that of the line around it. What is selected stays.
    #[inline(never)]
    pub(crate) fn end_line(&mut self)
        ensures styling { styling_of self.new ≡ styling_of self.old }
        ensures standing { standing_of self.new ≡ ended (standing_of self.old) }
        ensures added { Adds W.Sink (element_end (standing_of self.old).shown ++ line_end)
            (output_of self.old) (output_of self.new) }
    {
        self.end_element();
        self.output.put(b"</span>");
    }

    /// Ends the element that is open. Where none is, as mostly, nothing has to be told anew.
    #[inline(always)]
    fn end_element(&mut self)
        ensures styling { styling_of self.new ≡ styling_of self.old }
        ensures standing { standing_of self.new ≡ ended (standing_of self.old) }
        ensures added { Adds W.Sink (element_end (standing_of self.old).shown)
            (output_of self.old) (output_of self.new) }
    {
        if self.shows_none() {
            return;
        }
        put_end(&mut self.output, &self.shown, self.links.shown());
        self.has_selected = true;
        self.shown = Style::default();
        self.links.end_shown();
    }

    /// Whether the last text stands in no element.
    #[inline(always)]
    fn shows_none(&self) -> bool
        ensures { result
            ≡ (is_plain (standing_of self.now).shown.style && is_none (standing_of self.now).shown.link) }
    {
        is_plain(&self.shown) && self.links.shown().is_empty()
    }

    /// The link that is selected; empty where none is.
    #[inline(always)]
    pub(crate) fn selected_link(&self) -> &[u8]
        ensures { result.now ≡ (standing_of self.now).selected.link }
    {
        self.links.selected()
    }

    /// Ends the link that is selected, as the command that selects none does.
    pub(crate) fn end_link(&mut self)
        ensures output { output_of self.new ≡ output_of self.old }
        ensures styling { styling_of self.new ≡ styling_of self.old }
        ensures standing { standing_of self.new ≡ going_on false (standing_of self.old) }
    {
        self.has_selected = true;
        self.links.select_none();
    }

    /// Writes text of no byte with a meaning in HTML.
    #[inline(always)]
    fn put_clear(&mut self, clear: &[u8])
        requires clear { AreClear clear.now }
        ensures { TakesBytes W.Sink self.old clear.now self.new }
    {
        if let Some((first, _)) = clear.split_first() {
            self.begin_text(*first == b'\n');
            self.output.put(clear);
        }
    }

    /// The same of a short text, of which a whole chunk is copied.
    #[inline(always)]
    fn put_clear_padded(&mut self, clear: &Padded<'_>)
        requires clear { AreClear clear.now }
        ensures { TakesBytes W.Sink self.old clear.now self.new }
    {
        if let Some((first, _)) = clear.as_bytes().split_first() {
            let is_line_feed = *first == b'\n';
            self.begin_text(is_line_feed);
            self.output.put_padded(clear);
        }
    }

    /// Writes text: bytes with no meaning in HTML many at once, and the others one by one. What comes after 0D begins
    /// with a line break, unless it is 0A.
    #[inline(always)]
    fn put_text(&mut self, text: &[u8])
        ensures { TakesBytes W.Sink self.old text.now self.new }
    {
        let mut rest = text;
        'rest: while !rest.is_empty() {
            let special = after_clear(rest);
            let (clear, _) = rest.split_at(rest.len() - special.len());
            self.put_clear(clear);
            rest = special;
            if let Some((first, behind)) = special.split_first() {
                self.put_text_byte(*first);
                rest = behind;
            }
        }
    }

    /// The same of few bytes, which are looked at one by one.
    #[inline(never)]
    fn put_few(&mut self, text: &[u8])
        ensures { TakesBytes W.Sink self.old text.now self.new }
    {
        let mut rest = text;
        'rest: while !rest.is_empty() {
            let next = after_few_clear(rest);
            let (shown, _) = rest.split_at(rest.len() - next.len());
            self.put_clear(shown);
            rest = next;
            if let Some((byte, behind)) = next.split_first() {
                self.put_text_byte(*byte);
                rest = behind;
            }
        }
    }

    /// Writes a byte of text.
    #[inline]
    fn put_text_byte(&mut self, byte: u8)
        ensures { TakesBytes W.Sink self.old (byte ∷ []) self.new }
    {
        self.begin_text(byte == b'\n');
        self.returned = byte == b'\r';
        put_layout(&mut self.output, byte);
    }

    /// Text of the selected style and link may follow.
    #[inline(always)]
    fn show_selected(&mut self)
        ensures styling { styling_of self.new ≡ styling_of self.old }
        ensures standing { standing_of self.new
            ≡ in_element (standing_of self.old).selected (standing_of self.old).returned }
        ensures added { Adds W.Sink
            (change (styling_of self.old) (standing_of self.old).shown (standing_of self.old).selected)
            (output_of self.old) (output_of self.new) }
    {
        if self.has_selected {
            self.change();
        }
    }

    /// The same, whether or not anything has been selected.
    #[inline(never)]
    fn change(&mut self)
        ensures styling { styling_of self.new ≡ styling_of self.old }
        ensures standing { standing_of self.new
            ≡ in_element (standing_of self.old).selected (standing_of self.old).returned }
        ensures added { Adds W.Sink
            (change (styling_of self.old) (standing_of self.old).shown (standing_of self.old).selected)
            (output_of self.old) (output_of self.new) }
    {
        put_change(
            &mut self.output,
            self.styling,
            &self.shown,
            &self.selected,
            &self.links,
        );
        self.shown = self.selected;
        self.links.show_selected();
        self.has_selected = false;
    }
}

/// A line break after 0D, unless a line feed follows.
#[inline(never)]
fn put_line_break<W: Sink>(output: &mut Output<W>, is_line_feed: bool)
    ensures { Adds W.Sink (line_break true is_line_feed) output.old output.new }
{
    if !is_line_feed {
        output.put(b"<br>");
    }
}

/// From an element of the style and the link that are shown to one of the style and the link for
/// what comes. A link that goes on stays open.
#[inline(always)]
fn put_change<W: Sink>(
    output: &mut Output<W>,
    styling: Styling,
    shown: &Style,
    style: &Style,
    links: &Links,
)
    ensures { Adds W.Sink
        (change styling (element shown.now (shown_link links.now)) (element style.now (selected_link links.now)))
        output.old output.new }
{
    if links.differ() {
        put_link_change(output, styling, shown, style, links);
    } else if *shown != *style {
        put_span_end(output, shown);
        put_span_begin(output, styling, style);
    }
}

/// The same where the links differ.
#[inline(never)]
fn put_link_change<W: Sink>(
    output: &mut Output<W>,
    styling: Styling,
    shown: &Style,
    style: &Style,
    links: &Links,
)
    ensures { Adds W.Sink (element_end (element shown.now (shown_link links.now))
        ++ element_begin styling (element style.now (selected_link links.now))) output.old output.new }
{
    put_end(output, shown, links.shown());
    put_begin(output, styling, style, links.selected());
}

/// Opens a link, where there is one, and in it a span of the style, unless it is plain.
#[inline(always)]
pub(crate) fn put_begin<W: Sink>(
    output: &mut Output<W>,
    styling: Styling,
    style: &Style,
    link: &[u8],
)
    ensures { Adds W.Sink (element_begin styling (element style.now link.now)) output.old output.new }
{
    put_link_begin(output, styling, link);
    put_span_begin(output, styling, style);
}

/// Closes the span, and then the link, where there are these.
#[inline(always)]
pub(crate) fn put_end<W: Sink>(output: &mut Output<W>, style: &Style, link: &[u8])
    ensures { Adds W.Sink (element_end (element style.now link.now)) output.old output.new }
{
    put_span_end(output, style);
    put_link_end(output, link);
}

/// Opens a link, where there is one.
#[inline(always)]
fn put_link_begin<W: Sink>(output: &mut Output<W>, styling: Styling, link: &[u8])
    ensures { Adds W.Sink (link_begin styling link.now) output.old output.new }
{
    if !link.is_empty() {
        put_link(output, styling, link);
    }
}

/// Opens a link.
#[inline(never)]
fn put_link<W: Sink>(output: &mut Output<W>, styling: Styling, link: &[u8])
    ensures { Adds W.Sink (codes "<a rel=\"nofollow noreferrer\" href=\""
        ++ (escaped_text link.now ++ (codes "\"" ++ attribute_text styling (value_of styling true plain))))
        output.old output.new }
{
    output.put(b"<a rel=\"nofollow noreferrer\" href=\"");
    put_in_parts(output, link);
    put_link_style(output, styling);
}

/// The end of a link's URI, and that its text has the colour of what is around it.
#[inline(always)]
#[tactic(auto, unfolding(crate::specs::Css::colors_css, crate::specs::Classes::classes_of))]
fn put_link_style<W: Sink>(output: &mut Output<W>, styling: Styling)
    ensures { Adds W.Sink (codes "\"" ++ attribute_text styling (value_of styling true plain)) output.old output.new }
{
    match styling {
        Styling::Inline(_) => output.put(b"\" style=\"color:inherit;\">"),
        Styling::Classes => output.put(b"\" class=\"ansi-link\">"),
    }
}

/// Closes a link, where there is one.
#[inline(always)]
fn put_link_end<W: Sink>(output: &mut Output<W>, link: &[u8])
    ensures { Adds W.Sink (link_end link.now) output.old output.new }
{
    if !link.is_empty() {
        output.put(b"</a>");
    }
}

/// Opens a span of the style, unless it is plain.
#[inline(always)]
pub(crate) fn put_span_begin<W: Sink>(output: &mut Output<W>, styling: Styling, style: &Style)
    ensures { Adds W.Sink (span_begin styling style.now) output.old output.new }
{
    if !is_plain(style) {
        put_span(output, styling, style);
    }
}

/// Opens a span of the style.
#[inline(never)]
fn put_span<W: Sink>(output: &mut Output<W>, styling: Styling, style: &Style)
    ensures { Adds W.Sink (codes "<span" ++ attribute_text styling (value_of styling false style.now))
        output.old output.new }
{
    match styling {
        Styling::Inline(scheme) => put_tag(output, scheme, style),
        Styling::Classes => put_classes_between(output, b"<span class=\"", false, *style),
    }
}

/// The names of a style's classes after a text, and the end of their attribute and tag.
#[inline(never)]
fn put_classes_between<W: Sink>(output: &mut Output<W>, before: &[u8], linked: bool, style: Style)
    ensures { Adds W.Sink (before.now ++ (class_names (classes_of linked style) ++ codes "\">")) output.old output.new }
{
    output.put(before);
    put_classes(output, linked, style);
    output.put(b"\">");
}

/// Closes a span of the style, unless it is plain.
#[inline(always)]
pub(crate) fn put_span_end<W: Sink>(output: &mut Output<W>, style: &Style)
    ensures { Adds W.Sink (span_end style.now) output.old output.new }
{
    if !is_plain(style) {
        output.put(b"</span>");
    }
}

/// Whether a byte has a meaning in HTML: one of `& < > " '`, or 0D.
#[inline(always)]
#[tactic(auto, unfolding(crate::specs::Grammar::is_special))]
fn is_special(byte: u8) -> bool
    ensures { result ≡ is_special byte }
{
    byte == b'&' || byte == b'<' || byte == b'>' || byte == b'"' || byte == b'\'' || byte == b'\r'
}

/// What begins at the first byte with a meaning in HTML.
#[inline(always)]
fn after_clear(bytes: &[u8]) -> &[u8]
    ensures { BeginWithClear bytes.now result.now }
{
    let mut rest = bytes;
    'chunks: while let Some((chunk, behind)) = rest.split_first_chunk::<CHUNK>() {
        let found = specials(u8x16::from_array(*chunk));
        if found != 0 {
            let (_, at) = rest.split_at(found.trailing_zeros() as usize);
            return at;
        }
        rest = behind;
    }
    // What is left of a chunk is among the last sixteen bytes.
    match bytes.last_chunk::<CHUNK>() {
        Some(last) => {
            let (_, at) = bytes.split_at(bytes.len() - CHUNK + clear_count(last));
            at
        }
        None => after_few_clear(rest),
    }
}

/// The same, byte by byte.
#[inline(always)]
fn after_few_clear(bytes: &[u8]) -> &[u8]
    ensures { BeginWithClear bytes.now result.now }
{
    let mut rest = bytes;
    'bytes: while let Some((first, behind)) = rest.split_first() {
        if is_special(*first) {
            break;
        }
        rest = behind;
    }
    rest
}

/// Writes text, with a character reference for each byte that has a meaning in HTML.
#[inline]
#[tactic(auto, using(crate::proofs::HtmlLemmas::escaped_one))]
pub fn put_escaped<W: Sink>(output: &mut Output<W>, text: &[u8])
    ensures { Adds W.Sink (escaped_text text.now) output.old output.new }
{
    match text {
        [byte] => put_reference(output, *byte),
        _ => put_in_parts(output, text),
    }
}

/// The same, with what is between these bytes at once.
#[inline(always)]
fn put_in_parts<W: Sink>(output: &mut Output<W>, text: &[u8])
    ensures { Adds W.Sink (escaped_text text.now) output.old output.new }
{
    let mut rest = text;
    'text: while !rest.is_empty() {
        let special = after_clear(rest);
        let (clear, _) = rest.split_at(rest.len() - special.len());
        output.put(clear);
        rest = special;
        if let Some((first, behind)) = special.split_first() {
            put_reference(output, *first);
            rest = behind;
        }
    }
}

/// Writes a character, of which none but those of ASCII has a meaning in HTML.
#[inline]
#[tactic(auto, using(crate::proofs::HtmlLemmas::escaped_ascii, crate::proofs::HtmlLemmas::escaped_high))]
pub fn put_character<W: Sink>(output: &mut Output<W>, c: char)
    ensures { Adds W.Sink (escaped_text (encode_utf8 c)) output.old output.new }
{
    if c.is_ascii() {
        put_reference(output, c as u8);
    } else {
        output.put_char(c);
    }
}

/// Writes a control that is text. A line feed, the most frequent one, goes straight to the output.
#[inline]
fn put_layout<W: Sink>(output: &mut Output<W>, byte: u8)
    ensures { Adds W.Sink (escaped byte) output.old output.new }
{
    if byte == b'\n' {
        output.put_byte(byte);
    } else {
        put_reference(output, byte);
    }
}

/// Writes a byte, as a character reference where it has a meaning in HTML. They are told apart a few at a time,
/// since for all of them at once the compiler makes a table of jumps.
fn put_reference<W: Sink>(output: &mut Output<W>, byte: u8)
    ensures { Adds W.Sink (escaped byte) output.old output.new }
{
    match byte {
        0x00..=0x1F => match byte {
            b'\r' => output.put(b"&#13;"),
            _ => output.put_byte(byte),
        },
        0x20..=0x3B => match byte {
            b'&' => output.put(b"&amp;"),
            b'"' => output.put(b"&quot;"),
            b'\'' => output.put(b"&#39;"),
            _ => output.put_byte(byte),
        },
        _ => match byte {
            b'<' => output.put(b"&lt;"),
            b'>' => output.put(b"&gt;"),
            _ => output.put_byte(byte),
        },
    }
}

impl<W: Sink> Perform for HtmlWriter<W> {
    ghost use Rattle.ansi_html.specs.Writer.{Takes};

    ghost means = { Takes W.Sink };

    #[inline]
    fn print(&mut self, c: char) {
        self.begin_text(false);
        put_character(&mut self.output, c);
    }

    #[inline]
    fn execute(&mut self, byte: u8) {
        if is_layout(byte) {
            self.put_text_byte(byte);
        }
    }

    fn hook(&mut self, _: &Params, _: &[u8], _: bool, _: u8) {}

    fn put(&mut self, _: u8) {}

    fn unhook(&mut self) {}

    fn osc_dispatch(&mut self, params: &[&[u8]], _bell_terminated: bool) {
        if is_link_command(params) {
            self.has_selected = true;
            self.links.select(params);
        }
    }

    fn csi_dispatch(&mut self, params: &Params, intermediates: &[u8], ignore: bool, action: u8) {
        self.has_selected = true;
        let style = &mut self.selected;
        style.csi_dispatch(params, intermediates, ignore, action);
    }

    fn esc_dispatch(&mut self, _: &[u8], _: bool, _: u8) {}
}

/// A text is of one style, and its bytes are written at once but for those with a meaning in HTML;
/// what comes after 0D begins with a line break, unless it is 0A.
impl<W: Sink> PerformText for HtmlWriter<W> {
    ghost use Rattle.ansi_html.specs.Writer.{TakesAll};
    ghost use Rattle.ansi_html.specs.AddingProof.{TakesAll-follows};

    ghost receives = { TakesAll W.Sink };

    #[inline]
    fn print_text(&mut self, text: &str) {
        if !text.is_empty() {
            self.begin_text(false);
            put_escaped(&mut self.output, text.as_bytes());
        }
    }

    #[inline(never)]
    fn print_with_layout(&mut self, text: &str) {
        self.put_text(text.as_bytes());
    }

    #[inline(always)]
    fn print_padded(&mut self, text: &Padded<'_>) {
        let clear = clear_count(text.chunk()).min(text.len());
        self.put_clear_padded(&text.first(clear));
        if clear < text.len() {
            self.put_few(&text.as_bytes()[clear..]);
        }
    }

    ghost follows = { TakesAll-follows W.Sink };
}

/// What is still to be written is the end of the element that is open.
impl<W: Sink> WritingPerformer<W> for HtmlWriter<W> {
    ghost use Rattle.ansi_html.specs.Writer.{output_of, text_from, ending_from};
    ghost use Rattle.ansi_html.specs.AddingProof.{ending_from-taken};

    ghost output_in = { output_of };

    ghost text_from = { text_from };

    ghost ending_from = { ending_from };

    fn output(&self) -> &Output<W> {
        &self.output
    }

    fn pass_on(&mut self) {
        self.output.pass_on();
    }

    fn into_output(self) -> Output<W> {
        let HtmlWriter {
            mut output,
            shown,
            links,
            ..
        } = self;
        put_end(&mut output, &shown, links.shown());
        output
    }

    ghost adds = { λ _ _ _ taken. taken.added };

    ghost ends = { λ old calls new taken _. ending_from-taken W.Sink old new calls taken };
}
