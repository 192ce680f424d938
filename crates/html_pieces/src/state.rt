//! The state of a stream and its HTML between pieces.
ghost use Rattle.std.specs.Prelude.{◌≡◌, ◌≤◌, [], length};
ghost use Rattle.std.specs.Bool.{OnTrue};
ghost use Rattle.ansi_html.specs.Links.{max_link};
ghost use Rattle.ansi_html.specs.Html.{no_element};
ghost use Rattle.ansi_html.specs.Writer.{element_in, standing_in, kept};
ghost use Rattle.html_pieces.specs.Verbatim.{IsInText};
ghost use Rattle.html_pieces.specs.State.{held_element, held_standing, styling_in, styling_numbered, StandsFor};

use ansi_html::{Element, Scheme, Standing, Styling};
use ansi_style::Style;
use ansi_style::bytes::{StyleBytes, flag};
use stream_state::StreamState;

/// The bytes of a link at most.
const MAX_LINK: usize = 1035;

/// A style and a link in plain bytes.
#[repr(C)]
#[derive(Clone, Copy)]
pub struct ElementBytes {
    /// How many bytes the link has; a number above 1,035 counts for 1,035.
    pub length: usize,
    pub link: [u8; MAX_LINK],
    pub style: StyleBytes,
}

/// Where a stream and its HTML stand between two pieces.
///
/// Any bytes in it are a valid state, and zero bytes are one that begins a stream, for light and dark pages. A
/// link in it that no link may have counts for none. It owns nothing, and may be copied or written down.
#[repr(C)]
#[derive(Clone, Copy)]
pub struct HtmlState {
    pub stream: StreamState,
    /// What the last text stands in.
    pub shown: ElementBytes,
    /// What is selected for the text that comes.
    pub selected: ElementBytes,
    /// 0 where the last text was not 0D, and any other number where it was.
    pub returned: u8,
    /// 1 colours for light pages, 2 for dark ones, 3 classes; any other number is colours for both.
    pub styling: u8,
    /// How many bytes of HTML a byte of the stream led to lately, at most 255. Each try that finds room lets it fall by
    /// a fourth, or sets it to what the try led to, if that is more. How many bytes are tried at once depends on it.
    pub html_of_a_byte: u8,
}

impl ElementBytes {
    /// Plain, with no link.
    fn none() -> ElementBytes
        ensures { held_element result ≡ no_element }
    {
        ElementBytes {
            length: 0,
            link: [0; MAX_LINK],
            style: StyleBytes::of(Style::default()),
        }
    }

    /// Holds this element.
    pub(crate) fn hold(&mut self, element: Element<'_>)
        requires { length element.link.now ≤ max_link }
        ensures { held_element self.new ≡ element_in element.entry }
    {
        let length = element.link.len();
        self.link[..length].copy_from_slice(element.link);
        self.length = length;
        self.style = StyleBytes::of(element.style);
    }

    pub(crate) fn element(&self) -> Element<'_>
        ensures { element_in result ≡ held_element self.now }
    {
        Element {
            style: self.style.style(),
            link: &self.link[..self.length.min(MAX_LINK)],
        }
    }
}

/// The number of a styling.
fn styling_number(styling: Styling) -> u8
    ensures { styling_numbered result ≡ styling }
{
    match styling {
        Styling::Inline(Scheme::Both) => 0,
        Styling::Inline(Scheme::Light) => 1,
        Styling::Inline(Scheme::Dark) => 2,
        Styling::Classes => 3,
    }
}

/// The styling of a number.
fn styling_at(number: u8) -> Styling
    ensures { result ≡ styling_numbered number }
{
    match number {
        1 => Styling::Inline(Scheme::Light),
        2 => Styling::Inline(Scheme::Dark),
        3 => Styling::Classes,
        _ => Styling::Inline(Scheme::Both),
    }
}

impl HtmlState {
    /// A state that begins a stream.
    pub fn new(styling: Styling) -> HtmlState
        ensures styling { styling_in result ≡ styling }
        ensures begins { StandsFor result [] }
    {
        HtmlState {
            stream: StreamState::new(),
            shown: ElementBytes::none(),
            selected: ElementBytes::none(),
            returned: 0,
            styling: styling_number(styling),
            html_of_a_byte: 0,
        }
    }

    /// The same, with the number of a styling.
    pub fn of(styling: u8) -> HtmlState
        ensures styling { styling_in result ≡ styling_numbered styling }
        ensures begins { StandsFor result [] }
    {
        HtmlState::new(styling_at(styling))
    }

    /// How it says a style.
    pub(crate) fn styling(&self) -> Styling
        ensures { result ≡ styling_in self.now }
    {
        styling_at(self.styling)
    }

    /// Keeps where the HTML stands.
    pub(crate) fn save(&mut self, standing: Standing<'_>)
        requires shown { length standing.shown.link.now ≤ max_link }
        requires selected { length standing.selected.link.now ≤ max_link }
        ensures standing { held_standing self.new ≡ standing_in standing.entry }
        ensures styling { styling_in self.new ≡ styling_in self.old }
        ensures stream { self.new.stream ≡ self.old.stream }
    {
        self.shown.hold(standing.shown);
        self.selected.hold(standing.selected);
        self.returned = flag(standing.returned);
    }

    /// Whether it stands in the midst of text, so that verbatim text is its own HTML: no sequence and no character is
    /// begun, the style that is selected is that of the last text, with no link, and that was not 0D.
    pub(crate) fn is_in_text(&self) -> bool
        ensures { OnTrue result (IsInText self.now) }
    {
        self.stream.length == 0
            && self.returned == 0
            && self.shown.length == 0
            && self.selected.length == 0
            && self.shown.style.is(self.selected.style)
    }

    /// Where the HTML stands.
    pub(crate) fn standing(&self) -> Standing<'_>
        ensures { standing_in result ≡ held_standing self.now }
    {
        Standing {
            shown: self.shown.element(),
            selected: self.selected.element(),
            returned: self.returned != 0,
        }
    }
}
