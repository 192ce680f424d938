//! The state of a stream and its safe text between pieces.
ghost use Rattle.std.specs.Prelude.{◌≡◌, ◌==◌, []};
ghost use Rattle.safe_text.specs.Held.{held_characters};
ghost use Rattle.safe_pieces.specs.State.{character_numbered, held_numbered, before_in, held_in, hiding_in, StandsFor};

use ansi_style::Style;
use ansi_style::bytes::StyleBytes;
use safe_text::{Held, MarkedStanding, Standing};
use stream_state::StreamState;

/// Where a stream and its safe text stand between two pieces.
///
/// Any bytes in it are a valid state, and zero bytes are one that begins a stream. It owns nothing, and may be copied
/// or written down.
#[repr(C)]
#[derive(Clone, Copy)]
pub struct SafeState {
    pub stream: StreamState,
    /// The number of the character that is written last, and 0 where there is none; any other number counts for 0.
    pub before: u32,
    /// What waits for the next character: 1 a carriage return, 2 `<`, 3 `<U`, 4 to 8 U+200B, U+200C, U+200D, U+FE0E and
    /// U+FE0F; any other number is nothing.
    pub held: u8,
    /// 1 where hidden text is written last, whose end is not marked yet; any other number where none is.
    pub is_open: u8,
    /// That of the text that comes next, which says whether it is hidden.
    pub style: StyleBytes,
}

/// The character of a number.
fn character_at(number: u32) -> char
    ensures { result ≡ character_numbered number }
{
    match char::from_u32(number) {
        Some(c) => c,
        None => '\0',
    }
}

/// The number of what waits.
fn held_number(held: Held) -> u8
    ensures { held_numbered result ≡ held }
{
    match held {
        Held::Nothing => 0,
        Held::Return => 1,
        Held::Less => 2,
        Held::LessU => 3,
        Held::Space => 4,
        Held::NonJoiner => 5,
        Held::Joiner => 6,
        Held::TextSelector => 7,
        Held::EmojiSelector => 8,
    }
}

/// What waits, by its number.
fn held_at(number: u8) -> Held
    ensures { result ≡ held_numbered number }
{
    match number {
        1 => Held::Return,
        2 => Held::Less,
        3 => Held::LessU,
        4 => Held::Space,
        5 => Held::NonJoiner,
        6 => Held::Joiner,
        7 => Held::TextSelector,
        8 => Held::EmojiSelector,
        _ => Held::Nothing,
    }
}

/// The number of a flag.
fn flag_number(is_set: bool) -> u8
    ensures { (result == 1) ≡ is_set }
{
    if is_set { 1 } else { 0 }
}

impl SafeState {
    /// A state that begins a stream.
    pub fn new() -> SafeState
        ensures { StandsFor result [] }
    {
        let style = Style::default();
        SafeState {
            stream: StreamState::new(),
            before: 0,
            held: 0,
            is_open: 0,
            style: StyleBytes::of(style),
        }
    }

    /// Where the safe text stands.
    pub(crate) fn standing(&self) -> MarkedStanding
        ensures before { result.text.before ≡ before_in self.now }
        ensures held { held_characters result.text.held ≡ held_in self.now }
        ensures style { result.style ≡ (hiding_in self.now).style }
        ensures is_open { result.is_open ≡ (hiding_in self.now).is_open }
    {
        let text = Standing {
            before: character_at(self.before),
            held: held_at(self.held),
        };
        MarkedStanding {
            text,
            style: self.style.style(),
            is_open: self.is_open == 1,
        }
    }

    /// The safe text stands there.
    pub(crate) fn save(&mut self, standing: MarkedStanding)
        ensures before { before_in self.new ≡ standing.text.before }
        ensures held { held_in self.new ≡ held_characters standing.text.held }
        ensures style { (hiding_in self.new).style ≡ standing.style }
        ensures is_open { (hiding_in self.new).is_open ≡ standing.is_open }
        ensures stream { self.new.stream ≡ self.old.stream }
    {
        self.before = u32::from(standing.text.before);
        self.held = held_number(standing.text.held);
        self.is_open = flag_number(standing.is_open);
        self.style = StyleBytes::of(standing.style);
    }
}
