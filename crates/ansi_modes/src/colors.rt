//! The colours that a program asks for.
ghost use Rattle.std.specs.Prelude.{◌≡◌, ◌≤◌, ◌<◌, length, map, take, None, slice_index_or};
ghost use Rattle.std.specs.List.{list_all};
ghost use Rattle.ansi_modes.specs.Colors.{is_hex, hex_value, channel, of_channels, before_slash, after_slash, slashed, in_thirds, hashed, is_prefix, prefixed, rgb_of, no_palette, no_colors, with_entry, with_pair, with_first_pair, after_pair, with_two_pairs, with_four_pairs, with_pairs, without, without_each, cleared, told, after_first, with_cursor, with_background, with_foreground, with_dynamic, without_dynamic};

use crate::fields::number_of;
use std::marker::Model;

/// A colour.
#[derive(Debug, Clone, Copy, PartialEq, Eq)]
pub struct Rgb {
    pub red: u8,
    pub green: u8,
    pub blue: u8,
}

/// The colours of the palette that are asked for.
#[derive(Drop)]
pub struct Palette {
    entries: [Option<Rgb>; 256],
}

/// The colours that are asked for.
#[derive(Drop)]
pub struct Colors {
    pub palette: Palette,
    pub foreground: Option<Rgb>,
    pub background: Option<Rgb>,
    pub cursor: Option<Rgb>,
}

impl Model for Palette {
    ghost use Rattle.std.specs.Prelude.{List, Option};
    ghost use Rattle.ansi_modes.specs.declared.colors.Rgb.{Rgb};

    ghost Value = { List (Option Rgb) };

    ghost view = { λ palette. palette.entries };
}

/// Whether a byte is a digit of base 16.
#[tactic(auto, unfolding(crate::specs::Colors::is_hex, anstyle_parse::specs::Stream::Bytes::is_within))]
fn is_hex(byte: u8) -> bool
    ensures { result ≡ is_hex byte }
{
    matches!(byte, b'0'..=b'9' | b'A'..=b'F' | b'a'..=b'f')
}

/// Whether all are.
fn are_hex(digits: &[u8]) -> bool
    ensures { result ≡ list_all is_hex digits.now }
{
    for digit in digits {
        if !is_hex(*digit) {
            return false;
        }
    }
    true
}

/// What such a digit stands for.
#[tactic(auto, unfolding(crate::specs::Colors::hex_value))]
fn hex_value(byte: u8) -> u8
    ensures value { result ≡ hex_value byte }
    ensures bound { result ≤ 15 }
{
    let value = if byte <= b'9' {
        byte.saturating_sub(b'0')
    } else if byte <= b'F' {
        byte.saturating_sub(b'A' - 10)
    } else {
        byte.saturating_sub(b'a' - 10)
    };
    value.min(15)
}

/// The first eight bits of one to four digits.
#[tactic(auto, unfolding(crate::specs::Colors::channel))]
fn channel(digits: &[u8], is_scaled: bool) -> Option<u8>
    ensures { result ≡ channel is_scaled digits.now }
{
    if !are_hex(digits) {
        return None;
    }
    match digits {
        [a] if is_scaled => Some(hex_value(*a) * 17),
        [a] => Some(hex_value(*a) * 16),
        [a, b] | [a, b, _] | [a, b, _, _] => Some(hex_value(*a) * 16 + hex_value(*b)),
        _ => None,
    }
}

/// A colour of three.
fn of_channels(red: Option<u8>, green: Option<u8>, blue: Option<u8>) -> Option<Rgb>
    ensures { result ≡ of_channels red green blue }
{
    match (red, green, blue) {
        (Some(red), Some(green), Some(blue)) => Some(Rgb { red, green, blue }),
        _ => None,
    }
}

/// How many bytes come before the first `/`.
fn before_slash(text: &[u8]) -> usize
    ensures count { result ≡ before_slash text.now }
    ensures within { result ≤ length text.now }
{
    let mut count = 0;
    for byte in text {
        if *byte == b'/' {
            return count;
        }
        count += 1;
    }
    count
}

/// What comes before the first `/`, and what comes after it.
fn at_slash(text: &[u8]) -> (&[u8], &[u8])
    ensures before { result.0.now ≡ take (before_slash text.now) text.now }
    ensures after { result.1.now ≡ after_slash text.now }
{
    let count = before_slash(text);
    let (before, rest) = text.split_at(count);
    match rest {
        [_, after @ ..] => (before, after),
        [] => (before, rest),
    }
}

/// rgb:RED/GREEN/BLUE
#[tactic(auto, unfolding(crate::specs::Colors::slashed))]
fn slashed(text: &[u8]) -> Option<Rgb>
    ensures { result ≡ slashed text.now }
{
    let (red, more) = at_slash(text);
    let (green, blue) = at_slash(more);
    of_channels(
        channel(red, true),
        channel(green, true),
        channel(blue, true),
    )
}

/// #REDGREENBLUE
#[tactic(auto, unfolding(crate::specs::Colors::hashed))]
fn hashed(digits: &[u8]) -> Option<Rgb>
    ensures { result ≡ hashed digits.now }
{
    if digits.len() % 3 != 0 {
        return None;
    }
    let third = digits.len() / 3;
    let (red, more) = digits.split_at(third);
    let (green, blue) = more.split_at(third);
    of_channels(
        channel(red, false),
        channel(green, false),
        channel(blue, false),
    )
}

/// Whether this begins rgb:, in letters of either case.
#[tactic(auto, unfolding(crate::specs::Colors::is_prefix))]
fn is_prefix(r: u8, g: u8, b: u8) -> bool
    ensures { result ≡ is_prefix r g b }
{
    (r == b'r' || r == b'R') && (g == b'g' || g == b'G') && (b == b'b' || b == b'B')
}

/// The colour that a text after its first byte is, where that may begin rgb:.
fn prefixed(first: u8, text: &[u8]) -> Option<Rgb>
    ensures { result ≡ prefixed first text.now }
{
    match text {
        [g, b, colon, rest @ ..] => {
            if is_prefix(first, *g, *b) && *colon == b':' {
                slashed(rest)
            } else {
                None
            }
        }
        _ => None,
    }
}

/// The colour that a text is.
#[tactic(auto, unfolding(crate::specs::Colors::rgb_of))]
fn rgb_of(text: &[u8]) -> Option<Rgb>
    ensures { result ≡ rgb_of text.now }
{
    match text {
        [] => None,
        [first, rest @ ..] => {
            if *first == b'#' {
                hashed(rest)
            } else {
                prefixed(*first, rest)
            }
        }
    }
}

impl Palette {
    /// None is asked for.
    #[tactic(auto, unfolding(crate::specs::Colors::no_palette))]
    pub(crate) fn none() -> Palette
        ensures { result ≡ no_palette }
    {
        Palette {
            entries: [None; 256],
        }
    }

    /// Another one that is the same.
    pub(crate) fn copy(&self) -> Palette
        ensures { result ≡ self.now }
    {
        Palette {
            entries: self.entries,
        }
    }

    /// The colour that is asked for a number.
    pub fn get(&self, index: u8) -> Option<Rgb>
        ensures { result ≡ slice_index_or self.now index None }
    {
        self.entries[usize::from(index)]
    }

    #[tactic(auto, unfolding(crate::specs::Colors::with_entry))]
    fn set(&mut self, index: u16, color: Option<Rgb>)
        ensures { self.new ≡ with_entry index color self.old }
    {
        if index < 256 {
            self.entries[usize::from(index)] = color;
        }
    }

    #[tactic(auto, unfolding(crate::specs::Colors::with_pair))]
    fn set_pair(&mut self, index: Option<u16>, color: Option<Rgb>)
        ensures { self.new ≡ with_pair index color self.old }
    {
        if let (Some(index), Some(color)) = (index, color) {
            self.set(index, Some(color));
        }
    }

    fn set_first_pair(&mut self, parts: &[&[u8]])
        ensures { self.new ≡ with_first_pair (map (λ part. part.now) parts.now) self.old }
    {
        match parts {
            [index, color, ..] => self.set_pair(number_of(index), rgb_of(color)),
            _ => {}
        }
    }

    #[tactic(auto, unfolding(crate::specs::Colors::with_two_pairs))]
    fn set_two_pairs(&mut self, parts: &[&[u8]])
        ensures { self.new ≡ with_two_pairs (map (λ part. part.now) parts.now) self.old }
    {
        self.set_first_pair(parts);
        self.set_first_pair(after_pair(parts));
    }

    #[tactic(auto, unfolding(crate::specs::Colors::with_four_pairs))]
    fn set_four_pairs(&mut self, parts: &[&[u8]])
        ensures { self.new ≡ with_four_pairs (map (λ part. part.now) parts.now) self.old }
    {
        self.set_two_pairs(parts);
        self.set_two_pairs(after_pair(after_pair(parts)));
    }

    /// OSC 4: pairs of a number and a colour. A command has at most fifteen parts after its number, so eight are all.
    #[tactic(auto, unfolding(crate::specs::Colors::with_pairs))]
    pub(crate) fn set_pairs(&mut self, parts: &[&[u8]])
        ensures { self.new ≡ with_pairs (map (λ part. part.now) parts.now) self.old }
    {
        self.set_four_pairs(parts);
        let half = after_pair(after_pair(parts));
        self.set_four_pairs(after_pair(after_pair(half)));
    }

    #[tactic(auto, unfolding(crate::specs::Colors::without))]
    fn reset(&mut self, index: Option<u16>)
        ensures { self.new ≡ without index self.old }
    {
        if let Some(index) = index {
            self.set(index, None);
        }
    }

    fn reset_each(&mut self, parts: &[&[u8]])
        ensures { self.new ≡ without_each (map (λ part. part.now) parts.now) self.old }
    {
        for part in parts {
            self.reset(number_of(part));
        }
    }

    /// OSC 104: numbers; all, where there is none.
    #[tactic(auto, unfolding(crate::specs::Colors::cleared))]
    pub(crate) fn clear(&mut self, parts: &[&[u8]])
        ensures { self.new ≡ cleared (map (λ part. part.now) parts.now) self.old }
    {
        if parts.is_empty() {
            *self = Palette::none();
        } else {
            self.reset_each(parts);
        }
    }
}

/// The colour that the first part is, or else the one before.
fn told(parts: &[&[u8]], old: Option<Rgb>) -> Option<Rgb>
    ensures { result ≡ told (map (λ part. part.now) parts.now) old }
{
    match parts {
        [part, ..] => match rgb_of(part) {
            Some(color) => Some(color),
            None => old,
        },
        [] => old,
    }
}

/// The parts after the first.
fn after_first<'a>(parts: &'a [&'a [u8]]) -> &'a [&'a [u8]]
    ensures { map (λ part. part.now) result.now ≡ after_first (map (λ part. part.now) parts.now) }
{
    match parts {
        [_, others @ ..] => others,
        [] => parts,
    }
}

/// The parts after the first two.
fn after_pair<'a>(parts: &'a [&'a [u8]]) -> &'a [&'a [u8]]
    ensures { map (λ part. part.now) result.now ≡ after_pair (map (λ part. part.now) parts.now) }
{
    after_first(after_first(parts))
}

impl Colors {
    /// None is asked for.
    pub(crate) fn none() -> Colors
        ensures { result ≡ no_colors }
    {
        Colors {
            palette: Palette::none(),
            foreground: None,
            background: None,
            cursor: None,
        }
    }

    /// Others that are the same.
    pub(crate) fn copy(&self) -> Colors
        ensures { result ≡ self.now }
    {
        Colors {
            palette: self.palette.copy(),
            foreground: self.foreground,
            background: self.background,
            cursor: self.cursor,
        }
    }

    /// OSC 12
    fn set_cursor(&mut self, parts: &[&[u8]])
        ensures { self.new ≡ with_cursor (map (λ part. part.now) parts.now) self.old }
    {
        self.cursor = told(parts, self.cursor);
    }

    /// OSC 11
    fn set_background(&mut self, parts: &[&[u8]])
        ensures { self.new ≡ with_background (map (λ part. part.now) parts.now) self.old }
    {
        self.background = told(parts, self.background);
        self.set_cursor(after_first(parts));
    }

    /// OSC 10
    fn set_foreground(&mut self, parts: &[&[u8]])
        ensures { self.new ≡ with_foreground (map (λ part. part.now) parts.now) self.old }
    {
        self.foreground = told(parts, self.foreground);
        self.set_background(after_first(parts));
    }

    /// OSC 10, 11, 12: each further part is of the next one.
    #[tactic(auto, unfolding(crate::specs::Colors::with_dynamic))]
    pub(crate) fn set(&mut self, number: u16, parts: &[&[u8]])
        ensures { self.new ≡ with_dynamic number (map (λ part. part.now) parts.now) self.old }
    {
        match number {
            10 => self.set_foreground(parts),
            11 => self.set_background(parts),
            12 => self.set_cursor(parts),
            _ => {}
        }
    }

    /// OSC 110, 111, 112
    #[tactic(auto, unfolding(crate::specs::Colors::without_dynamic))]
    pub(crate) fn reset(&mut self, number: u16)
        ensures { self.new ≡ without_dynamic number self.old }
    {
        match number {
            110 => self.foreground = None,
            111 => self.background = None,
            112 => self.cursor = None,
            _ => {}
        }
    }
}
