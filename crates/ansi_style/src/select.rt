//! Select Graphic Rendition: what a control sequence does to a style.
ghost use Rattle.std.specs.Prelude.{◌≡◌, ◌≤◌, ◌<◌, ◌++◌, ◌∷◌, [], length};
ghost use Rattle.ansi_style.specs.Style.{hue_at};
ghost use Rattle.ansi_style.specs.Rendition.{with_code, with_underline, color_in, indexed, mixed, selected, is_selection, style_after};
ghost use Rattle.ansi_style.specs.Walk.{alone, target_of, with_target_color, with_target, with_expected, expected_for, expected_for_kind, expected_after, selected_from, TakesFront};
ghost use Rattle.ansi_style.specs.declared.select.Expected.TheVariants.{Code, Kind, Index, RedValue};
ghost use Rattle.anstyle_parse.specs.Views.Params.{groups_shown};

use crate::style::{Color, Hue, Style, Underline};
use anstyle_parse::{Params, Perform};

/// What a colour is for.
#[derive(Clone, Copy)]
enum Target {
    Foreground,
    Background,
    /// The line under text, whose colour is not kept.
    Line,
}

/// What the next group of a sequence is.
#[derive(Clone, Copy)]
enum Expected {
    /// A code, or a group that says all of a colour or of an underline.
    Code,
    /// The kind of a colour: 5 or 2.
    Kind(Target),
    /// The number of a colour of 256.
    Index(Target),
    RedValue(Target),
    GreenValue(Target, u16),
    BlueValue(Target, u16, u16),
}

impl Hue {
    /// The hue of a number, 0 to 7; what is above 7 is white.
    pub fn at(number: u16) -> Hue
        ensures { result ≡ hue_at number }
    {
        match number {
            0 => Hue::Black,
            1 => Hue::Red,
            2 => Hue::Green,
            3 => Hue::Yellow,
            4 => Hue::Blue,
            5 => Hue::Magenta,
            6 => Hue::Cyan,
            _ => Hue::White,
        }
    }
}

impl Style {
    /// Does what the parameters of a control sequence with the final byte `m` say (Select
    /// Graphic Rendition: ECMA-48, 8.3.117; ITU-T T.416, 13.1.8; xterm's ctlseqs).
    ///
    /// An empty field is 0, which resets. A code that means nothing here changes nothing. A
    /// colour is `38;5;n`, `38;2;r;g;b`, `38:5:n`, `38:2:r:g:b` or `38:2:space:r:g:b`, and with
    /// 48 that of the background; one with a number above 255 changes nothing. The colour of
    /// the underline, after 58, is read and dropped. A colour that the sequence begins and does
    /// not end changes nothing.
    pub fn select(&mut self, params: &Params)
        ensures { self.new ≡ selected (groups_shown params.now) self.old }
    {
        match params.lone_fields() {
            Some((fields, count)) => self.select_lone(&fields[..count]),
            None => self.select_groups(params),
        }
    }

    /// The same by fields that are each a group of its own. Most sequences have one.
    #[inline(always)]
    fn select_lone(&mut self, fields: &[u16])
        ensures { self.new ≡ selected_from Code (alone fields.now) self.old }
    {
        match fields {
            [code] => self.select_one(*code),
            _ => self.select_each(fields),
        }
    }

    /// Does what a code says alone. Those that most sequences have, a reset and one of eight colours, are told before
    /// all others.
    #[inline(always)]
    fn select_one(&mut self, code: u16)
        ensures { self.new ≡ with_code code self.old }
    {
        if code == 0 {
            self.reset();
        } else if 30 <= code && code < 38 {
            self.color_text(code);
        } else {
            self.select_code(code);
        }
    }

    /// Does what the fields say, one after another.
    #[inline(never)]
    fn select_each(&mut self, fields: &[u16])
        ensures { self.new ≡ selected_from Code (alone fields.now) self.old }
    {
        let mut rest = fields;
        'fields: while let Some((code, behind)) = rest.split_first() {
            rest = self.take_code(*code, behind);
        }
    }

    /// Does what a code says, which may begin a colour, and answers what comes after it, or after the colour.
    #[inline(always)]
    fn take_code<'a>(&mut self, code: u16, behind: &'a [u16]) -> &'a [u16]
        ensures style { selected_from Code (alone result.now) self.new
            ≡ selected_from Code (alone (code ∷ behind.now)) self.old }
        ensures onward { length result.now ≤ length behind.now }
    {
        match color_target(code) {
            Some(target) => self.take_color(target, behind),
            None => {
                self.select_code(code);
                behind
            }
        }
    }

    /// Selects the colour that its code is followed by, and answers what comes after it.
    #[inline(always)]
    fn take_color<'a>(&mut self, target: Target, fields: &'a [u16]) -> &'a [u16]
        ensures { TakesFront (Kind target) fields.now result.now self.old self.new }
    {
        match fields {
            [] => fields,
            [5, others @ ..] => self.take_index(target, others),
            [2, others @ ..] => self.take_values(target, others),
            [_, others @ ..] => others,
        }
    }

    /// The same where its number follows, unless the sequence ends.
    #[inline(always)]
    fn take_index<'a>(&mut self, target: Target, fields: &'a [u16]) -> &'a [u16]
        ensures { TakesFront (Index target) fields.now result.now self.old self.new }
    {
        match fields {
            [] => fields,
            [index, others @ ..] => {
                self.set_color(target, indexed(*index));
                others
            }
        }
    }

    /// The same where red, green and blue follow, unless the sequence ends.
    #[inline(always)]
    fn take_values<'a>(&mut self, target: Target, fields: &'a [u16]) -> &'a [u16]
        ensures { TakesFront (RedValue target) fields.now result.now self.old self.new }
    {
        match fields {
            [red, green, blue, others @ ..] => {
                self.set_color(target, mixed(*red, *green, *blue));
                others
            }
            [] | [_] | [_, _] => &[],
        }
    }

    /// The same by groups.
    #[inline(never)]
    fn select_groups(&mut self, params: &Params)
        ensures { self.new ≡ selected (groups_shown params.now) self.old }
    {
        let mut expected = Expected::Code;
        for group in params {
            self.select_group(expected, group);
            expected = expected.after(group);
        }
    }

    /// Resets all.
    #[inline(always)]
    #[tactic(auto, unfolding(crate::specs::Rendition::with_code, anstyle_parse::specs::Stream::Bytes::is_within))]
    fn reset(&mut self)
        ensures { self.new ≡ with_code 0 self.old }
    {
        *self = Style::default();
    }

    /// Selects one of eight colours for the text.
    #[inline(always)]
    #[tactic(auto, unfolding(crate::specs::Rendition::with_code, anstyle_parse::specs::Stream::Bytes::is_within))]
    fn color_text(&mut self, code: u16)
        requires from { 30 ≤ code }
        requires below { code < 38 }
        ensures { self.new ≡ with_code code self.old }
    {
        self.foreground = Color::Named(Hue::at(code - 30));
    }

    /// Does what one group says.
    fn select_group(&mut self, expected: Expected, group: &[u16])
        ensures { self.new ≡ with_expected expected group.now self.old }
    {
        match (expected, group) {
            (Expected::Code, [code]) => self.select_code(*code),
            (Expected::Code, [code, fields @ ..]) => self.select_fields(*code, fields),
            (Expected::Index(target), [index]) => self.set_color(target, indexed(*index)),
            (Expected::BlueValue(target, red, green), [blue]) => {
                self.set_color(target, mixed(red, green, *blue));
            }
            _ => {}
        }
    }

    /// Does what a code says alone.
    #[tactic(auto, unfolding(crate::specs::Rendition::with_code, anstyle_parse::specs::Stream::Bytes::is_within))]
    fn select_code(&mut self, code: u16)
        ensures { self.new ≡ with_code code self.old }
    {
        match code {
            0 => *self = Style::default(),
            1 => self.bold = true,
            2 => self.dim = true,
            3 => self.italic = true,
            4 => self.underline = Underline::Single,
            5 | 6 => self.blink = true,
            7 => self.reverse = true,
            8 => self.hidden = true,
            9 => self.struck_out = true,
            21 => self.underline = Underline::Double,
            22 => (self.bold, self.dim) = (false, false),
            23 => self.italic = false,
            24 => self.underline = Underline::Off,
            25 => self.blink = false,
            27 => self.reverse = false,
            28 => self.hidden = false,
            29 => self.struck_out = false,
            30..=37 => self.foreground = Color::Named(Hue::at(code - 30)),
            39 => self.foreground = Color::Default,
            40..=47 => self.background = Color::Named(Hue::at(code - 40)),
            49 => self.background = Color::Default,
            53 => self.overlined = true,
            55 => self.overlined = false,
            90..=97 => self.foreground = Color::Bright(Hue::at(code - 90)),
            100..=107 => self.background = Color::Bright(Hue::at(code - 100)),
            _ => {}
        }
    }

    /// Does what a group of a first field and others says: a colour, or 4 and the kind of
    /// underline.
    fn select_fields(&mut self, code: u16, fields: &[u16])
        ensures { self.new ≡ with_target (target_of code) code fields.now self.old }
    {
        match color_target(code) {
            Some(target) => self.set_color(target, color_in(fields)),
            None => match fields {
                [kind] if code == 4 => self.select_underline(*kind),
                _ => {}
            },
        }
    }

    #[tactic(auto, unfolding(crate::specs::Rendition::with_underline))]
    fn select_underline(&mut self, kind: u16)
        ensures { self.new ≡ with_underline kind self.old }
    {
        match kind {
            0 => self.underline = Underline::Off,
            1 => self.underline = Underline::Single,
            2 => self.underline = Underline::Double,
            3 => self.underline = Underline::Curly,
            4 => self.underline = Underline::Dotted,
            5 => self.underline = Underline::Dashed,
            _ => {}
        }
    }

    /// A colour that is none changes nothing.
    fn set_color(&mut self, target: Target, color: Option<Color>)
        ensures { self.new ≡ with_target_color target color self.old }
    {
        match (target, color) {
            (Target::Foreground, Some(color)) => self.foreground = color,
            (Target::Background, Some(color)) => self.background = color,
            _ => {}
        }
    }
}

/// What the colour is for that a code begins.
#[tactic(auto, unfolding(crate::specs::Walk::target_of))]
fn color_target(code: u16) -> Option<Target>
    ensures { result ≡ target_of code }
{
    match code {
        38 => Some(Target::Foreground),
        48 => Some(Target::Background),
        58 => Some(Target::Line),
        _ => None,
    }
}

/// The colour that a group says after its first field.
fn color_in(fields: &[u16]) -> Option<Color>
    ensures { result ≡ color_in fields.now }
{
    match fields {
        [5, index] => indexed(*index),
        [2, red, green, blue] => mixed(*red, *green, *blue),
        [2, _space, red, green, blue, ..] => mixed(*red, *green, *blue),
        _ => None,
    }
}

/// One of the 256 colours.
fn indexed(index: u16) -> Option<Color>
    ensures { result ≡ indexed index }
{
    if index < 256 {
        Some(Color::Indexed(index as u8))
    } else {
        None
    }
}

/// Red, green and blue.
fn mixed(red: u16, green: u16, blue: u16) -> Option<Color>
    ensures { result ≡ mixed red green blue }
{
    if red < 256 && green < 256 && blue < 256 {
        Some(Color::Direct(red as u8, green as u8, blue as u8))
    } else {
        None
    }
}

impl Expected {
    /// What is expected after a group.
    fn after(self, group: &[u16]) -> Expected
        ensures { result ≡ expected_after self group.now }
    {
        match (self, group) {
            (Expected::Code, [code]) => match color_target(*code) {
                Some(target) => Expected::Kind(target),
                None => Expected::Code,
            },
            (Expected::Kind(target), [5]) => Expected::Index(target),
            (Expected::Kind(target), [2]) => Expected::RedValue(target),
            (Expected::RedValue(target), [red]) => Expected::GreenValue(target, *red),
            (Expected::GreenValue(target, red), [green]) => {
                Expected::BlueValue(target, red, *green)
            }
            _ => Expected::Code,
        }
    }
}

/// It goes with the stream: after each call it is the style that was selected so far.
impl Perform for Style {
    ghost means = { λ old call new. new ≡ style_after call old };

    fn print(&mut self, _: char) {}

    fn execute(&mut self, _: u8) {}

    fn hook(&mut self, _: &Params, _: &[u8], _: bool, _: u8) {}

    fn put(&mut self, _: u8) {}

    fn unhook(&mut self) {}

    fn osc_dispatch(&mut self, _: &[&[u8]], _: bool) {}

    #[tactic(auto, unfolding(crate::specs::Rendition::is_selection))]
    fn csi_dispatch(&mut self, params: &Params, intermediates: &[u8], ignore: bool, action: u8) {
        if intermediates.is_empty() && !ignore && action == b'm' {
            self.select(params);
        }
    }

    fn esc_dispatch(&mut self, _: &[u8], _: bool, _: u8) {}
}
