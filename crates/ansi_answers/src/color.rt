//! Colours that are asked for by a command.
ghost use Rattle.std.specs.Prelude.{◌≡◌, map, None};
ghost use Rattle.ansi_modes.specs.Colors.{if_some, no_palette};
ghost use Rattle.ansi_answers.specs.Commands.{is_question, paint_of, palette_color, palette_answer, index_answer, paint_color, paint_answer, palette_question, paint_question, numbered_answer, answer_to_command};

use crate::answer::{Answer, Paint};
use ansi_modes::fields::number_of;
use ansi_modes::{Asked, Rgb};

/// The terminal's own colours, as its embedder tells them. One that is not told, and that no program has set, is not
/// answered.
#[derive(Drop)]
pub struct Theme {
    pub foreground: Option<Rgb>,
    pub background: Option<Rgb>,
    /// That of the cursor.
    pub cursor: Option<Rgb>,
    pub palette: [Option<Rgb>; 256],
}

impl Theme {
    ghost use Rattle.ansi_answers.specs.Commands.{no_theme};

    /// None is told.
    #[tactic(auto, unfolding(ansi_modes::specs::Colors::no_palette))]
    pub fn none() -> Theme
        ensures { result ≡ no_theme }
    {
        Theme {
            foreground: None,
            background: None,
            cursor: None,
            palette: [None; 256],
        }
    }

    /// Others that are the same.
    pub fn copy(&self) -> Theme
        ensures { result ≡ self.now }
    {
        Theme {
            foreground: self.foreground,
            background: self.background,
            cursor: self.cursor,
            palette: self.palette,
        }
    }
}

/// The first colour, or else the second.
fn or_else(first: Option<Rgb>, second: Option<Rgb>) -> Option<Rgb>
    ensures { result ≡ if_some first second }
{
    match first {
        Some(color) => Some(color),
        None => second,
    }
}

/// Whether a part of a command asks.
#[tactic(auto, unfolding(crate::specs::Commands::is_question))]
fn is_question(part: &[u8]) -> bool
    ensures { result ≡ is_question part.now }
{
    match part {
        [byte] => *byte == b'?',
        _ => false,
    }
}

/// A colour of the palette, as a program set it, or else the terminal's own.
fn palette_color(index: u8, asked: &Asked, theme: &Theme) -> Option<Rgb>
    ensures { result ≡ palette_color index asked.now theme.now }
{
    or_else(
        asked.colors.palette.get(index),
        theme.palette[usize::from(index)],
    )
}

/// It as an answer.
fn palette_answer(index: u8, color: Option<Rgb>, bell: bool) -> Option<Answer>
    ensures { result ≡ palette_answer index color bell }
{
    match color {
        Some(color) => Some(Answer::PaletteColor { index, color, bell }),
        None => None,
    }
}

/// The answer to the number of a colour.
#[tactic(auto, unfolding(crate::specs::Commands::index_answer))]
fn index_answer(index: Option<u16>, bell: bool, asked: &Asked, theme: &Theme) -> Option<Answer>
    ensures { result ≡ index_answer index bell asked.now theme.now }
{
    match index {
        Some(index) if index < 256 => {
            let index = index as u8;
            palette_answer(index, palette_color(index, asked, theme), bell)
        }
        _ => None,
    }
}

/// OSC 4
fn palette_question(parts: &[&[u8]], bell: bool, asked: &Asked, theme: &Theme) -> Option<Answer>
    ensures { result ≡ palette_question (map (λ part. part.now) parts.now) bell asked.now theme.now }
{
    match parts {
        [index, text, ..] if is_question(text) => index_answer(
            number_of(index),
            bell,
            asked,
            theme,
        ),
        _ => None,
    }
}

/// Of which colour a command is.
#[tactic(auto, unfolding(crate::specs::Commands::paint_of))]
fn paint_of(number: u16) -> Option<Paint>
    ensures { result ≡ paint_of number }
{
    match number {
        10 => Some(Paint::Foreground),
        11 => Some(Paint::Background),
        12 => Some(Paint::Cursor),
        _ => None,
    }
}

/// Such a colour, as a program set it, or else the terminal's own.
fn paint_color(paint: Paint, asked: &Asked, theme: &Theme) -> Option<Rgb>
    ensures { result ≡ paint_color paint asked.now theme.now }
{
    match paint {
        Paint::Foreground => or_else(asked.colors.foreground, theme.foreground),
        Paint::Background => or_else(asked.colors.background, theme.background),
        Paint::Cursor => or_else(asked.colors.cursor, theme.cursor),
    }
}

/// It as an answer.
fn paint_answer(paint: Paint, color: Option<Rgb>, bell: bool) -> Option<Answer>
    ensures { result ≡ paint_answer paint color bell }
{
    match color {
        Some(color) => Some(Answer::PaintColor { paint, color, bell }),
        None => None,
    }
}

/// OSC 10, 11, 12
fn paint_question(
    paint: Option<Paint>,
    parts: &[&[u8]],
    bell: bool,
    asked: &Asked,
    theme: &Theme,
) -> Option<Answer>
    ensures { result ≡ paint_question paint (map (λ part. part.now) parts.now) bell asked.now theme.now }
{
    match (paint, parts) {
        (Some(paint), [text, ..]) if is_question(text) => {
            paint_answer(paint, paint_color(paint, asked, theme), bell)
        }
        _ => None,
    }
}

/// The answer to a command by its number.
#[tactic(auto, unfolding(crate::specs::Commands::numbered_answer))]
fn numbered_answer(
    number: Option<u16>,
    parts: &[&[u8]],
    bell: bool,
    asked: &Asked,
    theme: &Theme,
) -> Option<Answer>
    ensures { result ≡ numbered_answer number (map (λ part. part.now) parts.now) bell asked.now theme.now }
{
    match number {
        Some(4) => palette_question(parts, bell, asked, theme),
        Some(number) => paint_question(paint_of(number), parts, bell, asked, theme),
        None => None,
    }
}

/// The answer to a command, by what is asked for after it: OSC 4, 10, 11 and 12 with `?`. It takes what `osc_dispatch`
/// of a performer gets.
pub fn answer_to_command(
    parts: &[&[u8]],
    bell_terminated: bool,
    asked: &Asked,
    theme: &Theme,
) -> Option<Answer>
    ensures { result ≡ answer_to_command (map (λ part. part.now) parts.now) bell_terminated asked.now theme.now }
{
    match parts {
        [number, parts @ ..] => {
            numbered_answer(number_of(number), parts, bell_terminated, asked, theme)
        }
        [] => None,
    }
}
