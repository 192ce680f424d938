//! Answers to the program that is shown, in the caller's room, and the terminal's own colours as plain bytes.
ghost use Rattle.std.specs.Prelude.{◌≡◌, length, map, IfOk, IfErr};
ghost use Rattle.std.specs.List.{flat_map};
ghost use Rattle.ansi_answers.specs.Text.{answer_text};
ghost use Rattle.screen_pieces.specs.Answers.{color_told, theme_told};
ghost use Rattle.screen_pieces.specs.Text.{HasText, LacksRoom};

use crate::text::TextWriter;
use ansi_answers::{Answer, Theme};
use ansi_modes::Rgb;

/// A colour that is told, or none.
#[repr(C)]
#[derive(Clone, Copy)]
pub struct RgbBytes {
    /// 0 where none is told.
    pub is_told: u8,
    pub red: u8,
    pub green: u8,
    pub blue: u8,
}

/// The terminal's own colours, as its embedder tells them: zero bytes tell none.
#[repr(C)]
#[derive(Clone, Copy)]
pub struct ThemeBytes {
    pub foreground: RgbBytes,
    pub background: RgbBytes,
    /// That of the cursor.
    pub cursor: RgbBytes,
    pub palette: [RgbBytes; 256],
}

impl RgbBytes {
    /// The colour that it tells.
    fn color(&self) -> Option<Rgb>
        ensures { result ≡ color_told self.now }
    {
        if self.is_told == 0 {
            return None;
        }
        Some(Rgb {
            red: self.red,
            green: self.green,
            blue: self.blue,
        })
    }
}

/// Writes the colours that they tell.
fn put_colors(bytes: &[RgbBytes], colors: &mut [Option<Rgb>])
    requires { length colors.old ≡ length bytes.now }
    ensures { colors.new ≡ map color_told bytes.now }
{
    for (place, color) in bytes.iter().enumerate() {
        colors[place] = color.color();
    }
}

impl ThemeBytes {
    /// The colours that it tells.
    pub fn theme(&self) -> Theme
        ensures { result ≡ theme_told self.now }
    {
        let mut palette = [None; 256];
        put_colors(&self.palette, &mut palette);
        Theme {
            foreground: self.foreground.color(),
            background: self.background.color(),
            cursor: self.cursor.color(),
            palette,
        }
    }
}

impl<'a> TextWriter<'a> {
    ghost use Rattle.screen_pieces.specs.Text.{Puts};

    /// The bytes of answers, one after another.
    fn put_answers(&mut self, answers: &[Answer])
        ensures { Puts (flat_map answer_text answers.now) self.old self.new }
    {
        let mut rest = answers;
        'rest: while let Some((first, further)) = rest.split_first() {
            self.put_bytes(first.bytes().as_slice());
            rest = further;
        }
    }
}

/// Writes the bytes of answers to the front of the room.
pub(crate) fn put_answers(answers: &[Answer], room: &mut [u8]) -> Result<usize, usize>
    ensures text { IfOk result (HasText (flat_map answer_text answers.now) room.old room.new) }
    ensures refused { IfErr result (LacksRoom (flat_map answer_text answers.now) room.old) }
{
    let mut writer = TextWriter::new(room);
    writer.put_answers(answers);
    writer.answer()
}
