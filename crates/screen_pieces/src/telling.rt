//! What a program reads of keys, the mouse, a paste and the focus by what it asked for, and its title, in the caller's
//! room.
ghost use Rattle.std.specs.Prelude.{◌≡◌, IfOk, IfErr};
ghost use Rattle.screen_pieces.specs.Text.{HasText, LacksRoom};
ghost use Rattle.screen_pieces.specs.Telling.{key_modes_of, title_of, key_told, mouse_told, paste_told, focus_told};

use crate::keys::{KeyBytes, MouseBytes};
use crate::terminal::Terminal;
use crate::text::{TextWriter, put_bytes};
use terminal_keys::{KeyModes, focus_text, put_paste};

impl Terminal {
    /// What a program asked of keys, mouse, paste and focus.
    fn key_modes(&self) -> KeyModes
        ensures { result ≡ key_modes_of self.now }
    {
        KeyModes::of(self.asked())
    }

    /// Writes the window's title to the front of the room, and answers how many bytes it has. `Err` has how many bytes
    /// there are, which the room has not; then what stands in the room does not count.
    pub fn title(&self, room: &mut [u8]) -> Result<usize, usize>
        ensures text { IfOk result (HasText (title_of self.now) room.old room.new) }
        ensures refused { IfErr result (LacksRoom (title_of self.now) room.old) }
    {
        put_bytes(self.asked().titles.window.as_str().as_bytes(), room)
    }

    /// Writes what a program reads of a key to the front of the room, and answers how many bytes there are: 0, where it
    /// reads nothing. `Err` has how many bytes there are, which the room has not; then what stands in the room does not
    /// count.
    pub fn key(&self, key: KeyBytes, room: &mut [u8]) -> Result<usize, usize>
        ensures text { IfOk result (HasText (key_told key self.now) room.old room.new) }
        ensures refused { IfErr result (LacksRoom (key_told key self.now) room.old) }
    {
        let mut writer = TextWriter::new(room);
        key.stroke().text(self.key_modes()).write(&mut writer);
        writer.answer()
    }

    /// The same of the mouse.
    pub fn mouse(&self, mouse: MouseBytes, room: &mut [u8]) -> Result<usize, usize>
        ensures text { IfOk result (HasText (mouse_told mouse self.now) room.old room.new) }
        ensures refused { IfErr result (LacksRoom (mouse_told mouse self.now) room.old) }
    {
        let mut writer = TextWriter::new(room);
        mouse.text(self.key_modes()).write(&mut writer);
        writer.answer()
    }

    /// The same of a text that is pasted.
    pub fn paste(&self, text: &str, room: &mut [u8]) -> Result<usize, usize>
        ensures text { IfOk result (HasText (paste_told text.now self.now) room.old room.new) }
        ensures refused { IfErr result (LacksRoom (paste_told text.now self.now) room.old) }
    {
        let mut writer = TextWriter::new(room);
        put_paste(&mut writer, text, self.key_modes());
        writer.answer()
    }

    /// The same of the focus, which the terminal has now, or has no longer.
    pub fn focus(&self, gained: bool, room: &mut [u8]) -> Result<usize, usize>
        ensures text { IfOk result (HasText (focus_told gained self.now) room.old room.new) }
        ensures refused { IfErr result (LacksRoom (focus_told gained self.now) room.old) }
    {
        let mut writer = TextWriter::new(room);
        focus_text(gained, self.key_modes()).write(&mut writer);
        writer.answer()
    }
}
