//! The record of a call.

/// Characters that are printed one after another.
pub const TEXT: u8 = 0;

/// A control that is executed.
pub const EXECUTE: u8 = 1;

/// The header of a device control string.
pub const HOOK: u8 = 2;

/// A byte of a device control string.
pub const PUT: u8 = 3;

/// The end of a device control string.
pub const UNHOOK: u8 = 4;

/// An operating system command.
pub const OSC: u8 = 5;

/// A control sequence.
pub const CSI: u8 = 6;

/// An escape sequence.
pub const ESC: u8 = 7;

/// The intermediates that a record holds at most.
pub(crate) const MAX_INTERMEDIATES: usize = 2;

/// The bytes that fill a record up to its size.
pub(crate) const PADDING: usize = 2;

/// A call, or the calls of a run of printed characters.
///
/// Two texts never follow one another in what one call of `feed` writes. What a kind does not speak of is 0.
/// What it holds beyond its own fields stands in the room at `start..start + length`:
///
/// | Kind | Bytes in the room | `byte` | `flag` |
/// |---|---|---|---|
/// | [`TEXT`] | the characters, in UTF-8 | | |
/// | [`EXECUTE`], [`PUT`] | | the byte | |
/// | [`UNHOOK`] | | | |
/// | [`HOOK`], [`CSI`] | the fields | the final byte | more came than is shown |
/// | [`ESC`] | | the final byte | more came than is shown |
/// | [`OSC`] | the parts, with `;` between them; none has one | | BEL ended it |
///
/// A field has three bytes: its low byte, its high byte, and 1 where the next field belongs to the same group
/// (`:` stood between them), else 0. Any bytes are a valid record.
#[repr(C)]
#[derive(Clone, Copy)]
pub struct Event {
    /// Where in the room its bytes begin.
    pub start: usize,
    /// How many bytes they are; 0 where it has none.
    pub length: usize,
    /// What it is: 0 to 7.
    pub kind: u8,
    /// The control, the byte of a string or the final byte; else 0.
    pub byte: u8,
    /// 1 where the flag of its kind is set, else 0.
    pub flag: u8,
    /// How many intermediates it has, a marker among them.
    pub intermediate_count: u8,
    /// The intermediates, and 0 after them.
    pub intermediates: [u8; MAX_INTERMEDIATES],
    /// Nothing: each is 0.
    pub padding: [u8; PADDING],
}
