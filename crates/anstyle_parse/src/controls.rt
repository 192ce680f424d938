//! Control bytes, by their names in ECMA-48.

/// BEL, which ends an operating system command.
pub const BELL: u8 = 0x07;
/// CAN, which breaks off a sequence: the first control that is more than executed.
pub const CANCEL: u8 = 0x18;
/// SUB, which breaks off a sequence too.
pub const SUBSTITUTE: u8 = 0x1A;
/// ESC, which begins a sequence.
pub const ESCAPE: u8 = 0x1B;
/// The first byte that is no control.
pub const SPACE: u8 = 0x20;
/// ST as one byte, which ends a string.
pub const STRING_TERMINATOR: u8 = 0x9C;
