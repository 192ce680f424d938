//! A style in plain bytes, with bytes to spare.
ghost use Rattle.std.specs.Prelude.{◌≡◌, replicate};

use ansi_style::bytes::StyleBytes;

/// How many bytes of a style are kept for later, as for the colour of an underline: they are 0.
pub const RESERVED_STYLE: usize = 8;

/// A style, as a screen tells it.
#[repr(C)]
#[derive(Clone, Copy)]
pub struct StyleRecord {
    pub bytes: StyleBytes,
    pub reserved: [u8; RESERVED_STYLE],
}

impl StyleRecord {
    /// One of these bytes.
    #[inline(always)]
    pub fn of(bytes: StyleBytes) -> StyleRecord
        ensures bytes { result.bytes ≡ bytes }
        ensures reserved { result.reserved ≡ replicate 8 0 }
    {
        StyleRecord {
            bytes,
            reserved: [0; RESERVED_STYLE],
        }
    }
}
