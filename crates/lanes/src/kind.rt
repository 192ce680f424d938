//! Kinds of bytes.
ghost use Rattle.std.specs.Prelude.{◌≡◌, ◌<◌, ℕ, Bool, IsTrue, map, not};
ghost use Rattle.std.specs.Simd.Lanes.{mask_l};

use std::simd::prelude::*;

/// How many bytes are tested at once.
pub const CHUNK: usize = 16;

/// A kind of bytes, which tells of sixteen at once which are not of it.
pub trait Kind {
    // Whether a byte is of the kind.
    ghost holds: { ℕ → Bool };

    /// Whether the byte is of the kind.
    fn holds(byte: u8) -> bool
        ensures { result ≡ holds byte };

    /// A bit for each of sixteen bytes, the lowest for the first: whether it is not of the kind.
    fn others(bytes: u8x16) -> u64
        ensures { result ≡ mask_l (map (λ b. not (holds b)) bytes) };
}

/// A kind of characters of ASCII: so a text may be cut before and after each of them.
pub trait AsciiKind: Kind {
    ghost is_ascii: { (b : ℕ) → IsTrue (Self.holds b) → b < 0x80 };
}
