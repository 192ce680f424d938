//! A number that tells whether results are the same.

/// A digest of bytes and numbers, in order: a product and a rotation for each eight bytes. It is no cryptographic one.
#[derive(Drop)]
pub struct Digest {
    sum: u64,
}

/// The prime of FNV-1a for 64 bits.
const PRIME: u64 = 0x0000_0100_0000_01B3;

impl Digest {
    /// A digest of nothing.
    pub fn new() -> Digest {
        Digest { sum: PRIME }
    }

    /// Takes a number.
    #[inline]
    pub fn number(&mut self, number: u64) {
        self.sum = (self.sum ^ number).wrapping_mul(PRIME).rotate_left(29);
    }

    /// Takes how many bytes these are, and the bytes.
    pub fn bytes(&mut self, bytes: &[u8]) {
        self.number(bytes.len() as u64);
        let (words, rest) = bytes.as_chunks::<8>();
        for word in words {
            self.number(u64::from_le_bytes(*word));
        }
        for byte in rest {
            self.number(u64::from(*byte));
        }
    }

    /// What it is of all that it took.
    pub fn sum(&self) -> u64 {
        self.sum
    }
}
