//! The performer that counts, and how it is fed.
use anstyle_parse::{Params, Parser, Perform, Utf8Parser};

/// The number of calls, and the sum of their kinds and arguments, which wraps.
#[derive(Default, Drop)]
pub struct Count {
    pub calls: u64,
    pub sum: u64,
}

impl Count {
    #[inline]
    fn begin(&mut self, kind: u64) {
        self.calls = self.calls.wrapping_add(1);
        self.take(kind);
    }

    #[inline]
    fn take(&mut self, value: u64) {
        self.sum = self.sum.wrapping_add(value);
    }

    #[inline]
    fn bytes(&mut self, bytes: &[u8]) {
        self.take(bytes.len() as u64);
        for byte in bytes {
            self.take(u64::from(*byte));
        }
    }

    #[inline]
    fn header(&mut self, params: &Params, intermediates: &[u8], ignore: bool, action: u8) {
        let mut groups = 0u64;
        for group in params.iter() {
            groups = groups.wrapping_add(1);
            self.take(group.len() as u64);
            for number in group {
                self.take(u64::from(*number));
            }
        }
        self.take(groups);
        self.bytes(intermediates);
        self.take(u64::from(ignore));
        self.take(u64::from(action));
    }
}

impl Perform for Count {
    ghost means = { λ _ _ _. Unit {0} };

    #[inline]
    fn print(&mut self, c: char) {
        self.begin(1);
        self.take(u64::from(u32::from(c)));
    }

    #[inline]
    fn execute(&mut self, byte: u8) {
        self.begin(2);
        self.take(u64::from(byte));
    }

    fn hook(&mut self, params: &Params, intermediates: &[u8], ignore: bool, action: u8) {
        self.begin(3);
        self.header(params, intermediates, ignore, action);
    }

    #[inline]
    fn put(&mut self, byte: u8) {
        self.begin(4);
        self.take(u64::from(byte));
    }

    fn unhook(&mut self) {
        self.begin(5);
    }

    fn osc_dispatch(&mut self, params: &[&[u8]], bell_terminated: bool) {
        self.begin(6);
        self.take(params.len() as u64);
        for part in params {
            self.bytes(part);
        }
        self.take(u64::from(bell_terminated));
    }

    fn csi_dispatch(&mut self, params: &Params, intermediates: &[u8], ignore: bool, action: u8) {
        self.begin(7);
        self.header(params, intermediates, ignore, action);
    }

    fn esc_dispatch(&mut self, intermediates: &[u8], ignore: bool, byte: u8) {
        self.begin(8);
        self.bytes(intermediates);
        self.take(u64::from(ignore));
        self.take(u64::from(byte));
    }
}

/// The calls of the bytes, handed on in pieces of this size, or each by `advance` where it is 0.
pub fn count_of(bytes: &[u8], size: usize) -> Count {
    if size == 0 {
        return count_by_byte(bytes);
    }
    let mut count = Count::default();
    let mut parser = Parser::<Utf8Parser>::new();
    for piece in bytes.chunks(size) {
        parser.advance_all(&mut count, piece);
    }
    count
}

/// Each byte by `advance`. It is out of line: so neither loop is compiled with the registers that
/// the other leaves.
#[inline(never)]
fn count_by_byte(bytes: &[u8]) -> Count {
    let mut count = Count::default();
    let mut parser = Parser::<Utf8Parser>::new();
    for byte in bytes {
        parser.advance(&mut count, *byte);
    }
    count
}
