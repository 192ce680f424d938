//! A performer that counts all calls.
ghost use Rattle.std.specs.Prelude.{◌≡◌};
ghost use Rattle.examples.specs.Counting.{one_more, IsCountOfCalls};

use anstyle_parse::laws::counted;
use anstyle_parse::{Params, Parser, Perform, Utf8Parser};

/// Counts the calls, up to the greatest `u64`.
#[derive(Drop)]
struct CallCounter {
    count: u64,
}

impl CallCounter {
    /// One more call.
    fn add(&mut self)
        ensures { self.new.count ≡ one_more self.old.count }
    {
        self.count = self.count.saturating_add(1);
    }
}

impl Perform for CallCounter {
    // Each call makes the count the lesser of the greatest u64 and one more.
    ghost means = { λ old _ new. new.count ≡ one_more old.count };

    fn print(&mut self, _: char) {
        self.add();
    }

    fn execute(&mut self, _: u8) {
        self.add();
    }

    fn hook(&mut self, _: &Params, _: &[u8], _: bool, _: u8) {
        self.add();
    }

    fn put(&mut self, _: u8) {
        self.add();
    }

    fn unhook(&mut self) {
        self.add();
    }

    fn osc_dispatch(&mut self, _: &[&[u8]], _: bool) {
        self.add();
    }

    fn csi_dispatch(&mut self, _: &Params, _: &[u8], _: bool, _: u8) {
        self.add();
    }

    fn esc_dispatch(&mut self, _: &[u8], _: bool, _: u8) {
        self.add();
    }
}

/// How many calls a new parser makes of the bytes, up to the greatest `u64`.
pub fn calls_made(bytes: &[u8]) -> u64
    ensures { IsCountOfCalls bytes.now result }
{
    let mut parser = Parser::<Utf8Parser>::new();
    let mut counter = CallCounter { count: 0 };
    parser.advance_all(&mut counter, bytes);
    counted::<CallCounter>();
    counter.count
}
