//! A performer that counts what is printed: docs/USING.md shows all that follows this line.
ghost use Rattle.std.specs.Prelude.{◌≤◌};

use anstyle_parse::{Params, Parser, Perform, Utf8Parser};

#[derive(Drop)]
struct Counter {
    count: u64,
}

impl Perform for Counter {
    // What each call does to it: the count never falls.
    ghost means = { λ old _ new. old.count ≤ new.count };

    fn print(&mut self, _: char) {
        self.count = self.count.saturating_add(1);
    }

    fn execute(&mut self, _: u8) {}

    fn hook(&mut self, _: &Params, _: &[u8], _: bool, _: u8) {}

    fn put(&mut self, _: u8) {}

    fn unhook(&mut self) {}

    fn osc_dispatch(&mut self, _: &[&[u8]], _: bool) {}

    fn csi_dispatch(&mut self, _: &Params, _: &[u8], _: bool, _: u8) {}

    fn esc_dispatch(&mut self, _: &[u8], _: bool, _: u8) {}
}

pub fn printed(bytes: &[u8]) -> u64 {
    let mut parser = Parser::<Utf8Parser>::new();
    let mut counter = Counter { count: 0 };
    parser.advance_all(&mut counter, bytes);
    counter.count
}
