//! A performer that no call changes.
ghost use Rattle.std.specs.Prelude.{◌≡◌};

use anstyle_parse::{Params, Parser, Perform, Utf8Parser};

/// Takes every call and does nothing with it.
#[derive(Drop)]
pub struct Quiet {
    pub mark: u64,
}

impl Perform for Quiet {
    // No call changes it.
    ghost means = { λ old _ new. new ≡ old };

    fn print(&mut self, _: char) {}

    fn execute(&mut self, _: u8) {}

    fn hook(&mut self, _: &Params, _: &[u8], _: bool, _: u8) {}

    fn put(&mut self, _: u8) {}

    fn unhook(&mut self) {}

    fn osc_dispatch(&mut self, _: &[&[u8]], _: bool) {}

    fn csi_dispatch(&mut self, _: &Params, _: &[u8], _: bool, _: u8) {}

    fn esc_dispatch(&mut self, _: &[u8], _: bool, _: u8) {}
}

/// Hands the bytes to a new parser: whatever its calls are, the performer stays as it was.
pub fn stay_quiet(quiet: &mut Quiet, bytes: &[u8])
    ensures { quiet.new ≡ quiet.old }
{
    let mut parser = Parser::<Utf8Parser>::new();
    parser.advance_all(quiet, bytes);
}
