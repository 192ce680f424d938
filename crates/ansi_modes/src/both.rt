//! Two performers that get the same calls, in one pass.
use anstyle_parse::{Padded, Params, Perform, PerformText};

/// Two performers that get each call. The second gets it first: so one that tests little costs no room for what both are
/// given.
#[derive(Drop)]
pub struct Both<A, B> {
    pub first: A,
    pub second: B,
}

impl<A: Perform, B: Perform> Perform for Both<A, B> {
    ghost use Rattle.ansi_modes.specs.Both.{Each};

    ghost means = { Each A.means B.means };

    #[inline(always)]
    fn print(&mut self, c: char) {
        self.second.print(c);
        self.first.print(c);
    }

    #[inline(always)]
    fn execute(&mut self, byte: u8) {
        self.second.execute(byte);
        self.first.execute(byte);
    }

    #[inline(always)]
    fn hook(&mut self, params: &Params, intermediates: &[u8], ignore: bool, action: u8) {
        self.second.hook(params, intermediates, ignore, action);
        self.first.hook(params, intermediates, ignore, action);
    }

    #[inline(always)]
    fn put(&mut self, byte: u8) {
        self.second.put(byte);
        self.first.put(byte);
    }

    #[inline(always)]
    fn unhook(&mut self) {
        self.second.unhook();
        self.first.unhook();
    }

    #[inline(always)]
    fn osc_dispatch(&mut self, params: &[&[u8]], bell_terminated: bool) {
        self.second.osc_dispatch(params, bell_terminated);
        self.first.osc_dispatch(params, bell_terminated);
    }

    #[inline(always)]
    fn csi_dispatch(&mut self, params: &Params, intermediates: &[u8], ignore: bool, action: u8) {
        self.second
            .csi_dispatch(params, intermediates, ignore, action);
        self.first
            .csi_dispatch(params, intermediates, ignore, action);
    }

    #[inline(always)]
    fn esc_dispatch(&mut self, intermediates: &[u8], ignore: bool, byte: u8) {
        self.second.esc_dispatch(intermediates, ignore, byte);
        self.first.esc_dispatch(intermediates, ignore, byte);
    }
}

/// A text goes to each as a text.
impl<A: PerformText, B: PerformText> PerformText for Both<A, B> {
    ghost use Rattle.ansi_modes.specs.Both.{Each, each-follows};

    ghost receives = { Each A.receives B.receives };

    #[inline(always)]
    fn print_text(&mut self, text: &str) {
        self.first.print_text(text);
        self.second.print_text(text);
    }

    #[inline(always)]
    fn print_with_layout(&mut self, text: &str) {
        self.first.print_with_layout(text);
        self.second.print_with_layout(text);
    }

    #[inline(always)]
    fn print_padded(&mut self, text: &Padded<'_>) {
        self.first.print_padded(text);
        self.second.print_padded(text);
    }

    ghost follows = { each-follows A.means B.means A.receives B.receives A.follows B.follows };
}
