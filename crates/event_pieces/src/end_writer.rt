//! The performer that notes where the record of each call ends.
ghost use Rattle.std.specs.Prelude.{◌≡◌, ◌<◌, ◌≤◌, [], true, length};
ghost use Rattle.anstyle_parse.specs.Stream.Call.{Call};

use anstyle_parse::{Params, Perform};

/// Writes where records end, as far as there are places for it.
#[derive(Drop)]
pub(crate) struct EndWriter<'a> {
    ends: &'a mut [usize],
    written: usize,
    /// Whether the last record is a text whose end is written: a character goes on with it.
    is_in_text: bool,
    /// How many bytes were given, with the one that leads to the next calls.
    given: usize,
    ghost within: { written ≤ length ends.now },
    ghost some: { is_in_text ≡ true → 0 < written },
}

impl<'a> EndWriter<'a> {
    ghost use Rattle.event_pieces.specs.EndWriter.{is_print, HasEnds, Notes};

    pub(crate) fn new(ends: &'a mut [usize]) -> EndWriter<'a>
        ensures same_ends { result.ends.ghost_name ≡ ends.entry.ghost_name }
        ensures nothing { HasEnds [] ends.old result }
    {
        EndWriter {
            ends,
            written: 0,
            is_in_text: false,
            given: 0,
        }
    }

    /// How many ends are written.
    pub(crate) fn written(&self) -> usize
        ensures { result ≡ self.now.written }
    {
        self.written
    }

    /// The calls that come next are of a byte with which so many were given.
    pub(crate) fn set_given(&mut self, given: usize)
        ensures given { self.new.given ≡ given }
        ensures same_ends { self.new.ends ≡ self.old.ends }
        ensures same_written { self.new.written ≡ self.old.written }
        ensures same_text { self.new.is_in_text ≡ self.old.is_in_text }
    {
        self.given = given;
    }

    /// One call more, which is a character or is not.
    fn note(&mut self, is_text: bool)
        ensures { (call : Call) → is_print call ≡ is_text → Notes call self.old self.new }
    {
        if is_text && self.is_in_text {
            self.ends[self.written - 1] = self.given;
        } else if self.written < self.ends.len() {
            self.ends[self.written] = self.given;
            self.written += 1;
            self.is_in_text = is_text;
        } else {
            self.is_in_text = false;
        }
    }
}

impl<'a> Perform for EndWriter<'a> {
    ghost use Rattle.event_pieces.specs.EndWriter.{Notes};

    // The end of the call's record is noted.
    ghost means = { λ old call new. Notes call old new };

    fn print(&mut self, _c: char) {
        self.note(true);
    }

    fn execute(&mut self, _byte: u8) {
        self.note(false);
    }

    fn hook(&mut self, _params: &Params, _intermediates: &[u8], _ignore: bool, _action: u8) {
        self.note(false);
    }

    fn put(&mut self, _byte: u8) {
        self.note(false);
    }

    fn unhook(&mut self) {
        self.note(false);
    }

    fn osc_dispatch(&mut self, _params: &[&[u8]], _bell_terminated: bool) {
        self.note(false);
    }

    fn csi_dispatch(
        &mut self,
        _params: &Params,
        _intermediates: &[u8],
        _ignore: bool,
        _action: u8,
    ) {
        self.note(false);
    }

    fn esc_dispatch(&mut self, _intermediates: &[u8], _ignore: bool, _byte: u8) {
        self.note(false);
    }
}
