//! A stream that is taken only as far as the rows that leave find room.
ghost use Rattle.std.specs.Prelude.{◌≤◌, ◌≡◌, ◌⊎◌, ℕ};
ghost use Rattle.screen_pieces.specs.Keeping.{HasRoomSince, most_leaving, FeedsKeeping};

use crate::terminal::Terminal;

/// So many calls at most are made by a byte.
const CALLS_OF_A_BYTE: usize = 2;

impl Terminal {
    ghost use Rattle.screen_pieces.specs.Terminal.{display_of, history_of};

    /// So many bytes make no more rows leave than there is room for beside those that left after the first `seen`.
    fn sure_bytes(&self, seen: usize) -> usize
        ensures fits { (result ≡ 0)
            ⊎ HasRoomSince seen (most_leaving (display_of self.now).height result) (history_of self.now) }
        ensures all { (count : ℕ)
            → HasRoomSince seen (most_leaving (display_of self.now).height count) (history_of self.now) → count ≤ result }
    {
        let (_, left) = self.history().counts();
        let unseen = left.saturating_sub(seen);
        let room = self.history().most().saturating_sub(unseen);
        room / (CALLS_OF_A_BYTE * self.screen().rows())
    }

    /// Takes bytes from the front of the piece, as many as surely make no row leave for which there is no room beside
    /// those that left after the first `seen` (of those that left in all, which [`History::counts`] tells), and answers
    /// how many these are. So none is lost that was not seen; where no byte is taken, rows have to be read first.
    ///
    /// [`History::counts`]: ansi_screen::History::counts
    pub fn feed_keeping(&mut self, piece: &[u8], seen: usize) -> usize
        ensures { FeedsKeeping piece.now seen result self.old self.new }
    {
        let count = piece.len().min(self.sure_bytes(seen));
        self.feed(&piece[..count]);
        count
    }
}
