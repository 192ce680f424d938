//! Numbers that look random, the same for the same seed.
ghost use Rattle.std.specs.Prelude.{◌<◌, ◌≤◌};

/// The xorshift generator of G. Marsaglia, "Xorshift RNGs" (2003), of 64 bits, by the shifts 13, 7 and 17.
#[derive(Drop)]
pub struct Random {
    state: u64,
}

/// An odd number whose bits look random: 2^64 divided by the golden ratio.
const SCATTER: u64 = 0x9E37_79B9_7F4A_7C15;

impl Random {
    /// One for each seed.
    pub fn new(seed: u32) -> Random {
        // (the state must not be 0: a product of two odd numbers is odd)
        let odd = u64::from(seed).wrapping_mul(2) | 1;
        Random {
            state: odd.wrapping_mul(SCATTER),
        }
    }

    /// The next number.
    fn next(&mut self) -> u64 {
        let mut state = self.state;
        state ^= state << 13;
        state ^= state >> 7;
        state ^= state << 17;
        self.state = state;
        state
    }

    /// The next number, below `bound`.
    pub fn below(&mut self, bound: usize) -> usize
        requires { 0 < bound }
        ensures { result < bound }
    {
        // (its upper half: the lower bits of a xorshift are the weaker ones)
        (self.next() >> 32) as usize % bound
    }

    /// The next number from `least` to `most`.
    pub fn between(&mut self, least: usize, most: usize) -> usize
        requires order { least ≤ most }
        requires small { most < 65536 }
        ensures { result ≤ most }
    {
        least + self.below(most - least + 1)
    }
}
