//! What may become an address, in a room of its own.
ghost use Rattle.std.specs.Prelude.{◌≡◌, ◌<◌, ◌≤◌, ◌++◌, ◌∷◌, [], length, if◌then◌else◌};
ghost use Rattle.html_urls.specs.Addresses.{max_held, goes_on};

use crate::address::{begins_scheme, is_of_address, says_scheme};

/// The characters that are held back at most: a link has fewer.
pub(crate) const ROOM: usize = 1023;

/// The text that is held back.
#[derive(Drop)]
pub(crate) struct Held {
    room: [char; ROOM],
    count: usize,
    ghost within: { count ≤ max_held },
}

impl Held {
    ghost use Rattle.html_urls.specs.Held.{held_in};

    /// None.
    pub(crate) fn new() -> Held
        ensures { held_in result ≡ [] }
    {
        Held {
            room: ['\0'; ROOM],
            count: 0,
        }
    }

    /// The text.
    #[inline(always)]
    pub(crate) fn as_slice(&self) -> &[char]
        ensures { result.now ≡ held_in self.now }
    {
        &self.room[..self.count]
    }

    /// Nothing is held any more.
    #[inline(always)]
    pub(crate) fn clear(&mut self)
        ensures { held_in self.new ≡ [] }
    {
        self.count = 0;
    }

    /// Becomes this character, with which an address may begin.
    pub(crate) fn begin(&mut self, c: char)
        ensures { held_in self.new ≡ c ∷ [] }
    {
        self.clear();
        self.append(c);
    }

    /// Takes this character after it.
    fn append(&mut self, c: char)
        requires room { length (held_in self.old) < max_held }
        ensures { held_in self.new ≡ held_in self.old ++ c ∷ [] }
    {
        self.room[self.count] = c;
        self.count += 1;
    }

    /// Takes a character, if what is held goes on with it.
    pub(crate) fn take(&mut self, c: char) -> bool
        ensures answer { result ≡ goes_on (held_in self.old) c }
        ensures held { held_in self.new ≡ (if result then held_in self.old ++ c ∷ [] else held_in self.old) }
    {
        let count = self.count;
        if count == 0 || count == ROOM {
            return false;
        }
        let says_scheme = says_scheme(self.as_slice());
        if says_scheme && !is_of_address(c) {
            return false;
        }
        self.room[count] = c;
        self.count = count + 1;
        if says_scheme || begins_scheme(self.as_slice()) {
            return true;
        }
        self.count = count;
        false
    }
}
