//! A URI in a room of its own.
ghost use Rattle.std.specs.Prelude.{◌≡◌, ◌≤◌, ◌+◌, ◌++◌, [], length};
ghost use Rattle.ansi_html.specs.Links.{max_link};

/// The bytes of a link at most: 1,023 that are stored, and twelve separators between thirteen parts.
pub(crate) const MAX_LINK: usize = 1035;

/// A URI, as far as it is written. What its room held before stays after it, so that to clear it costs nothing.
#[derive(Drop)]
pub(crate) struct Uri {
    room: [u8; MAX_LINK],
    count: usize,
    ghost within: { count ≤ max_link },
}

impl Uri {
    ghost use Rattle.ansi_html.specs.ShownLinks.{uri_in};

    /// One of no bytes.
    #[inline(always)]
    pub(crate) fn new() -> Uri
        ensures { uri_in result ≡ [] }
    {
        Uri {
            room: [0; MAX_LINK],
            count: 0,
        }
    }

    /// Its bytes.
    #[inline(always)]
    pub(crate) fn as_slice(&self) -> &[u8]
        ensures { result.now ≡ uri_in self.now }
    {
        &self.room[..self.count]
    }

    /// Becomes one of no bytes.
    #[inline(always)]
    pub(crate) fn clear(&mut self)
        ensures { uri_in self.new ≡ [] }
    {
        self.count = 0;
    }

    /// Writes these bytes after it.
    #[inline(always)]
    pub(crate) fn append(&mut self, bytes: &[u8])
        requires room { length (uri_in self.old) + length bytes.now ≤ max_link }
        ensures { uri_in self.new ≡ uri_in self.old ++ bytes.now }
    {
        let end = self.count + bytes.len();
        self.room[self.count..end].copy_from_slice(bytes);
        self.count = end;
    }
}
