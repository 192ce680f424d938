//! What a stream is by its first bytes, where that is not what the programs read.
ghost use Rattle.std.specs.Prelude.{◌≡◌, ◌≤◌, ◌++◌, [], take};
ghost use Rattle.command_line.specs.Kinds.{is_asciicast, kind_of, told, longest_mark};

/// As many bytes as the longest mark has.
const LONGEST: usize = 14;

/// What a stream is that is no text of a terminal in UTF-8.
#[derive(Debug, Clone, Copy, PartialEq, Eq)]
pub(crate) enum Kind {
    /// UTF-16.
    Utf16,
    /// A recording by asciinema: the text of the terminal stands in it as strings.
    Asciicast,
}

impl Kind {
    /// What is said of it, after its name.
    pub(crate) fn words(self) -> &'static str {
        match self {
            Kind::Utf16 => {
                "begins as UTF-16 does: iconv -f UTF-16 -t UTF-8 makes UTF-8 of it, which is read"
            }
            Kind::Asciicast => {
                "begins as a recording by asciinema does: asciinema cat writes what its terminal got"
            }
        }
    }
}

/// What a stream is that begins so, as far as these bytes say it.
fn kind_of(bytes: &[u8]) -> Option<Kind>
    ensures { result ≡ kind_of bytes.now }
{
    if bytes.starts_with(b"\xFF\xFE") || bytes.starts_with(b"\xFE\xFF") {
        Some(Kind::Utf16)
    } else if is_asciicast(bytes) {
        Some(Kind::Asciicast)
    } else {
        None
    }
}

/// Whether they are the front of an asciicast of version 2 or 3, with or without blanks.
fn is_asciicast(bytes: &[u8]) -> bool
    ensures { result ≡ is_asciicast bytes.now }
{
    bytes.starts_with(b"{\"version\": 2,")
        || bytes.starts_with(b"{\"version\":2,")
        || bytes.starts_with(b"{\"version\": 3,")
        || bytes.starts_with(b"{\"version\":3,")
}

/// How a stream begins, as far as it has come.
#[derive(Debug, Clone, Copy)]
pub(crate) struct Beginning {
    bytes: [u8; LONGEST],
    count: usize,
    ghost within: { count ≤ 14 },
}

impl Beginning {
    ghost use Rattle.command_line.specs.Beginning.{bytes_of};

    /// Nothing has come.
    pub(crate) fn new() -> Beginning
        ensures { bytes_of result ≡ [] }
    {
        Beginning {
            bytes: [0; LONGEST],
            count: 0,
        }
    }

    /// Takes the next piece, and answers what the stream is, where this piece says it first.
    pub(crate) fn take(&mut self, piece: &[u8]) -> Option<Kind>
        ensures bytes { bytes_of self.new ≡ take longest_mark (bytes_of self.old ++ piece.now) }
        ensures told { result ≡ told (bytes_of self.old) (bytes_of self.new) }
    {
        let more = piece.len().min(LONGEST - self.count);
        if more == 0 {
            return None;
        }
        let before = kind_of(&self.bytes[..self.count]);
        self.bytes[self.count..self.count + more].copy_from_slice(&piece[..more]);
        self.count += more;
        match before {
            Some(_) => None,
            None => kind_of(&self.bytes[..self.count]),
        }
    }
}
