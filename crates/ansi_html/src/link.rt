//! The links of a stream (OSC 8).
ghost use Rattle.std.specs.Prelude.{◌≡◌, true, false, not, nat_lt, [], length, map};
ghost use Rattle.std.specs.List.{concat, list_all};
ghost use Rattle.std.specs.Str.{bytes_eq};
ghost use Rattle.anstyle_parse.specs.Stream.Arguments.{max_osc_bytes};
ghost use Rattle.ansi_html.specs.ShownLinks.{uri_in};
ghost use Rattle.ansi_html.specs.Links.{has_scheme, is_visible, BeginWithVisible, is_linkable, is_link_command, is_whole, uri_of, link_of, kept_link};

use crate::chunks::{CHUNK, are_last_visible, invisibles};
use crate::uri::{MAX_LINK, Uri};
use std::simd::prelude::*;

/// The parts of a command that the parser hands on at most, and the bytes that it stores.
const MAX_PARTS: usize = 16;

const MAX_BYTES: usize = 1024;

/// The link of the last text, and the one for what comes; an empty URI stands for no link. Two places hold them in
/// turn, so that neither is copied where the one becomes the other.
#[derive(Drop)]
pub(crate) struct Links {
    first: Uri,
    second: Uri,
    /// The link of the last text is the second.
    shows_second: bool,
    /// The link for what comes is in the other place; else it is that of the last text.
    has_next: bool,
}

impl Links {
    ghost use Rattle.ansi_html.specs.ShownLinks.{link_at, shown_link, selected_link, has_next};

    /// No link.
    #[inline]
    pub(crate) fn none() -> Links
        ensures shown { shown_link result ≡ [] }
        ensures next { has_next result ≡ false }
    {
        Links {
            first: Uri::new(),
            second: Uri::new(),
            shows_second: false,
            has_next: false,
        }
    }

    /// Becomes the link of the last text and the one for what comes, as they were written down.
    pub(crate) fn resume(&mut self, shown: &[u8], selected: &[u8])
        ensures shown { shown_link self.new ≡ kept_link shown.now }
        ensures selected { selected_link self.new ≡ kept_link selected.now }
    {
        keep(&mut self.first, shown);
        keep(&mut self.second, selected);
        self.shows_second = false;
        self.has_next = true;
    }

    /// The link of the last text.
    #[inline(always)]
    pub(crate) fn shown(&self) -> &[u8]
        ensures { result.now ≡ shown_link self.now }
    {
        self.place(self.shows_second)
    }

    /// The link for what comes.
    #[inline(always)]
    pub(crate) fn selected(&self) -> &[u8]
        ensures { result.now ≡ selected_link self.now }
    {
        self.place(self.shows_second != self.has_next)
    }

    /// The link in one of the two places.
    #[inline(always)]
    fn place(&self, is_second: bool) -> &[u8]
        ensures { result.now ≡ link_at is_second self.now }
    {
        if is_second {
            self.second.as_slice()
        } else {
            self.first.as_slice()
        }
    }

    /// Whether these differ.
    #[inline(always)]
    pub(crate) fn differ(&self) -> bool
        ensures { result ≡ not (bytes_eq (shown_link self.now) (selected_link self.now)) }
    {
        self.has_next && self.first.as_slice() != self.second.as_slice()
    }

    /// Text of the selected link follows.
    #[inline(always)]
    pub(crate) fn show_selected(&mut self)
        ensures shown { shown_link self.new ≡ selected_link self.old }
        ensures selected { selected_link self.new ≡ selected_link self.old }
        ensures next { has_next self.new ≡ false }
    {
        self.shows_second = self.shows_second != self.has_next;
        self.has_next = false;
    }

    /// The last text has no link any more; the one for what comes stays.
    #[inline(always)]
    pub(crate) fn end_shown(&mut self)
        ensures shown { shown_link self.new ≡ [] }
        ensures selected { selected_link self.new ≡ selected_link self.old }
    {
        self.shows_second = self.shows_second != !self.has_next;
        self.has_next = true;
        if self.shows_second {
            self.second.clear();
        } else {
            self.first.clear();
        }
    }

    /// Selects no link.
    pub(crate) fn select_none(&mut self)
        ensures shown { shown_link self.new ≡ shown_link self.old }
        ensures selected { selected_link self.new ≡ [] }
    {
        self.has_next = true;
        if self.shows_second {
            self.first.clear();
        } else {
            self.second.clear();
        }
    }

    /// Selects the link of a command that is OSC 8.
    pub(crate) fn select(&mut self, parts: &[&[u8]])
        ensures shown { shown_link self.new ≡ shown_link self.old }
        ensures selected { selected_link self.new ≡ link_of (map (λ part. part.now) parts.now) }
    {
        self.has_next = true;
        if self.shows_second {
            put_link(&mut self.first, parts);
        } else {
            put_link(&mut self.second, parts);
        }
    }
}

/// A link of a stream: its URI, or none.
#[derive(Drop)]
pub struct Link {
    uri: Uri,
}

impl Link {
    ghost use Rattle.ansi_html.specs.ShownLinks.{link_in};

    /// No link.
    pub fn none() -> Link
        ensures { link_in result ≡ [] }
    {
        Link { uri: Uri::new() }
    }

    /// Its URI; empty for none.
    pub fn uri(&self) -> &[u8]
        ensures { result.now ≡ link_in self.now }
    {
        self.uri.as_slice()
    }

    /// Becomes the link that a command selects which is OSC 8: none where its URI begins with none of `https://`,
    /// `http://` and `mailto:`, has other bytes than 21 to 7E, or was cut.
    pub fn select(&mut self, parts: &[&[u8]])
        ensures { link_in self.new ≡ link_of (map (λ part. part.now) parts.now) }
    {
        put_link(&mut self.uri, parts);
    }

    /// Becomes the same as another.
    pub fn assign(&mut self, other: &Link)
        ensures { link_in self.new ≡ link_in other.now }
    {
        self.uri.clear();
        self.uri.append(other.uri.as_slice());
    }
}

/// Makes a URI the one that a command selects which is OSC 8.
fn put_link(uri: &mut Uri, parts: &[&[u8]])
    ensures { uri_in uri.new ≡ link_of (map (λ part. part.now) parts.now) }
{
    uri.clear();
    if is_whole(parts) {
        put_uri(uri, parts);
        if !is_linkable(uri.as_slice()) {
            uri.clear();
        }
    }
}

/// Keeps the link of a URI that was written down; none where no link has it.
fn keep(link: &mut Uri, uri: &[u8])
    ensures { uri_in link.new ≡ kept_link uri.now }
{
    link.clear();
    if uri.len() <= MAX_LINK && is_linkable(uri) {
        link.append(uri);
    }
}

/// Whether a command is OSC 8.
pub fn is_link_command(parts: &[&[u8]]) -> bool
    ensures { result ≡ is_link_command (map (λ part. part.now) parts.now) }
{
    match parts.split_first() {
        Some((number, _)) => *number == b"8".as_slice(),
        None => false,
    }
}

/// Whether nothing of a command's parts was dropped.
fn is_whole(parts: &[&[u8]]) -> bool
    ensures { result ≡ is_whole (map (λ part. part.now) parts.now) }
{
    parts.len() < MAX_PARTS && are_stored(parts)
}

/// Whether these are fewer bytes than the parser stores.
fn are_stored(parts: &[&[u8]]) -> bool
    ensures { result ≡ nat_lt (length (concat (map (λ part. part.now) parts.now))) max_osc_bytes }
{
    let mut room = MAX_BYTES;
    for part in parts {
        if part.len() >= room {
            return false;
        }
        room -= part.len();
    }
    true
}

/// Writes the URI of a command, with its own separators.
fn put_uri(uri: &mut Uri, parts: &[&[u8]])
    requires empty { uri_in uri.old ≡ [] }
    requires whole { is_whole (map (λ part. part.now) parts.now) ≡ true }
    ensures { uri_in uri.new ≡ uri_of (map (λ part. part.now) parts.now) }
{
    if let [_, _, first, others @ ..] = parts {
        uri.append(first);
        for part in others {
            uri.append(b";");
            uri.append(part);
        }
    }
}

/// Whether a link may have this URI.
#[tactic(auto, unfolding(crate::specs::Links::is_linkable))]
fn is_linkable(uri: &[u8]) -> bool
    ensures { result ≡ is_linkable uri.now }
{
    has_scheme(uri) && are_visible(uri)
}

/// Whether a URI is of one of the three schemes.
#[tactic(auto, unfolding(crate::specs::Links::has_scheme))]
fn has_scheme(uri: &[u8]) -> bool
    ensures { result ≡ has_scheme uri.now }
{
    uri.starts_with(b"https://") || uri.starts_with(b"http://") || uri.starts_with(b"mailto:")
}

/// Whether a URI is ASCII without controls and the space.
fn are_visible(uri: &[u8]) -> bool
    ensures { result ≡ list_all is_visible uri.now }
{
    let rest = after_visible(uri);
    // What is left of a chunk is among the last sixteen bytes.
    rest.len() < CHUNK && are_last_visible(uri) || are_each_visible(rest)
}

/// The same, byte by byte.
#[inline(always)]
fn are_each_visible(bytes: &[u8]) -> bool
    ensures { result ≡ list_all is_visible bytes.now }
{
    bytes.iter().all(|byte| is_visible(*byte))
}

/// What comes after the visible bytes at the front, as far as they are tested sixteen at a time.
#[inline(always)]
fn after_visible(uri: &[u8]) -> &[u8]
    ensures { BeginWithVisible uri.now result.now }
{
    let mut rest = uri;
    'chunks: while let Some((chunk, behind)) = rest.split_first_chunk::<CHUNK>() {
        if invisibles(u8x16::from_array(*chunk)) != 0 {
            break;
        }
        rest = behind;
    }
    rest
}

/// Whether a byte is visible: of ASCII, and neither a control nor the space.
fn is_visible(byte: u8) -> bool
    ensures { result ≡ is_visible byte }
{
    0x21 <= byte && byte <= 0x7E
}
