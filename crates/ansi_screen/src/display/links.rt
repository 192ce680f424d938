//! Links (OSC 8).
ghost use Rattle.std.specs.Prelude.{◌≡◌, map};
ghost use Rattle.ansi_screen.specs.State.{changed};
ghost use Rattle.ansi_screen.specs.Links.{is_link, begins_link, links_after, link_after, commanded};

use super::Display;

/// So many links have a number.
const MAX_LINKS: u32 = u32::MAX;

/// Whether a command is OSC 8.
fn is_link(parts: &[&[u8]]) -> bool
    ensures { result ≡ is_link (map (λ part. part.now) parts.now) }
{
    match parts.split_first() {
        Some((number, _)) => *number == b"8".as_slice(),
        None => false,
    }
}

/// Whether a command begins a link.
fn begins_link(parts: &[&[u8]]) -> bool
    ensures { result ≡ begins_link (map (λ part. part.now) parts.now) }
{
    match parts {
        [number, _, uri, ..] => *number == b"8".as_slice() && !uri.is_empty(),
        _ => false,
    }
}

impl Display {
    /// The number of the link in force; 0, where none is.
    pub(crate) fn link(&self) -> u32
        ensures { result ≡ self.now.display.link }
    {
        self.link
    }

    /// An operating system command: OSC 8 begins a link, where there is a number for it, or ends one.
    #[tactic(auto, unfolding(crate::specs::Links::links_after, crate::specs::Links::link_after))]
    pub(crate) fn command(&mut self, parts: &[&[u8]])
        ensures { self.new ≡ changed (commanded (map (λ part. part.now) parts.now)) self.old }
    {
        if begins_link(parts) && self.links < MAX_LINKS {
            self.links += 1;
            self.link = self.links;
        } else if is_link(parts) {
            self.link = 0;
        }
    }
}
