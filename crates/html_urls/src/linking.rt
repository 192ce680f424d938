//! The performer that makes links of addresses.
ghost use Rattle.std.specs.Prelude.{◌≡◌, ◌≤◌, ◌==◌, [], ◌∷◌, true, false, not, map, count_by, IfSome, IfNone, if◌then◌else◌};
ghost use Rattle.anstyle_parse.specs.Stream.Call.{Call, print};
ghost use Rattle.anstyle_parse.specs.Stream.Texts.{text_calls};
ghost use Rattle.anstyle_parse.specs.Stream.Items.{EachIs};
ghost use Rattle.ansi_html.specs.Links.{is_none, is_link_command, uri_of};
ghost use Rattle.anstyle_parse.specs.Stream.Bytes.{semicolon};
ghost use Rattle.html_urls.specs.Addresses.{max_separators, address_of, target_of, is_link};
ghost use Rattle.html_urls.specs.Linked.{Standing, at_start, standing, link_command, with_room, prints, released, begins, linked_after};
ghost use Rattle.html_urls.specs.Colon.{is_no_colon, EndsOff};

use crate::address::{begins_scheme, is_address, is_of_word, split_address};
use crate::colon::{split_at_colon, split_at_scheme};
use crate::held::{Held, ROOM};
use crate::target::{MAX_SEPARATORS, Target, link_parts, separators, target_of};
use ansi_html::is_link_command;
use anstyle_parse::{Params, Perform, PerformText};

/// Hands all calls on to a performer, and makes links (OSC 8) of the addresses in what is printed.
///
/// An address begins with `https://`, `http://` or `mailto:`, in letters of any case, where no letter, digit, `+`, `-`
/// or `.` stands right before it, and goes on with the characters of a URI or an IRI. Marks at its end, brackets that
/// it does not open, and what looks like an entity are no part of it. Its link has at most 1,022 bytes, three for each
/// byte of a character beyond ASCII, and twelve `;`. Text in a link of the stream's own stays as it is. Any call but a
/// print ends an address. What may become one is held back until it ends.
#[derive(Drop)]
pub struct Linking<P> {
    pub(crate) performer: P,
    held: Held,
    /// The last character is one of a scheme.
    is_within: bool,
    /// A link of the stream's own is open.
    is_linked: bool,
}

/// Hands on characters that are printed.
fn print_each<P: PerformText>(performer: &mut P, text: &[char])
    ensures { P.receives performer.old (prints text.now) performer.new }
{
    for c in text {
        performer.print(*c);
    }
}

/// Begins a link, or, of none, ends it.
fn select_link<P: PerformText>(performer: &mut P, target: &[u8])
    requires few { count_by (λ b. b == semicolon) target.now ≤ max_separators }
    ensures { P.receives performer.old (link_command target.now ∷ []) performer.new }
{
    let (parts, count) = link_parts(target);
    performer.osc_dispatch(&parts[..count], false);
}

/// Begins a link by a command (OSC 8), or, of none, ends the one that is open. A link of more than twelve `;` is none:
/// each of them parts the command, which has no room for more.
pub fn begin_link<P: PerformText>(performer: &mut P, link: &[u8])
    ensures { P.receives performer.old (link_command (with_room link.now) ∷ []) performer.new }
{
    if separators(link) <= MAX_SEPARATORS {
        select_link(performer, link);
    } else {
        select_link(performer, b"");
    }
}

/// What the link has of what was held back, where its front is this address, if that is one and was held whole.
fn link_of(text: &[char], address: &[char]) -> Option<Target>
    requires { address.now ≡ address_of text.now }
    ensures target { IfSome result (λ target. target.items ≡ target_of address.now) }
    ensures few { IfSome result (λ target. count_by (λ b. b == semicolon) target.items ≤ max_separators) }
    ensures link { IfSome result (λ _. is_link text.now ≡ true) }
    ensures none { IfNone result (is_link text.now ≡ false) }
{
    if text.len() < ROOM && is_address(address) {
        target_of(address)
    } else {
        None
    }
}

/// Hands on what was held back: as a link, if it is an address that was held whole, or as it is.
fn hand_on<P: PerformText>(performer: &mut P, text: &[char])
    ensures { P.receives performer.old (released text.now) performer.new }
{
    let (address, behind) = split_address(text);
    match link_of(text, address) {
        Some(target) => {
            select_link(performer, target.as_slice());
            print_each(performer, address);
            select_link(performer, b"");
            print_each(performer, behind);
        }
        None => print_each(performer, text),
    }
}

/// Whether a command that is OSC 8 has a URI.
fn has_uri(parts: &[&[u8]]) -> bool
    ensures { result ≡ not (is_none (uri_of (map (λ part. part.now) parts.now))) }
{
    match parts {
        [_, _, first, others @ ..] => !first.is_empty() || !others.is_empty(),
        _ => false,
    }
}

/// Whether a link of the stream's own is open after a command.
fn linked_after(parts: &[&[u8]], is_linked: bool) -> bool
    ensures { result ≡ (if is_link_command (map (λ part. part.now) parts.now)
        then not (is_none (uri_of (map (λ part. part.now) parts.now))) else is_linked) }
{
    if is_link_command(parts) {
        has_uri(parts)
    } else {
        is_linked
    }
}

impl<P: PerformText> Linking<P> {
    ghost use Rattle.html_urls.specs.Linker.{performer_in, standing_of, TakesCall, Takes, Releases, Begins};

    /// One that hands on to this performer, and has received no call.
    pub fn new(performer: P) -> Linking<P>
        ensures performer { performer_in result ≡ performer }
        ensures standing { standing_of result ≡ at_start }
    {
        Linking {
            performer,
            held: Held::new(),
            is_within: false,
            is_linked: false,
        }
    }

    /// Hands on what is held.
    pub(crate) fn release(&mut self)
        ensures { Releases P.receives self.old self.new }
    {
        if !self.held.as_slice().is_empty() {
            hand_on(&mut self.performer, self.held.as_slice());
            self.held.clear();
        }
    }

    /// Hands on what is held, before a call that is no print.
    fn end_text(&mut self)
        ensures released { P.receives (performer_in self.old) (released (standing_of self.old).held)
            (performer_in self.new) }
        ensures standing { standing_of self.new ≡ standing [] false (standing_of self.old).is_linked }
    {
        self.release();
        self.is_within = false;
    }

    /// Whether an address may begin with the character.
    fn begins(&self, c: char) -> bool
        ensures { result ≡ begins (standing_of self.now) c }
    {
        !self.is_within && begins_scheme(&[c])
    }

    /// A character is printed, where nothing is held: it is, or it is handed on.
    fn take_first(&mut self, c: char)
        ensures { Begins P.receives self.old c self.new }
    {
        if self.begins(c) {
            self.held.begin(c);
        } else {
            self.performer.print(c);
        }
    }

    /// A character is printed, where no link of the stream's own is open.
    fn take_character(&mut self, c: char)
        requires { (standing_of self.old).is_linked ≡ false }
        ensures { TakesCall P.receives self.old (print c) self.new }
    {
        if self.held.take(c) {
            self.is_within = is_of_word(c);
        } else {
            self.release();
            self.take_first(c);
            self.is_within = is_of_word(c);
        }
    }

    /// A text is printed, character by character.
    fn take_each(&mut self, text: &str)
        ensures { Takes P.receives self.old (text_calls text.now) self.new }
    {
        for c in text.chars() {
            self.print(c);
        }
    }

    /// A text is printed in which no address begins, where nothing is held and no link is open: it is handed on.
    fn take_front(&mut self, front: &str)
        requires empty { (standing_of self.old).held ≡ [] }
        requires unlinked { (standing_of self.old).is_linked ≡ false }
        requires clear { EachIs is_no_colon front.now }
        requires ends { EndsOff front.now }
        ensures { Takes P.receives self.old (text_calls front.now) self.new }
    {
        if let Some((last, _)) = front.as_bytes().split_last() {
            self.performer.print_text(front);
            self.is_within = is_of_word(char::from(*last));
        }
    }

    /// A text without a colon is printed, where no link is open.
    fn take_piece(&mut self, piece: &str)
        requires unlinked { (standing_of self.old).is_linked ≡ false }
        requires clear { EachIs is_no_colon piece.now }
        ensures { Takes P.receives self.old (text_calls piece.now) self.new }
    {
        if !self.held.as_slice().is_empty() {
            self.take_each(piece);
            return;
        }
        let (front, rest) = split_at_scheme(piece);
        self.take_front(front);
        self.take_each(rest);
    }

    /// A text is printed, where no link is open: piece by piece, as it is parted by colons.
    fn take_text(&mut self, text: &str)
        requires { (standing_of self.old).is_linked ≡ false }
        ensures { Takes P.receives self.old (text_calls text.now) self.new }
    {
        let mut rest = text;
        'rest: while !rest.is_empty() {
            let (piece, found) = split_at_colon(rest);
            self.take_piece(piece);
            let Some(behind) = found else {
                break;
            };
            self.take_character(':');
            rest = behind;
        }
    }
}

impl<P: PerformText> Perform for Linking<P> {
    ghost use Rattle.html_urls.specs.Linker.{TakesCall};

    ghost means = { TakesCall P.receives };

    fn print(&mut self, c: char) {
        if self.is_linked {
            self.performer.print(c);
        } else {
            self.take_character(c);
        }
    }

    fn execute(&mut self, byte: u8) {
        self.end_text();
        self.performer.execute(byte);
    }

    fn hook(&mut self, params: &Params, intermediates: &[u8], ignore: bool, action: u8) {
        self.end_text();
        self.performer.hook(params, intermediates, ignore, action);
    }

    fn put(&mut self, byte: u8) {
        self.end_text();
        self.performer.put(byte);
    }

    fn unhook(&mut self) {
        self.end_text();
        self.performer.unhook();
    }

    fn osc_dispatch(&mut self, params: &[&[u8]], bell_terminated: bool) {
        self.end_text();
        self.is_linked = linked_after(params, self.is_linked);
        self.performer.osc_dispatch(params, bell_terminated);
    }

    fn csi_dispatch(&mut self, params: &Params, intermediates: &[u8], ignore: bool, action: u8) {
        self.end_text();
        self.performer
            .csi_dispatch(params, intermediates, ignore, action);
    }

    fn esc_dispatch(&mut self, intermediates: &[u8], ignore: bool, byte: u8) {
        self.end_text();
        self.performer.esc_dispatch(intermediates, ignore, byte);
    }
}

/// Text in which no address can begin is handed on at once.
impl<P: PerformText> PerformText for Linking<P> {
    ghost use Rattle.html_urls.specs.Linker.{Takes};
    ghost use Rattle.html_urls.specs.LinkerProof.{Takes-follows};

    ghost receives = { Takes P.receives };

    fn print_text(&mut self, text: &str) {
        if self.is_linked {
            self.performer.print_text(text);
        } else {
            self.take_text(text);
        }
    }

    ghost follows = { Takes-follows P.receives P.means P.follows };
}
