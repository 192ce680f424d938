//! How keys are told beyond the modes.
ghost use Rattle.std.specs.Prelude.{◌≡◌, ◌≤◌, ◌<◌, [], length};
ghost use Rattle.ansi_modes.specs.Keys.{other_keys, known_flags, flags_of, max_stacked, changed_flags, with_flags, pushed_flags, popped_flags};

use arrayvec::ArrayVec;
use std::marker::Model;

/// So many times flags are kept.
const MAX_STACKED: usize = 8;

/// The flags that are known.
const KNOWN: u16 = 32;

/// The flags of kitty's keyboard protocol that are in force on a screen, and those before them.
#[derive(Drop)]
pub struct KeyFlags {
    stack: ArrayVec<u16, MAX_STACKED>,
}

impl Model for KeyFlags {
    ghost use Rattle.std.specs.Prelude.{ℕ, List};

    ghost Value = { List ℕ };

    ghost view = { λ flags. flags.stack.items };
}

/// The level of modifyOtherKeys that a number asks for.
#[tactic(auto, unfolding(crate::specs::Keys::other_keys))]
pub(crate) fn other_keys(value: u16) -> u16
    ensures { result ≡ other_keys value }
{
    if value <= 2 { value } else { 0 }
}

/// The flags after CSI = FLAGS ; HOW u.
#[tactic(auto, unfolding(crate::specs::Keys::changed_flags))]
fn changed_flags(how: u16, flags: u16, old: u16) -> u16
    ensures { result ≡ changed_flags how flags old }
{
    let known = flags % KNOWN;
    match how {
        0 | 1 => known,
        2 => old | known,
        3 => old & (31 - known),
        _ => old,
    }
}

impl KeyFlags {
    /// None were asked for.
    pub(crate) fn new() -> KeyFlags
        ensures { result ≡ [] }
    {
        KeyFlags {
            stack: ArrayVec::new(),
        }
    }

    /// Others that are the same.
    pub(crate) fn copy(&self) -> KeyFlags
        ensures { result ≡ self.now }
    {
        let mut stack = ArrayVec::new();
        let _fits = stack.try_extend_from_slice(self.stack.as_slice());
        KeyFlags { stack }
    }

    /// The flags in force: 1 disambiguates escape codes, 2 tells kinds of events, 4 alternate keys, 8 all keys as escape
    /// codes, 16 the text of a key.
    pub fn in_force(&self) -> u16
        ensures { result ≡ flags_of self.now }
    {
        match self.stack.as_slice() {
            [.., last] => *last,
            [] => 0,
        }
    }

    /// How often they were kept, those in force among them.
    pub fn depth(&self) -> usize
        ensures depth { result ≡ length self.now }
        ensures bound { result ≤ max_stacked }
    {
        self.stack.len()
    }

    /// Those in force are others.
    pub(crate) fn set(&mut self, how: u16, flags: u16)
        ensures { self.new ≡ with_flags how flags self.old }
    {
        let old = self.in_force();
        let kept = self.stack.len().saturating_sub(1);
        self.stack.truncate(kept);
        self.stack.push(changed_flags(how, flags, old));
    }

    /// Others come on top.
    pub(crate) fn push(&mut self, flags: u16)
        ensures { self.new ≡ pushed_flags flags self.old }
    {
        if self.stack.is_full() {
            self.stack.remove(0);
        }
        self.stack.push(flags % KNOWN);
    }

    /// So many leave; one, where no number is given.
    pub(crate) fn pop(&mut self, count: u16)
        ensures { self.new ≡ popped_flags count self.old }
    {
        let kept = self.stack.len().saturating_sub(usize::from(count).max(1));
        self.stack.truncate(kept);
    }
}
