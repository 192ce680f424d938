//! What takes bytes, as a caller writes it.
ghost use Rattle.std.specs.Prelude.{⊤};

use super::{assert_same, flags, shift, typed};
use std::process::Abort;
use terminal_keys::{Event, Modifiers, Stroke, TakeBytes};

/// How many bytes there were.
#[derive(Drop)]
struct Length {
    bytes: usize,
}

impl TakeBytes for Length {
    ghost takes = { λ _ _ _. ⊤ };

    fn take(&mut self, text: &[u8]) {
        self.bytes = self.bytes.saturating_add(text.len());
    }

    ghost joins = { record { none = λ _. tt; more = λ _ _ _ _ _ _ _. tt } };
}

/// The longest key: two characters of seven digits, three modifiers, a repetition, and what it types.
#[test]
fn longest(rt: HostRuntime) {
    let locks = Modifiers {
        caps_lock: true,
        num_lock: true,
        ..shift()
    };
    let stroke = Stroke {
        event: Event::Repeat,
        ..typed('\u{10FFFD}', '\u{10FFFE}', locks)
    };
    let mut length = Length { bytes: 0 };
    stroke.text(flags(31)).write(&mut length);
    assert_same(&rt, &length.bytes, &32);
}
