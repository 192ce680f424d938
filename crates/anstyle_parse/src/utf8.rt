//! The decoder of UTF-8, one byte after another (The Unicode Standard, Table 3-7).
//!
//! What it holds of a character is the bytes that have come, and nothing beside them: at
//! each further byte it looks at these again, so that the answer is right whatever it holds.
ghost use Rattle.std.specs.Prelude.{◌≡◌, ◌∷◌, [], IfSome, IsTrue};
ghost use Rattle.std.specs.Char.{InScalarRange};
ghost use Rattle.anstyle_parse.specs.Stream.Bytes.{is_within};
ghost use Rattle.anstyle_parse.specs.Stream.Characters.{character_of, BeginWithWhole};
ghost use Rattle.anstyle_parse.specs.Machine.Decoder.{started, continued, decoded};
ghost use Rattle.anstyle_parse.specs.Views.Front.{bytes_of, front_with, is_front_of, IsStep};

/// What an accumulator answers to a byte that it takes.
#[derive(Debug, Clone, Copy, PartialEq, Eq)]
pub enum Taken {
    /// No character yet: more bytes have to come.
    More,
    /// A character, which this byte ends. The next byte is at the start of another.
    Char(char),
    /// What stands for a character that was begun, and that this byte breaks. The byte is no
    /// part of it, and may itself begin another.
    Broken(char),
}

/// The front of a character: those of its bytes that have come, none at the start of one.
#[derive(Debug, Clone, Copy, PartialEq, Eq, Default)]
pub enum Front {
    #[default]
    Empty,
    One(u8),
    Two(u8, u8),
    Three(u8, u8, u8),
}

impl Front {
    /// Takes the next byte: answers the character that it completes, U+FFFD where it breaks
    /// one or begins none, and nothing where more bytes have to come.
    #[inline(always)]
    pub fn take(&mut self, byte: u8) -> Taken
        ensures after { self.new ≡ front_with (decoded (bytes_of self.old) byte).0 }
        ensures answer { result ≡ (decoded (bytes_of self.old) byte).1 }
    {
        let (front, answer) = match *self {
            Front::Empty => first(byte),
            Front::One(a) => second(a, byte),
            Front::Two(a, b) => third(a, b, byte),
            Front::Three(a, b, c) => fourth(a, b, c, byte),
        };
        *self = front;
        answer
    }
}

/// The whole character that begins with `a` and goes on in `behind`, and what comes after it.
#[inline(always)]
pub fn whole<'a>(a: u8, behind: &'a [u8]) -> Option<(char, &'a [u8])>
    ensures { IfSome result (λ answer. BeginWithWhole (a ∷ behind.now) answer.0 answer.1.now) }
{
    match a {
        0xC2..=0xDF => whole_of_two(a, behind),
        0xE0..=0xEF => whole_of_three(a, behind),
        0xF0..=0xF4 => whole_of_four(a, behind),
        _ => None,
    }
}

#[inline(always)]
fn whole_of_two<'a>(a: u8, behind: &'a [u8]) -> Option<(char, &'a [u8])>
    ensures { IfSome result (λ answer. BeginWithWhole (a ∷ behind.now) answer.0 answer.1.now) }
{
    let (b, rest) = behind.split_first()?;
    if !is_two(a, *b) {
        return None;
    }
    let character = character_of_two(a, *b);
    Some((character, rest))
}

#[inline(always)]
fn whole_of_three<'a>(a: u8, behind: &'a [u8]) -> Option<(char, &'a [u8])>
    ensures { IfSome result (λ answer. BeginWithWhole (a ∷ behind.now) answer.0 answer.1.now) }
{
    let (b, after_b) = behind.split_first()?;
    let (c, rest) = after_b.split_first()?;
    if !begins_three(a, *b) || !is_continuation(*c) {
        return None;
    }
    let character = character_of_three(a, *b, *c);
    Some((character, rest))
}

#[inline(always)]
fn whole_of_four<'a>(a: u8, behind: &'a [u8]) -> Option<(char, &'a [u8])>
    ensures { IfSome result (λ answer. BeginWithWhole (a ∷ behind.now) answer.0 answer.1.now) }
{
    let (b, after_b) = behind.split_first()?;
    let (c, after_c) = after_b.split_first()?;
    let (d, rest) = after_c.split_first()?;
    if !begins_four(a, *b) || !is_continuation(*c) || !is_continuation(*d) {
        return None;
    }
    let character = character_of_four(a, *b, *c, *d);
    Some((character, rest))
}

/// The answer to a byte that breaks a character.
const BROKEN: (Front, Taken) = (Front::Empty, Taken::Broken(char::REPLACEMENT_CHARACTER));

/// The front after the first byte of a character, and the answer.
#[inline(always)]
#[tactic(auto, unfolding(crate::specs::Stream::Bytes::is_within, crate::specs::Stream::Characters::is_lead))]
fn first(a: u8) -> (Front, Taken)
    ensures { IsStep (started a) result }
{
    match a {
        0x00..=0x7F => (Front::Empty, Taken::Char(char::from(a))),
        0xC2..=0xF4 => (Front::One(a), Taken::More),
        _ => (Front::Empty, Taken::Char(char::REPLACEMENT_CHARACTER)),
    }
}

/// The same after the second byte, after the first.
#[inline(always)]
#[tactic(auto, using(crate::proofs::Characters::Decoder::second_byte))]
fn second(a: u8, b: u8) -> (Front, Taken)
    ensures { IsStep (continued (a ∷ b ∷ [])) result }
{
    if is_two(a, b) {
        (Front::Empty, Taken::Char(character_of_two(a, b)))
    } else if begins_three(a, b) || begins_four(a, b) {
        (Front::Two(a, b), Taken::More)
    } else {
        BROKEN
    }
}

/// After the third byte, after two.
#[inline(always)]
#[tactic(auto, using(crate::proofs::Characters::Decoder::third_byte))]
fn third(a: u8, b: u8, c: u8) -> (Front, Taken)
    ensures { IsStep (continued (a ∷ b ∷ c ∷ [])) result }
{
    if !is_continuation(c) {
        BROKEN
    } else if begins_three(a, b) {
        (Front::Empty, Taken::Char(character_of_three(a, b, c)))
    } else if begins_four(a, b) {
        (Front::Three(a, b, c), Taken::More)
    } else {
        BROKEN
    }
}

/// After the fourth byte, after three: the last.
#[inline(always)]
#[tactic(auto, using(crate::proofs::Characters::Decoder::fourth_byte))]
fn fourth(a: u8, b: u8, c: u8, d: u8) -> (Front, Taken)
    ensures { IsStep (continued (a ∷ b ∷ c ∷ d ∷ [])) result }
{
    if begins_four(a, b) && is_continuation(c) && is_continuation(d) {
        (Front::Empty, Taken::Char(character_of_four(a, b, c, d)))
    } else {
        BROKEN
    }
}

/// 80..BF, the bytes that may follow the first, where the table does not name fewer.
#[inline(always)]
#[tactic(auto, unfolding(crate::specs::Stream::Bytes::is_within))]
fn is_continuation(b: u8) -> bool
    ensures { result ≡ is_within 0x80 0xBF b }
{
    matches!(b, 0x80..=0xBF)
}

/// Whether these are the bytes of a character of two.
#[inline(always)]
#[tactic(auto, unfolding(crate::specs::Stream::Bytes::is_within, crate::specs::Views::Front::is_front_of))]
fn is_two(a: u8, b: u8) -> bool
    ensures { result ≡ is_front_of 2 (a ∷ b ∷ []) }
{
    matches!(a, 0xC2..=0xDF) && is_continuation(b)
}

/// Whether a character of three bytes begins with these.
#[inline(always)]
#[tactic(auto, unfolding(crate::specs::Stream::Bytes::is_within, crate::specs::Views::Front::is_front_of))]
fn begins_three(a: u8, b: u8) -> bool
    ensures { result ≡ is_front_of 3 (a ∷ b ∷ []) }
{
    match a {
        0xE0 => matches!(b, 0xA0..=0xBF),
        0xE1..=0xEC | 0xEE..=0xEF => is_continuation(b),
        0xED => matches!(b, 0x80..=0x9F),
        _ => false,
    }
}

/// Whether a character of four bytes begins with these.
#[inline(always)]
#[tactic(auto, unfolding(crate::specs::Stream::Bytes::is_within, crate::specs::Views::Front::is_front_of))]
fn begins_four(a: u8, b: u8) -> bool
    ensures { result ≡ is_front_of 4 (a ∷ b ∷ []) }
{
    match a {
        0xF0 => matches!(b, 0x90..=0xBF),
        0xF1..=0xF3 => is_continuation(b),
        0xF4 => matches!(b, 0x80..=0x8F),
        _ => false,
    }
}

/// The character of two bytes, by their low five and six bits.
#[inline(always)]
#[tactic(auto, using(crate::proofs::Characters::Decoder::scalar_values))]
fn character_of_two(a: u8, b: u8) -> char
    ensures { result ≡ character_of (a ∷ b ∷ []) }
{
    scalar_value(a as u32 % 32 * 64 + b as u32 % 64)
}

/// The character of three bytes, by their low four, six and six bits.
#[inline(always)]
#[tactic(auto, using(crate::proofs::Characters::Decoder::scalar_values))]
fn character_of_three(a: u8, b: u8, c: u8) -> char
    requires { IsTrue (is_front_of 3 (a ∷ b ∷ [])) }
    ensures { result ≡ character_of (a ∷ b ∷ c ∷ []) }
{
    scalar_value((a as u32 % 16 * 64 + b as u32 % 64) * 64 + c as u32 % 64)
}

/// The character of four bytes, by their low three and three times six bits.
#[inline(always)]
#[tactic(auto, using(crate::proofs::Characters::Decoder::scalar_values))]
fn character_of_four(a: u8, b: u8, c: u8, d: u8) -> char
    requires { IsTrue (is_front_of 4 (a ∷ b ∷ [])) }
    ensures { result ≡ character_of (a ∷ b ∷ c ∷ d ∷ []) }
{
    scalar_value(((a as u32 % 8 * 64 + b as u32 % 64) * 64 + c as u32 % 64) * 64 + d as u32 % 64)
}

/// The character of this number. That there is one is required of the caller, so nothing is tested.
#[inline(always)]
fn scalar_value(number: u32) -> char
    requires { InScalarRange number }
    ensures { result ≡ number }
{
    unsafe { char::from_u32_unchecked(number) }
}
