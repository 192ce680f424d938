//! Accumulators of characters: what puts the bytes of one character together.
ghost use Rattle.std.specs.Prelude.{◌≡◌, ◌<◌, ℕ, List, [], Option, Some, IfSome, Bool, true, false, IsTrue, refl, ⊤};
ghost use Rattle.std.proofs.Common.{ap};
ghost use Rattle.std.proofs.lemmas.Bool.{false≢true};
ghost use Rattle.anstyle_parse.specs.declared.utf8.Taken.{Taken};
ghost use Rattle.anstyle_parse.specs.Machine.Stands.{Decodes};
ghost use Rattle.anstyle_parse.specs.Machine.Step.{IsWhole};

use crate::utf8::{Front, Taken, whole};

/// Puts together the characters that have more than one byte.
///
/// The parser gives it the bytes of such a character, from the first on, by `take`. It answers
/// with the character at its last byte, and with nothing before. A byte that breaks a character
/// is given to it once more where it may begin another.
pub trait CharAccumulator: Default {
    // The bytes of the character that is begun, none at the start of one.
    ghost front: { Self → List ℕ };

    // Which bytes it takes as it stands.
    ghost takes: { Self → ℕ → Type 0 };

    // The value after a byte, and what is answered, by `add` and by `take`.
    ghost adds: { Self → ℕ → Self × Option ℕ };

    ghost taken: { Self → ℕ → Self × Taken };

    // Whether it is the decoder of UTF-8.
    ghost decodes: { Bool };

    /// Takes the next byte. A character is the answer at its last byte; an answer also ends a
    /// character that is broken, and the next byte is at the start of another.
    fn add(&mut self, byte: u8) -> Option<char>
        requires { takes self.old byte }
        ensures after { self.new ≡ (adds self.old byte).0 }
        ensures answer { result ≡ (adds self.old byte).1 };

    /// Takes the next byte, as `add` does, and tells a character that it ends from one that it
    /// breaks. `Broken` is for a byte inside a character: the parser prints what stands for the
    /// character, and handles the byte once more. At the start of a character it is as `Char`.
    fn take(&mut self, byte: u8) -> Taken
        requires { takes self.old byte }
        ensures after { self.new ≡ (taken self.old byte).0 }
        ensures answer { result ≡ (taken self.old byte).1 };

    /// The whole character that begins with `first` and goes on in `behind`, and what comes after
    /// it: what `take` would answer if it were given these bytes one by one, after which the value
    /// would be as it is. Nothing may always be the answer.
    fn whole<'a>(&self, _first: u8, _behind: &'a [u8]) -> Option<(char, &'a [u8])>
        ensures { IfSome result (λ answer. IsWhole taken self.now _first _behind.now answer.0 answer.1.now) }
    {
        None
    }

    // A default value is at the start of a character.
    ghost default_holds_none: { (value : Self) → Self.is_default value → front value ≡ [] };

    // The decoder takes every byte, and its steps are those of The Unicode Standard, Table 3-7.
    ghost follows: { IsTrue decodes → Decodes Self front takes adds taken };
}

/// The accumulator of a parser for which none is named.
pub type DefaultCharAccumulator = Utf8Parser;

/// For streams of ASCII alone: it takes the bytes below 80, and a caller proves that no
/// other comes to it.
///
/// A parser gives its accumulator no ASCII outside a character, and the lead byte of a
/// character, C2..F4, is not ASCII: so a parser with this one never calls it.
#[derive(Default, Clone, Debug, PartialEq, Eq, Drop)]
pub struct AsciiParser;

impl CharAccumulator for AsciiParser {
    ghost front = { λ _. [] };

    ghost takes = { λ _ b. b < 0x80 };

    ghost adds = { λ value b. (value, Some b) };

    ghost taken = { λ value b. (value, Taken.Char b) };

    ghost decodes = { false };

    ghost default_holds_none = { λ _ _. refl };

    ghost follows = { λ h. absurd (false≢true h) };

    /// Answers the byte's character, U+0000 to U+007F.
    #[inline]
    fn add(&mut self, byte: u8) -> Option<char> {
        Some(char::from(byte))
    }

    /// Answers the byte's character, U+0000 to U+007F.
    #[inline]
    fn take(&mut self, byte: u8) -> Taken {
        Taken::Char(char::from(byte))
    }
}

/// The decoder of UTF-8, one byte after another, by The Unicode Standard, Table 3-7.
///
/// It takes every byte and always answers by that table, so that characters are U+0000 to
/// U+10FFFF without the surrogates U+D800 to U+DFFF.
#[derive(Clone, Debug, Default, PartialEq, Eq, Drop)]
pub struct Utf8Parser {
    /// What has come of a character.
    decoder: Front,
}

impl Utf8Parser {
    ghost use Rattle.anstyle_parse.specs.Views.Front.{bytes_of};
    ghost use Rattle.anstyle_parse.specs.Views.Accumulator.{front_of};

    /// What has come of a character.
    pub(crate) fn front(&self) -> Front
        ensures { bytes_of result ≡ front_of self.now }
    {
        self.decoder
    }
}

impl CharAccumulator for Utf8Parser {
    ghost use Rattle.anstyle_parse.specs.Views.Front.{bytes_of};
    ghost use Rattle.anstyle_parse.specs.Views.Accumulator.{front_of, parser_after, parser_added};
    ghost use Rattle.anstyle_parse.specs.Views.DecodingProof.{Decodes-parser_after};

    ghost front = { front_of };

    ghost takes = { λ _ _. ⊤ };

    ghost adds = { parser_added };

    ghost taken = { parser_after };

    ghost decodes = { true };

    ghost default_holds_none = { λ _ none. ap bytes_of none };

    ghost follows = { λ _. Decodes-parser_after };

    /// Takes the next byte.
    ///
    /// At the start of a character 00..7F are answered with U+0000 to U+007F; C2..F4 begin a
    /// character of two to four bytes, and the answer is nothing; 80..C1 and F5..FF are
    /// answered with U+FFFD.
    ///
    /// After a front the byte may complete the character, which is the answer, or go on
    /// with it, and the answer is nothing. Any other byte breaks the character: the answer
    /// is one U+FFFD for the front and this byte, which is used up.
    ///
    /// After an answer the next byte is at the start of a character.
    #[inline(always)]
    fn add(&mut self, byte: u8) -> Option<char> {
        match self.decoder.take(byte) {
            Taken::More => None,
            Taken::Char(c) | Taken::Broken(c) => Some(c),
        }
    }

    /// Takes the next byte, and answers as `add` does, but for a byte that breaks a character
    /// that was begun: the answer is `Broken(U+FFFD)`, for the front alone.
    #[inline(always)]
    fn take(&mut self, byte: u8) -> Taken {
        self.decoder.take(byte)
    }

    /// The whole character at the front, where none is begun.
    #[inline(always)]
    fn whole<'a>(&self, first: u8, behind: &'a [u8]) -> Option<(char, &'a [u8])> {
        match self.decoder {
            Front::Empty => whole(first, behind),
            _ => None,
        }
    }
}
