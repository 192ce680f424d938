//! The characters that wait for the next one.
ghost use Rattle.std.specs.Prelude.{◌≡◌, ◌∷◌, [], true, false, IfSome, IfNone};
ghost use Rattle.std.specs.Bool.{OnTrue};
ghost use Rattle.safe_text.specs.Decided.{waits};
ghost use Rattle.safe_text.specs.Held.{held_characters, goes_on};

/// What waits.
#[derive(Debug, Clone, Copy)]
pub enum Held {
    Nothing,
    /// A carriage return: it goes before a line feed.
    Return,
    /// `<`, and `<U`: before `U+` it would look as a character that is written visibly.
    Less,
    LessU,
    /// U+200B, U+200C and U+200D.
    Space,
    NonJoiner,
    Joiner,
    /// U+FE0E and U+FE0F.
    TextSelector,
    EmojiSelector,
}

impl Held {
    /// This character, where it waits.
    #[tactic(auto, unfolding(crate::specs::Classes::is_joiner))]
    pub(crate) fn of(c: char) -> Option<Held>
        ensures waits { IfSome result (λ held. waits c ≡ true) }
        ensures held { IfSome result (λ held. held_characters held ≡ c ∷ []) }
        ensures free { IfNone result (waits c ≡ false) }
    {
        match c {
            '\r' => Some(Held::Return),
            '<' => Some(Held::Less),
            '\u{200B}' => Some(Held::Space),
            '\u{200C}' => Some(Held::NonJoiner),
            '\u{200D}' => Some(Held::Joiner),
            '\u{FE0E}' => Some(Held::TextSelector),
            '\u{FE0F}' => Some(Held::EmojiSelector),
            _ => None,
        }
    }

    /// Whether nothing waits.
    #[inline(always)]
    pub(crate) fn is_nothing(self) -> bool
        ensures { OnTrue result (held_characters self ≡ []) }
    {
        match self {
            Held::Nothing => true,
            _ => false,
        }
    }

    /// Whether it still waits after this character.
    pub(crate) fn goes_on(self, c: char) -> bool
        ensures { result ≡ goes_on self c }
    {
        match self {
            Held::Less => c == 'U',
            _ => false,
        }
    }
}
