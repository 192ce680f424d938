//! Laws of styles.
//!
//! Each is the contract of a function that does nothing, but for [`hue_as_number`], which gives a number.
ghost use Rattle.std.specs.Prelude.{◌≡◌, ℕ, List, [], ◌∷◌, ◌++◌, ◌↔◌, IsTrue};
ghost use Rattle.ansi_style.specs.Style.{plain, hue_number};
ghost use Rattle.ansi_style.specs.Rendition.{is_color_code, selected, AreWhole};
ghost use Rattle.ansi_style.specs.Codes.{one};

use crate::style::{Color, Hue, Style, Underline};

/// 0 resets all: what comes before it in a sequence counts no more, where no colour is left
/// open.
pub fn reset()
    ensures alone { (style : Style) → selected (one 0 ∷ []) style ≡ plain }
    ensures forgets { (before after : List (List ℕ)) (style : Style) → AreWhole before
        → selected (before ++ one 0 ∷ after) style ≡ selected after plain }
{}

/// Selecting in two sequences is selecting in one, where the first leaves no colour open.
pub fn joined()
    ensures { (first second : List (List ℕ)) (style : Style) → AreWhole first
        → selected (first ++ second) style ≡ selected second (selected first style) }
{}

/// A colour with colons and a colour with semicolons are the same, whatever follows: `38:5:n`
/// and `38;5;n`; `38:2:r:g:b`, `38:2:space:r:g:b` and `38;2;r;g;b`; likewise after 48 and 58.
pub fn forms()
    ensures indexed { (code n : ℕ) (after : List (List ℕ)) (style : Style)
        → IsTrue (is_color_code code)
        → selected ((code ∷ 5 ∷ n ∷ []) ∷ after) style ≡ selected (one code ∷ one 5 ∷ one n ∷ after) style }
    ensures direct { (code r g b : ℕ) (after : List (List ℕ)) (style : Style)
        → IsTrue (is_color_code code)
        → selected ((code ∷ 2 ∷ r ∷ g ∷ b ∷ []) ∷ after) style
        ≡ selected (one code ∷ one 2 ∷ one r ∷ one g ∷ one b ∷ after) style }
    ensures with_space { (code space r g b : ℕ) (after : List (List ℕ)) (style : Style)
        → IsTrue (is_color_code code)
        → selected ((code ∷ 2 ∷ space ∷ r ∷ g ∷ b ∷ []) ∷ after) style
        ≡ selected (one code ∷ one 2 ∷ one r ∷ one g ∷ one b ∷ after) style }
{}

/// `==` of styles is equality.
pub fn equality()
    ensures { (a b : Style) → (IsTrue (⟦<Style as PartialEq>⟧.eq a b) ↔ (a ≡ b)) }
{}

/// A clone of a style, or of what it is made of, is the same.
pub fn clones()
    ensures styles { (style clone : Style) → ⟦<Style as Clone>⟧.is_clone style clone → clone ≡ style }
    ensures colors { (color clone : Color) → ⟦<Color as Clone>⟧.is_clone color clone → clone ≡ color }
    ensures hues { (hue clone : Hue) → ⟦<Hue as Clone>⟧.is_clone hue clone → clone ≡ hue }
    ensures underlines { (line clone : Underline) → ⟦<Underline as Clone>⟧.is_clone line clone → clone ≡ line }
{}

/// `as u8` gives the number of a hue, 0 to 7: what is added to 30 to select it.
pub fn hue_as_number(hue: Hue) -> u8
    ensures { result ≡ hue_number hue }
{
    hue as u8
}
