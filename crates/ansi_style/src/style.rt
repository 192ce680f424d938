//! What a style is made of.
ghost use Rattle.std.specs.Prelude.{◌≡◌, ◌&&◌};
ghost use Rattle.std.specs.Bool.{beq};
ghost use Rattle.ansi_style.specs.Style.{are_equal};

/// One of the eight colours that ECMA-48 names, in its order: `as u8` gives 0 to 7, which is
/// added to 30 to select it (`laws::hue_as_number`).
#[derive(Debug, Clone, Copy, PartialEq, Eq)]
pub enum Hue {
    Black,
    Red,
    Green,
    Yellow,
    Blue,
    Magenta,
    Cyan,
    White,
}

/// The colour of text, or of the background behind it.
#[derive(Debug, Clone, Copy, PartialEq, Eq)]
pub enum Color {
    /// The terminal's own.
    Default,
    /// One of the eight: 30 to 37 select it for text, and 40 to 47 for the background.
    Named(Hue),
    /// The same in bright: 90 to 97 select it for text, and 100 to 107 for the background.
    Bright(Hue),
    /// One of xterm's 256: the sixteen named, a cube of 216, and 24 greys.
    Indexed(u8),
    /// By its red, green and blue, 0 to 255 each.
    Direct(u8, u8, u8),
}

/// How text is underlined.
#[derive(Debug, Clone, Copy, PartialEq, Eq)]
pub enum Underline {
    Off,
    Single,
    Double,
    Curly,
    Dotted,
    Dashed,
}

/// How text is shown, as far as Select Graphic Rendition says it.
#[derive(Debug, Clone, Copy, PartialEq, Eq)]
pub struct Style {
    pub foreground: Color,
    pub background: Color,
    pub underline: Underline,
    pub bold: bool,
    pub dim: bool,
    pub italic: bool,
    pub blink: bool,
    /// Foreground and background change places.
    pub reverse: bool,
    pub hidden: bool,
    pub struck_out: bool,
    pub overlined: bool,
}

impl Default for Style {
    ghost use Rattle.ansi_style.specs.Style.{plain};

    ghost is_default = { λ style. style ≡ plain };

    /// The plain style: default colours, and nothing else.
    fn default() -> Style {
        Style {
            foreground: Color::Default,
            background: Color::Default,
            underline: Underline::Off,
            bold: false,
            dim: false,
            italic: false,
            blink: false,
            reverse: false,
            hidden: false,
            struck_out: false,
            overlined: false,
        }
    }
}

/// Whether the attributes are the same: they stand side by side, and are compared at once.
#[inline(always)]
fn has_same_attributes(a: &Style, b: &Style) -> bool
    ensures { result ≡ (beq a.now.bold b.now.bold && (beq a.now.dim b.now.dim
        && (beq a.now.italic b.now.italic && (beq a.now.blink b.now.blink
        && (beq a.now.reverse b.now.reverse && (beq a.now.hidden b.now.hidden
        && (beq a.now.struck_out b.now.struck_out && beq a.now.overlined b.now.overlined))))))) }
{
    (a.bold == b.bold)
        & (a.dim == b.dim)
        & (a.italic == b.italic)
        & (a.blink == b.blink)
        & (a.reverse == b.reverse)
        & (a.hidden == b.hidden)
        & (a.struck_out == b.struck_out)
        & (a.overlined == b.overlined)
}

impl Style {
    /// Whether this style is the same as another, as `==` says it, which compares one attribute after another.
    #[inline(always)]
    #[tactic(auto, unfolding(crate::specs::Style::are_equal))]
    pub fn is_same(&self, other: &Style) -> bool
        ensures { result ≡ are_equal self.now other.now }
    {
        self.foreground == other.foreground
            && self.background == other.background
            && self.underline == other.underline
            && has_same_attributes(self, other)
    }
}
