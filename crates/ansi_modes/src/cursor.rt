//! The cursor's shape.
ghost use Rattle.std.specs.Prelude.{◌≡◌};
ghost use Rattle.ansi_modes.specs.Cursor.{shape_of};

/// The shape of the cursor.
#[derive(Debug, Clone, Copy, PartialEq, Eq)]
pub enum Shape {
    /// The terminal's own. xterm's is a block.
    Own,
    Block,
    Underline,
    Bar,
}

impl Shape {
    /// DECSCUSR: the shape of this number, and whether it blinks.
    #[tactic(auto, unfolding(crate::specs::Cursor::shape_of))]
    pub fn of(number: u16) -> Option<(Shape, bool)>
        ensures { result ≡ shape_of number }
    {
        match number {
            0 => Some((Shape::Own, true)),
            1 => Some((Shape::Block, true)),
            2 => Some((Shape::Block, false)),
            3 => Some((Shape::Underline, true)),
            4 => Some((Shape::Underline, false)),
            5 => Some((Shape::Bar, true)),
            6 => Some((Shape::Bar, false)),
            _ => None,
        }
    }
}
