//! Control functions by their final byte.
ghost use Rattle.std.specs.Prelude.{◌≡◌};
ghost use Rattle.ansi_screen.specs.After.{function_of, is_known};

/// Edits of cells.
#[derive(Clone, Copy)]
pub(crate) enum Edit {
    /// ICH
    InsertCharacters,
    /// ED
    EraseInDisplay,
    /// EL
    EraseInLine,
    /// IL
    InsertLines,
    /// DL
    DeleteLines,
    /// DCH
    DeleteCharacters,
    /// ECH
    EraseCharacters,
}

impl Edit {
    /// Whether its number has a meaning: one that has none changes nothing.
    #[tactic(auto, unfolding(crate::specs::After::is_known))]
    pub(crate) fn is_known(self, number: u16) -> bool
        ensures { result ≡ is_known self number }
    {
        match self {
            Edit::EraseInDisplay | Edit::EraseInLine => number <= 2,
            _ => true,
        }
    }
}

/// Moves of the cursor.
#[derive(Clone, Copy)]
pub(crate) enum Move {
    /// CUU
    Up,
    /// CUD
    Down,
    /// CUF, HPR
    Forward,
    /// CUB
    Back,
    /// CNL
    NextLine,
    /// CPL
    PrecedingLine,
    /// CHA, HPA
    Column,
    /// VPA
    Line,
    /// VPR
    LineForward,
    /// CUP, HVP
    Position,
    /// CBT
    BackTab,
}

/// Other functions. Edits and moves first end a pending wrap; these do not.
#[derive(Clone, Copy)]
pub(crate) enum Setting {
    /// SGR
    Rendition,
    /// SM
    SetModes,
    /// RM
    ResetModes,
    /// DECSTBM
    Margins,
    /// SU
    ScrollUp,
    /// SD
    ScrollDown,
    /// CHT
    ForwardTab,
    /// TBC
    ClearStops,
    /// SCOSC
    SaveCursor,
    /// SCORC
    RestoreCursor,
}

/// What a control sequence without intermediates does.
#[derive(Clone, Copy)]
pub(crate) enum Function {
    Edits(Edit),
    Moves(Move),
    Sets(Setting),
    Nothing,
}

impl Function {
    /// The function of a final byte.
    #[tactic(auto, unfolding(crate::specs::After::function_of))]
    pub(crate) fn of(final_byte: u8) -> Function
        ensures { result ≡ function_of final_byte }
    {
        match final_byte {
            b'@' => Function::Edits(Edit::InsertCharacters),
            b'A' => Function::Moves(Move::Up),
            b'B' => Function::Moves(Move::Down),
            b'C' => Function::Moves(Move::Forward),
            b'D' => Function::Moves(Move::Back),
            b'E' => Function::Moves(Move::NextLine),
            b'F' => Function::Moves(Move::PrecedingLine),
            b'G' => Function::Moves(Move::Column),
            b'H' => Function::Moves(Move::Position),
            b'I' => Function::Sets(Setting::ForwardTab),
            b'J' => Function::Edits(Edit::EraseInDisplay),
            b'K' => Function::Edits(Edit::EraseInLine),
            b'L' => Function::Edits(Edit::InsertLines),
            b'M' => Function::Edits(Edit::DeleteLines),
            b'P' => Function::Edits(Edit::DeleteCharacters),
            b'S' => Function::Sets(Setting::ScrollUp),
            b'T' => Function::Sets(Setting::ScrollDown),
            b'X' => Function::Edits(Edit::EraseCharacters),
            b'Z' => Function::Moves(Move::BackTab),
            b'`' => Function::Moves(Move::Column),
            b'a' => Function::Moves(Move::Forward),
            b'd' => Function::Moves(Move::Line),
            b'e' => Function::Moves(Move::LineForward),
            b'f' => Function::Moves(Move::Position),
            b'g' => Function::Sets(Setting::ClearStops),
            b'h' => Function::Sets(Setting::SetModes),
            b'l' => Function::Sets(Setting::ResetModes),
            b'm' => Function::Sets(Setting::Rendition),
            b'r' => Function::Sets(Setting::Margins),
            b's' => Function::Sets(Setting::SaveCursor),
            b'u' => Function::Sets(Setting::RestoreCursor),
            _ => Function::Nothing,
        }
    }
}
