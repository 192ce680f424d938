//! The control sequences with one mark or intermediate that ask for something.
ghost use Rattle.std.specs.Prelude.{◌≡◌};
ghost use Rattle.ansi_modes.specs.Asked.{function_of};

/// What such a control sequence does.
#[derive(Clone, Copy)]
pub(crate) enum Function {
    /// DECSET
    SetModes,
    /// DECRST
    ResetModes,
    /// DECSTR
    SoftReset,
    /// DECSCUSR
    SetShape,
    /// XTMODKEYS with a value
    ModifyOtherKeys,
    /// XTMODKEYS without one
    DropOtherKeys,
    /// Flags of keys are set, by kitty's protocol.
    SetFlags,
    /// Others come on top of them.
    PushFlags,
    /// Those before them are in force again.
    PopFlags,
}

impl Function {
    /// By the mark, or the intermediate, and the final byte.
    #[tactic(auto, unfolding(crate::specs::Asked::function_of))]
    pub(crate) fn of(mark: u8, final_byte: u8) -> Option<Function>
        ensures { result ≡ function_of mark final_byte }
    {
        match (mark, final_byte) {
            (b'?', b'h') => Some(Function::SetModes),
            (b'?', b'l') => Some(Function::ResetModes),
            (b'!', b'p') => Some(Function::SoftReset),
            (b' ', b'q') => Some(Function::SetShape),
            (b'>', b'm') => Some(Function::ModifyOtherKeys),
            (b'>', b'n') => Some(Function::DropOtherKeys),
            (b'=', b'u') => Some(Function::SetFlags),
            (b'>', b'u') => Some(Function::PushFlags),
            (b'<', b'u') => Some(Function::PopFlags),
            _ => None,
        }
    }
}
