//! How far a program says that it is.
ghost use Rattle.std.specs.Prelude.{◌≡◌};
ghost use Rattle.ansi_modes.specs.Progress.{no_progress, progress_state_of, percent_in, in_state, state_by};

/// What a bar of progress says beside its percentage.
#[derive(Debug, Clone, Copy, PartialEq, Eq)]
pub enum ProgressState {
    /// No bar is shown.
    Hidden,
    Normal,
    /// It went wrong.
    Failed,
    /// How far it is, is not known.
    Unknown,
    Paused,
}

/// How far a program says that it is.
#[derive(Debug, Clone, Copy, PartialEq, Eq)]
pub struct Progress {
    pub state: ProgressState,
    pub percent: u16,
}

impl ProgressState {
    /// By its number.
    #[tactic(auto, unfolding(crate::specs::Progress::progress_state_of))]
    fn of(number: u16) -> Option<ProgressState>
        ensures { result ≡ progress_state_of number }
    {
        match number {
            0 => Some(ProgressState::Hidden),
            1 => Some(ProgressState::Normal),
            2 => Some(ProgressState::Failed),
            3 => Some(ProgressState::Unknown),
            4 => Some(ProgressState::Paused),
            _ => None,
        }
    }

    /// By its number, if it is one.
    pub(crate) fn by(number: Option<u16>) -> Option<ProgressState>
        ensures { result ≡ state_by number }
    {
        match number {
            Some(number) => ProgressState::of(number),
            None => None,
        }
    }

    /// The percentage in this state.
    #[tactic(auto, unfolding(crate::specs::Progress::percent_in))]
    fn percent(self, given: Option<u16>, old: u16) -> u16
        ensures { result ≡ percent_in self given old }
    {
        match self {
            ProgressState::Hidden => 0,
            ProgressState::Normal => given.unwrap_or(0).min(100),
            ProgressState::Failed => given.unwrap_or(old).min(100),
            ProgressState::Unknown => old,
            ProgressState::Paused => given.unwrap_or(old).min(100),
        }
    }
}

impl Progress {
    /// None is shown.
    pub(crate) fn none() -> Progress
        ensures { result ≡ no_progress }
    {
        Progress {
            state: ProgressState::Hidden,
            percent: 0,
        }
    }

    /// It goes into a state.
    pub(crate) fn set(&mut self, state: ProgressState, given: Option<u16>)
        ensures { self.new ≡ in_state state given self.old }
    {
        self.percent = state.percent(given, self.percent);
        self.state = state;
    }
}
