//! The option by which a program writes what a screen showed.
ghost use Rattle.std.specs.Prelude.{IfOk, IfSome, option_copied};
ghost use Rattle.screen_text.specs.Options.{IsAsked};
ghost use Rattle.screen_text.specs.Recording.{CanBeShown};

use crate::recording::ShownSize;
use ansi_screen::Size;

/// The option; a size may follow after `=`.
pub const SHOWN: &str = "--shown";

/// A text after the option says no size.
#[derive(Clone, Copy, Debug, PartialEq, Eq)]
pub struct NoSize;

/// The size of the screen that is asked for, by the text after the option: with none no screen is, and with an
/// empty one it is that which the stream says.
pub fn screen_size(behind: Option<&str>) -> Result<Option<ShownSize>, NoSize>
    ensures asked { IsAsked (option_copied behind.entry) result }
    ensures taken { IfOk result (λ size. IfSome size CanBeShown) }
{
    match behind {
        None => Ok(None),
        Some("") => Ok(Some(ShownSize::Recorded)),
        Some(text) => match text.strip_prefix("=") {
            None => Err(NoSize),
            Some(text) => match Size::parse(text) {
                None => Err(NoSize),
                Some(size) => Ok(Some(ShownSize::Fixed(size))),
            },
        },
    }
}
