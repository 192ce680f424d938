//! The size of a screen that an option names, and the file that it is shown of.
ghost use Rattle.std.specs.Prelude.{◌≡◌, IfOk, IfSome, map, option_copied, string_bytes};
ghost use Rattle.shared_options.specs.Size.{file_of, IsNamed};
ghost use Rattle.ansi_screen.specs.Size.{IsTaken};

use ansi_screen::Size;
use screen_text::NoSize;

/// What stands before a size.
pub const SIZE: &str = "--size=";

/// The size that this text says; with no text none.
pub fn named_size(text: Option<&str>) -> Result<Option<Size>, NoSize>
    ensures named { IsNamed (option_copied text.entry) result }
    ensures taken { IfOk result (λ size. IfSome size IsTaken) }
{
    match text {
        None => Ok(None),
        Some(text) => match Size::parse(text) {
            None => Err(NoSize),
            Some(size) => Ok(Some(size)),
        },
    }
}

/// The file that is read: standard input where none is named. `None` where more than one is.
pub fn named_file(files: &[String]) -> Option<&str>
    ensures { option_copied result ≡ file_of (map string_bytes files.now) }
{
    match files {
        [] => Some("-"),
        [name] => Some(name.as_str()),
        _ => None,
    }
}
