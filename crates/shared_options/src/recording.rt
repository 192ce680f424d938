//! A stream as its terminal was given it: the size that a recording says, without the line that says it.
ghost use Rattle.std.specs.Prelude.{◌≡◌, IfSome, unwrap_or};
ghost use Rattle.std.specs.Option.{option_or};
ghost use Rattle.ansi_screen.specs.Size.{IsTaken, a_terminal};
ghost use Rattle.shared_options.specs.Recording.{IsBegun};

use ansi_screen::Size;
use anstyle_parse::io::Source;
use each_source::{Begun, MOST_FRONT, read_first_line};
use screen_text::recorded;

/// The size that a stream says in its first line, as script(1) writes it, and the stream without that line. The line is
/// read to the front of this piece, to its end or to as many bytes as there is room for.
pub fn begun<R: Source>(source: R, piece: &mut [u8; MOST_FRONT]) -> (Option<Size>, Begun<'_, R>)
    ensures begun { IsBegun R.Source source result.0 result.1 }
    ensures taken { IfSome result.0 IsTaken }
{
    let mut source = source;
    let count = read_first_line(&mut source, piece);
    let (size, given) = recorded(&piece[..count]);
    (size, Begun::new(given, source))
}

/// The size of the screen: the one that is given, or else the one that a stream says, or else a terminal's.
pub fn screen_size(given: Option<Size>, recorded: Option<Size>) -> Size
    requires given { IfSome given IsTaken }
    requires recorded { IfSome recorded IsTaken }
    ensures size { result ≡ unwrap_or (option_or given recorded) a_terminal }
    ensures taken { IsTaken result }
{
    match (given, recorded) {
        (Some(size), _) | (None, Some(size)) => size,
        (None, None) => Size::of_a_terminal(),
    }
}
