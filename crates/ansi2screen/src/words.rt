//! The words of the program: what its options ask for, and what it says of itself.
ghost use Rattle.std.specs.Prelude.{◌≡◌, map, string_bytes};
ghost use Rattle.ansi2screen.specs.Words.{asks_to_draw, asks_for_updates};

use command_line::{OUTPUT, has_word};
use shared_options::SIZE;

/// The options.
pub const OPTIONS: &[&str] = &[SIZE, DRAW, UPDATES, OUTPUT];

/// What asks for the bytes that draw the screen.
const DRAW: &str = "--draw";

/// What asks for a drawing and the updates after it.
const UPDATES: &str = "--updates";

/// What is said where both are asked for.
pub const BOTH: &str =
    "ansi2screen: --draw and --updates are not taken together (see ansi2screen --help)";

/// What is said where more than one file is named.
pub const MORE_FILES: &str = "ansi2screen: a screen is that of one file (see ansi2screen --help)";

/// What `--help` says.
pub const HELP: &str = "\
usage: ansi2screen [--size=COLUMNSxROWS] [--draw | --updates] [-o FILE] [FILE]

Writes what a terminal's screen shows at the end of a file, as text. Input is UTF-8.
With no FILE, or for -, standard input is read. A word after -- names a file,
whatever it begins with. The size may also be the next word, as in --size 80x24.

The line that script writes at the front of a recording is left out, and where no
size is given the screen has the one that this line says, and else 80x24.

  --size=COLUMNSxROWS     the screen's size, from 2x1 to 1000x1000
  --draw                  write the sequences that make a terminal show it instead
  --updates               write these as input comes, of what differs alone; where a
                          size is given at once, with all that comes, and else after
                          the first line
  -o FILE, --output=FILE  write to FILE, in its place once all went well: it is
                          whole or as it was, and may be the one that is read
  -h, --help              say this
  --version               say which version it is

Example, the last screen of a recording:
  ansi2screen recording
";

/// Whether the words ask for the bytes that draw the screen.
pub fn asks_to_draw(words: &[String]) -> bool
    ensures { result ≡ asks_to_draw (map string_bytes words.now) }
{
    has_word(words, DRAW)
}

/// Whether the words ask for a drawing and the updates after it.
pub fn asks_for_updates(words: &[String]) -> bool
    ensures { result ≡ asks_for_updates (map string_bytes words.now) }
{
    has_word(words, UPDATES)
}
