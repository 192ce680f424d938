//! The words of the program: the picture that its options ask for, and what it says of itself.
ghost use Rattle.std.specs.Prelude.{◌≡◌, [], codes, map, string_bytes, unwrap_or};
ghost use Rattle.command_line.specs.Options.{last_value};
ghost use Rattle.ansi2svg.specs.Words.{usual_font, asks_for_all, AsksFor};

use command_line::{OUTPUT, has_word, value_of};
use screen_svg::{Drawing, FONT};
use screen_text::SHOWN;
use shared_options::{SIZE, scheme_of};

/// The options.
pub const OPTIONS: &[&str] = &[
    SIZE, SHOWN, "--light", "--dark", CURSOR, WINDOW, TITLED, IN_FONT, OUTPUT,
];

/// What asks for the cursor.
const CURSOR: &str = "--cursor";

/// What asks for the bar of a window.
const WINDOW: &str = "--window";

/// What stands before a title.
const TITLED: &str = "--title=";

/// What stands before fonts.
const IN_FONT: &str = "--font=";

/// What is said where more than one file is named.
pub const MORE_FILES: &str = "ansi2svg: a picture is that of one file (see ansi2svg --help)";

/// What `--help` says.
pub const HELP: &str = "\
usage: ansi2svg [--size=COLUMNSxROWS] [--shown] [--light | --dark] [--cursor]
                [--window] [--title=TEXT] [--font=FONTS] [-o FILE] [FILE]

Draws what a terminal's screen shows at the end of a file, in its colours: a picture,
as SVG. Input is UTF-8. With no FILE, or for -, standard input is read. A word after
-- names a file, whatever it begins with. A value may also be the next word, as in
--size 80x24.

The line that script writes at the front of a recording is left out, and where no
size is given the screen has the one that this line says, and else 80x24.

  --size=COLUMNSxROWS     the screen's size, from 2x1 to 1000x1000
  --shown                 draw all that the screen showed: the last 1000 rows that
                          left it, and then its own
  --light                 colours for light pages alone, in place of those that the
                          reader of the picture has chosen
  --dark                  colours for dark pages alone
  --cursor                draw the cursor, where the screen shows it
  --window                draw the bar of a window above the screen, with the title
  --title=TEXT            the title of the picture
  --font=FONTS            the fonts, as font-family of CSS has them
  -o FILE, --output=FILE  write to FILE, in its place once all went well: it is
                          whole or as it was, and may be the one that is read
  -h, --help              say this
  --version               say which version it is

Example, the last screen of a recording:
  ansi2svg -o recording.svg recording
";

/// Whether the words ask for all that a screen showed.
pub fn asks_for_all(words: &[String]) -> bool
    ensures { result ≡ asks_for_all (map string_bytes words.now) }
{
    has_word(words, SHOWN)
}

/// The picture that the words ask for.
pub fn drawing(words: &[String]) -> Drawing
    ensures { AsksFor (map string_bytes words.now) result }
{
    Drawing {
        scheme: scheme_of(words),
        cursor: has_word(words, CURSOR),
        window: has_word(words, WINDOW),
    }
}

/// Its title: the last that the words say; an empty one is none.
pub fn title(words: &[String]) -> &str
    ensures { result.now ≡ unwrap_or (last_value (codes "--title=") (map string_bytes words.now)) [] }
{
    value_of(words, TITLED).unwrap_or("")
}

/// Its fonts: the last that the words say, and else the usual ones.
pub fn font(words: &[String]) -> &str
    ensures { result.now ≡ unwrap_or (last_value (codes "--font=") (map string_bytes words.now)) usual_font }
{
    value_of(words, IN_FONT).unwrap_or(FONT)
}
