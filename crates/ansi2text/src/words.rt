//! The words of the program: its options, and what it says of itself.
ghost use Rattle.std.specs.Prelude.{◌≡◌, map, string_bytes};
ghost use Rattle.ansi2text.specs.Words.{asks_for_safe, asks_for_line_feeds, asks_for_no_hidden};

use command_line::{OUTPUT, Outputs, has_word};
use screen_text::SHOWN;

/// The options.
pub const OPTIONS: &[&str] = &[SAFE, LINE_FEEDS, NO_HIDDEN, SHOWN, "--shown=", OUTPUT];

/// What asks for safe text.
const SAFE: &str = "--safe";

/// What asks for lines that end with a line feed alone.
const LINE_FEEDS: &str = "--lf";

/// What asks for text without what is hidden.
const NO_HIDDEN: &str = "--no-hidden";

/// What it writes of files.
pub const TEXTS: Outputs<'static> = Outputs {
    word: "text",
    extension: ".txt",
};

/// What `--help` says.
pub const HELP: &str = "\
usage: ansi2text [--safe] [--lf] [--no-hidden] [--shown | --shown=COLUMNSxROWS]
                 [-o FILE] [FILE]..

Writes the text of files without the escapes of terminals: colours, cursor moves,
titles and the like, so that it drives no terminal. Input is UTF-8. Each file is a
stream of its own. With no FILE, or for -, standard input is read. Words after --
name files, whatever they begin with.

  --safe                  write text that hides nothing and keeps its order, to
                          review: controls and characters that show nothing or
                          turn text round are written as <U+202E>, and text that
                          is hidden, or has the colour of its ground, stands
                          between <U+hidden> and <U+shown>; with --shown of what
                          a terminal showed
  --lf                    drop a carriage return right before a line feed, as
                          dos2unix does: each line of a recording by script ends
                          with both; --safe and --shown never write both
  --no-hidden             leave out the text that a terminal hides (SGR 8), as
                          Jenkins writes notes into its logs; with --shown of
                          what a terminal showed
  --shown                 write what a terminal showed instead: the lines that
                          scrolled off, and what stands there at the end. Its
                          size is that which a recording by script says in its
                          first line, and else 1000x100
  --shown=COLUMNSxROWS    the same of this size, from 2x1 to 1000x1000; it may be
                          the next word, as in --shown 120x40
  -o FILE, --output=FILE  write to FILE, in its place once all went well: it is
                          whole or as it was, and may be one that is read. Where
                          its name ends in /, as in -o texts/, it is a folder, made
                          if it is not there, in which each file has a text of its
                          own: a.log the text texts/a.log.txt
  -h, --help              say this
  --version               say which version it is

Examples, a log as text, the text of a build as it runs, that of each of many logs,
the lines of a recording, what a terminal showed, and a stranger's text to review:
  ansi2text log > log.txt
  make 2>&1 | ansi2text -o build.log
  ansi2text -o texts/ *.log
  ansi2text --lf recording > lines.txt
  ansi2text --shown recording
  ansi2text --safe log
";

/// Whether the words ask for safe text.
pub fn asks_for_safe(words: &[String]) -> bool
    ensures { result ≡ asks_for_safe (map string_bytes words.now) }
{
    has_word(words, SAFE)
}

/// Whether the words ask for text without what is hidden.
pub fn asks_for_no_hidden(words: &[String]) -> bool
    ensures { result ≡ asks_for_no_hidden (map string_bytes words.now) }
{
    has_word(words, NO_HIDDEN)
}

/// Whether the words ask for lines that end with a line feed alone.
pub fn asks_for_line_feeds(words: &[String]) -> bool
    ensures { result ≡ asks_for_line_feeds (map string_bytes words.now) }
{
    has_word(words, LINE_FEEDS)
}
