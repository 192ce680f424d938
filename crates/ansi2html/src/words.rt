//! The words of the program: what its options say.
ghost use Rattle.std.specs.Prelude.{◌≡◌, codes, map, string_bytes, option_copied, unwrap_or};
ghost use Rattle.std.specs.List.{list_all};
ghost use Rattle.command_line.specs.Options.{last_value};
ghost use Rattle.ansi2html.specs.Words.{form_after, form_of, is_of_a_page, says_of_a_page, styling_of, asks_for_stylesheet, is_tag_byte, is_tag, language_of, asks_for_lines, asks_to_scroll, asks_for_urls, asks_for_no_hidden};

use crate::form::{Form, LANGUAGE};
use ansi_html::{Scheme, Styling};
use command_line::{OUTPUT, Outputs, has_word, value_of};
use screen_text::SHOWN;

/// The options: `page` is the word of earlier versions.
pub const OPTIONS: &[&str] = &[
    "--page",
    "page",
    "--fragment",
    TITLED,
    STYLED_BY,
    IN_LANGUAGE,
    "--light",
    "--dark",
    "--classes",
    "--stylesheet",
    "--lines",
    "--scroll",
    "--urls",
    "--no-hidden",
    SHOWN,
    "--shown=",
    OUTPUT,
];

/// What stands before a title.
const TITLED: &str = "--title=";

/// What stands before the address of a stylesheet.
const STYLED_BY: &str = "--css=";

/// What stands before a language.
const IN_LANGUAGE: &str = "--lang=";

/// The greatest length of the tag of a language.
const MOST_OF_A_TAG: usize = 64;

/// What it writes of files.
pub const PAGES: Outputs<'static> = Outputs {
    word: "page",
    extension: ".html",
};

/// What is said of a language that is no tag.
pub const NO_LANGUAGE: &str =
    "ansi2html: a language is a tag of letters, digits and hyphens, as en or pt-BR, 64 at most (see ansi2html --help)";

/// What is said where a fragment is asked for, and something that only a page has.
pub const NOT_OF_A_PAGE: &str =
    "ansi2html: --fragment is not taken with --title, --css, --lang or --scroll (see ansi2html --help)";

/// What is said where files are named beside `--stylesheet`.
pub const NO_FILES: &str = "ansi2html: --stylesheet reads no file (see ansi2html --help)";

/// What is said where lines are asked for of more than one file, in one page.
pub const ONE_FILE: &str =
    "ansi2html: lines are those of one file, or of each page of a folder (see ansi2html --help)";

/// What `--help` says.
pub const HELP: &str = "\
usage: ansi2html [--page] [--title=TEXT] [--css=ADDRESS] [--lang=TAG] [--scroll]
                 [--light | --dark] [--classes] [--lines] [--urls] [--no-hidden]
                 [--shown | --shown=COLUMNSxROWS] [-o FILE] [FILE]..
       ansi2html --fragment [--light | --dark] [--classes] [--lines] [--urls]
                 [--no-hidden] [--shown | --shown=COLUMNSxROWS] [-o FILE] [FILE]..
       ansi2html --stylesheet [--light | --dark] [-o FILE]

Writes the text of files as a web page, in its colours, or as a fragment, to be put into
a <pre> of another page in UTF-8. Input is UTF-8. Each file is a stream of its own; in
a page each of several stands below its name. With no FILE, or for -, standard input
is read. Words after -- name files, whatever they begin with. A value may also be the
next word, as in --title TEXT.

  --page                  write a whole page, light or dark as its reader has it:
                          what is written without this too, unless --fragment stands
                          before; so does the word page (a file of that name is ./page)
  --fragment              write the text alone, for a <pre> and a newline of another page
  --title=TEXT            write a whole page with this title, in place of its one file's
                          name
  --css=ADDRESS           write a whole page with no rules of its own, but the
                          stylesheet at this address
  --lang=TAG              write a whole page in this language (en)
  --light                 colours for light pages alone
  --dark                  colours for dark pages alone, no lighter than #1e1e1e
  --classes               attributes class in place of style, for sites that
                          forbid inline styles; colours are snapped to the 256
  --lines                 each line in an element of its own with its number, to link
                          to: page.html#L10; numbers are not copied with the text.
                          A page draws them; a fragment needs the rules that
                          --stylesheet writes. For one FILE a page
  --scroll                long lines are not wrapped: the page scrolls
  --urls                  addresses in the text that begin with https://, http:// or
                          mailto: are links too
  --no-hidden             leave out the text that a terminal hides (SGR 8), as
                          Jenkins writes notes into its logs
  --stylesheet            write the stylesheet of classes, lines and pages by --css, and
                          read nothing
  --shown                 write what a terminal showed instead: the lines that
                          scrolled off, and what stands there at the end; of its
                          links the last 1,024 that began are kept. Its size is
                          that which a recording by script says in its first
                          line, and else 1000x100
  --shown=COLUMNSxROWS    the same of this size, from 2x1 to 1000x1000
  -o FILE, --output=FILE  write to FILE, in its place once all went well: it is
                          whole or as it was, and may be one that is read. Where its
                          name ends in /, as in -o pages/, it is a folder, made if it
                          is not there, in which each file has a page of its own:
                          a.log the page pages/a.log.html
  -h, --help              say this
  --version               say which version it is

Examples, a log as a page, a listing, a log whose lines can be linked to, a page for each
of many logs, and a build with its progress bars as they ended:
  ansi2html -o log.html log
  ls --color=always | ansi2html --title 'My files' > listing.html
  ansi2html --lines -o build.html build.log
  ansi2html -o pages/ *.log
  ansi2html --shown recording > build.html
";

/// The form that the words ask for: that of the last of `--page`, or `page`, and `--fragment`, and else a page.
pub fn form(words: &[String]) -> Form
    ensures { result ≡ form_of (map string_bytes words.now) }
{
    let mut form = Form::Page;
    for word in words {
        form = form_after(form, word.as_str());
    }
    form
}

/// The same after one word more.
fn form_after(form: Form, word: &str) -> Form
    ensures { result ≡ form_after form word.now }
{
    if word == "--fragment" {
        Form::Fragment
    } else if word == "--page" || word == "page" {
        Form::Page
    } else {
        form
    }
}

/// Whether the words say something that only a page has.
pub fn says_of_a_page(words: &[String]) -> bool
    ensures { result ≡ says_of_a_page (map string_bytes words.now) }
{
    words.iter().any(|word| is_of_a_page(word.as_str()))
}

/// Whether a word does.
fn is_of_a_page(word: &str) -> bool
    ensures { result ≡ is_of_a_page word.now }
{
    word.starts_with(TITLED)
        || word.starts_with(STYLED_BY)
        || word.starts_with(IN_LANGUAGE)
        || word == "--scroll"
}

/// How styles are said: by classes where a word is `--classes`, and else inline, for these pages.
pub fn styling(words: &[String], scheme: Scheme) -> Styling
    ensures { result ≡ styling_of scheme (map string_bytes words.now) }
{
    if has_word(words, "--classes") {
        Styling::Classes
    } else {
        Styling::Inline(scheme)
    }
}

/// Whether the stylesheet is asked for, in place of HTML.
pub fn asks_for_stylesheet(words: &[String]) -> bool
    ensures { result ≡ asks_for_stylesheet (map string_bytes words.now) }
{
    has_word(words, "--stylesheet")
}

/// The title of the page: the last that the words say, and else this one.
pub fn title_or<'a>(words: &'a [String], other: &'a str) -> &'a str
    ensures { result.now ≡ unwrap_or (last_value (codes "--title=") (map string_bytes words.now)) other.now }
{
    value_of(words, TITLED).unwrap_or(other)
}

/// The address of the stylesheet that a page has in place of rules: the last that the words say, if any.
pub fn stylesheet_address(words: &[String]) -> Option<&str>
    ensures { option_copied result ≡ last_value (codes "--css=") (map string_bytes words.now) }
{
    value_of(words, STYLED_BY)
}

/// The language of the page: the last that the words say. `None` where that is no tag.
pub fn language(words: &[String]) -> Option<&str>
    ensures { option_copied result ≡ language_of (map string_bytes words.now) }
{
    let tag = value_of(words, IN_LANGUAGE).unwrap_or(LANGUAGE);
    if is_tag(tag) { Some(tag) } else { None }
}

/// Whether a text is a tag of a language.
fn is_tag(text: &str) -> bool
    ensures { result ≡ is_tag text.now }
{
    !text.is_empty() && text.len() <= MOST_OF_A_TAG && are_tag_bytes(text.as_bytes())
}

/// Whether all are bytes of tags.
fn are_tag_bytes(bytes: &[u8]) -> bool
    ensures { result ≡ list_all is_tag_byte bytes.now }
{
    bytes.iter().all(|byte| is_tag_byte(*byte))
}

/// Whether a byte may stand in a tag.
fn is_tag_byte(byte: u8) -> bool
    ensures { result ≡ is_tag_byte byte }
{
    matches!(byte, b'0'..=b'9' | b'A'..=b'Z' | b'a'..=b'z' | b'-')
}

/// Whether the text is asked for in lines.
pub fn asks_for_lines(words: &[String]) -> bool
    ensures { result ≡ asks_for_lines (map string_bytes words.now) }
{
    has_word(words, "--lines")
}

/// Whether long lines are asked not to be wrapped.
pub fn asks_to_scroll(words: &[String]) -> bool
    ensures { result ≡ asks_to_scroll (map string_bytes words.now) }
{
    has_word(words, "--scroll")
}

/// Whether addresses in the text are asked for as links.
pub fn asks_for_urls(words: &[String]) -> bool
    ensures { result ≡ asks_for_urls (map string_bytes words.now) }
{
    has_word(words, "--urls")
}

/// Whether text is asked for without what is hidden.
pub fn asks_for_no_hidden(words: &[String]) -> bool
    ensures { result ≡ asks_for_no_hidden (map string_bytes words.now) }
{
    has_word(words, "--no-hidden")
}
