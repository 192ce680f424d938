//! Numbers of lines, and the tag that begins one.
ghost use Rattle.std.specs.Prelude.{◌≡◌, decimal};
ghost use Rattle.anstyle_parse.specs.Io.Output.{Adds};
ghost use Rattle.ansi_html.specs.Lines.{next_number, line_begin};

use anstyle_parse::io::{Output, Sink};

/// The number of the line after that of this number; the greatest stays.
pub(crate) fn next_number(number: u64) -> u64
    ensures { result ≡ next_number number }
{
    if number < u64::MAX {
        number + 1
    } else {
        number
    }
}

/// Writes a number in decimal, without leading zeros.
fn put_number<W: Sink>(output: &mut Output<W>, number: u64)
    ensures { Adds W.Sink (decimal number) output.old output.new }
{
    if number >= 10 {
        put_number(output, number / 10);
    }
    output.put_byte(b'0' + (number % 10) as u8);
}

/// Begins the element of a line, which has its number: its `id`, and a link of no text to it.
pub(crate) fn put_line_begin<W: Sink>(output: &mut Output<W>, number: u64)
    ensures { Adds W.Sink (line_begin number) output.old output.new }
{
    output.put(b"<span id=\"L");
    put_number(output, number);
    output.put(b"\"><a href=\"#L");
    put_number(output, number);
    output.put(b"\" data-line=\"");
    put_number(output, number);
    output.put(b"\"></a>");
}
