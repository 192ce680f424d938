//! Calls, each as its canonical text.
ghost use Rattle.std.specs.Prelude.{◌≡◌, ◌∷◌, [], ◌<◌, ◌≤◌, ◌||◌, nat_lt, IsTrue, if◌then◌else◌};
ghost use Rattle.screen_draw.specs.Draw.{escape, sequence, private_mode, set_or_reset, position, select, charsets_calls, charset_final, plain_calls};
ghost use Rattle.screen_draw.specs.Drawing.{Draws};
ghost use Rattle.ansi_screen.specs.Display.{most_columns, most_rows};

use ansi_screen::{Charsets, Place};
use ansi_style::Style;
use anstyle_parse::io::{Output, Sink};

const ESCAPE: u8 = 0x1B;

const SHIFT_OUT: u8 = 0x0E;

const SHIFT_IN: u8 = 0x0F;

/// The mode of DECOM.
const ORIGIN: u16 = 6;

/// The mode of the alternate screen.
pub(crate) const ALTERNATE: u16 = 1049;

/// ESC and a final byte.
pub(crate) fn put_escape<W: Sink>(output: &mut Output<W>, final_byte: u8)
    requires from { 0x30 ≤ final_byte }
    requires up_to { final_byte ≤ 0x7E }
    requires begins_nothing { IsTrue (nat_lt final_byte 0x50 || nat_lt 0x5F final_byte) }
    ensures { Draws W.Sink (escape final_byte ∷ []) output.old output.new }
{
    output.put(&[ESCAPE, final_byte]);
}

/// A control sequence with a number.
pub(crate) fn put_number<W: Sink>(output: &mut Output<W>, number: u16, final_byte: u8)
    requires from { 0x40 ≤ final_byte }
    requires up_to { final_byte ≤ 0x7E }
    ensures { Draws W.Sink (sequence (number ∷ []) final_byte ∷ []) output.old output.new }
{
    output.put(b"\x1B[");
    output.put_decimal(number);
    output.put_byte(final_byte);
}

/// A control sequence with two numbers.
pub(crate) fn put_numbers<W: Sink>(output: &mut Output<W>, first: u16, second: u16, final_byte: u8)
    requires from { 0x40 ≤ final_byte }
    requires up_to { final_byte ≤ 0x7E }
    ensures { Draws W.Sink (sequence (first ∷ second ∷ []) final_byte ∷ []) output.old output.new }
{
    output.put(b"\x1B[");
    output.put_decimal(first);
    output.put_byte(b';');
    output.put_decimal(second);
    output.put_byte(final_byte);
}

/// The final byte that sets a mode, or resets it.
pub(crate) fn set_or_reset(on: bool) -> u8
    ensures byte { result ≡ set_or_reset on }
    ensures from { 0x40 ≤ result }
    ensures up_to { result ≤ 0x7E }
{
    if on { b'h' } else { b'l' }
}

/// A private mode, set or reset.
pub(crate) fn put_private_mode<W: Sink>(output: &mut Output<W>, mode: u16, on: bool)
    ensures { Draws W.Sink (private_mode mode on ∷ []) output.old output.new }
{
    output.put(b"\x1B[?");
    output.put_decimal(mode);
    output.put_byte(set_or_reset(on));
}

/// CUP.
pub(crate) fn put_position<W: Sink>(output: &mut Output<W>, row: usize, column: usize)
    requires row { row < most_rows }
    requires column { column ≤ most_columns }
    ensures { Draws W.Sink (position row column ∷ []) output.old output.new }
{
    put_numbers(output, row as u16 + 1, column as u16 + 1, b'H');
}

/// The sequence that leads to a style.
pub(crate) fn put_style<W: Sink>(output: &mut Output<W>, style: Style)
    ensures { Draws W.Sink (select style ∷ []) output.old output.new }
{
    style.write_codes(output);
}

/// The final byte that designates line drawing, or letters.
fn charset_final(draws: bool) -> u8
    ensures { result ≡ charset_final draws }
{
    if draws { b'0' } else { b'B' }
}

/// What has G1 used, or G0.
fn shift(uses_g1: bool) -> u8
    ensures { result ≡ if uses_g1 then 0x0E else 0x0F }
{
    if uses_g1 { SHIFT_OUT } else { SHIFT_IN }
}

/// G0 and G1, and which is used.
pub(crate) fn put_charsets<W: Sink>(output: &mut Output<W>, sets: Charsets)
    ensures { Draws W.Sink (charsets_calls sets) output.old output.new }
{
    let g0 = charset_final(sets.g0_draws);
    let g1 = charset_final(sets.g1_draws);
    output.put(&[ESCAPE, b'(', g0, ESCAPE, b')', g1, shift(sets.uses_g1)]);
}

/// Origin mode, or not.
pub(crate) fn put_origin<W: Sink>(output: &mut Output<W>, is_relative: bool)
    ensures { Draws W.Sink (private_mode 6 is_relative ∷ []) output.old output.new }
{
    put_private_mode(output, ORIGIN, is_relative);
}

/// Out of origin mode, letters, plain.
pub(crate) fn put_plain<W: Sink>(output: &mut Output<W>)
    ensures { Draws W.Sink plain_calls output.old output.new }
{
    put_origin(output, false);
    put_charsets(output, Place::home().charsets);
    put_style(output, Style::default());
}
