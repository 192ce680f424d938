//! One line for each call of the parser.
ghost use Rattle.std.specs.Prelude.{◌≡◌, ◌++◌, [], ◌∷◌, ◌<◌, ℕ, List, ⊤, None, OnOk, map, refl};
ghost use Rattle.parselog.specs.Lines.{line, lines, hex_digit, hex_byte, hex_list, four_digits, character_number, truth, parts_text, end_text, line_header, newline};
ghost use Rattle.anstyle_parse.specs.Stream.Call.{Call, print, execute, hook, put, unhook, osc_dispatch, csi_dispatch, esc_dispatch};
ghost use Rattle.anstyle_parse.specs.declared.io.output.Output.{Output as AnOutput};
ghost use Rattle.anstyle_parse.specs.Io.Output.{Adds, Finishes, writer_in, fault_in};

use anstyle_parse::io::{CallWriter, Fault, Output, Sink, WritingPerformer};
use anstyle_parse::{Params, Perform, PerformText};

/// Writes a line for each call.
///
/// Nothing is collected and no memory is taken: each part of a line goes to the writer as it is
/// made, in several writes, which a [`Buffer`](anstyle_parse::io::Buffer) before it makes few.
/// A write that fails stops the log: nothing more is written, and the fault is kept.
#[derive(Drop)]
pub struct LogWriter<W> {
    output: Output<W>,
}

impl<W: Sink> LogWriter<W> {
    ghost use Rattle.parselog.specs.Log.{output_of};

    /// A log that has written nothing and holds no fault.
    pub fn new(writer: W) -> LogWriter<W>
        ensures writer { writer_in (output_of result) ≡ writer }
        ensures no_fault { fault_in (output_of result) ≡ None }
    {
        LogWriter {
            output: Output::new(writer),
        }
    }

    /// The fault that stopped the log.
    pub fn fault(&self) -> Option<Fault>
        ensures { result ≡ fault_in (output_of self.now) }
    {
        self.output.fault()
    }

    /// Hands the writer back, and answers the fault that stopped the log. Where there is
    /// none, the writer is flushed once, and a flush that fails is [`Fault::Flush`].
    /// Nothing is written.
    pub fn finish(self) -> (W, Result<(), Fault>)
        ensures finishes { Finishes W.Sink (output_of self) result.0 result.1 }
        ensures handed_on { OnOk result.1 (W.holds_nothing result.0) }
    {
        self.output.finish()
    }
}

/// The hexadecimal digits.
const DIGITS: [u8; 16] = *b"0123456789ABCDEF";

/// The last hexadecimal digit of a number.
#[inline(always)]
fn digit(number: u32) -> u8
    ensures { result ≡ hex_digit number }
{
    DIGITS[(number % 16) as usize]
}

/// The last four hexadecimal digits of a number, and the end of a line.
#[inline(always)]
fn last_digits(number: u32) -> [u8; 5]
    ensures { result ≡ four_digits number ++ newline ∷ [] }
{
    [
        digit(number / 0x1000),
        digit(number / 0x100),
        digit(number / 0x10),
        digit(number),
        b'\n',
    ]
}

impl<W: Sink> Perform for LogWriter<W> {
    ghost use Rattle.parselog.specs.Log.{output_of};

    ghost means = { λ old call new. Adds W.Sink (line call) (output_of old) (output_of new) };

    fn print(&mut self, c: char) {
        self.output.put(b"print U+");
        put_number(&mut self.output, c);
    }

    fn execute(&mut self, byte: u8) {
        self.output.put(b"execute ");
        put_last_byte(&mut self.output, byte);
    }

    fn hook(&mut self, params: &Params, intermediates: &[u8], ignore: bool, action: u8) {
        self.header(b"hook ", params, intermediates, ignore, action);
    }

    fn put(&mut self, byte: u8) {
        self.output.put(b"put ");
        put_last_byte(&mut self.output, byte);
    }

    fn unhook(&mut self) {
        self.output.put(b"unhook\n");
    }

    fn osc_dispatch(&mut self, params: &[&[u8]], bell_terminated: bool) {
        self.output.put(b"osc_dispatch ");
        self.output.put(truth_text(bell_terminated));
        put_parts(&mut self.output, params);
        self.output.put_byte(b'\n');
    }

    fn csi_dispatch(&mut self, params: &Params, intermediates: &[u8], ignore: bool, action: u8) {
        self.header(b"csi_dispatch ", params, intermediates, ignore, action);
    }

    fn esc_dispatch(&mut self, intermediates: &[u8], ignore: bool, byte: u8) {
        self.output.put(b"esc_dispatch ");
        put_end(&mut self.output, intermediates, ignore, byte);
    }
}

/// A text is a line for each of its characters.
impl<W: Sink> PerformText for LogWriter<W> {
    ghost use Rattle.anstyle_parse.specs.Io.Output.{AddsTexts};
    ghost use Rattle.anstyle_parse.specs.Io.AddingProof.{AddsTexts-follows};
    ghost use Rattle.parselog.specs.Log.{output_of};

    ghost receives = { AddsTexts W.Sink output_of line };

    ghost follows = { AddsTexts-follows W.Sink output_of line };
}

/// The lines have no ending.
impl<W: Sink> WritingPerformer<W> for LogWriter<W> {
    ghost use Rattle.parselog.specs.Log.{output_of};

    ghost output_in = { output_of };

    ghost text_from = { λ _. lines };

    fn output(&self) -> &Output<W> {
        &self.output
    }

    fn pass_on(&mut self) {
        self.output.pass_on();
    }

    fn into_output(self) -> Output<W> {
        self.output
    }

    ghost adds = { λ _ _ _ received. received };

    ghost ends = { λ _ _ _ _ _. refl };
}

impl<W: Sink> CallWriter<W> for LogWriter<W> {
    ghost use Rattle.parselog.specs.Log.{output_of};

    ghost is_new = { λ _. ⊤ };

    ghost text = { lines };

    fn over(output: Output<W>) -> LogWriter<W>
        ensures output { output_of result ≡ output }
        ensures new { ⊤ }
    {
        LogWriter { output }
    }

    ghost text_of_new = { λ _ _ _. refl };

    ghost ending_of_new = { λ _ _ _. refl };
}

impl<W: Sink> LogWriter<W> {
    ghost use Rattle.anstyle_parse.specs.Views.Params.{groups_shown};
    ghost use Rattle.parselog.specs.Log.{output_of};

    /// The line of a call with a header.
    fn header(
        &mut self,
        name: &[u8],
        params: &Params,
        intermediates: &[u8],
        ignore: bool,
        action: u8,
    )
        ensures { Adds W.Sink
            ((name.now ++ line_header (groups_shown params.now) intermediates.now ignore action) ++ newline ∷ [])
            (output_of self.old) (output_of self.new) }
    {
        self.output.put(name);
        self.output.put_byte(b'[');
        self.output.put_groups(params);
        self.output.put(b"] ");
        put_end(&mut self.output, intermediates, ignore, action);
    }
}

/// A truth value as a word.
fn truth_text(value: bool) -> &'static [u8]
    ensures { result.now ≡ truth value }
{
    if value { b"true" } else { b"false" }
}

/// A character's number, in at least four digits, and the end of a line.
fn put_number<W: Sink>(output: &mut Output<W>, c: char)
    ensures { Adds W.Sink (character_number c ++ newline ∷ []) output.old output.new }
{
    let n = u32::from(c);
    if n >= 0x10_0000 {
        output.put(&[digit(n / 0x10_0000), digit(n / 0x1_0000)]);
    } else if n >= 0x1_0000 {
        output.put_byte(digit(n / 0x1_0000));
    }
    output.put(&last_digits(n));
}

/// A byte in two digits, and the end of a line.
fn put_last_byte<W: Sink>(output: &mut Output<W>, byte: u8)
    ensures { Adds W.Sink (hex_byte byte ++ newline ∷ []) output.old output.new }
{
    let n = u32::from(byte);
    output.put(&[digit(n / 16), digit(n), b'\n']);
}

/// Bytes in hexadecimal, with nothing between them, and `-` where there are none.
fn put_hex<W: Sink>(output: &mut Output<W>, bytes: &[u8])
    ensures { Adds W.Sink (hex_list bytes.now) output.old output.new }
{
    if bytes.is_empty() {
        output.put_byte(b'-');
        return;
    }
    for byte in bytes {
        let n = u32::from(*byte);
        output.put(&[digit(n / 16), digit(n)]);
    }
}

/// The parts of an operating system command, each with a space before it.
fn put_parts<W: Sink>(output: &mut Output<W>, parts: &[&[u8]])
    ensures { Adds W.Sink (parts_text (map (λ part. part.now) parts.now)) output.old output.new }
{
    for part in parts {
        output.put_byte(b' ');
        put_hex(output, part);
    }
}

/// The end of a line with intermediates: these, whether more came than are shown, and the
/// final byte.
fn put_end<W: Sink>(output: &mut Output<W>, intermediates: &[u8], ignore: bool, byte: u8)
    ensures { Adds W.Sink (end_text intermediates.now ignore byte ++ newline ∷ []) output.old output.new }
{
    let n = u32::from(byte);
    put_hex(output, intermediates);
    output.put_byte(b' ');
    output.put(truth_text(ignore));
    output.put(&[b' ', digit(n / 16), digit(n), b'\n']);
}
