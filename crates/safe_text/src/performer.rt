//! The performer that writes safe text.
ghost use Rattle.std.specs.Prelude.{◌≡◌, ◌%◌, ◌∷◌, [], true, false, encode_utf8, chars, IsUtf8, if◌then◌else◌};
ghost use Rattle.anstyle_parse.specs.Io.Output.{Adds};
ghost use Rattle.anstyle_parse.specs.Stream.Items.{EachIs};
ghost use Rattle.safe_text.specs.Classes.{is_joiner};
ghost use Rattle.safe_text.specs.Safe.{hex_digit, visible, is_line_end};
ghost use Rattle.safe_text.specs.Decided.{waits, decided, undecided};
ghost use Rattle.safe_text.specs.Marks.{mark_of};
ghost use Rattle.safe_text.specs.Plain.{is_plain};

use crate::classes::{is_shown, stays};
use crate::held::Held;
use crate::plain::{Plain, is_plain_padded};
use anstyle_parse::io::{CallWriter, Output, Sink, WritingPerformer};
use anstyle_parse::{Padded, Params, Perform, PerformText};
use lanes::{split_front, split_others};

/// In place of a character, where there is none.
const NONE: char = '\0';

/// Where the safe text of a stream stands.
#[derive(Debug, Clone, Copy)]
pub struct Standing {
    /// The character that is written last: U+0000 where there is none.
    pub before: char,
    /// What waits for the next one.
    pub held: Held,
}

/// Writes each character that is printed and each control that is executed: itself where it shows, is blank or
/// stays between its neighbours, a line feed for the end of a line, and else visibly, as `<U+202E>`. All other
/// calls write nothing.
///
/// [`write_safe`](crate::write_safe) drives it from a reader to a writer. By hand it is made over an
/// [`Output`], and hands it back. No memory is taken. A write that fails stops it: nothing
/// more is written, and the fault is kept. A text in pieces is suspended and resumed where it stands.
#[derive(Drop)]
pub struct SafeWriter<W> {
    output: Output<W>,
    /// The character that is written last: 0 where there is none.
    before: char,
    held: Held,
}

/// A number below 16 as a digit.
#[inline(always)]
#[tactic(auto, unfolding(crate::specs::Safe::hex_digit))]
fn hex_digit(number: u32) -> u8
    ensures { result ≡ hex_digit (number % 16) }
{
    let value = (number % 16) as u8;
    if value < 10 {
        b'0' + value
    } else {
        b'7' + value
    }
}

/// Whether a character ends a line.
#[inline(always)]
fn ends_line(c: char) -> bool
    ensures { result ≡ is_line_end c }
{
    matches!(c, '\n' | '\x0B' | '\x0C')
}

/// Writes a character visibly.
#[inline(never)]
fn put_visible<W: Sink>(output: &mut Output<W>, c: char)
    ensures { Adds W.Sink (visible c) output.old output.new }
{
    let number = u32::from(c);
    let high = hex_digit(number / 0x1000);
    let (third, second) = (hex_digit(number / 0x100), hex_digit(number / 0x10));
    let low = hex_digit(number);
    if number < 0x1_0000 {
        output.put(&[b'<', b'U', b'+', high, third, second, low, b'>']);
    } else if number < 0x10_0000 {
        let fifth = hex_digit(number / 0x1_0000);
        output.put(&[b'<', b'U', b'+', fifth, high, third, second, low, b'>']);
    } else {
        let (sixth, fifth) = (hex_digit(number / 0x10_0000), hex_digit(number / 0x1_0000));
        output.put(&[
            b'<', b'U', b'+', sixth, fifth, high, third, second, low, b'>',
        ]);
    }
}

/// A mark, as it is written.
#[tactic(auto, unfolding(crate::specs::Safe::visible))]
fn mark_text(hidden: bool) -> &'static [u8]
    ensures { result.now ≡ visible (mark_of hidden) }
{
    if hidden { b"<U+hidden>" } else { b"<U+shown>" }
}

impl<W: Sink> SafeWriter<W> {
    ghost use Rattle.safe_text.specs.Held.{held_characters};
    ghost use Rattle.safe_text.specs.Writer.{output_of, before_in, held_in, Takes, Releases};

    /// One that writes to this output, and goes on where the safe text of a stream stands.
    #[inline]
    pub fn resume(standing: Standing, output: Output<W>) -> SafeWriter<W>
        ensures output { output_of result ≡ output }
        ensures before { before_in result ≡ standing.before }
        ensures held { held_in result ≡ held_characters standing.held }
    {
        let before = standing.before;
        let held = standing.held;
        SafeWriter {
            output,
            before,
            held,
        }
    }

    /// Where the safe text stands.
    #[inline]
    pub fn standing(&self) -> Standing
        ensures before { result.before ≡ before_in self.now }
        ensures held { held_characters result.held ≡ held_in self.now }
    {
        let before = self.before;
        let held = self.held;
        Standing { before, held }
    }

    /// Hands the output back. What waits is not written: the text goes on.
    #[inline]
    pub fn suspend(self) -> Output<W>
        ensures { result ≡ output_of self }
    {
        self.output
    }

    /// Writes a character as it is.
    #[inline]
    fn put(&mut self, c: char)
        ensures added { Adds W.Sink (encode_utf8 c) (output_of self.old) (output_of self.new) }
        ensures before { before_in self.new ≡ c }
        ensures held { held_in self.new ≡ held_in self.old }
    {
        self.output.put_char(c);
        self.before = c;
    }

    /// Writes it visibly.
    fn show(&mut self, c: char)
        ensures added { Adds W.Sink (visible c) (output_of self.old) (output_of self.new) }
        ensures before { before_in self.new ≡ 0x3E }
        ensures held { held_in self.new ≡ held_in self.old }
    {
        put_visible(&mut self.output, c);
        self.before = '>';
    }

    /// Writes it in one way or the other.
    fn put_as(&mut self, c: char, visibly: bool)
        ensures added { Adds W.Sink (if visibly then visible c else encode_utf8 c)
            (output_of self.old) (output_of self.new) }
        ensures before { before_in self.new ≡ (if visibly then 0x3E else c) }
        ensures held { held_in self.new ≡ held_in self.old }
    {
        if visibly {
            self.show(c);
        } else {
            self.put(c);
        }
    }

    /// Writes the carriage return that waits, unless a line feed comes.
    fn put_return(&mut self, next: char)
        requires { held_in self.old ≡ 0x0D ∷ [] }
        ensures { Releases W.Sink self.old (next ∷ []) self.new }
    {
        self.held = Held::Nothing;
        if next != '\n' {
            self.show('\r');
        }
    }

    /// Writes `<`, which waits.
    fn put_less(&mut self, next: char)
        requires { held_in self.old ≡ 0x3C ∷ [] }
        ensures { Releases W.Sink self.old (next ∷ []) self.new }
    {
        self.held = Held::Nothing;
        self.put('<');
    }

    /// Writes `<U`, which waits: the `<` visibly, where `+` comes.
    fn put_less_u(&mut self, next: char)
        requires { held_in self.old ≡ 0x3C ∷ 0x55 ∷ [] }
        ensures { Releases W.Sink self.old (next ∷ []) self.new }
    {
        self.held = Held::Nothing;
        self.put_as('<', next == '+');
        self.put('U');
    }

    /// Writes the joiner that waits: as it is, where it stays.
    fn put_joiner(&mut self, c: char, next: char)
        requires held { held_in self.old ≡ c ∷ [] }
        requires joiner { is_joiner c ≡ true }
        ensures { Releases W.Sink self.old (next ∷ []) self.new }
    {
        self.held = Held::Nothing;
        let stays = stays(self.before, c, next);
        self.put_as(c, !stays);
    }

    /// Writes what waits, as `next` comes after it.
    fn release(&mut self, next: char)
        ensures { Releases W.Sink self.old (next ∷ []) self.new }
    {
        match self.held {
            Held::Nothing => {}
            Held::Return => self.put_return(next),
            Held::Less => self.put_less(next),
            Held::LessU => self.put_less_u(next),
            Held::Space => self.put_joiner('\u{200B}', next),
            Held::NonJoiner => self.put_joiner('\u{200C}', next),
            Held::Joiner => self.put_joiner('\u{200D}', next),
            Held::TextSelector => self.put_joiner('\u{FE0E}', next),
            Held::EmojiSelector => self.put_joiner('\u{FE0F}', next),
        }
    }

    /// Writes a character that needs not to wait.
    fn write(&mut self, c: char)
        requires nothing { held_in self.old ≡ [] }
        requires free { waits c ≡ false }
        ensures { Takes W.Sink self.old (c ∷ []) self.new }
    {
        if ends_line(c) {
            self.put('\n');
        } else if is_shown(c) {
            self.put(c);
        } else {
            self.show(c);
        }
    }

    /// Takes a character, where none waits.
    fn begin(&mut self, c: char)
        requires { held_in self.old ≡ [] }
        ensures { Takes W.Sink self.old (c ∷ []) self.new }
    {
        match Held::of(c) {
            Some(held) => self.held = held,
            None => self.write(c),
        }
    }

    /// Takes a character, as one that is printed.
    pub fn take(&mut self, c: char)
        ensures { Takes W.Sink self.old (c ∷ []) self.new }
    {
        if self.held.goes_on(c) {
            self.held = Held::LessU;
        } else {
            self.release(c);
            self.begin(c);
        }
    }

    /// Takes a mark: text begins that is hidden, or that is not.
    #[inline(never)]
    pub fn mark(&mut self, hidden: bool)
        ensures { Takes W.Sink self.old (mark_of hidden ∷ []) self.new }
    {
        self.release(NONE);
        self.output.put(mark_text(hidden));
        self.before = '>';
    }

    /// Takes plain text, where nothing waits: it is written at once.
    #[inline]
    fn put_plain(&mut self, text: &[u8])
        requires nothing { held_in self.old ≡ [] }
        requires plain { EachIs is_plain text.now }
        ensures { Takes W.Sink self.old text.now self.new }
    {
        if let Some(last) = text.last() {
            self.output.put(text);
            self.before = char::from(*last);
        }
    }

    /// The same with a text that may be copied by a whole chunk.
    #[inline(always)]
    fn put_plain_padded(&mut self, text: &Padded<'_>)
        requires nothing { held_in self.old ≡ [] }
        requires plain { EachIs is_plain text.now }
        ensures { Takes W.Sink self.old text.now self.new }
    {
        if let Some(byte) = text.as_bytes().last() {
            self.output.put_padded(text);
            self.before = char::from(*byte);
        }
    }

    /// Takes plain text: until nothing waits, character by character.
    #[inline]
    fn take_plain(&mut self, text: &[u8])
        requires { EachIs is_plain text.now }
        ensures { Takes W.Sink self.old text.now self.new }
    {
        let mut rest = text;
        'waiting: while !self.held.is_nothing() {
            let Some((first, after)) = rest.split_first() else {
                return;
            };
            self.take(char::from(*first));
            rest = after;
        }
        self.put_plain(rest);
    }

    /// Takes the characters of a text, one by one.
    fn take_each(&mut self, text: &str)
        ensures { Takes W.Sink self.old (chars text.now) self.new }
    {
        for c in text.chars() {
            self.take(c);
        }
    }

    /// Takes the characters of a text: what is plain at once.
    #[inline]
    fn take_text(&mut self, text: &str)
        ensures { Takes W.Sink self.old (chars text.now) self.new }
    {
        let mut rest = text;
        'rest: while !rest.is_empty() {
            let (plain, after) = split_front::<Plain>(rest);
            self.take_plain(plain);
            if after.is_empty() {
                break;
            }
            let (others, further) = split_others::<Plain>(after);
            self.take_each(others);
            rest = further;
        }
    }

    /// The same with a text that is given by its bytes. It is out of line, since short texts are mostly plain.
    #[inline(never)]
    fn take_bytes(&mut self, bytes: &[u8])
        requires { IsUtf8 bytes.now }
        ensures { Takes W.Sink self.old (chars bytes.now) self.new }
    {
        match str::from_utf8(bytes) {
            Ok(text) => self.take_text(text),
            Err(_) => unreachable!(),
        }
    }
}

impl<W: Sink> Perform for SafeWriter<W> {
    ghost use Rattle.safe_text.specs.Safe.{characters_of};
    ghost use Rattle.safe_text.specs.Writer.{Takes};

    // It takes the character of the call.
    ghost means = { λ old call new. Takes W.Sink old (characters_of call) new };

    fn print(&mut self, c: char) {
        self.take(c);
    }

    fn execute(&mut self, byte: u8) {
        self.take(char::from(byte));
    }

    fn hook(&mut self, _: &Params, _: &[u8], _: bool, _: u8) {}

    fn put(&mut self, _: u8) {}

    fn unhook(&mut self) {}

    fn osc_dispatch(&mut self, _: &[&[u8]], _: bool) {}

    fn csi_dispatch(&mut self, _: &Params, _: &[u8], _: bool, _: u8) {}

    fn esc_dispatch(&mut self, _: &[u8], _: bool, _: u8) {}
}

/// The characters of a text are taken in order.
impl<W: Sink> PerformText for SafeWriter<W> {
    ghost use Rattle.safe_text.specs.Safe.{characters};
    ghost use Rattle.safe_text.specs.Writer.{Takes};
    ghost use Rattle.safe_text.specs.TakingProof.{TakesCalls-follows};

    ghost receives = { λ old calls new. Takes W.Sink old (characters calls) new };

    fn print_text(&mut self, text: &str) {
        self.take_text(text);
    }

    fn print_with_layout(&mut self, text: &str) {
        self.take_text(text);
    }

    #[inline(always)]
    fn print_padded(&mut self, text: &Padded<'_>) {
        if self.held.is_nothing() && is_plain_padded(text) {
            self.put_plain_padded(text);
        } else {
            self.take_bytes(text.as_bytes());
        }
    }

    /// No character is taken of a control sequence.
    #[inline(always)]
    fn passes_over_control_sequences(&self) -> bool {
        true
    }

    ghost follows = { TakesCalls-follows W.Sink };
}

/// What still waits is written at the end.
impl<W: Sink> WritingPerformer<W> for SafeWriter<W> {
    ghost use Rattle.safe_text.specs.Writer.{output_of, text_from, ending_from};
    ghost use Rattle.safe_text.specs.TakingProof.{ends-taken};

    ghost output_in = { output_of };

    ghost text_from = { text_from };

    ghost ending_from = { ending_from };

    fn output(&self) -> &Output<W> {
        &self.output
    }

    fn pass_on(&mut self) {
        self.output.pass_on();
    }

    fn into_output(self) -> Output<W> {
        let mut writer = self;
        writer.release(NONE);
        writer.output
    }

    ghost adds = { λ _ _ _ taken. taken.added };

    ghost ends = { λ old calls new taken _. ends-taken W.Sink old calls new taken };
}

impl<W: Sink> CallWriter<W> for SafeWriter<W> {
    ghost use Rattle.safe_text.specs.Writer.{output_of, IsNew};
    ghost use Rattle.safe_text.specs.TakingProof.{text_of-new, ending_of-new};

    ghost is_new = { IsNew };

    ghost text = { decided };

    ghost ending = { undecided };

    fn over(output: Output<W>) -> SafeWriter<W>
        ensures output { output_of result ≡ output }
        ensures new { IsNew result }
    {
        SafeWriter {
            output,
            before: NONE,
            held: Held::Nothing,
        }
    }

    ghost text_of_new = { λ performer new calls. text_of-new performer new.before new.held calls };

    ghost ending_of_new = { λ performer new calls. ending_of-new performer new.before new.held calls };
}
