//! The writing that performers share.
ghost use Rattle.std.specs.Prelude.{◌≡◌, ◌∷◌, [], ℕ, List, decimal, if◌then◌else◌, None, Some, Ok, Err, IsNone, OnSome, OnOk, OnErr, IsTrue, encode_utf8};
ghost use Rattle.std.specs.Bool.{OnTrue};
ghost use Rattle.std.specs.Io.KnownBytes.{Keeps};
ghost use Rattle.anstyle_parse.specs.Stream.Groups.{fields_text, groups_text};
ghost use Rattle.anstyle_parse.specs.Io.Output.{Adds};

use super::{Fault, Sink};
use crate::padded::Padded;
use crate::params::Params;

/// A writer, and the fault that stopped it.
///
/// A performer hands it each call's text, and asks it for the fault. After a fault nothing
/// more is written, and the first fault is kept.
#[derive(Drop)]
pub struct Output<W> {
    writer: W,
    fault: Option<Fault>,
}

impl<W: Sink> Output<W> {
    ghost use Rattle.anstyle_parse.specs.Io.Output.{writer_in, fault_in, HoldsBack, Finishes};

    /// An output with no fault, which has written nothing.
    pub fn new(writer: W) -> Output<W>
        ensures writer { writer_in result ≡ writer }
        ensures no_fault { fault_in result ≡ None }
    {
        Output {
            writer,
            fault: None,
        }
    }

    /// Writes all the bytes, in as many writes as the writer needs. A write that fails is
    /// the fault [`Fault::Write`]; nothing is tried again. After a fault nothing happens.
    #[inline]
    pub fn put(&mut self, bytes: &[u8])
        ensures { Adds W.Sink bytes.now self.old self.new }
    {
        if self.fault.is_some() || bytes.is_empty() {
            return;
        }
        match self.writer.write(bytes) {
            Some(count) if count == bytes.len() => {}
            Some(count) => self.put_rest(&bytes[count..]),
            None => self.fault = Some(Fault::Write),
        }
    }

    /// The same with a text that the writer may copy by a whole chunk.
    #[inline(always)]
    pub fn put_padded(&mut self, text: &Padded<'_>)
        ensures { Adds W.Sink text.now self.old self.new }
    {
        let all = text.as_bytes();
        if self.fault.is_some() || all.is_empty() {
            return;
        }
        match self.writer.write_padded(text) {
            Some(taken) if taken == all.len() => {}
            Some(taken) => self.put_rest(&all[taken..]),
            None => self.fault = Some(Fault::Write),
        }
    }

    /// What one write did not take. It is out of line: a writer that holds bytes back mostly
    /// takes them all.
    #[inline(never)]
    fn put_rest(&mut self, bytes: &[u8])
        requires { fault_in self.old ≡ None }
        ensures { Adds W.Sink bytes.now self.old self.new }
    {
        let mut rest = bytes;
        while !rest.is_empty() {
            match self.writer.write(rest) {
                Some(count) => rest = &rest[count..],
                None => {
                    self.fault = Some(Fault::Write);
                    return;
                }
            }
        }
    }

    /// The same with one byte, which one write takes or not.
    #[inline]
    pub fn put_byte(&mut self, byte: u8)
        ensures { Adds W.Sink (byte ∷ []) self.old self.new }
    {
        if self.fault.is_none() && self.writer.write(&[byte]).is_none() {
            self.fault = Some(Fault::Write);
        }
    }

    /// The same with a text. One of a single byte is written as such, with no copy.
    #[inline]
    pub fn put_text(&mut self, text: &str)
        ensures { Adds W.Sink text.now self.old self.new }
    {
        match text.as_bytes() {
            [byte] => self.put_byte(*byte),
            bytes => self.put(bytes),
        }
    }

    /// The same with a character, in UTF-8.
    #[inline(always)]
    pub fn put_char(&mut self, c: char)
        ensures { Adds W.Sink (encode_utf8 c) self.old self.new }
    {
        if c.is_ascii() {
            self.put_byte(c as u8);
        } else {
            self.put_encoded(c);
        }
    }

    /// The same with a character of several bytes.
    fn put_encoded(&mut self, c: char)
        ensures { Adds W.Sink (encode_utf8 c) self.old self.new }
    {
        let mut bytes = [0; 4];
        self.put(c.encode_utf8(&mut bytes).as_bytes());
    }

    /// Hands on what the writer holds back, as [`Sink::pass_on`] has it. After a fault nothing
    /// happens.
    pub fn pass_on(&mut self)
        ensures { Adds W.Sink [] self.old self.new }
    {
        if self.fault.is_none() {
            self.writer.pass_on();
        }
    }

    /// Whether the writer holds bytes back that it could not pass on ([`Sink::is_stuck`]). With false
    /// nothing is known.
    pub fn is_stuck(&self) -> bool
        ensures held { OnTrue result (HoldsBack W.Sink (writer_in self.now)) }
    {
        self.writer.is_stuck()
    }

    /// The fault that stopped it.
    pub fn fault(&self) -> Option<Fault>
        ensures { result ≡ fault_in self.now }
    {
        self.fault
    }

    /// Hands the writer back, and answers the fault that stopped it. Where there is none,
    /// the writer is flushed once, and a flush that fails is [`Fault::Flush`].
    pub fn finish(self) -> (W, Result<(), Fault>)
        ensures finishes { Finishes W.Sink self result.0 result.1 }
        ensures handed_on { OnOk result.1 (W.holds_nothing result.0) }
    {
        let Output { mut writer, fault } = self;
        let answer = match fault {
            Some(fault) => Err(fault),
            None => {
                if writer.flush() {
                    Ok(())
                } else {
                    Err(Fault::Flush)
                }
            }
        };
        (writer, answer)
    }
}

/// Numbers and the parameters of a sequence.
impl<W: Sink> Output<W> {
    ghost use Rattle.anstyle_parse.specs.Views.Params.{groups_shown};

    /// Writes a number in decimal, without leading zeros.
    pub fn put_decimal(&mut self, number: u16)
        ensures { Adds W.Sink (decimal number) self.old self.new }
    {
        if number >= 10 {
            self.put_decimal(number / 10);
        }
        self.put_byte(b'0' + (number % 10) as u8);
    }

    /// Writes the byte that stands before each but the first.
    pub(crate) fn put_separator(&mut self, is_first: bool, separator: u8)
        ensures { Adds W.Sink (if is_first then [] else separator ∷ []) self.old self.new }
    {
        if !is_first {
            self.put_byte(separator);
        }
    }

    /// Writes fields in decimal, with `:` between them.
    fn put_fields(&mut self, fields: &[u16])
        ensures { Adds W.Sink (fields_text fields.now) self.old self.new }
    {
        let mut is_first = true;
        for field in fields {
            self.put_separator(is_first, b':');
            is_first = false;
            self.put_decimal(*field);
        }
    }

    /// Writes the groups of a sequence's parameters: the fields in decimal, with `:` between
    /// the fields of a group and `;` between groups.
    pub fn put_groups(&mut self, params: &Params)
        ensures { Adds W.Sink (groups_text (groups_shown params.now)) self.old self.new }
    {
        let mut is_first = true;
        for group in params.iter() {
            self.put_separator(is_first, b';');
            is_first = false;
            self.put_fields(group);
        }
    }
}
