//! The header of a sequence: its markers and intermediates, and its fields.
ghost use Rattle.std.specs.Prelude.{◌≡◌, ◌≤◌, ◌<◌, ◌+◌, ◌*◌, ◌-◌, ◌∷◌, [], ℕ, List, IsTrue, length, take, drop, ⊤};
ghost use Rattle.anstyle_parse.specs.Stream.Arguments.{max_collected, max_field};
ghost use Rattle.anstyle_parse.specs.Stream.Bytes.{is_within, is_parameter, is_marker, is_final};
ghost use Rattle.anstyle_parse.specs.Stream.Items.{EachIs};
ghost use Rattle.anstyle_parse.specs.Views.Fields.{number_with, TakesDigits, TakesFields};

use crate::chunks::{CHUNK, beyond_digits, lanes};
use crate::params::Params;
use std::alloc::AllocError;

/// The intermediates and markers that are kept at most.
const MAX_INTERMEDIATES: usize = 2;
/// The greatest number of a field: greater ones are taken for this one.
const MAX_FIELD: u32 = 65535;

/// How many digits are taken at once.
const FEW_DIGITS: usize = 3;

/// What each digit is multiplied by, where there are none, one, two or three of them.
static PLACES: [[u16; FEW_DIGITS]; FEW_DIGITS + 1] = [
    [0, 0, 0],
    [1, 0, 0],
    [10, 1, 0],
    [100, 10, 1],
];

/// What a header has said so far.
#[derive(Debug, PartialEq, Eq, Drop)]
pub(super) struct Header {
    /// The markers and intermediates of the sequence.
    intermediates: [u8; MAX_INTERMEDIATES],
    intermediate_count: usize,
    /// More fields or intermediates came than are kept.
    ignoring: bool,
    params: Params,
    /// The field so far.
    number: u16,
    ghost few_intermediates: { intermediate_count ≤ max_collected },
}

impl Header {
    ghost use Rattle.anstyle_parse.specs.Machine.Step.{new_machine};
    ghost use Rattle.anstyle_parse.specs.Views.Header.{heading_of};

    /// A header that has said nothing.
    pub(super) fn new() -> Header
        ensures { heading_of result ≡ new_machine tt }
    {
        Header {
            intermediates: [0; MAX_INTERMEDIATES],
            intermediate_count: 0,
            ignoring: false,
            params: Params::default(),
            number: 0,
        }
    }
}

impl Clone for Header {
    ghost is_clone = { λ header clone. clone ≡ header };

    ghost is_infallible = { λ _. ⊤ };

    /// The same value; it never fails.
    fn clone(&self) -> Result<Header, AllocError> {
        Ok(Header {
            intermediates: self.intermediates,
            intermediate_count: self.intermediate_count,
            ignoring: self.ignoring,
            params: self.params.clone()?,
            number: self.number,
        })
    }
}

/// The actions of a header.
impl Header {
    ghost use Rattle.anstyle_parse.specs.Machine.Step.{after_clear, after_collect, after_param, with_last_field};
    ghost use Rattle.anstyle_parse.specs.Views.Header.{heading_of};

    /// Forgets the header of the sequence before.
    pub(super) fn clear(&mut self)
        ensures { heading_of self.new ≡ after_clear (heading_of self.old) }
    {
        self.intermediate_count = 0;
        self.ignoring = false;
        self.number = 0;
        self.params.clear();
    }

    /// Keeps a marker or an intermediate, up to two.
    pub(super) fn collect(&mut self, byte: u8)
        ensures { heading_of self.new ≡ after_collect byte (heading_of self.old) }
    {
        if self.intermediate_count == MAX_INTERMEDIATES {
            self.ignoring = true;
        } else {
            self.intermediates[self.intermediate_count] = byte;
            self.intermediate_count += 1;
        }
    }

    /// A digit of a field, or the separator after it.
    #[inline(always)]
    pub(super) fn param(&mut self, byte: u8)
        ensures { heading_of self.new ≡ after_param byte (heading_of self.old) }
    {
        if self.params.is_full() {
            self.ignoring = true;
        } else if byte == b';' {
            self.params.push(self.number);
            self.number = 0;
        } else if byte == b':' {
            self.params.extend(self.number);
            self.number = 0;
        } else {
            self.number = with_digit(u32::from(self.number), byte) as u16;
        }
    }

    /// Takes the digits and separators at the front, as long as there is room for a field, and
    /// answers the rest.
    #[inline(always)]
    pub(super) fn fields<'a>(&mut self, bytes: &'a [u8]) -> &'a [u8]
        ensures { TakesFields (heading_of self.old) bytes.now (heading_of self.new) result.now }
    {
        let mut rest = bytes;
        'fields: while !self.params.is_full() {
            let (number, behind) = digits(self.number, rest);
            self.number = number;
            let Some((next, further)) = behind.split_first() else {
                return behind;
            };
            // A separator; the contract of digits leaves a digit possible too, and param takes either.
            if !is_parameter(*next) {
                return behind;
            }
            self.param(*next);
            rest = further;
        }
        rest
    }

    /// Closes the last field, which no separator ends, before a dispatch. Where 32 fields are
    /// stored it is dropped.
    #[inline(always)]
    pub(super) fn end_fields(&mut self)
        ensures { heading_of self.new ≡ with_last_field (heading_of self.old) }
    {
        if self.params.is_full() {
            self.ignoring = true;
        } else {
            self.params.push(self.number);
        }
    }
}

/// A digit of a field.
#[inline(always)]
#[tactic(auto, unfolding(crate::specs::Stream::Bytes::is_within))]
fn is_digit(byte: u8) -> bool
    ensures { result ≡ is_within 0x30 0x39 byte }
{
    matches!(byte, b'0'..=b'9')
}

/// A digit, or what ends a field: `:` or `;`.
#[inline(always)]
#[tactic(auto, unfolding(crate::specs::Stream::Bytes::is_within, crate::specs::Stream::Bytes::is_parameter))]
pub(super) fn is_parameter(byte: u8) -> bool
    ensures { result ≡ is_parameter byte }
{
    matches!(byte, b'0'..=b';')
}

/// What ends a control sequence.
#[inline(always)]
#[tactic(auto, unfolding(crate::specs::Stream::Bytes::is_within, crate::specs::Stream::Bytes::is_final))]
pub(super) fn is_final_byte(byte: u8) -> bool
    ensures { result ≡ is_final byte }
{
    matches!(byte, 0x40..=0x7E)
}

/// What says that a control sequence is private.
#[inline(always)]
#[tactic(auto, unfolding(crate::specs::Stream::Bytes::is_within, crate::specs::Stream::Bytes::is_marker))]
pub(super) fn is_marker(byte: u8) -> bool
    ensures { result ≡ is_marker byte }
{
    matches!(byte, 0x3C..=0x3F)
}

/// Takes digits at the front into a number, and answers the rest.
#[inline(always)]
fn digits<'a>(number: u16, bytes: &'a [u8]) -> (u16, &'a [u8])
    ensures { TakesDigits number bytes.now result.0 result.1.now }
{
    if let Some((chunk, _)) = bytes.split_first_chunk::<CHUNK>() {
        let count = digit_count(chunk);
        if number == 0 && count <= FEW_DIGITS {
            let (_, rest) = bytes.split_at(count);
            return (few_digits(chunk[0], chunk[1], chunk[2], count), rest);
        }
    }
    many_digits(number, bytes)
}

/// How many bytes of a chunk come first that are digits.
#[inline(always)]
fn digit_count(chunk: &[u8; CHUNK]) -> usize
    ensures digits { EachIs (λ b. is_within 0x30 0x39 b) (take result chunk.now) }
    ensures within { result ≤ length chunk.now }
{
    let others = beyond_digits(lanes(chunk));
    if others == 0 {
        CHUNK
    } else {
        others.trailing_zeros() as usize
    }
}

/// The number that the first `count` of three bytes make, which are digits. No branch asks for `count`: the bytes
/// after them are multiplied by 0.
#[inline(always)]
fn few_digits(first: u8, second: u8, third: u8, count: usize) -> u16
    requires few { count ≤ 3 }
    requires digits { EachIs (λ b. is_within 0x30 0x39 b) (take count (first ∷ second ∷ third ∷ [])) }
    ensures { (left : List ℕ) → TakesDigits 0 (first ∷ second ∷ third ∷ left) result
        (drop count (first ∷ second ∷ third ∷ left)) }
{
    in_places(
        digit_value(first),
        digit_value(second),
        digit_value(third),
        count,
    )
}

/// The number of so many digits, each in its place.
#[inline(always)]
fn in_places(first: u16, second: u16, third: u16, count: usize) -> u16
    requires few { count ≤ 3 }
    requires small { (first ≤ 0xFF) × (second ≤ 0xFF) × (third ≤ 0xFF) }
    ensures none { count ≡ 0 → result ≡ 0 }
    ensures one { count ≡ 1 → result ≡ first }
    ensures two { count ≡ 2 → result ≡ first * 10 + second }
    ensures three { count ≡ 3 → result ≡ (first * 10 + second) * 10 + third }
{
    let places = PLACES[count];
    first * places[0] + second * places[1] + third * places[2]
}

/// What a digit stands for.
#[inline(always)]
fn digit_value(byte: u8) -> u16
    ensures digit { IsTrue (is_within 0x30 0x39 byte) → result ≡ byte - 0x30 }
    ensures below { result ≤ 0xFF }
{
    u16::from(byte.wrapping_sub(b'0'))
}

/// Takes the digits at the front into a number, one after another, and answers the rest.
#[inline(always)]
fn many_digits<'a>(number: u16, bytes: &'a [u8]) -> (u16, &'a [u8])
    ensures { TakesDigits number bytes.now result.0 result.1.now }
{
    let mut value = u32::from(number);
    let mut rest = bytes;
    'digits: while let Some((digit, behind)) = rest.split_first() {
        if !is_digit(*digit) {
            break;
        }
        value = with_digit(value, *digit);
        rest = behind;
    }
    (value as u16, rest)
}

/// The number with one digit more, as far as a field can be.
#[inline(always)]
fn with_digit(number: u32, digit: u8) -> u32
    requires { number ≤ max_field }
    ensures { result ≡ number_with number digit }
{
    (number * 10 + u32::from(digit.saturating_sub(b'0'))).min(MAX_FIELD)
}

/// What a header has said, for a dispatch and for a checkpoint.
impl Header {
    ghost use Rattle.anstyle_parse.specs.Views.Params.{closed_groups_of, open_group_of};
    ghost use Rattle.anstyle_parse.specs.Views.Header.{heading_of};

    /// The markers and intermediates that are kept.
    pub(super) fn collected(&self) -> &[u8]
        ensures { result.now ≡ (heading_of self.now).collected }
    {
        let all = &self.intermediates[..];
        &all[..self.intermediate_count]
    }

    /// Whether more fields or intermediates came than are kept.
    pub(super) fn is_ignoring(&self) -> bool
        ensures { result ≡ (heading_of self.now).ignoring }
    {
        self.ignoring
    }

    /// The fields, of which the last group may be open.
    pub(super) fn params(&self) -> &Params
        ensures closed { closed_groups_of result.now ≡ (heading_of self.now).closed_groups }
        ensures open { open_group_of result.now ≡ (heading_of self.now).open_group }
    {
        &self.params
    }

    /// The field so far.
    pub(super) fn number(&self) -> u16
        ensures { result ≡ (heading_of self.now).number }
    {
        self.number
    }
}
