//! Numbers of control sequences and of commands.
ghost use Rattle.std.specs.Prelude.{◌≡◌, drop};
ghost use Rattle.anstyle_parse.specs.Views.Params.{groups_shown, groups_left};
ghost use Rattle.anstyle_parse.specs.Stream.Bytes.{is_within};
ghost use Rattle.ansi_modes.specs.Fields.{first_field, first_of, second_of, with_digit, number_of};

use anstyle_parse::{Params, ParamsIter};

/// The first field of a group; 0, where there is none.
pub fn first_field(group: &[u16]) -> u16
    ensures { result ≡ first_field group.now }
{
    match group {
        [field, ..] => *field,
        [] => 0,
    }
}

/// The first field of the next group; 0, where there is no group left.
fn next_field(groups: &mut ParamsIter<'_>) -> u16
    ensures field { result ≡ first_of (groups_left groups.old) }
    ensures left { groups_left groups.new ≡ drop 1 (groups_left groups.old) }
{
    match groups.next() {
        Some(group) => first_field(group),
        None => 0,
    }
}

/// The first fields of the first group and of the second; 0, where there is none.
pub fn two_fields(params: &Params) -> (u16, u16)
    ensures first { result.0 ≡ first_of (groups_shown params.now) }
    ensures second { result.1 ≡ second_of (groups_shown params.now) }
{
    let mut groups = params.iter();
    let first = next_field(&mut groups);
    let second = next_field(&mut groups);
    (first, second)
}

/// Whether a byte is a digit.
#[tactic(auto, unfolding(anstyle_parse::specs::Stream::Bytes::is_within))]
fn is_digit(byte: u8) -> bool
    ensures { result ≡ is_within 0x30 0x39 byte }
{
    b'0' <= byte && byte <= b'9'
}

/// A number with a digit more; one that is greater than a field can hold is the greatest.
fn with_digit(value: u16, digit: u8) -> u16
    ensures { result ≡ with_digit value digit }
{
    let next = u32::from(value) * 10 + u32::from(digit.saturating_sub(b'0'));
    next.min(65535) as u16
}

/// The number that a part of a command is, of digits alone; no digit is 0.
pub fn number_of(part: &[u8]) -> Option<u16>
    ensures { result ≡ number_of part.now }
{
    let mut value = 0;
    for byte in part {
        if !is_digit(*byte) {
            return None;
        }
        value = with_digit(value, *byte);
    }
    Some(value)
}
