//! Bytes of a kind of the tests' own, and texts that are cut before and after them.
use super::assert_bytes;
use lanes::{AsciiKind, CHUNK, Kind, after_front, from_first, split_front, split_others};
use std::simd::prelude::*;

/// The digits.
struct Digits;

impl Kind for Digits {
    ghost use Rattle.ansi_tests.specs.Kinds.{is_digit};

    ghost holds = { is_digit };

    #[tactic(auto, unfolding(anstyle_parse::specs::Stream::Bytes::is_within))]
    fn holds(byte: u8) -> bool {
        matches!(byte, b'0'..=b'9')
    }

    fn others(bytes: u8x16) -> u64 {
        (bytes - u8x16::splat(b'0'))
            .simd_ge(u8x16::splat(10))
            .to_bitmask()
    }
}

impl AsciiKind for Digits {
    ghost use Rattle.ansi_tests.specs.Kinds.{digit-low};

    ghost is_ascii = { digit-low };
}

#[test]
fn more_than_a_chunk(rt: HostRuntime) {
    assert_eq!(rt; CHUNK, 16);
    let rest = after_front::<Digits>(b"0123456789012345678 and 9");
    assert_bytes(&rt, rest, b" and 9");
}

#[test]
fn first_of_a_kind(rt: HostRuntime) {
    assert_bytes(&rt, from_first::<Digits>(b" and 9"), b"9");
}

#[test]
fn text_after_a_kind(rt: HostRuntime) {
    let (front, rest) = split_front::<Digits>("42 \u{C5}");
    assert_bytes(&rt, front, b"42");
    assert_bytes(&rt, rest.as_bytes(), b" \xC3\x85");
}

#[test]
fn text_before_a_kind(rt: HostRuntime) {
    let (others, rest) = split_others::<Digits>("\u{C5} 7");
    assert_bytes(&rt, others.as_bytes(), b"\xC3\x85 ");
    assert_bytes(&rt, rest.as_bytes(), b"7");
}
