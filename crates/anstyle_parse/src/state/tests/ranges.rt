//! The transition table once more, as ranges of bytes, for the test that compares all answers.
use crate::state::Action::{
    BeginUtf8, Collect, CsiDispatch, EscDispatch, Execute, Ignore, Nop, OscPut, Param, Print, Put,
};
use crate::state::State::{
    Anywhere, CsiEntry, CsiIgnore, CsiIntermediate, CsiParam, DcsEntry, DcsIgnore, DcsIntermediate,
    DcsParam, DcsPassthrough, Escape, EscapeIntermediate, Ground, OscString, SosPmApcString, Utf8,
};
use crate::state::{Action, State};

/// The new state and the action.
pub fn by_ranges(state: State, byte: u8) -> (State, Action) {
    match byte {
        0x18 | 0x1A => (Ground, Execute),
        0x1B => (Escape, Nop),
        _ => match state {
            Ground => ground(byte),
            Escape | EscapeIntermediate => escape(state, byte),
            CsiEntry | CsiParam | CsiIntermediate | CsiIgnore => csi(state, byte),
            DcsEntry | DcsParam | DcsIntermediate => dcs(state, byte),
            DcsIgnore | DcsPassthrough | SosPmApcString | OscString => string(state, byte),
            Anywhere | Utf8 => (Anywhere, Nop),
        },
    }
}

fn ground(byte: u8) -> (State, Action) {
    match byte {
        0x00..=0x1F => (Anywhere, Execute),
        0x20..=0x7F => (Anywhere, Print),
        0x80..=0x8F | 0x91..=0x9A | 0x9C => (Anywhere, Execute),
        0xC2..=0xF4 => (Utf8, BeginUtf8),
        _ => (Anywhere, Nop),
    }
}

fn escape(state: State, byte: u8) -> (State, Action) {
    match (state, byte) {
        (_, 0x00..=0x1F) => (Anywhere, Execute),
        (_, 0x7F) => (Anywhere, Ignore),
        (Escape, 0x20..=0x2F) => (EscapeIntermediate, Collect),
        (_, 0x20..=0x2F) => (Anywhere, Collect),
        (Escape, 0x50) => (DcsEntry, Nop),
        (Escape, 0x58 | 0x5E | 0x5F) => (SosPmApcString, Nop),
        (Escape, 0x5B) => (CsiEntry, Nop),
        (Escape, 0x5D) => (OscString, Nop),
        (_, 0x30..=0x7E) => (Ground, EscDispatch),
        _ => (Anywhere, Nop),
    }
}

fn csi(state: State, byte: u8) -> (State, Action) {
    match (state, byte) {
        (_, 0x00..=0x1F) => (Anywhere, Execute),
        (_, 0x7F) | (CsiIgnore, 0x20..=0x3F) => (Anywhere, Ignore),
        (CsiIgnore, 0x40..=0x7E) => (Ground, Nop),
        (CsiIntermediate, 0x20..=0x2F) => (Anywhere, Collect),
        (_, 0x20..=0x2F) => (CsiIntermediate, Collect),
        (CsiEntry, 0x30..=0x3B) => (CsiParam, Param),
        (CsiEntry, 0x3C..=0x3F) => (CsiParam, Collect),
        (CsiParam, 0x30..=0x3B) => (Anywhere, Param),
        (_, 0x30..=0x3F) => (CsiIgnore, Nop),
        (_, 0x40..=0x7E) => (Ground, CsiDispatch),
        _ => (Anywhere, Nop),
    }
}

fn dcs(state: State, byte: u8) -> (State, Action) {
    match (state, byte) {
        (_, 0x00..=0x1F | 0x7F) => (Anywhere, Ignore),
        (DcsIntermediate, 0x20..=0x2F) => (Anywhere, Collect),
        (_, 0x20..=0x2F) => (DcsIntermediate, Collect),
        (DcsEntry, 0x30..=0x3B) => (DcsParam, Param),
        (DcsEntry, 0x3C..=0x3F) => (DcsParam, Collect),
        (DcsParam, 0x30..=0x3B) => (Anywhere, Param),
        (_, 0x30..=0x3F) => (DcsIgnore, Nop),
        (_, 0x40..=0x7E) => (DcsPassthrough, Nop),
        _ => (Anywhere, Nop),
    }
}

fn string(state: State, byte: u8) -> (State, Action) {
    match (state, byte) {
        (OscString, 0x07) => (Ground, Nop),
        (OscString, 0x20..=0xFF) => (Anywhere, OscPut),
        (DcsPassthrough, 0x00..=0x7E) => (Anywhere, Put),
        (_, 0x00..=0x7F) => (Anywhere, Ignore),
        (_, 0x9C) => (Ground, Nop),
        _ => (Anywhere, Nop),
    }
}
