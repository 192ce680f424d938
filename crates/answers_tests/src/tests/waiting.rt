//! Answers that nobody takes; the laws.
use super::assert_same;
use ansi_answers::laws::{blind, form, selects};
use ansi_answers::{
    Answer, MAX_ANSWER, MAX_WAITING, ModeState, Paint, Theme, Waiting, may_be_answered,
};
use ansi_style::Style;
use std::process::Abort;

fn flags(number: u16) -> Answer {
    Answer::KeyFlags(number)
}

/// The oldest, and whether one was lost.
fn assert_waits(rt: &impl Abort, waiting: &mut Waiting, oldest: Option<Answer>, lost: bool) {
    assert_same(rt, &waiting.take(), &oldest);
    assert_same(rt, &waiting.take_lost(), &lost);
}

// Laws are functions that do nothing.
#[test]
fn laws(_rt: HostRuntime) {
    form(Answer::NoSetting);
    selects(Style::default());
    blind();
}

#[test]
fn oldest_lost(rt: HostRuntime) {
    let mut waiting = Waiting::new();
    assert_waits(&rt, &mut waiting, None, false);
    waiting.keep(None);
    for number in 0..66 {
        waiting.keep(Some(flags(number)));
    }
    assert_same(&rt, &waiting.answers().len(), &64);
    assert_waits(&rt, &mut waiting, Some(flags(2)), true);
    assert_waits(&rt, &mut waiting, Some(flags(3)), false);
    assert_same(&rt, &(MAX_ANSWER * MAX_WAITING), &4096);
    drop(waiting);
}

// A copy waits by itself.
#[test]
fn copies(rt: HostRuntime) {
    let mut waiting = Waiting::new();
    for number in 0..65 {
        waiting.keep(Some(flags(number)));
    }
    let mut copy = waiting.copy();
    assert_same(&rt, &waiting.take_all(), &true);
    assert_waits(&rt, &mut waiting, None, false);
    assert_waits(&rt, &mut copy, Some(flags(1)), true);
    assert_same(&rt, &flags(7).bytes().as_slice(), &b"\x1B[?7u".as_slice());
    assert!(rt; may_be_answered(b'n') && !may_be_answered(b'm'));
    assert!(rt; Theme::none().copy().foreground.is_none());
    drop(waiting);
    drop(copy);
}

// By what a caller tells answers apart.
#[test]
fn told_apart(rt: HostRuntime) {
    let mut waiting = Waiting::new();
    waiting.keep(Some(Answer::Mode {
        number: 4,
        state: ModeState::Reset,
    }));
    let is_reset = match waiting.take() {
        Some(Answer::Mode { state, .. }) => state == ModeState::Reset,
        _ => false,
    };
    assert!(rt; is_reset);
    assert!(rt; Paint::Foreground != Paint::Background);
    drop(waiting);
}
