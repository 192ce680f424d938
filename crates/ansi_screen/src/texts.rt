//! Texts on a screen: runs of printed ASCII come into their cells at once, and all else character by character.
ghost use Rattle.std.specs.Prelude.{◌≤◌, List, length, take};
ghost use Rattle.anstyle_parse.specs.Stream.Call.{Call};
ghost use Rattle.anstyle_parse.specs.Stream.Items.{EachIs};
ghost use Rattle.anstyle_parse.specs.Stream.Texts.{text_calls, FollowsCalls};
ghost use Rattle.ansi_screen.specs.Laws.{printing};
ghost use Rattle.ansi_screen.specs.Runs.{is_printed_ascii};

use crate::printed::PrintedAscii;
use anstyle_parse::Perform;
use lanes::{split_front, split_others};

/// A performer that puts the front of a run into its cells at once.
pub(crate) trait PutRuns: Perform {
    // What a list of calls does to it, as in `PerformText`.
    ghost receives: { Self → List Call → Self → Type 0 };

    /// Puts so much of this printed ASCII into the cursor's row as it has room for, and answers how much
    /// that is: as if each character of it had been printed.
    fn put_front(&mut self, run: &[u8]) -> usize
        requires { EachIs is_printed_ascii run.now }
        ensures put { receives self.old (printing (take result run.now)) self.new }
        ensures within { result ≤ length run.now };

    ghost follows: { FollowsCalls Self.means receives };
}

/// Prints a text, run by run, with what stands between two runs. It stands in line where a text comes, since many are
/// short.
#[inline(always)]
pub(crate) fn print_by_runs<P: PutRuns>(performer: &mut P, text: &str)
    ensures { P.receives performer.old (text_calls text.now) performer.new }
{
    let mut rest = text;
    'rest: while !rest.is_empty() {
        let (run, after) = split_front::<PrintedAscii>(rest);
        print_run(performer, run);
        if after.is_empty() {
            break;
        }
        let (others, further) = split_others::<PrintedAscii>(after);
        print_each(performer, others);
        rest = further;
    }
}

/// Prints printed ASCII. Where a row has no more room, the next character is printed by itself: autowrap may come
/// before it, by which a row may leave.
#[inline(always)]
fn print_run<P: PutRuns>(performer: &mut P, run: &[u8])
    requires { EachIs is_printed_ascii run.now }
    ensures { P.receives performer.old (printing run.now) performer.new }
{
    let mut rest = run;
    'run: loop {
        let count = performer.put_front(rest);
        let (_, others) = rest.split_at(count);
        let Some((c, further)) = others.split_first() else {
            break;
        };
        performer.print(char::from(*c));
        rest = further;
    }
}

/// Prints the characters of a text, one by one.
fn print_each<P: PutRuns>(performer: &mut P, text: &str)
    ensures { P.receives performer.old (text_calls text.now) performer.new }
{
    for c in text.chars() {
        performer.print(c);
    }
}
