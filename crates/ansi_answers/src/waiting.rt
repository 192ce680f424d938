//! Answers that were not taken yet.
ghost use Rattle.std.specs.Prelude.{◌≡◌, ◌≤◌, false, length};
ghost use Rattle.ansi_answers.specs.Waiting.{Queue, nothing_waits, with_answer, first_waiting, without_first};

use crate::answer::Answer;
use arrayvec::ArrayVec;
use std::marker::Model;

/// So many answers are kept, 4 KiB of bytes: where one more comes, the oldest goes.
pub const MAX_WAITING: usize = 64;

/// The answers that were not taken yet, the oldest first.
#[derive(Drop)]
pub struct Waiting {
    answers: ArrayVec<Answer, MAX_WAITING>,
    has_lost: bool,
}

impl Model for Waiting {
    ghost Value = { Queue };

    ghost view = { λ waiting. record {
      answers = waiting.answers.items;
      has_lost = waiting.has_lost;
    } };
}

impl Waiting {
    /// None waits, and none was lost.
    pub fn new() -> Waiting
        ensures { result ≡ nothing_waits }
    {
        Waiting {
            answers: ArrayVec::new(),
            has_lost: false,
        }
    }

    /// An answer is kept, where there is one.
    pub fn keep(&mut self, answer: Option<Answer>)
        ensures { self.new ≡ with_answer answer self.old }
    {
        if let Some(answer) = answer {
            if self.answers.is_full() {
                self.answers.remove(0);
                self.has_lost = true;
            }
            self.answers.push(answer);
        }
    }

    /// Others that are the same.
    pub fn copy(&self) -> Waiting
        ensures { result ≡ self.now }
    {
        let mut answers = ArrayVec::new();
        let _fits = answers.try_extend_from_slice(self.answers.as_slice());
        Waiting {
            answers,
            has_lost: self.has_lost,
        }
    }

    /// Those that wait.
    pub fn answers(&self) -> &[Answer]
        ensures answers { result.now ≡ self.now.answers }
        ensures bound { length result.now ≤ MAX_WAITING }
    {
        self.answers.as_slice()
    }

    /// The oldest leaves.
    pub fn take(&mut self) -> Option<Answer>
        ensures first { result ≡ first_waiting self.old }
        ensures left { self.new ≡ without_first self.old }
    {
        if self.answers.is_empty() {
            None
        } else {
            Some(self.answers.remove(0))
        }
    }

    /// Whether one was lost since this was last asked.
    pub fn take_lost(&mut self) -> bool
        ensures lost { result ≡ self.old.has_lost }
        ensures forgotten { self.new ≡ record self.old { has_lost = false } }
    {
        let has_lost = self.has_lost;
        self.has_lost = false;
        has_lost
    }

    /// All leave. It answers whether one was lost since this was last asked.
    pub fn take_all(&mut self) -> bool
        ensures lost { result ≡ self.old.has_lost }
        ensures left { self.new ≡ nothing_waits }
    {
        self.answers.clear();
        self.take_lost()
    }
}

impl Default for Answer {
    ghost use Rattle.ansi_answers.specs.Waiting.{default_answer};

    ghost is_default = { λ answer. answer ≡ default_answer };

    fn default() -> Answer {
        Answer::AllIsWell
    }
}
