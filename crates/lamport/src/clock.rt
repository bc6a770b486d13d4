//! Lamport's clock of one kind of entity in one folder.
ghost use Rattle.std.specs.Prelude.{◌≡◌, ◌↔◌, ◌≤◌, ◌<◌, ◌+◌, max, IfOk, IsErr};
ghost use Rattle.lamport.specs.Clock.{clock_of, seen_by, root_time_of, edit_time_of, merge_time_of};

use crate::time::Time;
use gb_text::{GREATEST_TIME, read_decimal, without_line_end};
use std::marker::Model;

/// The greatest number that a clock holds: 2^62. It leaves room above, up to [`GREATEST_TIME`], for the edits of
/// 2^62 - 1 further commits, however a hostile clock was set.
pub const CAP: u64 = 4611686018427387904;

/// The most by which an edit's clock may lie above that of its parent.
pub const JUMP: u64 = 1_000_000;

/// A clock, which holds a number of at most [`CAP`]: the greatest edit clock that was seen.
#[derive(Clone, Copy, Debug, PartialEq, Eq)]
pub struct Clock {
    number: u64,
}

impl Model for Clock {
    ghost use Rattle.std.specs.Prelude.{ℕ, ◌≤◌};
    ghost use Rattle.lamport.specs.declared.clock.TheConstants.{CAP};

    ghost Value = { ℕ };

    ghost view = { λ c. c.number };

    ghost invariant = { λ c. c.number ≤ CAP };

    ghost inverse = { λ n. record { number = n } };
}

/// The head's clock is [`GREATEST_TIME`] or greater, so no clock is left above it.
#[derive(Clone, Copy, Debug, PartialEq, Eq)]
pub struct ClockFull;

impl Clock {
    /// Reads a clock file: a plain decimal below 2^64 and at most one LF. A text that is none reads as
    /// 0, a number above [`CAP`] as [`CAP`].
    pub fn read(text: &[u8]) -> Clock
        ensures { result ≡ clock_of text.now }
    {
        let number = read_decimal(without_line_end(text)).unwrap_or(0);
        Clock {
            number: number.min(CAP),
        }
    }

    /// The number that the clock holds.
    pub fn value(&self) -> u64
        ensures { result ≡ self.now }
    {
        self.number
    }

    /// Sees an edit clock: the clock is then no lower than it, up to [`CAP`].
    pub fn see(&mut self, edit: u64)
        ensures value { self.new ≡ seen_by self.old edit }
        ensures rises { self.old ≤ self.new }
    {
        self.number = self.number.max(edit.min(CAP));
    }

    /// The clock of a new root.
    pub fn root_time(&self) -> Time
        ensures value { result ≡ root_time_of self.now }
        ensures some { 1 ≤ result }
        ensures capped { result ≤ CAP }
    {
        let number = self.number;
        Time {
            number: (number + 1).min(CAP),
        }
    }

    /// The clock of an edit on a head with this edit clock.
    pub fn edit_time(&self, head: u64) -> Result<Time, ClockFull>
        ensures value { IfOk result (λ time. time ≡ edit_time_of self.now head) }
        ensures full { IsErr result ↔ (GREATEST_TIME ≤ head) }
        ensures above { IfOk result (λ time. head < time) }
        ensures near { IfOk result (λ time. time ≤ head + JUMP) }
        ensures within { IfOk result (λ time. time ≤ GREATEST_TIME) }
    {
        if head >= GREATEST_TIME {
            return Err(ClockFull);
        }
        let number = self.number;
        let time = (number.max(head) + 1).min(head + JUMP);
        Ok(Time { number: time })
    }

    /// The clock of a commit that joins two heads with these edit clocks.
    pub fn merge_time(&self, one: u64, two: u64) -> Result<Time, ClockFull>
        ensures value { IfOk result (λ time. time ≡ merge_time_of self.now one two) }
        ensures full { IsErr result ↔ (GREATEST_TIME ≤ max one two) }
        ensures above { IfOk result (λ time. max one two < time) }
        ensures within { IfOk result (λ time. time ≤ GREATEST_TIME) }
    {
        let head = one.max(two);
        if head >= GREATEST_TIME {
            return Err(ClockFull);
        }
        let number = self.number;
        let time = number.max(head) + 1;
        Ok(Time { number: time })
    }
}
