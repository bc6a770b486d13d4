//! The clocks that commits have.
ghost use Rattle.std.specs.Prelude.{◌≡◌, ◌≤◌};
ghost use Rattle.lamport.specs.Clock.{time_of};

use gb_text::GREATEST_TIME;
use std::marker::Model;

/// The edit clock or the create clock of a commit: a number of 1 to [`GREATEST_TIME`].
#[derive(Clone, Copy, Debug, PartialEq, Eq)]
pub struct Time {
    pub(crate) number: u64,
}

impl Model for Time {
    ghost use Rattle.std.specs.Prelude.{ℕ, ◌≤◌};
    ghost use Rattle.gb_text.specs.declared.decimal.TheConstants.{GREATEST_TIME};

    ghost Value = { ℕ };

    ghost view = { λ t. t.number };

    ghost invariant = { λ t. (1 ≤ t.number) × (t.number ≤ GREATEST_TIME) };

    ghost inverse = { λ n. record { number = n } };
}

impl Time {
    /// The time with this number, if there is one.
    pub fn read(number: u64) -> Option<Time>
        ensures { result ≡ time_of number }
    {
        if 1 <= number && number <= GREATEST_TIME {
            Some(Time { number })
        } else {
            None
        }
    }

    /// Its number.
    pub fn number(&self) -> u64
        ensures value { result ≡ self.now }
        ensures low { 1 ≤ result }
        ensures high { result ≤ GREATEST_TIME }
    {
        self.number
    }
}
