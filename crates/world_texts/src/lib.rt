//! The texts of the program that runs worlds: the arguments that it takes, and what it prints.
#![tactic(auto)]

mod asked;
mod laws;
mod tally;

pub use asked::{Asked, USAGE, read_asked};
pub use laws::{equal_digests_are_told, worlds_are_asked_for_by_three_numbers};
pub use tally::{Digest, Tally, summary_text};
