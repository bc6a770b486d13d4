//! Bugs in packs: what holds of every kind of operations, proved for bugs by the laws alone. Also
//! tests of packs of any kind.
#![tactic(auto)]

#[cfg(test)]
mod any_packs;
mod callers;
#[cfg(test)]
mod heads;
#[cfg(test)]
mod tests;

pub use callers::{bug_of_packs, bugs_read_what_they_write, fold_both};
