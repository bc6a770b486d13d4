//! Tests of `repo_state`, over a store in memory. They stand apart, so that its proofs are made once.
#![tactic(auto)]

#[cfg(test)]
mod clocks;
#[cfg(test)]
mod comments;
#[cfg(test)]
mod people;
#[cfg(test)]
mod refs;
