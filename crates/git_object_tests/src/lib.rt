//! Tests of `git_object`. They stand apart, so that its proofs are made once.
#![tactic(auto)]

#[cfg(test)]
mod commits;
#[cfg(test)]
mod frames;
#[cfg(test)]
mod trees;
