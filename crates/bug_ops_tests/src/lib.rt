//! Tests of the operations of bugs and of their folds. They stand apart, so that the proofs of
//! `bug_ops` are made once.
#![tactic(auto)]

#[cfg(test)]
mod tests;
