//! Tests of the log that `bug_run` gives, over a store and a sink in memory. They stand apart, so
//! that its proofs are made once.
#![tactic(auto)]

#[cfg(test)]
mod bug;
#[cfg(test)]
mod comments;
#[cfg(test)]
mod graphs;
#[cfg(test)]
mod tests;
