//! Tests of `commit_walk` and `dag_graph`. They stand apart, so that the proofs of these are made once.
#![tactic(auto)]

#[cfg(test)]
mod graphs;
#[cfg(test)]
mod walks;
