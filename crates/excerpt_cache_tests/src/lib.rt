//! Tests of `excerpt_cache`, by a small codec. They stand apart, so that its proofs are made once.
#![tactic(auto)]

mod marked;
#[cfg(test)]
mod rows;

pub use marked::Marked;
