//! Tests of `row_text`. They stand apart, so that its proofs are made once.
#![tactic(auto)]

#[cfg(test)]
mod tests;
