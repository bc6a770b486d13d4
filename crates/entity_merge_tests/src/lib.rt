//! Tests of `entity_merge`. They stand apart, so that the proofs of that are made once.
#![tactic(auto)]

#[cfg(test)]
mod heads;
#[cfg(test)]
mod joins;
#[cfg(test)]
mod refusals;
