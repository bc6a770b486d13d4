//! Tests of `world_events` and `world_texts`. They stand apart, so that the proofs of these are made
//! once.
#![tactic(auto)]

#[cfg(test)]
mod events;
#[cfg(test)]
mod texts;
