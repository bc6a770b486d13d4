//! Tests of `gb_text`, `json_span`, `lamport` and `packed_refs`. They stand apart, so that the proofs
//! of these are made once.
#![tactic(auto)]

#[cfg(test)]
mod clocks;
#[cfg(test)]
mod packed;
#[cfg(test)]
mod spans;
#[cfg(test)]
mod texts;
