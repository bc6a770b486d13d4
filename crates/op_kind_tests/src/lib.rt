//! Tests of `op_kind`, and callers that are generic over a kind. They stand apart, so that its proofs
//! are made once.
#![tactic(auto)]

#[cfg(test)]
mod common;
#[cfg(test)]
mod kinds;
#[cfg(test)]
mod members;
#[cfg(test)]
mod written;
