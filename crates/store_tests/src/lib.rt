//! Tests of `gb_store`, `object_store`, `object_batch` and `ref_store`. They stand apart, so that the proofs of these are made once.
#![tactic(auto)]

#[cfg(test)]
mod objects;
#[cfg(test)]
mod refs;
#[cfg(test)]
mod stores;
