//! Runs over folders that take commits from each other alone: each tree that one of them holds is
//! flat, so no limit keeps their heads from being copied. No call of a law does anything.
#![tactic(auto)]

mod laws;

pub use laws::{entities_of_flat_folders_are_flat, runs_leave_flat_entities, trees_stay_flat};
