//! What a remote was last seen to have comes into the folder's own refs, entity by entity.
#![tactic(auto)]

mod bugs;
mod heads;
mod listing;
mod maker;
mod merging;
mod people;
mod pulling;
mod writes;

pub use merge_steps::{MergeLine, MergeOutcome, MergeStop, Pulled};
pub use merging::merge;
pub use pulling::pull;
