//! The pack of a commit: what its tree says, and the text of its operations.
#![tactic(auto)]

mod fault;
mod head;
mod laws;
mod pack;
mod parts;

pub use fault::PackFault;
pub use head::{TreeHead, read_head, tree_for};
pub use laws::{
    clocks_are_within_bounds, head_or_fault, operations_keep_rules,
    operations_stand_where_their_pack_does, pack_faults_are_known, pack_or_fault,
    packs_are_determined, packs_are_exact, parts_are_exact, unknown_versions_are_reported,
    written_packs_read_back,
};
pub use pack::{MOST_OPERATIONS, Pack, PackText};
