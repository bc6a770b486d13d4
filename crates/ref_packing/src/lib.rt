//! Packs refs: moves the loose refs of a folder into its packed refs.
#![tactic(auto)]

mod fault;
mod laws;
mod loose;
mod merge;
mod old;
mod packing;

pub use fault::PackFault;
pub use laws::{
    packed_refs_have_no_loose_ones, packs_are_determined, packs_change_no_ref,
    packs_leave_other_files, packs_write_of_their_kinds,
};
pub use packing::pack;
