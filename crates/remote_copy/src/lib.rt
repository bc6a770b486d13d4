//! The closure of a head copied into another folder, each object after all that it names.
#![tactic(auto)]

mod closure;
mod fault;
mod find;
mod index;
mod laws;
mod look;
mod need;
mod open;
mod read_laws;
mod work;
mod write_laws;

pub use closure::copy;
pub use fault::CopyFault;
pub use laws::{
    closed_folders_stay_closed, copied_heads_have_their_closure, copies_put_objects,
    copies_read_two_objects_for_each, copies_tell_what_is_too_large,
    heads_that_stand_are_not_copied, limits_of_copies_are_known, the_part_is_what_paths_lead_to,
    whole_copies_are_alike, whole_folders_stay_whole, whole_trees_stay_whole,
};
pub use open::MOST_TREES;
pub use read_laws::commits_that_are_left_are_not_read;
pub use work::MOST_OTHERS;
pub use write_laws::copies_come_after_their_needs;
