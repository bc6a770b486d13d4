//! Refs: small files, or lines of one file, that name the heads of entities.
#![tactic(auto)]

mod fault;
mod id_list;
mod laws;
mod listing;
mod loose;
mod packed;
mod read;
mod write;

pub use fault::RefFault;
pub use id_list::ids;
pub use laws::{
    id_listings_have_each_ref_file, ids_stand_at_no_object_path, ids_stand_beside_packed_refs,
    listings_have_each_ref_file, loose_refs_come_first, objects_leave_all_refs, refs_are_a_map,
    refs_are_no_objects, refs_are_read_from_two_files, refs_leave_all_objects,
    refs_of_folders_apart,
};
pub use listing::{RefEntry, RefFound, list, place_of};
pub use packed::{MOST_PACKED_BYTES, packed_path, packed_refs_read};
pub use read::{MOST_BYTES, get};
pub use write::{set, write_of};
