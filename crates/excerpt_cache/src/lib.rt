//! Row files: one small file for each id, which can be lost without loss of data.
#![tactic(auto)]

mod codec;
mod fault;
mod laws;
mod read;
mod write;

pub use codec::RowCodec;
pub use fault::CacheFault;
pub use laws::{
    row_paths_are_in_the_cache, rows_are_a_map, rows_leave_all_objects, rows_leave_other_places,
    rows_of_folders_apart, written_rows_are_read,
};
pub use read::{MOST_BYTES, place_of, read_row};
pub use write::write_row;
