//! The rows of a folder's bugs: what lists show of each, from its stored row, from an older row and
//! the commits above it, or from all commits.
#![tactic(auto)]

mod bugs;
mod laws;

pub use bugs::{rows, rows_among};
pub use laws::{
    chains_read_what_is_new, current_rows_read_nothing, rows_say_what_operations_say,
    sound_folders_have_rows,
};
