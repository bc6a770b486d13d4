//! The lists of a folder's bugs, as texts.
#![tactic(auto)]

mod laws;
mod list;

pub use laws::{
    listed_bugs_are_compiled_from_scratch, listed_rows_are_not_written_again,
    sound_folders_are_listed,
};
pub use list::list_bugs;
