//! The kinds of write in a folder, what they keep and what is never lost.
#![tactic(auto)]

mod laws;
mod pack_laws;
mod part_laws;

pub use laws::{
    calls_lose_nothing, folders_apart_stay_sound, writes_keep_folders_sound, writes_lose_nothing,
    writes_stay_below_their_folder,
};
pub use pack_laws::packs_keep_folders;
pub use part_laws::{clocks_see_heads, parts_say_what_they_keep, rows_are_of_present_heads};
