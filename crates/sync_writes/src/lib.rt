//! The kinds of write of an exchange, and what they keep. No call of a law does anything.
#![tactic(auto)]

mod kept_laws;
mod kind_laws;
mod same_laws;

pub use kept_laws::{
    exchanges_leave_folders_apart, exchanges_stay_below_their_folder, fetches_keep_folders_sound,
    fetches_lose_nothing, pushes_keep_what_both_have, pushes_lose_nothing,
};
pub use kind_laws::{fetches_write_of_their_kinds, pushes_write_of_their_kinds};
pub use same_laws::exchanges_are_determined;
