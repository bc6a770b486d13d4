//! Identities over any number of runs: no merge refuses one that is made once and edited only where
//! it was made, and full exchanges in which each pull is done leave all folders the same
//! identities. No call of a law does anything.
#![tactic(auto)]

mod exchange_laws;
mod home_laws;
mod seen_laws;

pub use exchange_laws::{exchanged_folders_show_the_same, exchanges_leave_the_same_people};
pub use home_laws::{
    heads_of_an_identity_never_diverge, identities_are_edited_at_home, identities_have_a_home,
    identities_of_unlike_seeds_are_made_once, merges_refuse_no_identity,
};
pub use seen_laws::{authors_of_tracked_bugs_are_known, people_last_seen_have_no_fault};
