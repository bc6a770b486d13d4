//! Full exchanges in a world: where each pull is done, all folders have the same bugs, and the same
//! operation commits of each; their digests are equal if the authors have the same names.
#![tactic(auto)]

mod laws;

pub use laws::{
    exchanged_folders_agree, exchanged_folders_have_one_digest, played_worlds_may_exchange,
    runs_see_what_is_there,
};
