//! The pack of a commit that is held: what its tree says, and the text that the tree names.
#![tactic(auto)]

mod fault;
mod laws;
mod read;

pub use fault::CommitPackFault;
pub use laws::{
    a_commit_has_a_pack_or_fails, commit_pack_faults_are_exact, pack_answers_say_what_is_held,
    packs_of_commits_are_exact, packs_of_commits_stay,
};
pub use read::read_pack;
