//! The names of remotes.
#![tactic(auto)]

mod laws;
mod remote;

pub use laws::{remote_names_are_known, remote_names_read_back};
pub use remote::RemoteName;
