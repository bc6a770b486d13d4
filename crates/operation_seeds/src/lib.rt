//! Operations that commands make with unlike seeds are unlike.
#![tactic(auto)]

mod laws;

pub use laws::unlike_seeds_make_unlike_operations;
