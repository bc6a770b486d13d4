//! The edge of the program: it gives real folders, standard output, the clock, random bytes and the arguments to `run`.
#![tactic(auto)]

mod arguments;
mod bad_words;
mod claims;
mod commands;
mod exit;
mod guard;
mod outcome;
mod refusals;
mod say;
mod start;
mod usage;
mod writer;

pub use commands::{COMMANDS, Help};
pub use exit::{exit_code, numbers_are_fixed};
pub use start::{run_over_folders, run_words};
pub use usage::VERSION;
