//! What the commands that read print, byte for byte: a bug, the persons, and the log of a bug.
#![tactic(auto)]

mod comments;
mod lines;
mod log;
mod show;
mod users;

pub use log::log_text;
pub use show::show_text;
pub use users::users_text;
