//! The printed lists of bugs: a line of parts for each, and a board of columns.
#![tactic(auto)]

mod board;
mod list;

pub use board::board_text;
pub use list::list_text;
