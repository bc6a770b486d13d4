//! The text of a bug's row, with the head that the row belongs to.
#![tactic(auto)]

mod codec;
mod fields;
mod laws;
mod lists;
mod members;
mod read;
mod row;
mod rules;
mod write;

pub use laws::{read_rows_satisfy_the_rules, rows_have_each_member_once, written_rows_read_back};
pub use read::read_excerpt;
pub use row::HeadRow;
pub use write::write_excerpt;
