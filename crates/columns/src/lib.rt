//! Texts in a fixed number of columns, as wide as a terminal shows them.
#![tactic(auto)]

mod cell;
mod front;
mod laws;
mod step;

pub use cell::{cut_to_columns, push_cell, push_spaces};
pub use laws::{cells_have_their_columns, the_longest_prefix_is_shown};
