//! The edits of a bug: their names, and what is read of their arguments; the operation that each
//! adds, from these, the time, the seed and what the bug says; and when it adds none.
#![tactic(auto)]

mod edit;
mod given;
mod labels;
mod laws;
mod moment;
mod names;
mod new_op;
mod operation;
mod read_laws;

pub use edit::{BugEdit, EditStop, NoChange, edit_op};
pub use laws::{
    changed_labels_ascend, edited_comments_have_the_message, edits_keep_all_else,
    edits_say_what_they_change, edits_tell_who_acted_and_when,
    edits_that_change_nothing_are_refused, labels_that_change_are_written,
    operations_are_made_anew, operations_keep_the_rules,
};
pub use moment::Moment;
pub use names::{EDITS, EditName, read_edit};
pub use new_op::NewOp;
pub use operation::{create_op, edited_comment_op};
pub use read_laws::{
    edits_are_read_as_their_rows_say, first_bad_words_of_edits_are_told, only_these_are_edits,
};
