//! What a bug is, said by the last mention of each thing, and that folding its operations gives it.
#![tactic(auto)]

mod bug;
mod fields;
mod laws;

pub use bug::{compile, excerpt_of, follow};
pub use fields::{has_label, id_of, status_of, title_of};
pub use laws::{
    a_creation_begins_a_bug, a_no_op_changes_who_acted_and_when, all_but_a_creation_may_follow,
    comments_are_counted, each_comment_is_added, each_operation_changes_its_own_alone,
    each_operation_tells_who_acted_and_when, edits_of_comments_reach_their_target,
    labels_are_those_that_are_on, metadata_have_the_first_value_of_each_key,
    more_operations_are_followed_by_the_row, one_more_operation_is_one_step,
    operations_that_keep_the_rules_are_a_bug, persons_stand_once, snapshots_are_those_of_the_fold,
    what_was_set_last_holds,
};
