//! Several objects put in order: if one is refused, none is put. Also the text of the commits that
//! are written.
#![tactic(auto)]

mod batch;
mod commit;
mod laws;

pub use batch::{check_sizes, plan_all, put_all};
pub use commit::commit_for;
pub use laws::{
    batches_are_held, batches_are_put_or_refused, batches_come_after_their_needs,
    commits_need_their_tree_and_parents, long_batches_are_refused, paths_compose,
    trees_need_their_entries, what_is_led_to_is_held, written_commits_have_this_text,
};
