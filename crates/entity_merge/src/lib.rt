//! A local and a remote head of one entity joined: one of the two stays, or a commit over both.
#![tactic(auto)]

mod fault;
mod joining;
mod laws;
mod plan;
mod word;

pub use fault::MergeFault;
pub use joining::{MergeOut, merge};
pub use laws::{
    clocks_of_joins_rise, faulty_joins_are_refused, heads_of_a_valid_join_are_valid,
    joined_heads_are_valid, joins_are_seen_again, joins_are_unions, joins_keep_both_sides,
    joins_lose_nothing, joins_say_what_both_said, known_heads_are_not_refused,
    merge_commits_have_the_clock_of_a_merge, objects_of_joins_are_short, one_word_holds,
    same_commits_say_the_same,
};
pub use plan::{MergePlan, plan_merge};
pub use word::Merged;
