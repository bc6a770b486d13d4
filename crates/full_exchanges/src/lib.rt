//! Full exchanges among folders: what pulls bring together, and that all folders then have it.
#![tactic(auto)]

mod exchange_laws;
mod pull_laws;

pub use exchange_laws::{
    agreeing_folders_show_the_same, exchanges_leave_the_union_everywhere,
    gathering_leaves_the_union, later_pulls_change_nothing,
};
pub use pull_laws::{pulls_among_folders_bring_no_more, pulls_join_what_both_have};
