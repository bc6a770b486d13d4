//! The operations of bugs, and what they add up to.
#![tactic(auto)]

mod comments;
mod copies;
mod fold;
mod kind;
mod labels;
mod laws;
mod members;
mod metadata;
mod op;
mod pairs;
mod persons;
mod read;
mod row;
mod snapshot;
mod write;

pub use copies::{copy_ids, copy_pairs, copy_text, copy_texts};
pub use fold::Fold;
pub use laws::{
    labels_go_by_mention, reached_snapshots_are_in_order, written_members_are_in_order,
};
pub use op::{BugOp, BugStatus};
pub use snapshot::{Comment, Excerpt, Snapshot};
