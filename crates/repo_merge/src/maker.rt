//! Who makes merge commits.
use gb_text::{Id, List};

/// By whom and when merge commits are made, and all who may be authors of bugs.
#[derive(Drop)]
pub struct Maker {
    pub user: Id,
    pub authors: List<Id>,
    /// In seconds since 1970.
    pub time: u64,
}
