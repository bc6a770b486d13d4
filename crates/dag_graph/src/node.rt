//! The commits of a graph.
use gb_text::{List, Name};

/// A commit with what its pack says of it.
#[derive(Drop)]
pub struct Node {
    pub name: Name,
    /// The names of the commits that it follows. A name that stands twice counts twice.
    pub parents: List<Name>,
    /// The edit clock.
    pub edit: u64,
    /// How many operations the pack has.
    pub count: u64,
}
