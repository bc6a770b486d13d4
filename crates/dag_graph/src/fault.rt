//! What may be wrong with a graph of commits.
use gb_text::Name;

/// What is wrong with a graph of commits.
#[derive(Clone, Copy, Debug, PartialEq, Eq)]
pub enum GraphFault {
    /// This commit has no parent, and another one has none.
    SecondRoot(Name),
    /// The first commit's edit clock is not greater than that of the second, its parent.
    ClockOrder(Name, Name),
    /// The first commit has one parent, the second, and an edit clock that is more than
    /// [`lamport::JUMP`] above the second's.
    ClockJump(Name, Name),
    /// This commit has two or more parents, and operations.
    MergeHasOperations(Name),
}
