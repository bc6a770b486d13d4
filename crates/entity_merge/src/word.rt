//! What a join does with the two heads.
use gb_text::Name;

/// What a join does with a local and a remote head, and the head that results.
#[derive(Clone, Copy, Debug, PartialEq, Eq, Drop)]
pub enum Merged {
    /// There was no local head: the remote one.
    New(Name),
    /// The remote head is the local one or lies below it: the local one stays.
    Nothing,
    /// The local head is another and lies below the remote one: the remote one.
    Forward(Name),
    /// Neither lies below the other: a new commit over both.
    Joined(Name),
}
