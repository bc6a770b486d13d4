//! What an event does in its folder.

/// A command. A `pick` chooses among the bugs of the folder, and a `peer` is another folder.
#[derive(Clone, Copy, Debug, PartialEq, Eq)]
pub enum Act {
    /// A person is made.
    UserNew,
    /// A bug is made.
    NewBug,
    Comment { pick: u64 },
    Title { pick: u64 },
    /// The first comment of the bug gets another message.
    Edit { pick: u64 },
    Close { pick: u64 },
    Reopen { pick: u64 },
    LabelAdd { pick: u64, label: u64 },
    LabelRm { pick: u64, label: u64 },
    /// An operation that changes nothing.
    Noop { pick: u64 },
    Pull { peer: u32 },
    Push { peer: u32 },
    /// The refs of the folder are packed.
    PackRefs,
}
