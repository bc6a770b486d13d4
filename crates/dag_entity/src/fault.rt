//! What may be wrong with an entity.
use commit_pack::CommitPackFault;
use commit_walk::{MOST_COMMITS, WalkFault, WalkStop};
use dag_graph::GraphFault;
use gb_text::{Id, Name};
use object_store::MOST_BYTES;
use op_kind::OpFault;
use std::alloc::{AllocError, AllocFailed};

/// Why heads have no entity. *Below* means the heads and all that their parents lead to; a name that
/// holds no commit leads nowhere. Where several faults hold, any of them may be named.
#[derive(Clone, Copy, Debug, PartialEq, Eq, Drop)]
pub enum EntityFault {
    Memory,
    /// The store failed.
    Disk,
    /// No file stands under this name of a commit below, of its tree, or of what the tree's file
    /// `ops` names.
    Missing(Name),
    /// The file under such a name is no object text with that SHA-1, and is not too large.
    Damaged(Name),
    /// A head or a parent names this object, which is no commit.
    NotCommit(Name),
    /// The name of this commit's tree holds an object that is no tree.
    BadTree(Name),
    /// This commit's tree has not exactly one entry that begins with `version-`, or its rest is not
    /// `4`. Holds the decimal that follows in one such entry, and 0 where none reads.
    UnknownVersion(Name, u64),
    /// This commit's tree has no file `ops`, or it names an object that is no blob.
    NoOps(Name),
    /// This commit's tree has not exactly one edit clock, or several create clocks, or one of them
    /// is no plain decimal of 1 to 2^63 - 1.
    BadClock(Name),
    /// What this commit's file `ops` names is no pack text.
    BadPack(Name),
    /// The operation at this index of this commit's pack, from 0, has this fault of its kind, which
    /// is never `Memory`.
    BadOperation(Name, u64, OpFault),
    /// This commit has no parent, and another one below has none.
    SecondRoot(Name),
    /// The first commit's edit clock is not greater than that of the second, its parent.
    ClockOrder(Name, Name),
    /// The first commit has one parent, the second, and an edit clock that is more than 1,000,000
    /// above the second's.
    ClockJump(Name, Name),
    /// This commit has two or more parents, and operations.
    MergeHasOperations(Name),
    /// This commit has no parent and no create clock.
    NoCreateClock(Name),
    /// Two operations have this id, in one pack or in two.
    RepeatedOperation(Id),
    /// The first operation of a root has this id, which is not the entity's.
    WrongId(Id),
    /// A root has no operation, or its first is not one with which an entity may begin.
    FirstNotCreate,
    /// This operation is not the first of a root, and may not stand behind others.
    SecondCreate(Id),
    /// The author of a pack is not among the authors.
    AuthorUnknown(Id),
    /// 65,537: there are more than 65,536 commits, counting the merge commit that two heads need of
    /// which neither lies below the other. 4,097: a pack has more operations than 4,096. 4,194,305:
    /// an object file has more bytes than 4,194,304.
    TooLarge(u64),
    /// There are two heads, of which neither lies below the other, and this one has the greatest
    /// clock, 2^63 - 1, so that no merge commit can follow it.
    ClockFull(Name),
}

impl From<WalkStop> for EntityFault {
    ghost use Rattle.std.specs.Prelude.{◌≡◌};
    ghost use Rattle.dag_entity.specs.Stops.{walk_stop};

    ghost from_gives = { λ stop e. e ≡ walk_stop stop };

    fn from(stop: WalkStop) -> Self {
        match stop {
            WalkStop::Memory => EntityFault::Memory,
            WalkStop::Disk => EntityFault::Disk,
            WalkStop::Fault(WalkFault::Missing(name)) => EntityFault::Missing(name),
            WalkStop::Fault(WalkFault::Damaged(name)) => EntityFault::Damaged(name),
            WalkStop::Fault(WalkFault::Large(_)) => EntityFault::TooLarge(MOST_BYTES + 1),
            WalkStop::Fault(WalkFault::NotCommit(name)) => EntityFault::NotCommit(name),
            WalkStop::Fault(WalkFault::TooMany) => EntityFault::TooLarge(MOST_COMMITS as u64 + 1),
        }
    }
}

impl From<GraphFault> for EntityFault {
    ghost use Rattle.std.specs.Prelude.{◌≡◌};
    ghost use Rattle.dag_entity.specs.Stops.{graph_fault};

    ghost from_gives = { λ fault e. e ≡ graph_fault fault };

    fn from(fault: GraphFault) -> Self {
        match fault {
            GraphFault::SecondRoot(name) => EntityFault::SecondRoot(name),
            GraphFault::ClockOrder(high, low) => EntityFault::ClockOrder(high, low),
            GraphFault::ClockJump(high, low) => EntityFault::ClockJump(high, low),
            GraphFault::MergeHasOperations(name) => EntityFault::MergeHasOperations(name),
        }
    }
}

impl From<gb_text::Memory> for EntityFault {
    ghost use Rattle.std.specs.Prelude.{◌≡◌};
    ghost use Rattle.dag_entity.specs.declared.fault.EntityFault.TheVariants as fault;

    ghost from_gives = { λ _ e. e ≡ fault.Memory };

    fn from(_: gb_text::Memory) -> Self {
        EntityFault::Memory
    }
}

impl From<AllocError> for EntityFault {
    ghost use Rattle.std.specs.Prelude.{◌≡◌};
    ghost use Rattle.dag_entity.specs.declared.fault.EntityFault.TheVariants as fault;

    ghost from_gives = { λ _ e. e ≡ fault.Memory };

    fn from(_: AllocError) -> Self {
        EntityFault::Memory
    }
}

impl<T: Drop> From<AllocFailed<T>> for EntityFault {
    ghost use Rattle.std.specs.Prelude.{◌≡◌};
    ghost use Rattle.dag_entity.specs.declared.fault.EntityFault.TheVariants as fault;

    ghost from_gives = { λ _ e. e ≡ fault.Memory };

    fn from(_: AllocFailed<T>) -> Self {
        EntityFault::Memory
    }
}

impl EntityFault {
    ghost use Rattle.std.specs.Prelude.{◌≡◌};
    ghost use Rattle.dag_entity.specs.Stops.{pack_stop};

    /// A fault of reading the pack of this commit.
    pub(crate) fn of_pack(commit: Name, fault: CommitPackFault) -> EntityFault
        ensures { result ≡ pack_stop commit fault }
    {
        match fault {
            CommitPackFault::Memory => EntityFault::Memory,
            CommitPackFault::Disk => EntityFault::Disk,
            CommitPackFault::Missing(name) => EntityFault::Missing(name),
            CommitPackFault::Damaged(name) => EntityFault::Damaged(name),
            CommitPackFault::Large(_) => EntityFault::TooLarge(MOST_BYTES + 1),
            CommitPackFault::BadTree => EntityFault::BadTree(commit),
            CommitPackFault::UnknownVersion(number) => EntityFault::UnknownVersion(commit, number),
            CommitPackFault::NoOps => EntityFault::NoOps(commit),
            CommitPackFault::BadClock => EntityFault::BadClock(commit),
            CommitPackFault::BadPack => EntityFault::BadPack(commit),
            CommitPackFault::BadOperation(index, fault) => {
                EntityFault::BadOperation(commit, index, fault)
            }
            CommitPackFault::TooLarge(count) => EntityFault::TooLarge(count),
        }
    }
}
