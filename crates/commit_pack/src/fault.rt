//! Why a commit has no pack.
use gb_text::Name;
use object_store::KindFault;
use op_kind::OpFault;
use op_pack::PackFault;

/// Why a commit has no pack. Where several faults hold, any of them may be named.
#[derive(Clone, Copy, Debug, PartialEq, Eq, Drop)]
pub enum CommitPackFault {
    Memory,
    /// The store failed.
    Disk,
    /// No file stands under this name of the commit's tree or of what the tree's file `ops` names.
    Missing(Name),
    /// The file under this name is no object text with that SHA-1.
    Damaged(Name),
    /// The file under this name has more than 4,194,304 bytes.
    Large(Name),
    /// The name of the commit's tree holds an object that is no tree.
    BadTree,
    /// The tree has not exactly one entry that begins with `version-`, or its rest is not `4`. Holds
    /// the decimal that follows in one such entry, and 0 where none reads.
    UnknownVersion(u64),
    /// The tree has no file `ops`, or it names an object that is no blob.
    NoOps,
    /// The tree has not exactly one edit clock, or several create clocks, or one of them is no plain
    /// decimal of 1 to 2^63 - 1.
    BadClock,
    /// The blob that the file `ops` names is no pack text.
    BadPack,
    /// The operation at this index, from 0, has this fault of its kind, which is never `Memory`.
    BadOperation(u64, OpFault),
    /// There are more than 4,096 operations. Holds 4,097.
    TooLarge(u64),
}

impl From<PackFault> for CommitPackFault {
    ghost use Rattle.std.specs.Prelude.{◌≡◌};
    ghost use Rattle.commit_pack.specs.Faults.{pack_fault};

    ghost from_gives = { λ fault e. e ≡ pack_fault fault };

    fn from(fault: PackFault) -> Self {
        match fault {
            PackFault::Memory => CommitPackFault::Memory,
            PackFault::UnknownVersion(number) => CommitPackFault::UnknownVersion(number),
            PackFault::NoOps => CommitPackFault::NoOps,
            PackFault::BadClock => CommitPackFault::BadClock,
            PackFault::BadPack => CommitPackFault::BadPack,
            PackFault::BadOperation(index, fault) => CommitPackFault::BadOperation(index, fault),
            PackFault::TooLarge(count) => CommitPackFault::TooLarge(count),
        }
    }
}

impl CommitPackFault {
    ghost use Rattle.std.specs.Prelude.{◌≡◌};
    ghost use Rattle.commit_pack.specs.Faults.{ops_fault, tree_fault};

    /// A fault of reading the tree of a commit.
    pub(crate) fn of_tree(fault: KindFault) -> CommitPackFault
        ensures { result ≡ tree_fault fault }
    {
        match fault {
            KindFault::Memory => CommitPackFault::Memory,
            KindFault::Disk => CommitPackFault::Disk,
            KindFault::Missing(name) => CommitPackFault::Missing(name),
            KindFault::Damaged(name) => CommitPackFault::Damaged(name),
            KindFault::Large(name) => CommitPackFault::Large(name),
            KindFault::OtherKind(_) => CommitPackFault::BadTree,
        }
    }

    /// A fault of reading what the file `ops` of a tree names.
    pub(crate) fn of_ops(fault: KindFault) -> CommitPackFault
        ensures { result ≡ ops_fault fault }
    {
        match fault {
            KindFault::OtherKind(_) => CommitPackFault::NoOps,
            fault => CommitPackFault::of_tree(fault),
        }
    }
}
