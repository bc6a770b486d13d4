//! What may be wrong with the chain of an identity.
use commit_walk::{ChainStop, MOST_COMMITS, WalkFault};
use gb_text::{Id, Memory, Name};
use object_store::{KindFault, MOST_BYTES};

/// Why there is no person. Each fault but the first two is one of the objects.
#[derive(Clone, Copy, Debug, PartialEq, Eq)]
pub enum IdentityFault {
    Memory,
    /// The store failed.
    Disk,
    /// No file stands under this name of a commit, of its tree or of its version.
    Missing(Name),
    /// The file under this name is no object text with that SHA-1.
    Damaged(Name),
    /// The head or a parent names this object, which is no commit.
    NotCommit(Name),
    /// This commit has no version: no tree, no entry `version`, no blob, or no version text.
    BadVersion(Name),
    /// The version of this commit has keys.
    KeysPresent(Name),
    /// This commit has two parents or more.
    NotLinear(Name),
    /// The text of the first version has this id.
    WrongId(Id),
    /// 65,537: there are more than 65,536 commits. 4,194,305: a file has more than 4,194,304 bytes.
    TooLarge(u64),
}

impl From<Memory> for IdentityFault {
    ghost use Rattle.std.specs.Prelude.{◌≡◌};
    ghost use Rattle.identity.specs.declared.fault.IdentityFault.TheVariants as fault;

    ghost from_gives = { λ _ e. e ≡ fault.Memory };

    fn from(_: Memory) -> Self {
        IdentityFault::Memory
    }
}

impl From<KindFault> for IdentityFault {
    ghost use Rattle.std.specs.Prelude.{◌≡◌};
    ghost use Rattle.identity.specs.Faults.{fault_of};

    ghost from_gives = { λ fault e. e ≡ fault_of fault };

    fn from(fault: KindFault) -> Self {
        match fault {
            KindFault::Memory => IdentityFault::Memory,
            KindFault::Disk => IdentityFault::Disk,
            KindFault::Missing(name) => IdentityFault::Missing(name),
            KindFault::Damaged(name) => IdentityFault::Damaged(name),
            KindFault::Large(_) => IdentityFault::TooLarge(MOST_BYTES + 1),
            KindFault::OtherKind(name) => IdentityFault::NotCommit(name),
        }
    }
}

impl From<ChainStop> for IdentityFault {
    ghost use Rattle.std.specs.Prelude.{◌≡◌};
    ghost use Rattle.identity.specs.Faults.{fault_of_stop};

    ghost from_gives = { λ stop e. e ≡ fault_of_stop stop };

    fn from(stop: ChainStop) -> Self {
        match stop {
            ChainStop::Memory => IdentityFault::Memory,
            ChainStop::Disk => IdentityFault::Disk,
            ChainStop::Merge(name) => IdentityFault::NotLinear(name),
            ChainStop::Fault(WalkFault::Missing(name)) => IdentityFault::Missing(name),
            ChainStop::Fault(WalkFault::Damaged(name)) => IdentityFault::Damaged(name),
            ChainStop::Fault(WalkFault::Large(_)) => IdentityFault::TooLarge(MOST_BYTES + 1),
            ChainStop::Fault(WalkFault::NotCommit(name)) => IdentityFault::NotCommit(name),
            ChainStop::Fault(WalkFault::TooMany) => IdentityFault::TooLarge(
                MOST_COMMITS as u64 + 1,
            ),
        }
    }
}
