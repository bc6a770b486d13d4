//! What may be wrong with the commits of a walk, and why a walk stopped.
use gb_store::StoreFault;
use gb_text::Name;
use object_store::{KindFault, ObjFault};
use std::alloc::AllocFailed;

/// What is wrong with the commits of a walk.
#[derive(Clone, Copy, Debug, PartialEq, Eq)]
pub enum WalkFault {
    /// No file stands under this name of a commit.
    Missing(Name),
    /// The file under this name is no object text with that SHA-1.
    Damaged(Name),
    /// The file under this name has more than 4,194,304 bytes.
    Large(Name),
    /// A head or a parent names this object, which is no commit.
    NotCommit(Name),
    /// There are more than 65,536 commits.
    TooMany,
}

/// Why a walk below some heads gave no commits.
#[derive(Clone, Copy, Debug, PartialEq, Eq)]
pub enum WalkStop {
    Memory,
    /// The store failed.
    Disk,
    Fault(WalkFault),
}

/// Why a walk along a chain gave no commits.
#[derive(Clone, Copy, Debug, PartialEq, Eq)]
pub enum ChainStop {
    Memory,
    /// The store failed.
    Disk,
    /// The walk met this commit, which has two parents or more.
    Merge(Name),
    Fault(WalkFault),
}

impl From<KindFault> for WalkStop {
    ghost use Rattle.std.specs.Prelude.{◌≡◌};
    ghost use Rattle.commit_walk.specs.Stops.{stop_of};

    ghost from_gives = { λ fault e. e ≡ stop_of fault };

    fn from(fault: KindFault) -> Self {
        match fault {
            KindFault::Memory => WalkStop::Memory,
            KindFault::Disk => WalkStop::Disk,
            KindFault::Missing(name) => WalkStop::Fault(WalkFault::Missing(name)),
            KindFault::Damaged(name) => WalkStop::Fault(WalkFault::Damaged(name)),
            KindFault::Large(name) => WalkStop::Fault(WalkFault::Large(name)),
            KindFault::OtherKind(name) => WalkStop::Fault(WalkFault::NotCommit(name)),
        }
    }
}

impl From<ObjFault> for WalkStop {
    ghost use Rattle.std.specs.Prelude.{◌≡◌};
    ghost use Rattle.object_store.specs.Faults.{kind_fault};
    ghost use Rattle.commit_walk.specs.Stops.{stop_of};

    ghost from_gives = { λ fault e. e ≡ stop_of (kind_fault fault) };

    fn from(fault: ObjFault) -> Self {
        KindFault::from(fault).into()
    }
}

impl From<StoreFault> for WalkStop {
    ghost use Rattle.std.specs.Prelude.{◌≡◌};
    ghost use Rattle.object_store.specs.Faults.{kind_fault, object_fault};
    ghost use Rattle.commit_walk.specs.Stops.{stop_of};

    ghost from_gives = { λ fault e. e ≡ stop_of (kind_fault (object_fault fault)) };

    fn from(fault: StoreFault) -> Self {
        ObjFault::from(fault).into()
    }
}

impl<T: Drop> From<AllocFailed<T>> for WalkStop {
    ghost use Rattle.std.specs.Prelude.{◌≡◌};
    ghost use Rattle.commit_walk.specs.declared.fault.WalkStop.TheVariants as stop;

    ghost from_gives = { λ _ e. e ≡ stop.Memory };

    fn from(_: AllocFailed<T>) -> Self {
        WalkStop::Memory
    }
}

impl From<WalkStop> for ChainStop {
    ghost use Rattle.std.specs.Prelude.{◌≡◌};
    ghost use Rattle.commit_walk.specs.Stops.{chain_stop};

    ghost from_gives = { λ stop e. e ≡ chain_stop stop };

    fn from(stop: WalkStop) -> Self {
        match stop {
            WalkStop::Memory => ChainStop::Memory,
            WalkStop::Disk => ChainStop::Disk,
            WalkStop::Fault(fault) => ChainStop::Fault(fault),
        }
    }
}

impl<T: Drop> From<AllocFailed<T>> for ChainStop {
    ghost use Rattle.std.specs.Prelude.{◌≡◌};
    ghost use Rattle.commit_walk.specs.declared.fault.ChainStop.TheVariants as stop;

    ghost from_gives = { λ _ e. e ≡ stop.Memory };

    fn from(_: AllocFailed<T>) -> Self {
        ChainStop::Memory
    }
}
