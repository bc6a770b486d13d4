//! Why a merge ended.
use gb_store::StoreFault;
use gb_text::{Memory, Name, Text};
use object_store::PutFault;
use repo_state::ReadStop;
use std::alloc::AllocFailed;

/// Why a merge ended at an entity.
#[derive(Debug, Drop)]
pub enum TurnStop {
    Memory,
    /// The store failed.
    Disk,
    /// The ref at this path is no ref text.
    Damaged(Text),
    /// Another text is stored under this name of an object of the merge commit, or two of these
    /// have the name.
    Taken(Name),
}

/// Why a merge gave no lines.
#[derive(Debug, Drop)]
pub enum MergeStop {
    Memory,
    /// The store failed.
    Disk,
    /// There is no user file.
    NoUser,
    /// The file at this path is a ref that is no ref text, or a user file that names no local
    /// identity.
    Damaged(Text),
    /// As of a turn.
    Taken(Name),
}

impl<T: Drop> From<AllocFailed<T>> for TurnStop {
    ghost use Rattle.std.specs.Prelude.{◌≡◌};
    ghost use Rattle.merge_steps.specs.declared.stop.TurnStop.TheVariants as stop;

    ghost from_gives = { λ _ e. e ≡ stop.Memory };

    fn from(_: AllocFailed<T>) -> Self {
        TurnStop::Memory
    }
}

impl From<Memory> for TurnStop {
    ghost use Rattle.std.specs.Prelude.{◌≡◌};
    ghost use Rattle.merge_steps.specs.declared.stop.TurnStop.TheVariants as stop;

    ghost from_gives = { λ _ e. e ≡ stop.Memory };

    fn from(_: Memory) -> Self {
        TurnStop::Memory
    }
}

impl From<StoreFault> for TurnStop {
    ghost use Rattle.std.specs.Prelude.{◌≡◌};
    ghost use Rattle.merge_steps.specs.Stops.{turn_of_store};

    ghost from_gives = { λ fault e. e ≡ turn_of_store fault };

    fn from(fault: StoreFault) -> Self {
        match fault {
            StoreFault::Memory => TurnStop::Memory,
            StoreFault::Failed => TurnStop::Disk,
        }
    }
}

impl From<ReadStop> for TurnStop {
    ghost use Rattle.std.specs.Prelude.{◌≡◌};
    ghost use Rattle.merge_steps.specs.Stops.{turn_of_read};

    ghost from_gives = { λ read e. e ≡ turn_of_read read };

    fn from(read: ReadStop) -> Self {
        match read {
            ReadStop::Memory => TurnStop::Memory,
            ReadStop::Disk => TurnStop::Disk,
            ReadStop::Damaged(path) => TurnStop::Damaged(path),
        }
    }
}

// `Large` never comes: the objects of a merge commit are short.
impl From<PutFault> for TurnStop {
    ghost use Rattle.std.specs.Prelude.{◌≡◌};
    ghost use Rattle.merge_steps.specs.Stops.{turn_of_put};

    ghost from_gives = { λ fault e. e ≡ turn_of_put fault };

    fn from(fault: PutFault) -> Self {
        match fault {
            PutFault::Disk => TurnStop::Disk,
            PutFault::Taken(name) => TurnStop::Taken(name),
            PutFault::Memory | PutFault::Large(_) => TurnStop::Memory,
        }
    }
}

impl From<Memory> for MergeStop {
    ghost use Rattle.std.specs.Prelude.{◌≡◌};
    ghost use Rattle.merge_steps.specs.declared.stop.MergeStop.TheVariants as stop;

    ghost from_gives = { λ _ e. e ≡ stop.Memory };

    fn from(_: Memory) -> Self {
        MergeStop::Memory
    }
}

impl From<StoreFault> for MergeStop {
    ghost use Rattle.std.specs.Prelude.{◌≡◌};
    ghost use Rattle.merge_steps.specs.Stops.{stop_of_store};

    ghost from_gives = { λ fault e. e ≡ stop_of_store fault };

    fn from(fault: StoreFault) -> Self {
        match fault {
            StoreFault::Memory => MergeStop::Memory,
            StoreFault::Failed => MergeStop::Disk,
        }
    }
}

impl From<ReadStop> for MergeStop {
    ghost use Rattle.std.specs.Prelude.{◌≡◌};
    ghost use Rattle.merge_steps.specs.Stops.{stop_of_read};

    ghost from_gives = { λ read e. e ≡ stop_of_read read };

    fn from(read: ReadStop) -> Self {
        match read {
            ReadStop::Memory => MergeStop::Memory,
            ReadStop::Disk => MergeStop::Disk,
            ReadStop::Damaged(path) => MergeStop::Damaged(path),
        }
    }
}

impl From<TurnStop> for MergeStop {
    ghost use Rattle.std.specs.Prelude.{◌≡◌};
    ghost use Rattle.merge_steps.specs.Stops.{stop_of_turn};

    ghost from_gives = { λ turn e. e ≡ stop_of_turn turn };

    fn from(turn: TurnStop) -> Self {
        match turn {
            TurnStop::Memory => MergeStop::Memory,
            TurnStop::Disk => MergeStop::Disk,
            TurnStop::Damaged(path) => MergeStop::Damaged(path),
            TurnStop::Taken(name) => MergeStop::Taken(name),
        }
    }
}
