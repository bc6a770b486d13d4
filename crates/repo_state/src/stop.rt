//! Why a read of a folder, or a search in it, gives no answer.
use gb_store::StoreFault;
use gb_text::{Id, Memory, Text};
use ref_store::RefFault;
use std::alloc::AllocFailed;

/// Why a read of a folder's state gives no answer.
#[derive(Debug, Drop)]
pub enum ReadStop {
    Memory,
    /// The store failed.
    Disk,
    /// The file at this path breaks its grammar, names a head that has a fault, or is a user file
    /// that names no local identity.
    Damaged(Text),
}

/// Why an argument finds nothing.
#[derive(Debug, Drop)]
pub enum Missed {
    /// It names nothing of the kind that is sought.
    NotFound,
    /// It names several, of which these are the two least, the lesser first.
    Ambiguous(Id, Id),
    /// It names something, and the file at this path is damaged.
    Damaged(Text),
}

/// Why a search in a folder gives no answer.
#[derive(Debug, Drop)]
pub enum FindStop {
    Memory,
    /// The store failed.
    Disk,
    Missed(Missed),
}

impl From<Memory> for ReadStop {
    ghost use Rattle.std.specs.Prelude.{◌≡◌};
    ghost use Rattle.repo_state.specs.declared.stop.ReadStop.TheVariants as stop;

    ghost from_gives = { λ _ e. e ≡ stop.Memory };

    fn from(_: Memory) -> Self {
        ReadStop::Memory
    }
}

impl<T: Drop> From<AllocFailed<T>> for ReadStop {
    ghost use Rattle.std.specs.Prelude.{◌≡◌};
    ghost use Rattle.repo_state.specs.declared.stop.ReadStop.TheVariants as stop;

    ghost from_gives = { λ _ e. e ≡ stop.Memory };

    fn from(_: AllocFailed<T>) -> Self {
        ReadStop::Memory
    }
}

impl From<StoreFault> for ReadStop {
    ghost use Rattle.std.specs.Prelude.{◌≡◌};
    ghost use Rattle.repo_state.specs.Stops.{read_of_store};

    ghost from_gives = { λ fault e. e ≡ read_of_store fault };

    fn from(fault: StoreFault) -> Self {
        match fault {
            StoreFault::Memory => ReadStop::Memory,
            StoreFault::Failed => ReadStop::Disk,
        }
    }
}

impl From<RefFault> for ReadStop {
    ghost use Rattle.std.specs.Prelude.{◌≡◌};
    ghost use Rattle.repo_state.specs.Stops.{read_of_ref};

    ghost from_gives = { λ fault e. e ≡ read_of_ref fault };

    fn from(fault: RefFault) -> Self {
        match fault {
            RefFault::Memory => ReadStop::Memory,
            RefFault::Disk => ReadStop::Disk,
            RefFault::BadRef(path) => ReadStop::Damaged(path),
        }
    }
}

impl From<Memory> for FindStop {
    ghost use Rattle.std.specs.Prelude.{◌≡◌};
    ghost use Rattle.repo_state.specs.declared.stop.FindStop.TheVariants as stop;

    ghost from_gives = { λ _ e. e ≡ stop.Memory };

    fn from(_: Memory) -> Self {
        FindStop::Memory
    }
}

impl<T: Drop> From<AllocFailed<T>> for FindStop {
    ghost use Rattle.std.specs.Prelude.{◌≡◌};
    ghost use Rattle.repo_state.specs.declared.stop.FindStop.TheVariants as stop;

    ghost from_gives = { λ _ e. e ≡ stop.Memory };

    fn from(_: AllocFailed<T>) -> Self {
        FindStop::Memory
    }
}

impl From<StoreFault> for FindStop {
    ghost use Rattle.std.specs.Prelude.{◌≡◌};
    ghost use Rattle.repo_state.specs.Stops.{find_of_store};

    ghost from_gives = { λ fault e. e ≡ find_of_store fault };

    fn from(fault: StoreFault) -> Self {
        match fault {
            StoreFault::Memory => FindStop::Memory,
            StoreFault::Failed => FindStop::Disk,
        }
    }
}

impl From<ReadStop> for FindStop {
    ghost use Rattle.std.specs.Prelude.{◌≡◌};
    ghost use Rattle.repo_state.specs.Stops.{find_of_read};

    ghost from_gives = { λ stop e. e ≡ find_of_read stop };

    fn from(stop: ReadStop) -> Self {
        match stop {
            ReadStop::Memory => FindStop::Memory,
            ReadStop::Disk => FindStop::Disk,
            ReadStop::Damaged(path) => FindStop::Missed(Missed::Damaged(path)),
        }
    }
}
