//! Why a ref wasn't read, or wasn't set.
use gb_store::StoreFault;
use gb_text::{Memory, Text};
use std::alloc::AllocFailed;

/// Why a call on refs gave no answer.
#[derive(Debug, Drop)]
pub enum RefFault {
    Memory,
    /// The store failed.
    Disk,
    /// The file at this path, which is joined to the folder, is no ref text.
    BadRef(Text),
}

impl From<Memory> for RefFault {
    ghost use Rattle.std.specs.Prelude.{◌≡◌};
    ghost use Rattle.ref_store.specs.declared.fault.RefFault.TheVariants as fault;

    ghost from_gives = { λ _ e. e ≡ fault.Memory };

    fn from(_: Memory) -> Self {
        RefFault::Memory
    }
}

impl From<StoreFault> for RefFault {
    ghost use Rattle.std.specs.Prelude.{◌≡◌};
    ghost use Rattle.ref_store.specs.Faults.{ref_fault};

    ghost from_gives = { λ fault e. e ≡ ref_fault fault };

    fn from(fault: StoreFault) -> Self {
        match fault {
            StoreFault::Memory => RefFault::Memory,
            StoreFault::Failed => RefFault::Disk,
        }
    }
}

impl<T: Drop> From<AllocFailed<T>> for RefFault {
    ghost use Rattle.std.specs.Prelude.{◌≡◌};
    ghost use Rattle.ref_store.specs.declared.fault.RefFault.TheVariants as fault;

    ghost from_gives = { λ _ e. e ≡ fault.Memory };

    fn from(_: AllocFailed<T>) -> Self {
        RefFault::Memory
    }
}
