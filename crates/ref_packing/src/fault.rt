//! Why refs were not packed.
use gb_store::StoreFault;
use gb_text::{Memory, Text};
use ref_store::RefFault;
use std::alloc::AllocFailed;

/// Why a pack gave no answer.
#[derive(Debug, Drop)]
pub enum PackFault {
    Memory,
    /// The store failed.
    Disk,
    /// The file at this path, which is joined to the folder, is no ref text, or no packed text.
    BadRef(Text),
    /// The packed refs would have more bytes than they may have: the number is one more than those.
    TooLarge(u64),
}

impl From<Memory> for PackFault {
    ghost use Rattle.std.specs.Prelude.{◌≡◌};
    ghost use Rattle.ref_packing.specs.declared.fault.PackFault.TheVariants as fault;

    ghost from_gives = { λ _ e. e ≡ fault.Memory };

    fn from(_: Memory) -> Self {
        PackFault::Memory
    }
}

impl From<StoreFault> for PackFault {
    ghost use Rattle.std.specs.Prelude.{◌≡◌};
    ghost use Rattle.ref_packing.specs.Faults.{of_store};

    ghost from_gives = { λ fault e. e ≡ of_store fault };

    fn from(fault: StoreFault) -> Self {
        match fault {
            StoreFault::Memory => PackFault::Memory,
            StoreFault::Failed => PackFault::Disk,
        }
    }
}

impl From<RefFault> for PackFault {
    ghost use Rattle.std.specs.Prelude.{◌≡◌};
    ghost use Rattle.ref_packing.specs.Faults.{of_ref};

    ghost from_gives = { λ fault e. e ≡ of_ref fault };

    fn from(fault: RefFault) -> Self {
        match fault {
            RefFault::Memory => PackFault::Memory,
            RefFault::Disk => PackFault::Disk,
            RefFault::BadRef(at) => PackFault::BadRef(at),
        }
    }
}

impl<T: Drop> From<AllocFailed<T>> for PackFault {
    ghost use Rattle.std.specs.Prelude.{◌≡◌};
    ghost use Rattle.ref_packing.specs.declared.fault.PackFault.TheVariants as fault;

    ghost from_gives = { λ _ e. e ≡ fault.Memory };

    fn from(_: AllocFailed<T>) -> Self {
        PackFault::Memory
    }
}
