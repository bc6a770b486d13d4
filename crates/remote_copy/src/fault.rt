//! Why a copy stopped.
use gb_store::StoreFault;
use gb_text::{Memory, Name};
use std::alloc::AllocFailed;

/// Why the closure of a head was not copied. Any objects may have been put whose needs stand.
#[derive(Clone, Copy, Debug, PartialEq, Eq)]
pub enum CopyFault {
    Memory,
    /// The store failed.
    Disk,
    /// No file stands under this name in the source.
    Missing(Name),
    /// The file under this name in the source is no object text with that SHA-1.
    Damaged(Name),
    /// The object under this name is not of the kind by which it is named.
    WrongKind(Name),
    /// An object file has more than 4,194,304 bytes (carries 4,194,305), there are more than 65,536
    /// commits (65,537) or more than 1,048,576 other objects (1,048,577), or a tree lies more than
    /// 16 trees below a commit's tree (17).
    TooLarge(u64),
    /// The commit lies below itself.
    Ring(Name),
    /// Other bytes stand under this name in the target.
    Taken(Name),
}

impl From<Memory> for CopyFault {
    ghost use Rattle.std.specs.Prelude.{◌≡◌};
    ghost use Rattle.remote_copy.specs.declared.fault.CopyFault.TheVariants as fault;

    ghost from_gives = { λ _ e. e ≡ fault.Memory };

    fn from(_: Memory) -> Self {
        CopyFault::Memory
    }
}

impl From<StoreFault> for CopyFault {
    ghost use Rattle.std.specs.Prelude.{◌≡◌};
    ghost use Rattle.remote_copy.specs.Faults.{copy_fault};

    ghost from_gives = { λ fault e. e ≡ copy_fault fault };

    fn from(fault: StoreFault) -> Self {
        match fault {
            StoreFault::Memory => CopyFault::Memory,
            StoreFault::Failed => CopyFault::Disk,
        }
    }
}

impl<T: Drop> From<AllocFailed<T>> for CopyFault {
    ghost use Rattle.std.specs.Prelude.{◌≡◌};
    ghost use Rattle.remote_copy.specs.declared.fault.CopyFault.TheVariants as fault;

    ghost from_gives = { λ _ e. e ≡ fault.Memory };

    fn from(_: AllocFailed<T>) -> Self {
        CopyFault::Memory
    }
}
