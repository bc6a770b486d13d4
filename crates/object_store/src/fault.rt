//! Why an object wasn't read, or wasn't put.
use gb_store::StoreFault;
use gb_text::{Memory, Name};

/// Why a name gave no object. Each fault but the first two carries the name that was asked for.
#[derive(Clone, Copy, Debug, PartialEq, Eq)]
pub enum ObjFault {
    Memory,
    /// The store failed.
    Disk,
    /// No file stands at the name's path.
    Missing(Name),
    /// The file is no object text with that name.
    Damaged(Name),
    /// The file has more than 4,194,304 bytes.
    Large(Name),
}

impl From<Memory> for ObjFault {
    ghost use Rattle.std.specs.Prelude.{◌≡◌};
    ghost use Rattle.object_store.specs.declared.fault.ObjFault.TheVariants as fault;

    ghost from_gives = { λ _ e. e ≡ fault.Memory };

    fn from(_: Memory) -> Self {
        ObjFault::Memory
    }
}

impl From<StoreFault> for ObjFault {
    ghost use Rattle.std.specs.Prelude.{◌≡◌};
    ghost use Rattle.object_store.specs.Faults.{object_fault};

    ghost from_gives = { λ fault e. e ≡ object_fault fault };

    fn from(fault: StoreFault) -> Self {
        match fault {
            StoreFault::Memory => ObjFault::Memory,
            StoreFault::Failed => ObjFault::Disk,
        }
    }
}

/// Why a name gave no object of the kind that was asked for. Each fault but the first two carries the
/// name that was asked for.
#[derive(Clone, Copy, Debug, PartialEq, Eq)]
pub enum KindFault {
    Memory,
    /// The store failed.
    Disk,
    /// No file stands at the name's path.
    Missing(Name),
    /// The file is no object text with that name.
    Damaged(Name),
    /// The file has more than 4,194,304 bytes.
    Large(Name),
    /// The name holds an object of another kind.
    OtherKind(Name),
}

impl From<ObjFault> for KindFault {
    ghost use Rattle.std.specs.Prelude.{◌≡◌};
    ghost use Rattle.object_store.specs.Faults.{kind_fault};

    ghost from_gives = { λ fault e. e ≡ kind_fault fault };

    fn from(fault: ObjFault) -> Self {
        match fault {
            ObjFault::Memory => KindFault::Memory,
            ObjFault::Disk => KindFault::Disk,
            ObjFault::Missing(name) => KindFault::Missing(name),
            ObjFault::Damaged(name) => KindFault::Damaged(name),
            ObjFault::Large(name) => KindFault::Large(name),
        }
    }
}

/// Why an object wasn't put.
#[derive(Clone, Copy, Debug, PartialEq, Eq)]
pub enum PutFault {
    Memory,
    /// The store failed. The object was put or nothing was.
    Disk,
    /// The object text has more than 4,194,304 bytes; carries 4,194,305.
    Large(u64),
    /// Another text stands at the path of this name.
    Taken(Name),
}

impl From<Memory> for PutFault {
    ghost use Rattle.std.specs.Prelude.{◌≡◌};
    ghost use Rattle.object_store.specs.declared.fault.PutFault.TheVariants as fault;

    ghost from_gives = { λ _ e. e ≡ fault.Memory };

    fn from(_: Memory) -> Self {
        PutFault::Memory
    }
}

impl From<StoreFault> for PutFault {
    ghost use Rattle.std.specs.Prelude.{◌≡◌};
    ghost use Rattle.object_store.specs.Faults.{put_fault};

    ghost from_gives = { λ fault e. e ≡ put_fault fault };

    fn from(fault: StoreFault) -> Self {
        match fault {
            StoreFault::Memory => PutFault::Memory,
            StoreFault::Failed => PutFault::Disk,
        }
    }
}
