//! What can be wrong with a pack.
use op_kind::OpFault;
use std::alloc::{AllocError, AllocFailed};

/// Why a tree and a text are no pack. Where several faults hold, any of them may be named.
#[derive(Clone, Copy, Debug, PartialEq, Eq, Drop)]
pub enum PackFault {
    /// Memory ran out, which says nothing of the pack.
    Memory,
    /// The tree has not exactly one entry that begins with `version-`, or its rest is not `4`. Holds
    /// the decimal that follows in one such entry, and 0 where none reads.
    UnknownVersion(u64),
    /// The tree has no entry `ops` of mode 100644 or 100755.
    NoOps,
    /// The tree has not exactly one entry that begins with `edit-clock-`, or several that begin with
    /// `create-clock-`, or what follows in one of them is no plain decimal of 1 to 2^63 - 1.
    BadClock,
    /// The text is no pack text.
    BadPack,
    /// The operation at this index, from 0, has this fault of its kind, which is never `Memory`.
    BadOperation(u64, OpFault),
    /// There are more than 4,096 operations. Holds 4,097.
    TooLarge(u64),
}

impl From<gb_text::Memory> for PackFault {
    ghost use Rattle.std.specs.Prelude.{◌≡◌};
    ghost use Rattle.op_pack.specs.declared.fault.PackFault.TheVariants.{Memory};

    ghost from_gives = { λ _ e. e ≡ Memory };

    fn from(_: gb_text::Memory) -> Self {
        PackFault::Memory
    }
}

impl From<AllocError> for PackFault {
    ghost use Rattle.std.specs.Prelude.{◌≡◌};
    ghost use Rattle.op_pack.specs.declared.fault.PackFault.TheVariants.{Memory};

    ghost from_gives = { λ _ e. e ≡ Memory };

    fn from(_: AllocError) -> Self {
        PackFault::Memory
    }
}

impl<T: Drop> From<AllocFailed<T>> for PackFault {
    ghost use Rattle.std.specs.Prelude.{◌≡◌};
    ghost use Rattle.op_pack.specs.declared.fault.PackFault.TheVariants.{Memory};

    ghost from_gives = { λ _ e. e ≡ Memory };

    fn from(_: AllocFailed<T>) -> Self {
        PackFault::Memory
    }
}
