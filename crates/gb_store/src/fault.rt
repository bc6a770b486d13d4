//! Why a call of a store or of a sink fails.
use gb_text::Memory;
use std::alloc::{AllocError, AllocFailed};

/// Why a call of a store did not answer: memory ran out, or the store failed.
#[derive(Clone, Copy, Debug, PartialEq, Eq)]
pub enum StoreFault {
    Memory,
    Failed,
}

impl From<Memory> for StoreFault {
    ghost use Rattle.std.specs.Prelude.{◌≡◌};
    ghost use Rattle.gb_store.specs.declared.fault.StoreFault.TheVariants as store;

    ghost from_gives = { λ _ e. e ≡ store.Memory };

    fn from(_: Memory) -> Self {
        StoreFault::Memory
    }
}

impl From<AllocError> for StoreFault {
    ghost use Rattle.std.specs.Prelude.{◌≡◌};
    ghost use Rattle.gb_store.specs.declared.fault.StoreFault.TheVariants as store;

    ghost from_gives = { λ _ e. e ≡ store.Memory };

    fn from(_: AllocError) -> Self {
        StoreFault::Memory
    }
}

impl<T: Drop> From<AllocFailed<T>> for StoreFault {
    ghost use Rattle.std.specs.Prelude.{◌≡◌};
    ghost use Rattle.gb_store.specs.declared.fault.StoreFault.TheVariants as store;

    ghost from_gives = { λ _ e. e ≡ store.Memory };

    fn from(_: AllocFailed<T>) -> Self {
        StoreFault::Memory
    }
}

/// Why a sink took nothing: memory ran out, or the sink failed.
#[derive(Clone, Copy, Debug, PartialEq, Eq)]
pub enum SinkFault {
    Memory,
    Failed,
}

impl From<Memory> for SinkFault {
    ghost use Rattle.std.specs.Prelude.{◌≡◌};
    ghost use Rattle.gb_store.specs.declared.fault.SinkFault.TheVariants as sink;

    ghost from_gives = { λ _ e. e ≡ sink.Memory };

    fn from(_: Memory) -> Self {
        SinkFault::Memory
    }
}

impl From<AllocError> for SinkFault {
    ghost use Rattle.std.specs.Prelude.{◌≡◌};
    ghost use Rattle.gb_store.specs.declared.fault.SinkFault.TheVariants as sink;

    ghost from_gives = { λ _ e. e ≡ sink.Memory };

    fn from(_: AllocError) -> Self {
        SinkFault::Memory
    }
}

impl<T: Drop> From<AllocFailed<T>> for SinkFault {
    ghost use Rattle.std.specs.Prelude.{◌≡◌};
    ghost use Rattle.gb_store.specs.declared.fault.SinkFault.TheVariants as sink;

    ghost from_gives = { λ _ e. e ≡ sink.Memory };

    fn from(_: AllocFailed<T>) -> Self {
        SinkFault::Memory
    }
}
