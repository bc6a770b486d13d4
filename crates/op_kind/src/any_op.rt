//! The kind that keeps the text that it was read from.
ghost use Rattle.std.specs.Prelude.{◌≡◌, IfOk, OnOk};

use crate::{Common, OpFault, OpKind, Place, read_common};
use gb_text::{Bytes, Memory};
use std::alloc::Global;

/// An operation of any type: its common part, and the text that it was read from. States and rows
/// count operations, up to 2^64 - 1.
#[derive(Drop)]
pub struct AnyOp {
    pub common: Common,
    pub text: Bytes,
}

impl OpKind for AnyOp {
    ghost use Rattle.op_kind.specs.AnyKind.{any_kind};
    ghost use Rattle.op_kind.specs.AnyLaws.{any_keeps_laws};

    type State = u64;

    type Row = u64;

    ghost meaning = { any_kind };

    ghost laws = { any_keeps_laws };

    fn read_op(alloc: Global, place: Place, text: &[u8]) -> Result<Self, OpFault> {
        let common = read_common(alloc, place, text)?;
        let text = Bytes::from_slice(alloc, text)?;
        Ok(AnyOp { common, text })
    }

    fn write_op(&self, alloc: Global) -> Result<Bytes, Memory> {
        Bytes::from_slice(alloc, self.text.as_slice())
    }

    fn common(&self) -> &Common {
        &self.common
    }

    fn may_be_first(&self) -> bool {
        true
    }

    fn may_follow(&self) -> bool {
        true
    }

    fn start(_alloc: Global) -> u64 {
        0
    }

    fn apply(_alloc: Global, state: &mut u64, _op: &Self) -> Result<(), Memory> {
        *state = state.saturating_add(1);
        Ok(())
    }

    fn row_of(_alloc: Global, state: &u64) -> Result<u64, Memory> {
        Ok(*state)
    }

    fn row_apply(_alloc: Global, row: &mut u64, _op: &Self) -> Result<(), Memory> {
        *row = row.saturating_add(1);
        Ok(())
    }
}
