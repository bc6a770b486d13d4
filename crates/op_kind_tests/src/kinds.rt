//! Callers that are generic over a kind of operations, and operations of any type.
ghost use Rattle.std.specs.Prelude.{◌≡◌, IfOk, IfErr};
ghost use Rattle.op_kind.specs.Fold.{state_from};
ghost use Rattle.op_kind.specs.OpText.{IsOpText};

use crate::common::place;
use fixtures::CREATE;
use gb_text::{Bytes, Memory};
use op_kind::{AnyOp, OpFault, OpKind, Place};
use std::alloc::Global;
use std::test::Fail;

/// The state after some operations, with its row, which goes along.
fn fold<K: OpKind>(alloc: Global, ops: &[K]) -> Result<(K::State, K::Row), Memory>
    ensures state { IfOk result (λ r. r.0 ≡ state_from K.meaning K.meaning.initial ops.now) }
    ensures row { IfOk result (λ r. r.1 ≡ K.meaning.row_of r.0) }
{
    let mut state = K::start(alloc);
    let mut row = K::row_of(alloc, &state)?;
    for op in ops {
        K::apply(alloc, &mut state, op)?;
        K::row_apply(alloc, &mut row, op)?;
    }
    Ok((state, row))
}

/// The text of an operation that keeps its rules.
fn written<K: OpKind>(alloc: Global, op: &K) -> Result<Bytes, Memory>
    requires { K.meaning.KeepsRules op.now }
    ensures { IfOk result (λ text. IsOpText text) }
{
    op.write_op(alloc)
}

/// Writes an operation and reads it again at another place: no text that is written has a fault.
fn carry<K: OpKind>(alloc: Global, op: &K, place: Place) -> Result<K, OpFault>
    requires keeps { K.meaning.KeepsRules op.now }
    requires fits { K.meaning.Fits place op.now }
    ensures same { IfOk result (λ o. o ≡ K.meaning.placed place op.now) }
    ensures there { IfOk result (λ o. (K.meaning.common_of o).place ≡ place) }
    ensures memory { IfErr result (λ f. f ≡ OpFault.Memory) }
{
    let text = op.write_op(alloc)?;
    K::read_op(alloc, place, text.as_slice())
}

fn any_op(alloc: Global, edit: u64, text: &[u8]) -> Result<AnyOp, OpFault> {
    AnyOp::read_op(alloc, place(edit), text)
}

/// Two operations: the least, and what is read at another place of what is written of it.
fn two_ops(alloc: Global) -> Result<Vec<AnyOp>, Fail> {
    let mut ops = Vec::new(alloc);
    let op = any_op(alloc, 1, CREATE)?;
    let moved = any_op(alloc, 2, op.write_op(alloc)?.as_slice())?;
    ops.push(op)?;
    ops.push(moved)?;
    Ok(ops)
}

fn counts(alloc: Global, ops: &[AnyOp]) -> Result<(u64, u64), Memory> {
    fold(alloc, ops)
}

#[test]
fn operations_of_any_type_keep_their_text(rt: HostRuntime) -> Result<(), Fail> {
    let ops = two_ops(rt.alloc())?;
    assert_eq!(rt; counts(rt.alloc(), &ops)?, (2, 2));
    for (op, edit) in ops.iter().zip([1, 2]) {
        assert_eq!(rt; (op.common().place.edit, op.common().kind), (edit, 1));
        assert_eq!(rt; op.write_op(rt.alloc())?.as_slice(), CREATE);
        assert!(rt; op.may_be_first() && op.may_follow());
    }
    Ok(())
}
