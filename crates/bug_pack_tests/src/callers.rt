//! Callers that know bugs as a kind of operations, and nothing more of them.
ghost use Rattle.std.specs.Prelude.{◌≡◌, ℕ, List as Items, IfOk, Some};
ghost use Rattle.std.specs.List.{flat_map};
ghost use Rattle.std.specs.Str.{IsUtf8};
ghost use Rattle.json_span.specs.Grammar.{IsValueText};
ghost use Rattle.op_kind.specs.Fold.{state_from};
ghost use Rattle.op_kind.specs.OpText.{op_brackets};
ghost use Rattle.op_kind.specs.declared.place.Place.{Place as PlaceValue};
ghost use Rattle.bug_ops.specs.Kind.{bug_kind};
ghost use Rattle.bug_ops.specs.Snapshots.{empty_snapshot};
ghost use Rattle.bug_ops.specs.declared.op.BugOp.{BugOp as OpValue};

use bug_ops::{BugOp, Excerpt, Fold, Snapshot};
use gb_text::Memory;
use op_kind::{OpKind, folds_append, kinds_read_what_they_write};
use op_pack::Pack;
use std::alloc::Global;

/// What is read of a text that a pack may hold is written and read again.
pub fn bugs_read_what_they_write()
    ensures { (place : PlaceValue) (text : Items ℕ) (op : OpValue) → IsUtf8 text
        → IsValueText op_brackets text → bug_kind.read_at place text ≡ Some op
        → bug_kind.read_at place (bug_kind.written op) ≡ Some op }
{
    kinds_read_what_they_write::<BugOp>();
}

/// The bug of some operations, with its row, which goes along.
pub fn fold_both(alloc: Global, ops: &[BugOp]) -> Result<(Snapshot, Excerpt), Memory>
    ensures bug { IfOk result (λ r. r.0 ≡ state_from bug_kind empty_snapshot ops.now) }
    ensures row { IfOk result (λ r. r.1 ≡ r.0.row) }
{
    let mut fold = BugOp::start(alloc);
    let mut row = BugOp::row_of(alloc, &fold)?;
    for op in ops {
        BugOp::apply(alloc, &mut fold, op)?;
        BugOp::row_apply(alloc, &mut row, op)?;
    }
    Ok((fold.finish(alloc)?, row))
}

// The fold some operations further.
fn after_ops(alloc: Global, before: Fold, ops: &[BugOp]) -> Result<Fold, Memory>
    ensures { IfOk result (λ fold. fold ≡ state_from bug_kind before ops.now) }
{
    let mut fold = before;
    for op in ops {
        BugOp::apply(alloc, &mut fold, op)?;
    }
    Ok(fold)
}

/// The bug of the operations of some packs, in order.
pub fn bug_of_packs(alloc: Global, packs: &[Pack<BugOp>]) -> Result<Snapshot, Memory>
    ensures { IfOk result (λ bug. bug
        ≡ state_from bug_kind empty_snapshot (flat_map (λ pack. pack.ops) packs.now)) }
{
    folds_append::<BugOp>();
    let mut fold = BugOp::start(alloc);
    for pack in packs {
        fold = after_ops(alloc, fold, pack.ops.as_slice())?;
    }
    fold.finish(alloc)
}
