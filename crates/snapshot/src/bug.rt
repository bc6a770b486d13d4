//! Bugs of their operations.
ghost use Rattle.std.specs.Prelude.{◌≡◌, IfOk, OnOk};
ghost use Rattle.op_kind.specs.Fold.{row_from, state_from};
ghost use Rattle.bug_ops.specs.Kind.{bug_kind};
ghost use Rattle.snapshot.specs.LastMention.{IsBugList, snapshot_of};

use bug_ops::{BugOp, Excerpt, Fold, Snapshot, copy_ids, copy_pairs, copy_text, copy_texts};
use gb_text::Memory;
use op_kind::OpKind;
use std::alloc::Global;

// The operations, folded once.
fn folded(alloc: Global, ops: &[BugOp]) -> Result<Fold, Memory>
    ensures { IfOk result (λ s. s ≡ state_from bug_kind bug_kind.initial ops.now) }
{
    let mut fold = BugOp::start(alloc);
    for op in ops {
        BugOp::apply(alloc, &mut fold, op)?;
    }
    Ok(fold)
}

/// The bug of some operations. They are gone over once. Of lists that are none of a bug nothing is
/// said: those whose first operation is no creation or has metadata that don't stand in byte order of
/// their keys, and those of which a later operation is a creation.
#[tactic(auto, using(crate::proofs::StepLemmas::fold_is))]
pub fn compile(alloc: Global, ops: &[BugOp]) -> Result<Snapshot, Memory>
    ensures { IsBugList ops.now → IfOk result (λ s. s ≡ snapshot_of ops.now) }
{
    folded(alloc, ops)?.finish(alloc)
}

/// What lists show of a bug.
pub fn excerpt_of(alloc: Global, snapshot: &Snapshot) -> Result<Excerpt, Memory>
    ensures { IfOk result (λ r. r ≡ snapshot.now.row) }
{
    let row = &snapshot.row;
    Ok(Excerpt {
        id: row.id,
        title: copy_text(alloc, &row.title)?,
        status: row.status,
        labels: copy_texts(alloc, row.labels.as_slice())?,
        author: row.author,
        actors: copy_ids(alloc, row.actors.as_slice())?,
        participants: copy_ids(alloc, row.participants.as_slice())?,
        create: row.create,
        edit: row.edit,
        first: row.first,
        last: row.last,
        comments: row.comments,
        metadata: copy_pairs(alloc, row.metadata.as_slice())?,
    })
}

/// Takes a row of a bug further by some operations. They are gone over once, and the row once for each.
/// After `Memory` nothing is said of the row, which is to be dropped.
pub fn follow(alloc: Global, row: &mut Excerpt, ops: &[BugOp]) -> Result<(), Memory>
    ensures { OnOk result (row.new ≡ row_from bug_kind row.old ops.now) }
{
    for op in ops {
        BugOp::row_apply(alloc, row, op)?;
    }
    Ok(())
}
