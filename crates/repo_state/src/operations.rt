//! The operations of a bug.
ghost use Rattle.std.specs.Prelude.{◌≡◌, ◌++◌, flat_map, IfOk, OnOk};
ghost use Rattle.bug_ops.specs.Kind.{bug_kind};
ghost use Rattle.dag_entity.specs.Entities.{ops_in};
ghost use Rattle.repo_state.specs.Comments.{comment_ids};
ghost use Rattle.repo_state.specs.Seeking.{made_by};

use bug_ops::BugOp;
use dag_entity::Placed;
use gb_text::{Id, List, Memory};
use std::alloc::Global;

/// The operations of these packs, one pack after the other.
pub fn ops_of(alloc: Global, packs: List<Placed<BugOp>>) -> Result<List<BugOp>, Memory>
    ensures { IfOk result (λ ops. ops ≡ ops_in bug_kind packs) }
{
    let mut ops = Vec::new(alloc);
    for placed in packs.into_vec() {
        append(&mut ops, placed.pack.ops)?;
    }
    Ok(List::from_vec(ops))
}

// Puts operations behind others.
fn append(ops: &mut Vec<BugOp>, more: List<BugOp>) -> Result<(), Memory>
    ensures { OnOk result (ops.new.items ≡ ops.old.items ++ more) }
{
    for op in more.into_vec() {
        ops.push(op)?;
    }
    Ok(())
}

// The ids of the comments of a bug that has these packs, in their order. No operation is copied.
pub(crate) fn comment_ids(alloc: Global, packs: &[Placed<BugOp>]) -> Result<List<Id>, Memory>
    ensures { IfOk result (λ ids. ids ≡ comment_ids (ops_in bug_kind packs.now)) }
{
    let mut ids = Vec::new(alloc);
    for placed in packs {
        append_ids(&mut ids, placed.pack.ops.as_slice())?;
    }
    Ok(List::from_vec(ids))
}

// Puts the ids of the comments that these operations make behind others.
fn append_ids(ids: &mut Vec<Id>, ops: &[BugOp]) -> Result<(), Memory>
    ensures { OnOk result (ids.new.items ≡ ids.old.items ++ flat_map made_by ops.now) }
{
    for op in ops {
        append_id(ids, op)?;
    }
    Ok(())
}

// Puts the id of the comment that an operation makes behind others.
fn append_id(ids: &mut Vec<Id>, op: &BugOp) -> Result<(), Memory>
    ensures { OnOk result (ids.new.items ≡ ids.old.items ++ made_by op.now) }
{
    match op {
        BugOp::Create { common, .. } => Ok(ids.push(common.place.id)?),
        BugOp::AddComment { common, .. } => Ok(ids.push(common.place.id)?),
        _ => Ok(()),
    }
}
