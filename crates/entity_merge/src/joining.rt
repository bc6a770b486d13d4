//! Two heads are joined, and the objects of the merge commit put.
ghost use Rattle.std.specs.Prelude.{◌≡◌, ◌≤◌, Some, IsTrue, IfOk, IsErrOf};
ghost use Rattle.gb_store.specs.Faults.{KeepsFaults};
ghost use Rattle.object_store.specs.Held.{objects_after};
ghost use Rattle.entity_merge.specs.Joins.{Joins, both_heads};
ghost use Rattle.entity_merge.specs.Merging.{MergeAnswers, ReadsAndPuts};

use crate::fault::MergeFault;
use crate::plan::plan_merge;
use crate::word::Merged;
use gb_store::Store;
use gb_text::{Folder, Id, Name};
use lamport::Clock;
use object_batch::put_all;
use op_kind::OpKind;
use std::alloc::Global;

/// How two heads were joined: the word, the edit clock of the resulting head, and the create clock of its
/// root. Both clocks are 0 with `Nothing`.
#[derive(Clone, Copy, Debug, PartialEq, Eq, Drop)]
pub struct MergeOut {
    pub merged: Merged,
    pub edit: u64,
    pub create: u64,
}

/// Joins a remote head of the entity of this id with the local one, as `plan_merge` says, and puts the
/// objects of the merge commit, each where it is missing. Every refusal is decided before the first write.
/// Writes no ref and no clock.
pub fn merge<K: OpKind, S: Store>(
    alloc: Global,
    disk: &mut S,
    folder: &Folder,
    id: &Id,
    local: Option<Name>,
    remote: &Name,
    author: &Id,
    authors: &[Id],
    clock: &Clock,
    now: u64,
) -> Result<MergeOut, MergeFault>
    ensures answers { IsTrue S.tells → MergeAnswers K.meaning folder.now id.now local
        remote.now author.now authors.now clock.now now (S.history disk.old)
        (S.history disk.new) result }
    ensures joins { IsTrue S.tells → IfOk result (λ out. Joins K.meaning
        (objects_after (S.history disk.old) folder.now)
        (objects_after (S.history disk.new) folder.now)
        local remote.now author.now clock.now now out.merged) }
    ensures equal { local ≡ Some remote.now
        → S.object_reads disk.new ≤ S.object_reads disk.old }
    ensures reads { IsTrue S.tells
        → ReadsAndPuts (objects_after (S.history disk.old) folder.now)
        (both_heads local remote.now) (S.object_reads disk.old) (S.object_reads disk.new) }
    ensures caused { KeepsFaults S.never_fails S.faults (IsErrOf result MergeFault.Disk)
        disk.old disk.new }
{
    let plan = plan_merge::<K, S>(
        alloc, disk, folder, id, local, remote, author, authors, clock, now,
    )?;
    let texts = plan.objects.as_slice();
    put_all(alloc, disk, folder, texts)?;
    Ok(MergeOut {
        merged: plan.merged,
        edit: plan.edit,
        create: plan.create,
    })
}
