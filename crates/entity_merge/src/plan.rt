//! How two heads are to be joined.
ghost use Rattle.std.specs.Prelude.{◌≡◌, ◌∷◌, ℕ, [], None, Some, IsTrue, IfOk, IsErrOf};
ghost use Rattle.gb_store.specs.Faults.{KeepsFaults};
ghost use Rattle.gb_text.specs.declared.id.Id.{Id as IdValue};
ghost use Rattle.object_store.specs.Held.{Objects, objects_after};
ghost use Rattle.object_batch.specs.Batches.{AllStand};
ghost use Rattle.commit_walk.specs.Searches.{ReadsUntil};
ghost use Rattle.dag_entity.specs.Entities.{ReadsEach};
ghost use Rattle.dag_entity.specs.Joining.{merge_node, merge_pack};
ghost use Rattle.dag_entity.specs.Nodes.{IsNode};
ghost use Rattle.entity_merge.specs.Joins.{IfJoined, IfNothing, PlanAnswers, both_heads};
ghost use Rattle.entity_merge.specs.Parts.{IsKnownEqual, JoinAnswers, no_plan};

use crate::fault::MergeFault;
use crate::word::Merged;
use dag_entity::{Entity, EntityFault, ReadBoth, plan_append, read_both, read_entity};
use gb_store::Store;
use gb_text::{Folder, Id, List, Name};
use lamport::{Clock, Time};
use object_store::ObjectText;
use op_kind::{OpKind, VERSION};
use op_pack::Pack;
use std::alloc::Global;

/// How two heads are to be joined: the word, the edit clock of the resulting head, and the create clock of
/// its root. Both clocks are 0 with `Nothing`. With `Joined` it has the texts of the merge commit's objects
/// in the order in which they are put, and otherwise none.
#[derive(Drop)]
pub struct MergePlan {
    pub merged: Merged,
    pub edit: u64,
    pub create: u64,
    pub objects: List<ObjectText>,
}

/// How a remote head of the entity of this id is to be joined with the local one, if there is one. Whether
/// the remote head lies below the local one is decided first, whatever is wrong there. Otherwise both are
/// read together and refused as `Invalid` if anything is wrong with them, also an author of a pack who is
/// not among the authors. The merge commit has the parents local and remote, in this order, and an empty
/// pack of this author. Of each commit below the heads the commit, its tree and its pack are read at most
/// once. Equal heads read nothing. Nothing is written.
pub fn plan_merge<K: OpKind, S: Store>(
    alloc: Global,
    disk: &mut S,
    folder: &Folder,
    id: &Id,
    local: Option<Name>,
    remote: &Name,
    author: &Id,
    authors: &[Id],
    clock: &Clock,
    now: u64,
) -> Result<MergePlan, MergeFault>
    ensures answers { IsTrue S.tells → PlanAnswers K.meaning
        (objects_after (S.history disk.old) folder.now) id.now local remote.now author.now
        authors.now clock.now now result }
    ensures node { IfOk result (λ plan. (objects : Objects) → AllStand objects plan.objects
        → IfJoined local plan.merged (λ low. IsNode K.meaning objects
        (merge_node K.meaning low remote.now author.now plan.edit now))) }
    ensures unwritten { IsTrue S.tells → S.history disk.new ≡ S.history disk.old }
    ensures equal { local ≡ Some remote.now
        → IsKnownEqual result (S.object_reads disk.old) (S.object_reads disk.new) }
    ensures until { IsTrue S.tells → IfOk result (λ plan. IfNothing local plan.merged
        (λ low. ReadsUntil (objects_after (S.history disk.old) folder.now) low remote.now
        (S.object_reads disk.old) (S.object_reads disk.new))) }
    ensures reads { IsTrue S.tells
        → ReadsEach (objects_after (S.history disk.old) folder.now)
        (both_heads local remote.now) 3 (S.object_reads disk.old) (S.object_reads disk.new) }
    ensures caused { KeepsFaults S.never_fails S.faults (IsErrOf result MergeFault.Disk)
        disk.old disk.new }
{
    let Some(local) = local else {
        return plan_new::<K, S>(alloc, disk, folder, id, remote, authors);
    };
    match read_both::<K, S>(alloc, disk, folder, id, &local, remote, authors)? {
        ReadBoth::Equal | ReadBoth::Below => Ok(nothing(alloc)),
        ReadBoth::Above(entity) => Ok(taken(alloc, Merged::Forward(*remote), &entity)),
        ReadBoth::Apart(entity) => {
            plan_joined::<K>(alloc, &entity, &local, remote, author, clock, now)
        }
    }
}

// The plan where there is no local head: the remote one is taken.
fn plan_new<K: OpKind, S: Store>(
    alloc: Global,
    disk: &mut S,
    folder: &Folder,
    id: &Id,
    remote: &Name,
    authors: &[Id],
) -> Result<MergePlan, MergeFault>
    ensures answers { IsTrue S.tells → (author : IdValue) (clock now : ℕ)
        → PlanAnswers K.meaning (objects_after (S.history disk.old) folder.now) id.now None
        remote.now author authors.now clock now result }
    ensures unwritten { IsTrue S.tells → S.history disk.new ≡ S.history disk.old }
    ensures reads { IsTrue S.tells
        → ReadsEach (objects_after (S.history disk.old) folder.now) (remote.now ∷ []) 3
        (S.object_reads disk.old) (S.object_reads disk.new) }
    ensures caused { KeepsFaults S.never_fails S.faults (IsErrOf result MergeFault.Disk)
        disk.old disk.new }
{
    let entity: Entity<K> = read_entity(alloc, disk, folder, id, &[*remote], authors)?;
    Ok(taken(alloc, Merged::New(*remote), &entity))
}

// The plan that leaves the local head.
fn nothing(alloc: Global) -> MergePlan
    ensures { result ≡ no_plan }
{
    MergePlan {
        merged: Merged::Nothing,
        edit: 0,
        create: 0,
        objects: List::new(alloc),
    }
}

// The plan that takes the remote head by this word.
fn taken<K: OpKind>(alloc: Global, merged: Merged, entity: &Entity<K>) -> MergePlan
    ensures merged { result.merged ≡ merged }
    ensures edit { result.edit ≡ entity.now.edit }
    ensures create { result.create ≡ entity.now.create }
    ensures objects { result.objects ≡ [] }
{
    MergePlan {
        merged,
        edit: entity.edit,
        create: entity.create,
        objects: List::new(alloc),
    }
}

// The plan of a merge commit over two heads that are apart.
fn plan_joined<K: OpKind>(
    alloc: Global,
    entity: &Entity<K>,
    local: &Name,
    remote: &Name,
    author: &Id,
    clock: &Clock,
    now: u64,
) -> Result<MergePlan, MergeFault>
    ensures answers { JoinAnswers K.meaning entity.now.edit entity.now.create local.now
        remote.now author.now clock.now now result }
    ensures node { IfOk result (λ plan. (objects : Objects) → AllStand objects plan.objects
        → IsNode K.meaning objects (merge_node K.meaning local.now remote.now author.now
        plan.edit now)) }
{
    let Ok(edit) = clock.merge_time(entity.edit, entity.edit) else {
        return Err(MergeFault::Invalid(EntityFault::ClockFull(*local)));
    };
    let pack: Pack<K> = merge_pack(alloc, author, edit);
    let plan = plan_append(alloc, &[*local, *remote], &pack, now)?;
    Ok(MergePlan {
        merged: Merged::Joined(plan.head),
        edit: edit.number(),
        create: entity.create,
        objects: plan.objects,
    })
}

// The pack of a merge commit.
fn merge_pack<K: OpKind>(alloc: Global, author: &Id, edit: Time) -> Pack<K>
    ensures { result ≡ merge_pack author.now edit }
{
    Pack {
        id: *author,
        version: VERSION,
        edit,
        create: None,
        author: *author,
        ops: List::new(alloc),
    }
}
