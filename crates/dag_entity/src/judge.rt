//! What is asked of the packs of an entity beside their graph. Nothing is read here.
ghost use Rattle.std.specs.Prelude.{◌≡◌, ◌==◌, ◌++◌, IfOk, OnOk};
ghost use Rattle.dag_entity.specs.Judging.{AllFollowAnswers, AuthorsAnswers, DistinctAnswers, FollowAnswers, IdsAnswers, IsSetOf, RootAnswers, all_ids, later_ops};
ghost use Rattle.dag_entity.specs.Nodes.{ids_of};

use crate::entity::Placed;
use crate::fault::EntityFault;
use gb_text::Id;
use op_kind::OpKind;
use op_pack::Pack;
use std::alloc::{AllocFailed, Global};
use std::collections::BTreeSet;

/// The create clock of the root of the entity of this id, if the entity may begin with its pack.
pub(crate) fn root_clock<K: OpKind>(placed: &Placed<K>, id: &Id) -> Result<u64, EntityFault>
    ensures { RootAnswers K.meaning id.now placed.now result }
{
    let Some(create) = placed.pack.create else {
        return Err(EntityFault::NoCreateClock(placed.commit));
    };
    let Some(first) = placed.pack.ops.as_slice().first() else {
        return Err(EntityFault::FirstNotCreate);
    };
    if !first.may_be_first() {
        return Err(EntityFault::FirstNotCreate);
    }
    let found = first.common().place.id;
    if found != *id {
        return Err(EntityFault::WrongId(found));
    }
    Ok(create.number())
}

/// Whether each operation but the root's first may stand behind others.
pub(crate) fn check_following<K: OpKind>(
    packs: &[Placed<K>],
    root: usize,
) -> Result<(), EntityFault>
    ensures { AllFollowAnswers K.meaning packs.now (λ place. place == root) result }
{
    for (place, placed) in packs.iter().enumerate() {
        check_ops(later_ops(placed.pack.ops.as_slice(), place == root))?;
    }
    Ok(())
}

// The operations of a pack that stand behind others: all but the first of the root.
fn later_ops<K: OpKind>(ops: &[K], is_root: bool) -> &[K]
    ensures { result.now ≡ later_ops K.meaning is_root ops.now }
{
    if !is_root {
        return ops;
    }
    match ops.split_first() {
        Some((_, later)) => later,
        None => ops,
    }
}

// Whether these operations may stand behind others.
fn check_ops<K: OpKind>(ops: &[K]) -> Result<(), EntityFault>
    ensures { FollowAnswers K.meaning ops.now result }
{
    for op in ops {
        if !op.may_follow() {
            return Err(EntityFault::SecondCreate(op.common().place.id));
        }
    }
    Ok(())
}

/// Whether no operation comes twice, in one pack or in two. A known id is found in an ordered set.
pub(crate) fn check_ids<K: OpKind>(alloc: Global, packs: &[Placed<K>]) -> Result<(), EntityFault>
    ensures { IdsAnswers K.meaning packs.now result }
{
    let ids = all_ids(alloc, packs)?;
    check_distinct(alloc, &ids)
}

// The ids of all operations, pack by pack.
fn all_ids<K: OpKind>(alloc: Global, packs: &[Placed<K>]) -> Result<Vec<Id>, AllocFailed<Id>>
    ensures { IfOk result (λ ids. ids.items ≡ all_ids K.meaning packs.now) }
{
    let mut ids = Vec::new(alloc);
    for placed in packs {
        add_ids(&mut ids, &placed.pack)?;
    }
    Ok(ids)
}

// Puts the ids of a pack's operations behind others.
fn add_ids<K: OpKind>(ids: &mut Vec<Id>, pack: &Pack<K>) -> Result<(), AllocFailed<Id>>
    ensures { OnOk result (ids.new.items ≡ ids.old.items ++ ids_of K.meaning pack.now) }
{
    for op in pack.ops.as_slice() {
        ids.push(op.common().place.id)?;
    }
    Ok(())
}

// Whether none of these ids comes twice.
fn check_distinct(alloc: Global, ids: &[Id]) -> Result<(), EntityFault>
    ensures { DistinctAnswers ids.now result }
{
    let mut known = BTreeSet::new(alloc);
    for id in ids {
        if !known.insert(*id)? {
            return Err(EntityFault::RepeatedOperation(*id));
        }
    }
    Ok(())
}

/// Whether the authors wrote all packs. An author is found in an ordered set.
pub(crate) fn check_authors<K: OpKind>(
    alloc: Global,
    packs: &[Placed<K>],
    authors: &[Id],
) -> Result<(), EntityFault>
    ensures { AuthorsAnswers K.meaning packs.now authors.now result }
{
    let known = set_of(alloc, authors)?;
    for placed in packs {
        if !known.contains(&placed.pack.author) {
            return Err(EntityFault::AuthorUnknown(placed.pack.author));
        }
    }
    Ok(())
}

// The ordered set of these ids.
fn set_of(alloc: Global, ids: &[Id]) -> Result<BTreeSet<Id>, AllocFailed<Id>>
    ensures { IfOk result (λ known. IsSetOf known ids.now) }
{
    let mut known = BTreeSet::new(alloc);
    for id in ids {
        known.insert(*id)?;
    }
    Ok(known)
}
