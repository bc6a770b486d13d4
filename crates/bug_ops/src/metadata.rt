//! The metadata of a bug, while it is folded.
ghost use Rattle.std.specs.Prelude.{◌≡◌, [], IfOk, OnOk};
ghost use Rattle.bug_ops.specs.Folds.{AreJoined, joined_to, pairs_in};
ghost use Rattle.bug_ops.specs.Snapshots.{metadata_after, with_pairs};

use crate::copies::copy_pairs;
use crate::op::BugOp;
use crate::pairs::{copy_entries, pairs_of, set_pairs};
use crate::persons::same_id;
use gb_text::{Id, List, Memory, Text};
use op_kind::Pair;
use std::alloc::Global;
use std::collections::BTreeMap;

/// The pairs as the creation has them, or by their keys once further ones were set.
#[derive(Drop)]
pub(crate) enum Metadata {
    Created(List<Pair>),
    Joined(BTreeMap<Text, Text>),
}

// The pairs by their keys.
fn into_entries(alloc: Global, metadata: Metadata) -> Result<BTreeMap<Text, Text>, Memory>
    requires { AreJoined metadata }
    ensures { IfOk result (λ m. m.entries ≡ with_pairs [] (pairs_in metadata)) }
{
    match metadata {
        Metadata::Created(pairs) => {
            let mut entries = BTreeMap::new(alloc);
            set_pairs(alloc, &mut entries, pairs.as_slice())?;
            Ok(entries)
        }
        Metadata::Joined(entries) => Ok(entries),
    }
}

// Sets the keys that are not set.
fn join(alloc: Global, metadata: &mut Metadata, pairs: &[Pair]) -> Result<(), Memory>
    requires { AreJoined metadata.old }
    ensures pairs { OnOk result (pairs_in metadata.new ≡ joined_to metadata.old pairs.now) }
    ensures ascend { OnOk result (AreJoined metadata.new) }
{
    let before = std::mem::replace(metadata, Metadata::Created(List::new(alloc)));
    let mut entries = into_entries(alloc, before)?;
    set_pairs(alloc, &mut entries, pairs)?;
    *metadata = Metadata::Joined(entries);
    Ok(())
}

/// The metadata of the bug with an id one operation further.
pub(crate) fn metadata_apply(
    alloc: Global,
    id: Id,
    metadata: &mut Metadata,
    op: &BugOp,
) -> Result<(), Memory>
    requires { AreJoined metadata.old }
    ensures pairs { OnOk result (pairs_in metadata.new
        ≡ metadata_after id (pairs_in metadata.old) op.now) }
    ensures ascend { OnOk result (AreJoined metadata.new) }
{
    match op {
        BugOp::Create { common, .. } => {
            *metadata = Metadata::Created(copy_pairs(alloc, common.metadata.as_slice())?);
            Ok(())
        }
        BugOp::SetMetadata { target, pairs, .. } => {
            if !same_id(target, &id) {
                return Ok(());
            }
            join(alloc, metadata, pairs.as_slice())
        }
        _ => Ok(()),
    }
}

/// The pairs in a list.
pub(crate) fn into_pairs(alloc: Global, metadata: Metadata) -> Result<List<Pair>, Memory>
    ensures { IfOk result (λ l. l ≡ pairs_in metadata) }
{
    match metadata {
        Metadata::Created(pairs) => Ok(pairs),
        Metadata::Joined(entries) => pairs_of(alloc, entries),
    }
}

/// A copy of the pairs in a list.
pub(crate) fn copy_metadata(alloc: Global, metadata: &Metadata) -> Result<List<Pair>, Memory>
    ensures { IfOk result (λ l. l ≡ pairs_in metadata.now) }
{
    match metadata {
        Metadata::Created(pairs) => copy_pairs(alloc, pairs.as_slice()),
        Metadata::Joined(entries) => copy_entries(alloc, entries),
    }
}
