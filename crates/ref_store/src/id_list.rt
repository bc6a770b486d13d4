//! The ids that have refs directly in a directory of a folder.
ghost use Rattle.std.specs.Prelude.{◌≡◌, ◌++◌, map, IsTrue, IsErrOf, IfOk};
ghost use Rattle.std.specs.BTreeSet.{IsFromIterResult};
ghost use Rattle.std.specs.List.{filter_map};
ghost use Rattle.gb_store.specs.Faults.{KeepsFaults};
ghost use Rattle.gb_store.specs.Files.{files_of};
ghost use Rattle.gb_text.specs.Digits.{id_of};
ghost use Rattle.ref_store.specs.Listing.{AreSorted, IsIdList, id_cmp};

use crate::packed::packed_heads;
use gb_store::{Store, StoreFault};
use gb_text::{Folder, Id, List, Memory, Text};
use packed_refs::PackedHead;
use std::alloc::{AllocError, Global};
use std::collections::BTreeSet;

/// The ids whose refs are right in the dir, loose or packed, in the order of ids. Files with other
/// names are passed over. No loose ref is read.
pub fn ids<S: Store>(
    alloc: Global,
    disk: &mut S,
    folder: &Folder,
    dir: &str,
) -> Result<List<Id>, StoreFault>
    ensures ids { IsTrue S.tells
        → IfOk result (IsIdList (files_of (S.history disk.old)) folder.now dir.now) }
    ensures unwritten { IsTrue S.tells → S.history disk.new ≡ S.history disk.old }
    ensures reads { S.object_reads disk.new ≡ S.object_reads disk.old }
    ensures caused { KeepsFaults S.never_fails S.faults (IsErrOf result StoreFault.Failed)
        disk.old disk.new }
{
    let at = folder.join(alloc, dir)?;
    let names = disk.list(alloc, at.as_str())?;
    let packed = packed_heads(alloc, disk, folder, dir)?;
    Ok(List::from_vec(sorted_ids(alloc, names.as_slice(), packed.as_slice())?))
}

// The ids among the names of some files and of packed refs, each once and in their order.
fn sorted_ids(alloc: Global, names: &[Text], packed: &[PackedHead]) -> Result<Vec<Id>, Memory>
    ensures { IfOk result (λ ids. AreSorted
        (filter_map id_of names.now ++ map (λ one. one.id) packed.now) ids.items) }
{
    let ids = all_ids(alloc, names, packed)?;
    keys_of(alloc, set_of(alloc, ids.as_slice())?)
}

// The ids among names, and then those of packed refs.
fn all_ids(alloc: Global, names: &[Text], packed: &[PackedHead]) -> Result<Vec<Id>, Memory>
    ensures { IfOk result (λ ids. ids.items
        ≡ filter_map id_of names.now ++ map (λ one. one.id) packed.now) }
{
    let loose = names
        .iter()
        .filter_map(|name| Id::read(name.as_str().as_bytes()));
    Ok(loose.chain(packed.iter().map(|one| one.id)).collect(alloc)?)
}

// The set of some ids.
fn set_of(alloc: Global, ids: &[Id]) -> Result<BTreeSet<Id>, AllocError>
    ensures { IfOk result (IsFromIterResult id_cmp ids.now) }
{
    ids.iter().copied().collect(alloc)
}

// The ids of a set, in its order.
fn keys_of(alloc: Global, set: BTreeSet<Id>) -> Result<Vec<Id>, Memory>
    ensures { IfOk result (λ ids. ids.items ≡ set.keys) }
{
    Ok(set.into_iter().collect(alloc)?)
}
