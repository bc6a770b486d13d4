//! All refs of a side.
ghost use Rattle.std.specs.Prelude.{◌≡◌, IsTrue, IsErrOf, IfOk, map};
ghost use Rattle.gb_store.specs.Faults.{KeepsFaults};
ghost use Rattle.gb_store.specs.Files.{files_of};
ghost use Rattle.repo_state.specs.Listed.{AreIdentityRefs, AreRefs, head_in, ref_in};

use crate::refs::{EntityRef, entries};
use crate::side::Side;
use gb_store::{Store, StoreFault};
use gb_text::{Folder, List, Memory, Name};
use ref_store::{RefEntry, RefFound};
use std::alloc::Global;

/// The refs of a side that stand, in the order of ids: each with its head, or with none where its file is
/// no ref text.
pub fn all_refs<S: Store>(
    alloc: Global,
    disk: &mut S,
    folder: &Folder,
    side: &Side,
) -> Result<List<EntityRef>, StoreFault>
    ensures answers { IsTrue S.tells
        → IfOk result (AreRefs (files_of (S.history disk.old)) folder.now side.now) }
    ensures unwritten { IsTrue S.tells → S.history disk.new ≡ S.history disk.old }
    ensures reads { S.object_reads disk.new ≡ S.object_reads disk.old }
    ensures caused { KeepsFaults S.never_fails S.faults (IsErrOf result StoreFault.Failed)
        disk.old disk.new }
{
    let entries = entries(alloc, disk, folder, side)?;
    Ok(List::from_vec(refs_of(alloc, entries.as_slice())?))
}

/// The refs of the local identities, in the order of ids. `bug_among` and `people_among` take them, so
/// that a command which needs both lists them once.
pub fn identity_refs<S: Store>(
    alloc: Global,
    disk: &mut S,
    folder: &Folder,
) -> Result<List<RefEntry>, StoreFault>
    ensures answers { IsTrue S.tells
        → IfOk result (AreIdentityRefs (files_of (S.history disk.old)) folder.now) }
    ensures unwritten { IsTrue S.tells → S.history disk.new ≡ S.history disk.old }
    ensures reads { S.object_reads disk.new ≡ S.object_reads disk.old }
    ensures caused { KeepsFaults S.never_fails S.faults (IsErrOf result StoreFault.Failed)
        disk.old disk.new }
{
    entries(alloc, disk, folder, &Side::Identities)
}

// The refs of these entries.
fn refs_of(alloc: Global, entries: &[RefEntry]) -> Result<Vec<EntityRef>, Memory>
    ensures { IfOk result (λ refs. refs.items ≡ map ref_in entries.now) }
{
    Ok(entries.iter().map(|entry| ref_of(entry)).collect(alloc)?)
}

// The ref of an entry.
fn ref_of(entry: &RefEntry) -> EntityRef
    ensures { result ≡ ref_in entry.now }
{
    EntityRef {
        id: entry.id,
        head: head_of(entry.found),
    }
}

// The head of what was found, if it reads.
fn head_of(found: RefFound) -> Option<Name>
    ensures { result ≡ head_in found }
{
    match found {
        RefFound::Head(name) => Some(name),
        RefFound::Bad => None,
    }
}
