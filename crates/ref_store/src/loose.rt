//! The loose refs of ids directly in a directory of a folder.
ghost use Rattle.std.specs.Prelude.{◌≡◌, List as Items, ℕ, IsTrue, IsErrOf, IfOk, Err};
ghost use Rattle.std.specs.List.{filter_map};
ghost use Rattle.gb_store.specs.Faults.{KeepsFaults};
ghost use Rattle.gb_store.specs.Files.{files_of};
ghost use Rattle.gb_text.specs.Folder.{joined};
ghost use Rattle.ref_store.specs.Refs.{ref_of};
ghost use Rattle.ref_store.specs.Listing.{found_of, id_place, loose_named};
ghost use Rattle.ref_store.specs.declared.fault.RefFault.TheVariants as fault;

use crate::fault::RefFault;
use crate::listing::{RefEntry, RefFound, place_of};
use crate::read::get_loose;
use gb_store::Store;
use gb_text::{Folder, Id, Text};
use std::alloc::Global;

/// The entries of the names of some files, in their order.
pub(crate) fn loose_entries<S: Store>(
    alloc: Global,
    disk: &mut S,
    folder: &Folder,
    dir: &str,
    names: &[Text],
) -> Result<Vec<RefEntry>, RefFault>
    ensures entries { IsTrue S.tells
        → IfOk result (λ entries. entries.items
        ≡ filter_map (loose_named (files_of (S.history disk.old)) folder.now dir.now) names.now) }
    ensures never_bad { (at : Items ℕ) → result ≡ Err (fault.BadRef at) → ⊥ }
    ensures unwritten { IsTrue S.tells → S.history disk.new ≡ S.history disk.old }
    ensures reads { S.object_reads disk.new ≡ S.object_reads disk.old }
    ensures caused { KeepsFaults S.never_fails S.faults
        (IsErrOf result RefFault.Disk) disk.old disk.new }
{
    let mut entries = Vec::new(alloc);
    for name in names {
        if let Some(entry) = entry_at(alloc, disk, folder, dir, name)? {
            entries.push(entry)?;
        }
    }
    Ok(entries)
}

// The entry of a file's name: none where the name is no id, or the file is gone.
fn entry_at<S: Store>(
    alloc: Global,
    disk: &mut S,
    folder: &Folder,
    dir: &str,
    name: &Text,
) -> Result<Option<RefEntry>, RefFault>
    ensures entry { IsTrue S.tells
        → IfOk result (λ entry. entry
        ≡ loose_named (files_of (S.history disk.old)) folder.now dir.now name.now) }
    ensures never_bad { (at : Items ℕ) → result ≡ Err (fault.BadRef at) → ⊥ }
    ensures unwritten { IsTrue S.tells → S.history disk.new ≡ S.history disk.old }
    ensures reads { S.object_reads disk.new ≡ S.object_reads disk.old }
    ensures caused { KeepsFaults S.never_fails S.faults
        (IsErrOf result RefFault.Disk) disk.old disk.new }
{
    match Id::read(name.as_str().as_bytes()) {
        Some(id) => {
            let found = found_at(alloc, disk, folder, dir, &id)?;
            Ok(found.map(|found| RefEntry { id, found }))
        }
        None => Ok(None),
    }
}

// What stands at the place of an id's ref.
#[tactic(auto, using(crate::proofs::IdPathLemmas::reads_none))]
fn found_at<S: Store>(
    alloc: Global,
    disk: &mut S,
    folder: &Folder,
    dir: &str,
    id: &Id,
) -> Result<Option<RefFound>, RefFault>
    ensures found { IsTrue S.tells
        → IfOk result (λ found. found
        ≡ found_of (ref_of (files_of (S.history disk.old) (joined folder.now (id_place dir.now id.now))))) }
    ensures never_bad { (at : Items ℕ) → result ≡ Err (fault.BadRef at) → ⊥ }
    ensures unwritten { IsTrue S.tells → S.history disk.new ≡ S.history disk.old }
    ensures reads { S.object_reads disk.new ≡ S.object_reads disk.old }
    ensures caused { KeepsFaults S.never_fails S.faults
        (IsErrOf result RefFault.Disk) disk.old disk.new }
{
    let place = place_of(alloc, dir, id)?;
    match get_loose(alloc, disk, folder, place.as_str()) {
        Ok(Some(head)) => Ok(Some(RefFound::Head(head))),
        Ok(None) => Ok(None),
        Err(RefFault::BadRef(_)) => Ok(Some(RefFound::Bad)),
        Err(RefFault::Memory) => Err(RefFault::Memory),
        Err(RefFault::Disk) => Err(RefFault::Disk),
    }
}
