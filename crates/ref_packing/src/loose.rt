//! The loose refs of a folder that are packed.
ghost use Rattle.std.specs.Prelude.{◌≡◌, IsTrue, IsErrOf};
ghost use Rattle.gb_store.specs.Faults.{KeepsFaults};
ghost use Rattle.gb_store.specs.Files.{files_of};
ghost use Rattle.ref_store.specs.Listing.{id_place};
ghost use Rattle.ref_packing.specs.Reading.{DirAnswers, LooseAnswers, NameAnswers, NamesAnswer, PlaceAnswers};

use crate::fault::PackFault;
use gb_store::Store;
use gb_text::{Folder, Id, List, Name, Text};
use ref_store::{get, place_of};
use std::alloc::Global;
use std::marker::Model;

/// A loose ref: the path of its file in the folder, which is its name, and its head. Contracts see
/// it as a packed ref.
#[derive(Debug, Drop)]
pub(crate) struct Loose {
    pub(crate) place: Text,
    pub(crate) head: Name,
}

impl Model for Loose {
    ghost use Rattle.packed_refs.specs.Packed.{PackedRef};

    ghost Value = { PackedRef };

    ghost view = { λ l. record { name = l.place; head = l.head } };
}

/// The loose refs of ids, in byte order of their names. `BadRef` of the first one that is no ref
/// text.
pub(crate) fn loose_refs<S: Store>(
    alloc: Global,
    disk: &mut S,
    folder: &Folder,
) -> Result<List<Loose>, PackFault>
    ensures answers { IsTrue S.tells
        → LooseAnswers (files_of (S.history disk.old)) folder.now result }
    ensures unwritten { IsTrue S.tells → S.history disk.new ≡ S.history disk.old }
    ensures reads { S.object_reads disk.new ≡ S.object_reads disk.old }
    ensures caused { KeepsFaults S.never_fails S.faults (IsErrOf result PackFault.Disk)
        disk.old disk.new }
{
    let mut taken = Vec::new(alloc);
    take_dir(alloc, disk, folder, "refs/bugs", &mut taken)?;
    take_dir(alloc, disk, folder, "refs/identities", &mut taken)?;
    Ok(List::from_vec(taken))
}

// Takes the loose refs of ids that are right in a dir.
fn take_dir<S: Store>(
    alloc: Global,
    disk: &mut S,
    folder: &Folder,
    dir: &str,
    taken: &mut Vec<Loose>,
) -> Result<(), PackFault>
    ensures answers { IsTrue S.tells
        → DirAnswers (files_of (S.history disk.old)) folder.now dir.now taken.old.items
        taken.new.items result }
    ensures unwritten { IsTrue S.tells → S.history disk.new ≡ S.history disk.old }
    ensures reads { S.object_reads disk.new ≡ S.object_reads disk.old }
    ensures caused { KeepsFaults S.never_fails S.faults (IsErrOf result PackFault.Disk)
        disk.old disk.new }
{
    let at = folder.join(alloc, dir)?;
    let names = disk.list(alloc, at.as_str())?;
    take_names(alloc, disk, folder, dir, names.as_slice(), taken)
}

// Takes the refs of the names that are ids.
fn take_names<S: Store>(
    alloc: Global,
    disk: &mut S,
    folder: &Folder,
    dir: &str,
    names: &[Text],
    taken: &mut Vec<Loose>,
) -> Result<(), PackFault>
    ensures answers { IsTrue S.tells
        → NamesAnswer (files_of (S.history disk.old)) folder.now dir.now names.now
        taken.old.items taken.new.items result }
    ensures unwritten { IsTrue S.tells → S.history disk.new ≡ S.history disk.old }
    ensures reads { S.object_reads disk.new ≡ S.object_reads disk.old }
    ensures caused { KeepsFaults S.never_fails S.faults (IsErrOf result PackFault.Disk)
        disk.old disk.new }
{
    for name in names {
        if let Some(one) = loose_named(alloc, disk, folder, dir, name)? {
            taken.push(one)?;
        }
    }
    Ok(())
}

// The ref of a name: none where the name is no id, or the file is gone.
fn loose_named<S: Store>(
    alloc: Global,
    disk: &mut S,
    folder: &Folder,
    dir: &str,
    name: &Text,
) -> Result<Option<Loose>, PackFault>
    ensures answers { IsTrue S.tells
        → NameAnswers (files_of (S.history disk.old)) folder.now dir.now name.now result }
    ensures unwritten { IsTrue S.tells → S.history disk.new ≡ S.history disk.old }
    ensures reads { S.object_reads disk.new ≡ S.object_reads disk.old }
    ensures caused { KeepsFaults S.never_fails S.faults (IsErrOf result PackFault.Disk)
        disk.old disk.new }
{
    match Id::read(name.as_str().as_bytes()) {
        Some(id) => loose_at(alloc, disk, folder, dir, &id),
        None => Ok(None),
    }
}

// The loose ref of an id.
#[tactic(auto, using(ref_store::proofs::IdPathLemmas::reads_none))]
fn loose_at<S: Store>(
    alloc: Global,
    disk: &mut S,
    folder: &Folder,
    dir: &str,
    id: &Id,
) -> Result<Option<Loose>, PackFault>
    ensures answers { IsTrue S.tells
        → PlaceAnswers (files_of (S.history disk.old)) folder.now (id_place dir.now id.now)
        result }
    ensures unwritten { IsTrue S.tells → S.history disk.new ≡ S.history disk.old }
    ensures reads { S.object_reads disk.new ≡ S.object_reads disk.old }
    ensures caused { KeepsFaults S.never_fails S.faults (IsErrOf result PackFault.Disk)
        disk.old disk.new }
{
    let place = place_of(alloc, dir, id)?;
    match get(alloc, disk, folder, place.as_str())? {
        Some(head) => Ok(Some(Loose { place, head })),
        None => Ok(None),
    }
}
