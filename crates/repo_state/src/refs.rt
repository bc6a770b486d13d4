//! The refs of a folder, as maps from ids to heads.
ghost use Rattle.std.specs.Prelude.{◌≡◌, ◌++◌, List as Items, ℕ, IsTrue, IsErrOf, IfOk, OnOk, codes, false, map};
ghost use Rattle.gb_store.specs.Faults.{KeepsFaults};
ghost use Rattle.gb_store.specs.Files.{files_of};
ghost use Rattle.gb_store.specs.Moments.{WroteIf};
ghost use Rattle.gb_store.specs.ObjectPath.{is_object_path};
ghost use Rattle.gb_text.specs.Folder.{joined};
ghost use Rattle.ref_store.specs.Listing.{IsRefList};
ghost use Rattle.ref_store.specs.Refs.{Answers, Head};
ghost use Rattle.ref_store.specs.Setting.{PutsRef, ref_write};
ghost use Rattle.repo_state.specs.Answers.{DamagedRef, EntityAnswers, HasBadRef, HeadOf, HeadsOf, IsHeadAt, PutAnswers, Reads, WholeAnswers};
ghost use Rattle.repo_state.specs.Sides.{AreHeads, AreIds, IsBadRef, dir_of, has_ref, head_at, ref_place};

use crate::side::{HeadEntry, Side};
use crate::stop::ReadStop;
use gb_store::{Change, Store, StoreFault};
use gb_text::{Folder, Id, List, Memory, Name, Text};
use ref_store::{RefEntry, RefFault, RefFound, place_of};
use std::alloc::Global;

/// The ids whose refs stand on a side, in the order of their digits. No ref is read.
pub fn ids<S: Store>(
    alloc: Global,
    disk: &mut S,
    folder: &Folder,
    side: &Side,
) -> Result<List<Id>, StoreFault>
    ensures answers { IsTrue S.tells
        → IfOk result (AreIds (files_of (S.history disk.old)) folder.now side.now) }
    ensures unwritten { IsTrue S.tells → S.history disk.new ≡ S.history disk.old }
    ensures reads { S.object_reads disk.new ≡ S.object_reads disk.old }
    ensures caused { KeepsFaults S.never_fails S.faults (IsErrOf result StoreFault.Failed)
        disk.old disk.new }
{
    let dir = dir(alloc, side)?;
    ref_store::ids(alloc, disk, folder, dir.as_str())
}

/// An id whose ref stands, and the head that the ref names: none where it is no ref text.
#[derive(Clone, Copy, Debug, PartialEq, Eq)]
pub struct EntityRef {
    pub id: Id,
    pub head: Option<Name>,
}

/// Whether a ref of the id stands on a side. What the file holds isn't judged.
pub fn stands<S: Store>(
    alloc: Global,
    disk: &mut S,
    folder: &Folder,
    side: &Side,
    id: &Id,
) -> Result<bool, StoreFault>
    ensures answers { IsTrue S.tells → IfOk result (λ stands. stands
        ≡ has_ref (files_of (S.history disk.old)) folder.now side.now id.now) }
    ensures unwritten { IsTrue S.tells → S.history disk.new ≡ S.history disk.old }
    ensures reads { S.object_reads disk.new ≡ S.object_reads disk.old }
    ensures caused { KeepsFaults S.never_fails S.faults (IsErrOf result StoreFault.Failed)
        disk.old disk.new }
{
    Ok(entity(alloc, disk, folder, side, id)?.is_some())
}

/// The ref of an id, if one stands.
pub fn entity<S: Store>(
    alloc: Global,
    disk: &mut S,
    folder: &Folder,
    side: &Side,
    id: &Id,
) -> Result<Option<EntityRef>, StoreFault>
    ensures answers { IsTrue S.tells
        → EntityAnswers (files_of (S.history disk.old)) folder.now side.now id.now result }
    ensures unwritten { IsTrue S.tells → S.history disk.new ≡ S.history disk.old }
    ensures reads { S.object_reads disk.new ≡ S.object_reads disk.old }
    ensures caused { KeepsFaults S.never_fails S.faults (IsErrOf result StoreFault.Failed)
        disk.old disk.new }
{
    match read_ref(alloc, disk, folder, side, id) {
        Ok(None) => Ok(None),
        Ok(head) => Ok(Some(EntityRef { id: *id, head })),
        Err(RefFault::BadRef(_)) => Ok(Some(EntityRef {
            id: *id,
            head: None,
        })),
        Err(RefFault::Memory) => Err(StoreFault::Memory),
        Err(RefFault::Disk) => Err(StoreFault::Failed),
    }
}

/// An entity with the head that its ref names, or `Damaged` where the ref is no ref text.
pub fn whole(
    alloc: Global,
    folder: &Folder,
    side: &Side,
    entity: &EntityRef,
) -> Result<HeadEntry, ReadStop>
    ensures { WholeAnswers folder.now side.now entity.now result }
{
    match entity.head {
        Some(name) => Ok(HeadEntry {
            id: entity.id,
            name,
        }),
        None => Err(damaged(alloc, folder, side, &entity.id)),
    }
}

/// The head of an id on a side. None exactly where no ref of it stands; `Damaged`, with the path of
/// the ref, exactly where the file is no ref text.
pub fn head<S: Store>(
    alloc: Global,
    disk: &mut S,
    folder: &Folder,
    side: &Side,
    id: &Id,
) -> Result<Option<Name>, ReadStop>
    ensures answers { IsTrue S.tells
        → Reads (IsHeadAt (files_of (S.history disk.old)) folder.now side.now id.now)
        (IsBadRef (files_of (S.history disk.old)) folder.now side.now id.now) result }
    ensures unwritten { IsTrue S.tells → S.history disk.new ≡ S.history disk.old }
    ensures reads { S.object_reads disk.new ≡ S.object_reads disk.old }
    ensures caused { KeepsFaults S.never_fails S.faults (IsErrOf result ReadStop.Disk)
        disk.old disk.new }
{
    Ok(read_ref(alloc, disk, folder, side, id)?)
}

/// The heads of a side, with their ids and in the order of these. `Damaged`, with the path of the
/// first ref that is no ref text, exactly where there is one.
pub fn heads<S: Store>(
    alloc: Global,
    disk: &mut S,
    folder: &Folder,
    side: &Side,
) -> Result<List<HeadEntry>, ReadStop>
    ensures answers { IsTrue S.tells
        → Reads (AreHeads (files_of (S.history disk.old)) folder.now side.now)
        (HasBadRef (files_of (S.history disk.old)) folder.now side.now) result }
    ensures unwritten { IsTrue S.tells → S.history disk.new ≡ S.history disk.old }
    ensures reads { S.object_reads disk.new ≡ S.object_reads disk.old }
    ensures caused { KeepsFaults S.never_fails S.faults (IsErrOf result ReadStop.Disk)
        disk.old disk.new }
{
    let entries = entries(alloc, disk, folder, side)?;
    Ok(List::from_vec(heads_of(alloc, folder, side, entries.as_slice())?))
}

/// The write that sets the head of an id on a side.
pub fn head_change(
    alloc: Global,
    folder: &Folder,
    side: &Side,
    id: &Id,
    name: &Name,
) -> Result<Change, Memory>
    ensures { IfOk result (λ change. change
        ≡ ref_write folder.now (ref_place side.now id.now) name.now) }
{
    let place = place(alloc, side, id)?;
    ref_store::write_of(alloc, folder, place.as_str(), name)
}

/// Sets the head of an id on a side, by one write.
pub fn set_head<S: Store>(
    alloc: Global,
    disk: &mut S,
    folder: &Folder,
    side: &Side,
    id: &Id,
    name: &Name,
) -> Result<(), StoreFault>
    ensures answers { IsTrue S.tells
        → PutAnswers (ref_write folder.now (ref_place side.now id.now) name.now)
        (S.history disk.old) (S.history disk.new) result }
    ensures reads_back { IsTrue S.tells → OnOk result
        (head_at (files_of (S.history disk.new)) folder.now side.now id.now ≡ Head name.now) }
    ensures wrote { WroteIf S.tells (PutsRef folder.now (ref_place side.now id.now) name.now)
        (S.history disk.old) (S.history disk.new) }
    ensures reads { S.object_reads disk.new ≡ S.object_reads disk.old }
    ensures caused { KeepsFaults S.never_fails S.faults (IsErrOf result StoreFault.Failed)
        disk.old disk.new }
{
    let place = place(alloc, side, id)?;
    match ref_store::set(alloc, disk, folder, place.as_str(), name) {
        Ok(()) => Ok(()),
        Err(RefFault::Disk) => Err(StoreFault::Failed),
        Err(RefFault::Memory | RefFault::BadRef(_)) => Err(StoreFault::Memory),
    }
}

// The dir of a side's refs.
fn dir(alloc: Global, side: &Side) -> Result<Text, Memory>
    ensures { IfOk result (λ dir. dir ≡ dir_of side.now) }
{
    match side {
        Side::Bugs => Text::from_str(alloc, "refs/bugs"),
        Side::Identities => Text::from_str(alloc, "refs/identities"),
        Side::RemoteBugs(remote) => remote_dir(alloc, remote.as_str(), "/bugs"),
        Side::RemoteIdentities(remote) => remote_dir(alloc, remote.as_str(), "/identities"),
    }
}

fn remote_dir(alloc: Global, remote: &str, kind: &str) -> Result<Text, Memory>
    ensures { IfOk result (λ dir. dir ≡ codes "refs/remotes/" ++ remote.now ++ kind.now) }
{
    let mut dir = String::from_str(alloc, "refs/remotes/")?;
    dir.push_str(remote)?;
    dir.push_str(kind)?;
    Ok(Text::from_string(dir))
}

// Where the ref of an id stands. No folder has an object there.
fn place(alloc: Global, side: &Side, id: &Id) -> Result<Text, Memory>
    ensures place { IfOk result (λ place. place ≡ ref_place side.now id.now) }
    ensures no_object { (folder : Items ℕ)
        → IfOk result (λ place. is_object_path (joined folder place) ≡ false) }
{
    let dir = dir(alloc, side)?;
    place_of(alloc, dir.as_str(), id)
}

// The head that the ref of an id names.
#[tactic(auto, using(ref_store::proofs::IdPathLemmas::reads_none))]
fn read_ref<S: Store>(
    alloc: Global,
    disk: &mut S,
    folder: &Folder,
    side: &Side,
    id: &Id,
) -> Result<Option<Name>, RefFault>
    ensures answers { IsTrue S.tells
        → Answers (joined folder.now (ref_place side.now id.now))
        (head_at (files_of (S.history disk.old)) folder.now side.now id.now) result }
    ensures unwritten { IsTrue S.tells → S.history disk.new ≡ S.history disk.old }
    ensures reads { S.object_reads disk.new ≡ S.object_reads disk.old }
    ensures caused { KeepsFaults S.never_fails S.faults (IsErrOf result RefFault.Disk)
        disk.old disk.new }
{
    let place = place(alloc, side, id)?;
    ref_store::get(alloc, disk, folder, place.as_str())
}

/// The refs of a side that stand, in the order of ids, with what was found of each.
pub fn entries<S: Store>(
    alloc: Global,
    disk: &mut S,
    folder: &Folder,
    side: &Side,
) -> Result<List<RefEntry>, StoreFault>
    ensures entries { IsTrue S.tells → IfOk result
        (IsRefList (files_of (S.history disk.old)) folder.now (dir_of side.now)) }
    ensures unwritten { IsTrue S.tells → S.history disk.new ≡ S.history disk.old }
    ensures reads { S.object_reads disk.new ≡ S.object_reads disk.old }
    ensures caused { KeepsFaults S.never_fails S.faults (IsErrOf result StoreFault.Failed)
        disk.old disk.new }
{
    let dir = dir(alloc, side)?;
    match ref_store::list(alloc, disk, folder, dir.as_str()) {
        Ok(entries) => Ok(entries),
        Err(RefFault::Disk) => Err(StoreFault::Failed),
        Err(RefFault::Memory | RefFault::BadRef(_)) => Err(StoreFault::Memory),
    }
}

// The ids of these refs.
pub(crate) fn ids_of(alloc: Global, entries: &[RefEntry]) -> Result<Vec<Id>, Memory>
    ensures { IfOk result (λ ids. ids.items ≡ map (λ e. e.id) entries.now) }
{
    Ok(entries.iter().map(|entry| entry.id).collect(alloc)?)
}

// The heads of these refs.
fn heads_of(
    alloc: Global,
    folder: &Folder,
    side: &Side,
    entries: &[RefEntry],
) -> Result<Vec<HeadEntry>, ReadStop>
    ensures { HeadsOf folder.now side.now entries.now result }
{
    let mut heads = Vec::new(alloc);
    for entry in entries {
        heads.push(head_of(alloc, folder, side, entry)?)?;
    }
    Ok(heads)
}

/// The head of a ref that was found, or `Damaged` with its path where it is no ref text.
pub fn head_of(
    alloc: Global,
    folder: &Folder,
    side: &Side,
    entry: &RefEntry,
) -> Result<HeadEntry, ReadStop>
    ensures { HeadOf folder.now side.now entry.now result }
{
    match entry.found {
        RefFound::Head(name) => Ok(HeadEntry { id: entry.id, name }),
        RefFound::Bad => Err(damaged(alloc, folder, side, &entry.id)),
    }
}

/// `Damaged`, with the path of an id's ref.
pub fn damaged(alloc: Global, folder: &Folder, side: &Side, id: &Id) -> ReadStop
    ensures { DamagedRef folder.now side.now id.now result }
{
    match damaged_path(alloc, folder, side, id) {
        Ok(path) => ReadStop::Damaged(path),
        Err(Memory) => ReadStop::Memory,
    }
}

fn damaged_path(alloc: Global, folder: &Folder, side: &Side, id: &Id) -> Result<Text, Memory>
    ensures { IfOk result (λ path. path ≡ joined folder.now (ref_place side.now id.now)) }
{
    let place = place(alloc, side, id)?;
    folder.join(alloc, place.as_str())
}
