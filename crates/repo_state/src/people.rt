//! The people of a folder.
ghost use Rattle.std.specs.Prelude.{◌≡◌, ◌≤◌, ◌+◌, ◌*◌, length, IsTrue, IsErrOf};
ghost use Rattle.gb_store.specs.Faults.{KeepsFaults};
ghost use Rattle.gb_store.specs.Files.{files_of};
ghost use Rattle.repo_state.specs.Answers.{HasBadPerson, PeopleOf, PersonAt, PersonOf, Reads, ReadsPeople};
ghost use Rattle.repo_state.specs.Listed.{AreIdentityRefs};
ghost use Rattle.repo_state.specs.People.{ArePeople};

use crate::listing::identity_refs;
use crate::refs::{damaged, head_of};
use crate::side::{HeadEntry, Side};
use crate::stop::ReadStop;
use gb_store::Store;
use gb_text::{Folder, List};
use identity::{IdentityFault, Person, read_last};
use ref_store::RefEntry;
use std::alloc::Global;

/// The people of the folder: whom the last version of each local identity shows, in the order of
/// ids. At most three objects are read for each. `Damaged`, with the path of the ref, of the first
/// identity in that order whose ref is no ref text or whose head has no version.
pub fn names<S: Store>(
    alloc: Global,
    disk: &mut S,
    folder: &Folder,
) -> Result<List<Person>, ReadStop>
    ensures answers { IsTrue S.tells
        → Reads (ArePeople (files_of (S.history disk.old)) folder.now) (HasBadPerson (files_of
        (S.history disk.old)) folder.now) result }
    ensures unwritten { IsTrue S.tells → S.history disk.new ≡ S.history disk.old }
    ensures reads { IsTrue S.tells
        → ReadsPeople (files_of (S.history disk.old)) folder.now (S.object_reads disk.old)
        (S.object_reads disk.new) }
    ensures caused { KeepsFaults S.never_fails S.faults
        (IsErrOf result ReadStop.Disk) disk.old disk.new }
{
    let identities = identity_refs(alloc, disk, folder)?;
    people_among(alloc, disk, folder, identities.as_slice())
}

/// The people of these identities, which are all local ones: whom the last version of each shows, in
/// the order of ids. `Damaged`, with the path of the ref, of the first whose ref is no ref text or whose
/// head has no version.
pub fn people_among<S: Store>(
    alloc: Global,
    disk: &mut S,
    folder: &Folder,
    identities: &[RefEntry],
) -> Result<List<Person>, ReadStop>
    ensures answers { IsTrue S.tells
        → AreIdentityRefs (files_of (S.history disk.old)) folder.now identities.now
        → Reads (ArePeople (files_of (S.history disk.old)) folder.now) (HasBadPerson (files_of
        (S.history disk.old)) folder.now) result }
    ensures unwritten { IsTrue S.tells → S.history disk.new ≡ S.history disk.old }
    ensures reads { S.object_reads disk.new
        ≤ S.object_reads disk.old + 3 * length identities.now }
    ensures caused { KeepsFaults S.never_fails S.faults
        (IsErrOf result ReadStop.Disk) disk.old disk.new }
{
    let people = people_of(alloc, disk, folder, identities)?;
    Ok(List::from_vec(people))
}

// The people of these refs.
fn people_of<S: Store>(
    alloc: Global,
    disk: &mut S,
    folder: &Folder,
    entries: &[RefEntry],
) -> Result<Vec<Person>, ReadStop>
    ensures answers { IsTrue S.tells
        → PeopleOf (files_of (S.history disk.old)) folder.now entries.now result }
    ensures unwritten { IsTrue S.tells → S.history disk.new ≡ S.history disk.old }
    ensures reads { S.object_reads disk.new ≤ S.object_reads disk.old + 3 * length entries.now }
    ensures caused { KeepsFaults S.never_fails S.faults
        (IsErrOf result ReadStop.Disk) disk.old disk.new }
{
    let mut people = Vec::new(alloc);
    for entry in entries {
        people.push(person_of(alloc, disk, folder, entry)?)?;
    }
    Ok(people)
}

// The person that the head of a ref shows.
fn person_of<S: Store>(
    alloc: Global,
    disk: &mut S,
    folder: &Folder,
    entry: &RefEntry,
) -> Result<Person, ReadStop>
    ensures answers { IsTrue S.tells
        → PersonOf (files_of (S.history disk.old)) folder.now entry.now result }
    ensures unwritten { IsTrue S.tells → S.history disk.new ≡ S.history disk.old }
    ensures reads { S.object_reads disk.new ≤ S.object_reads disk.old + 3 }
    ensures caused { KeepsFaults S.never_fails S.faults
        (IsErrOf result ReadStop.Disk) disk.old disk.new }
{
    let head = head_of(alloc, folder, &Side::Identities, entry)?;
    person_at(alloc, disk, folder, &head)
}

// The person that a head shows.
fn person_at<S: Store>(
    alloc: Global,
    disk: &mut S,
    folder: &Folder,
    entry: &HeadEntry,
) -> Result<Person, ReadStop>
    ensures answers { IsTrue S.tells
        → PersonAt (files_of (S.history disk.old)) folder.now entry.now result }
    ensures unwritten { IsTrue S.tells → S.history disk.new ≡ S.history disk.old }
    ensures reads { S.object_reads disk.new ≤ S.object_reads disk.old + 3 }
    ensures caused { KeepsFaults S.never_fails S.faults
        (IsErrOf result ReadStop.Disk) disk.old disk.new }
{
    match read_last(alloc, disk, folder, &entry.id, &entry.name) {
        Ok(person) => Ok(person),
        Err(IdentityFault::Memory) => Err(ReadStop::Memory),
        Err(IdentityFault::Disk) => Err(ReadStop::Disk),
        Err(_) => Err(damaged(alloc, folder, &Side::Identities, &entry.id)),
    }
}
