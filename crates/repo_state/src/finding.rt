//! What a word finds on a side of a folder.
ghost use Rattle.std.specs.Prelude.{◌≡◌, List as Items, ℕ, Err, IsTrue, IsErrOf};
ghost use Rattle.gb_store.specs.Faults.{KeepsFaults};
ghost use Rattle.gb_store.specs.Files.{files_of};
ghost use Rattle.repo_state.specs.Answers.{SoughtAnswers, ref_finder};
ghost use Rattle.repo_state.specs.Finds.{FinderAnswers, head_finder, id_finder};
ghost use Rattle.repo_state.specs.declared.stop.FindStop.TheVariants as stop;
ghost use Rattle.repo_state.specs.declared.stop.Missed.TheVariants as missed;

use crate::refs::{EntityRef, entity, ids, whole};
use crate::side::{HeadEntry, Side};
use crate::stop::{FindStop, Missed};
use combined_id::{Lookup, find as find_among};
use gb_store::Store;
use gb_text::{Folder, Id, Prefix};
use std::alloc::Global;

/// The id that a word finds on a side: the only one whose ref stands and whose 64 digits begin with the
/// word, which is from 1 to 64 lower-case digits. `Ambiguous` with the two least where there are several,
/// and `NotFound` where there is none. What the ref's file holds isn't judged. All 64 digits are looked up
/// without a listing.
pub fn find<S: Store>(
    alloc: Global,
    disk: &mut S,
    folder: &Folder,
    side: &Side,
    word: &str,
) -> Result<Id, FindStop>
    ensures answers { IsTrue S.tells → FinderAnswers
        (id_finder side.now (files_of (S.history disk.old)) folder.now word.now) result }
    ensures never_damaged { (path : Items ℕ)
        → result ≡ Err (stop.Missed (missed.Damaged path)) → ⊥ }
    ensures unwritten { IsTrue S.tells → S.history disk.new ≡ S.history disk.old }
    ensures reads { S.object_reads disk.new ≡ S.object_reads disk.old }
    ensures caused { KeepsFaults S.never_fails S.faults (IsErrOf result FindStop.Disk)
        disk.old disk.new }
{
    Ok(find_ref(alloc, disk, folder, side, word)?.id)
}

/// The entity that a word finds on a side, as `find`, with its head. `Damaged`, with the path of the
/// ref, where that is no ref text. The ref is read once.
pub fn find_head<S: Store>(
    alloc: Global,
    disk: &mut S,
    folder: &Folder,
    side: &Side,
    word: &str,
) -> Result<HeadEntry, FindStop>
    ensures answers { IsTrue S.tells → FinderAnswers
        (head_finder side.now (files_of (S.history disk.old)) folder.now word.now) result }
    ensures unwritten { IsTrue S.tells → S.history disk.new ≡ S.history disk.old }
    ensures reads { S.object_reads disk.new ≡ S.object_reads disk.old }
    ensures caused { KeepsFaults S.never_fails S.faults (IsErrOf result FindStop.Disk)
        disk.old disk.new }
{
    let found = find_ref(alloc, disk, folder, side, word)?;
    Ok(whole(alloc, folder, side, &found)?)
}

// The ref that a word finds on a side.
fn find_ref<S: Store>(
    alloc: Global,
    disk: &mut S,
    folder: &Folder,
    side: &Side,
    word: &str,
) -> Result<EntityRef, FindStop>
    ensures answers { IsTrue S.tells → FinderAnswers
        (ref_finder side.now (files_of (S.history disk.old)) folder.now word.now) result }
    ensures never_damaged { (path : Items ℕ)
        → result ≡ Err (stop.Missed (missed.Damaged path)) → ⊥ }
    ensures unwritten { IsTrue S.tells → S.history disk.new ≡ S.history disk.old }
    ensures reads { S.object_reads disk.new ≡ S.object_reads disk.old }
    ensures caused { KeepsFaults S.never_fails S.faults (IsErrOf result FindStop.Disk)
        disk.old disk.new }
{
    let id = sought(alloc, disk, folder, side, word)?;
    match entity(alloc, disk, folder, side, &id)? {
        Some(found) => Ok(found),
        None => Err(FindStop::Missed(Missed::NotFound)),
    }
}

// The id to look for: the one that the word is, or the only one on the side that begins with it.
fn sought<S: Store>(
    alloc: Global,
    disk: &mut S,
    folder: &Folder,
    side: &Side,
    word: &str,
) -> Result<Id, FindStop>
    ensures answers { IsTrue S.tells
        → SoughtAnswers (files_of (S.history disk.old)) folder.now side.now word.now result }
    ensures never_damaged { (path : Items ℕ)
        → result ≡ Err (stop.Missed (missed.Damaged path)) → ⊥ }
    ensures unwritten { IsTrue S.tells → S.history disk.new ≡ S.history disk.old }
    ensures reads { S.object_reads disk.new ≡ S.object_reads disk.old }
    ensures caused { KeepsFaults S.never_fails S.faults (IsErrOf result FindStop.Disk)
        disk.old disk.new }
{
    match Id::read(word.as_bytes()) {
        Some(id) => Ok(id),
        None => find_begun(alloc, disk, folder, side, word),
    }
}

// The only id on a side that begins with a word. What words find is said here alone.
fn find_begun<S: Store>(
    alloc: Global,
    disk: &mut S,
    folder: &Folder,
    side: &Side,
    word: &str,
) -> Result<Id, FindStop>
    ensures answers { IsTrue S.tells → FinderAnswers
        (id_finder side.now (files_of (S.history disk.old)) folder.now word.now) result }
    ensures never_damaged { (path : Items ℕ)
        → result ≡ Err (stop.Missed (missed.Damaged path)) → ⊥ }
    ensures unwritten { IsTrue S.tells → S.history disk.new ≡ S.history disk.old }
    ensures reads { S.object_reads disk.new ≡ S.object_reads disk.old }
    ensures caused { KeepsFaults S.never_fails S.faults (IsErrOf result FindStop.Disk)
        disk.old disk.new }
{
    let Some(prefix) = Prefix::read(word.as_bytes()) else {
        return Err(FindStop::Missed(Missed::NotFound));
    };
    let all = ids(alloc, disk, folder, side)?;
    let all = all.as_slice();
    match find_among(all, &prefix) {
        Lookup::One(place) => Ok(all[place]),
        Lookup::NotFound => Err(FindStop::Missed(Missed::NotFound)),
        Lookup::Ambiguous(least, next) => Err(FindStop::Missed(Missed::Ambiguous(least, next))),
    }
}
