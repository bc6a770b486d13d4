//! Putting several objects.
ghost use Rattle.std.specs.Prelude.{◌≡◌, ◌≤◌, ◌+◌, ◌++◌, ◌∷◌, [], nat_le, length, All, IsTrue, false, OnOk, IsErrOf};
ghost use Rattle.std.specs.List.{list_any};
ghost use Rattle.gb_store.specs.Faults.{KeepsFaults};
ghost use Rattle.gb_store.specs.Files.{files_of};
ghost use Rattle.git_object.specs.Grammar.{object_name};
ghost use Rattle.object_store.specs.Held.{objects_in};
ghost use Rattle.object_store.specs.Puts.{object_write};
ghost use Rattle.object_store.specs.Texts.{IsShort};
ghost use Rattle.object_batch.specs.Batches.{AddsMissing, AllStand, AreApart, AreMissing, BatchAnswers, HasLong, IsMissing, PlanAnswers, SizesAnswer, clash_in, do_clash, is_among, share_a_name};

use gb_store::{Change, Store, write_all};
use gb_text::{Bytes, Folder, List, Memory, Name};
use object_store::{MOST_BYTES, ObjectText, PutFault, path_of, stands};
use std::alloc::Global;

/// Puts the objects with these texts under their names, in order, each where it doesn't stand there
/// yet. Every refusal is decided before the first write: a text of more than 4,194,304 bytes is
/// `Large`, whatever stands under the names; a name is `Taken` under which another text stands, or
/// that two different ones of the texts have. Each text is compared with each, so there are to be few.
pub fn put_all<S: Store>(
    alloc: Global,
    disk: &mut S,
    folder: &Folder,
    texts: &[ObjectText],
) -> Result<(), PutFault>
    ensures answers { IsTrue S.tells → BatchAnswers folder.now texts.now
        (S.history disk.old) (S.history disk.new) result }
    ensures held { IsTrue S.tells → OnOk result
        (AllStand (objects_in (files_of (S.history disk.new)) folder.now) texts.now) }
    ensures reads { S.object_reads disk.new ≤ S.object_reads disk.old + length texts.now }
    ensures caused { KeepsFaults S.never_fails S.faults (IsErrOf result PutFault.Disk)
        disk.old disk.new }
{
    let changes = plan_all(alloc, disk, folder, texts)?;
    write_all(alloc, disk, changes.as_slice())?;
    Ok(())
}

/// The writes that put the objects with these texts under their names, in order, each where it
/// doesn't stand there yet. Reads each name once, and writes nothing. Refuses as `put_all`.
pub fn plan_all<S: Store>(
    alloc: Global,
    disk: &mut S,
    folder: &Folder,
    texts: &[ObjectText],
) -> Result<List<Change>, PutFault>
    ensures answers { IsTrue S.tells
        → PlanAnswers folder.now texts.now (S.history disk.old) result }
    ensures unwritten { IsTrue S.tells → S.history disk.new ≡ S.history disk.old }
    ensures reads { S.object_reads disk.new ≤ S.object_reads disk.old + length texts.now }
    ensures caused { KeepsFaults S.never_fails S.faults (IsErrOf result PutFault.Disk)
        disk.old disk.new }
{
    check_sizes(texts)?;
    if let Some(name) = clash_in(texts) {
        return Err(PutFault::Taken(name));
    }
    missing(alloc, disk, folder, texts)
}

/// Refuses the texts as `put_all` does by their sizes: `Large` exactly where one of them has more than
/// 4,194,304 bytes. Reads and writes nothing.
pub fn check_sizes(texts: &[ObjectText]) -> Result<(), PutFault>
    ensures { SizesAnswer texts.now result }
{
    if are_short(texts) {
        Ok(())
    } else {
        Err(PutFault::Large(MOST_BYTES + 1))
    }
}

// Whether each text has at most 4,194,304 bytes.
fn are_short(texts: &[ObjectText]) -> bool
    ensures short { IsTrue result → All IsShort texts.now }
    ensures long { result ≡ false → HasLong texts.now }
{
    texts.iter().all(|text| text.is_short())
}

// Whether two texts have one name and differ. Texts with one name differ where one SHA-1 is that of both.
fn do_clash(one: &ObjectText, two: &ObjectText) -> bool
    ensures { result ≡ do_clash one.now two.now }
{
    one.name() == two.name() && one.as_slice() != two.as_slice()
}

// The name of the first text that another, different one of the texts has too.
fn clash_in(texts: &[ObjectText]) -> Option<Name>
    ensures { result ≡ clash_in texts.now }
{
    let first = texts.iter().find(|one| clashes(one, texts))?;
    Some(first.name())
}

// Whether one of the texts has the name of this one and is another text.
fn clashes(one: &ObjectText, texts: &[ObjectText]) -> bool
    ensures { result ≡ list_any (do_clash one.now) texts.now }
{
    texts.iter().any(|two| do_clash(one, two))
}

// Whether two texts have one name.
fn share_a_name(one: &ObjectText, two: &ObjectText) -> bool
    ensures { result ≡ share_a_name one.now two.now }
{
    one.name() == two.name()
}

// Whether one of the texts has the name of this one.
fn is_among(text: &ObjectText, texts: &[ObjectText]) -> bool
    ensures { result ≡ is_among text.now texts.now }
{
    texts.iter().any(|other| share_a_name(text, other))
}

// Whether a text is to be written behind earlier ones: it doesn't stand, and none of them has its name.
fn is_missing<S: Store>(
    alloc: Global,
    disk: &mut S,
    folder: &Folder,
    text: &ObjectText,
    earlier: &[ObjectText],
) -> Result<bool, PutFault>
    requires { IsShort text.now }
    ensures answers { IsTrue S.tells
        → IsMissing folder.now text.now earlier.now (S.history disk.old) result }
    ensures unwritten { IsTrue S.tells → S.history disk.new ≡ S.history disk.old }
    ensures reads { S.object_reads disk.new ≤ S.object_reads disk.old + 1 }
    ensures caused { KeepsFaults S.never_fails S.faults (IsErrOf result PutFault.Disk)
        disk.old disk.new }
{
    if stands(alloc, disk, folder, text)? {
        return Ok(false);
    }
    Ok(!is_among(text, earlier))
}

// Adds the write of a text under its name.
fn push_write(
    alloc: Global,
    folder: &Folder,
    text: &ObjectText,
    changes: &mut Vec<Change>,
) -> Result<(), Memory>
    ensures { OnOk result (changes.new.items
        ≡ changes.old.items ++ object_write folder.now text.now ∷ []) }
{
    let path = path_of(alloc, folder, &text.name())?;
    let bytes = Bytes::from_slice(alloc, text.as_slice())?;
    changes.push(Change {
        path,
        bytes: Some(bytes),
    })?;
    Ok(())
}

// Adds the write of a text behind those of earlier ones, where it is missing.
fn add_missing<S: Store>(
    alloc: Global,
    disk: &mut S,
    folder: &Folder,
    text: &ObjectText,
    earlier: &[ObjectText],
    changes: &mut Vec<Change>,
) -> Result<(), PutFault>
    requires { IsShort text.now }
    ensures answers { IsTrue S.tells → AddsMissing folder.now text.now earlier.now
        (S.history disk.old) changes.old.items changes.new.items result }
    ensures unwritten { IsTrue S.tells → S.history disk.new ≡ S.history disk.old }
    ensures reads { S.object_reads disk.new ≤ S.object_reads disk.old + 1 }
    ensures caused { KeepsFaults S.never_fails S.faults (IsErrOf result PutFault.Disk)
        disk.old disk.new }
{
    if is_missing(alloc, disk, folder, text, earlier)? {
        push_write(alloc, folder, text, changes)?;
    }
    Ok(())
}

// The writes of the texts that don't stand yet, in order. Any other text under a name is `Taken`.
fn missing<S: Store>(
    alloc: Global,
    disk: &mut S,
    folder: &Folder,
    texts: &[ObjectText],
) -> Result<List<Change>, PutFault>
    requires short { All IsShort texts.now }
    requires apart { AreApart texts.now }
    ensures answers { IsTrue S.tells
        → AreMissing folder.now texts.now (S.history disk.old) result }
    ensures unwritten { IsTrue S.tells → S.history disk.new ≡ S.history disk.old }
    ensures reads { S.object_reads disk.new ≤ S.object_reads disk.old + length texts.now }
    ensures caused { KeepsFaults S.never_fails S.faults (IsErrOf result PutFault.Disk)
        disk.old disk.new }
{
    let mut changes = Vec::new(alloc);
    for (place, text) in texts.iter().enumerate() {
        add_missing(alloc, disk, folder, text, &texts[..place], &mut changes)?;
    }
    Ok(List::from_vec(changes))
}
