//! Packing refs.
ghost use Rattle.std.specs.Prelude.{◌≡◌, ◌∷◌, ◌++◌, IsTrue, IsErrOf, IfOk};
ghost use Rattle.gb_text.specs.Folder.{joined};
ghost use Rattle.gb_store.specs.Faults.{KeepsFaults};
ghost use Rattle.gb_store.specs.Files.{Put, Removed};
ghost use Rattle.gb_store.specs.Moments.{WroteIf};
ghost use Rattle.ref_store.specs.Refs.{packed_place};
ghost use Rattle.ref_packing.specs.Answers.{PackAnswers};
ghost use Rattle.ref_packing.specs.Kinds.{IsPackWrite};
ghost use Rattle.ref_packing.specs.Merging.{TextAnswers};
ghost use Rattle.ref_packing.specs.Packing.{removals};

use crate::fault::PackFault;
use crate::loose::{Loose, loose_refs};
use crate::merge::merged;
use crate::old::old_refs;
use gb_store::{Change, Store, write_all};
use gb_text::{Bytes, Folder, List, Memory};
use packed_refs::{RefLine, packed_text};
use ref_store::{MOST_PACKED_BYTES, packed_path};
use std::alloc::Global;

/// Moves each loose ref of an id in `refs/bugs` and `refs/identities` into the packed refs: first
/// one put of `packed-refs`, with a line for each of them and the last line of each other name, in
/// byte order of names; then the removal of their files, in byte order of paths. Answers how many
/// were moved. Where there is none, nothing is written. `BadRef` of the packed refs comes first,
/// then that of the first bad loose ref; `TooLarge(16777217)` where the new text would have more
/// than 16,777,216 bytes. No ref changes, at any moment.
pub fn pack<S: Store>(alloc: Global, disk: &mut S, folder: &Folder) -> Result<u64, PackFault>
    ensures answers { IsTrue S.tells → PackAnswers folder.now (S.history disk.old)
        (S.history disk.new) result }
    ensures wrote { WroteIf S.tells (IsPackWrite folder.now) (S.history disk.old)
        (S.history disk.new) }
    ensures reads { S.object_reads disk.new ≡ S.object_reads disk.old }
    ensures caused { KeepsFaults S.never_fails S.faults (IsErrOf result PackFault.Disk)
        disk.old disk.new }
{
    let before = old_refs(alloc, disk, folder)?;
    let taken = loose_refs(alloc, disk, folder)?;
    let taken = taken.as_slice();
    if taken.is_empty() {
        return Ok(0);
    }
    let text = new_text(alloc, before, taken)?;
    let changes = changes(alloc, folder, text, taken)?;
    write_all(alloc, disk, changes.as_slice())?;
    Ok(taken.len() as u64)
}

// The text of the packed refs then, if it is not too long.
fn new_text(alloc: Global, before: List<RefLine>, taken: &[Loose]) -> Result<Bytes, PackFault>
    ensures { TextAnswers (before ++ taken.now) result }
{
    let packed = merged(alloc, before, taken)?;
    let text = packed_text(alloc, packed.as_slice())?;
    if text.as_slice().len() as u64 > MOST_PACKED_BYTES {
        return Err(PackFault::TooLarge(MOST_PACKED_BYTES + 1));
    }
    Ok(text)
}

// The writes of a pack, in their order.
fn changes(
    alloc: Global,
    folder: &Folder,
    text: Bytes,
    taken: &[Loose],
) -> Result<Vec<Change>, Memory>
    ensures { IfOk result (λ changes. changes.items
        ≡ Put (joined folder.now packed_place) text ∷ removals folder.now taken.now) }
{
    let mut changes = Vec::new(alloc);
    changes.push(Change {
        path: packed_path(alloc, folder)?,
        bytes: Some(text),
    })?;
    for one in taken {
        changes.push(removal(alloc, folder, one)?)?;
    }
    Ok(changes)
}

// The removal of a loose ref.
fn removal(alloc: Global, folder: &Folder, one: &Loose) -> Result<Change, Memory>
    ensures { IfOk result (λ change. change ≡ Removed (joined folder.now one.now.name)) }
{
    Ok(Change {
        path: folder.join(alloc, one.place.as_str())?,
        bytes: None,
    })
}
