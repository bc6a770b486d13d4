//! The rows of the local bugs. A row that is stored serves while it names the bug's head. An older
//! one is brought up to date by the commits above it, if they form a chain; any other bug is read
//! whole.
ghost use Rattle.std.specs.Prelude.{◌≡◌, IsTrue, IsErrOf, IfOk, OnOk, Some};
ghost use Rattle.bug_ops.specs.Kind.{bug_kind};
ghost use Rattle.dag_entity.specs.Entities.{ops_in};
ghost use Rattle.gb_store.specs.Faults.{KeepsFaults};
ghost use Rattle.gb_store.specs.Files.{files_of};
ghost use Rattle.gb_store.specs.Moments.{Wrote, WroteIf};
ghost use Rattle.op_kind.specs.Fold.{row_from};
ghost use Rattle.ref_store.specs.Listing.{IsRefList};
ghost use Rattle.repo_rows.specs.Rows.{HasNoCurrentRow, IsStored};
ghost use Rattle.repo_rows.specs.Reading.{GrownRow, IsFound, IsJudged, IsOlder, IsHead, IsRowWriteOf, MaybeStored, ReadRow, RowAt, RowOf, RowsAnswers, RowsOf, StoredOf, StoredRow};
ghost use Rattle.repo_rows.specs.Reads.{ReadsAboveRow, ReadsBug, ReadsFirst, ReadsRef, ReadsRows};
ghost use Rattle.repo_state.specs.Bugs.{ReadsAbove, ReadsBelow};
ghost use Rattle.repo_state.specs.Listed.{AreIdentityRefs};
ghost use Rattle.repo_state.specs.Rows.{stored_row};
ghost use Rattle.repo_state.specs.Sides.{dir_of};
ghost use Rattle.repo_state.specs.declared.side.Side.TheVariants as sides;
ghost use Rattle.repo_writes.specs.Kinds.{IsRowWrite};
ghost use Rattle.row_text.specs.Codec.{RowFits};
ghost use Rattle.snapshot.specs.LastMention.{IsBugList, snapshot_of};

use bug_ops::{BugOp, Excerpt};
use dag_entity::{Placed, Since};
use excerpt_cache::{CacheFault, read_row, write_row};
use gb_store::Store;
use gb_text::{Folder, Id, List, Memory, Name};
use ref_store::RefEntry;
use repo_state::{
    HeadEntry, ReadStop, Side, bug_among, bug_since, entries, head_of, identity_refs, ops_of,
};
use row_text::HeadRow;
use snapshot::{compile, excerpt_of, follow};
use std::alloc::Global;

/// What lists show of each local bug, in the order of ids. A stored row serves if it names the
/// bug's head. One of another head is brought up to date by the commits above that, if steps by the
/// single parent lead there. Any other bug is read whole. A new row is stored if it fits.
/// `Damaged`, with the path of the ref, of a bug whose ref is no ref text, or that has no such row
/// and with which something is wrong. Rows that were written before that stay.
pub fn rows<S: Store>(
    alloc: Global,
    disk: &mut S,
    folder: &Folder,
) -> Result<List<Excerpt>, ReadStop>
    ensures answers { IsTrue S.tells
        → RowsAnswers folder.now (S.history disk.old) (S.history disk.new) result }
    ensures wrote { WroteIf S.tells (IsRowWrite folder.now)
        (S.history disk.old) (S.history disk.new) }
    ensures reads { IsTrue S.tells → ReadsRows (files_of (S.history disk.old)) folder.now
        (S.object_reads disk.old) (S.object_reads disk.new) }
    ensures caused { KeepsFaults S.never_fails S.faults (IsErrOf result ReadStop.Disk)
        disk.old disk.new }
{
    let identities = identity_refs(alloc, disk, folder)?;
    rows_among(alloc, disk, folder, identities.as_slice())
}

/// The same, where these are the refs of the local identities, so that a command which needs them
/// for people too lists them once.
pub fn rows_among<S: Store>(
    alloc: Global,
    disk: &mut S,
    folder: &Folder,
    identities: &[RefEntry],
) -> Result<List<Excerpt>, ReadStop>
    ensures answers { IsTrue S.tells
        → AreIdentityRefs (files_of (S.history disk.old)) folder.now identities.now
        → RowsAnswers folder.now (S.history disk.old) (S.history disk.new) result }
    ensures wrote { IsTrue S.tells
        → AreIdentityRefs (files_of (S.history disk.old)) folder.now identities.now
        → Wrote (IsRowWrite folder.now) (S.history disk.old) (S.history disk.new) }
    ensures reads { IsTrue S.tells
        → AreIdentityRefs (files_of (S.history disk.old)) folder.now identities.now
        → ReadsRows (files_of (S.history disk.old)) folder.now
        (S.object_reads disk.old) (S.object_reads disk.new) }
    ensures caused { KeepsFaults S.never_fails S.faults (IsErrOf result ReadStop.Disk)
        disk.old disk.new }
{
    let bugs = entries(alloc, disk, folder, &Side::Bugs)?;
    let rows = rows_of(alloc, disk, folder, bugs.as_slice(), identities)?;
    Ok(List::from_vec(rows))
}

// The rows of these refs, which are those of all local bugs.
fn rows_of<S: Store>(
    alloc: Global,
    disk: &mut S,
    folder: &Folder,
    bugs: &[RefEntry],
    identities: &[RefEntry],
) -> Result<Vec<Excerpt>, ReadStop>
    ensures answers { IsTrue S.tells
        → AreIdentityRefs (files_of (S.history disk.old)) folder.now identities.now
        → IsRefList (files_of (S.history disk.old)) folder.now (dir_of sides.Bugs) bugs.now
        → RowsOf folder.now (files_of (S.history disk.old)) (files_of (S.history disk.new))
        bugs.now result }
    ensures wrote { IsTrue S.tells
        → AreIdentityRefs (files_of (S.history disk.old)) folder.now identities.now
        → IsRefList (files_of (S.history disk.old)) folder.now (dir_of sides.Bugs) bugs.now
        → Wrote (IsRowWrite folder.now) (S.history disk.old) (S.history disk.new) }
    ensures reads { IsTrue S.tells
        → AreIdentityRefs (files_of (S.history disk.old)) folder.now identities.now
        → IsRefList (files_of (S.history disk.old)) folder.now (dir_of sides.Bugs) bugs.now
        → ReadsFirst (files_of (S.history disk.old)) folder.now bugs.now
        (S.object_reads disk.old) (S.object_reads disk.new) }
    ensures caused { KeepsFaults S.never_fails S.faults (IsErrOf result ReadStop.Disk)
        disk.old disk.new }
{
    let mut rows = Vec::new(alloc);
    for entry in bugs {
        rows.push(row_of(alloc, disk, folder, entry, identities)?)?;
    }
    Ok(rows)
}

// The row of a ref.
fn row_of<S: Store>(
    alloc: Global,
    disk: &mut S,
    folder: &Folder,
    entry: &RefEntry,
    identities: &[RefEntry],
) -> Result<Excerpt, ReadStop>
    ensures answers { IsTrue S.tells
        → AreIdentityRefs (files_of (S.history disk.old)) folder.now identities.now
        → IsFound (files_of (S.history disk.old)) folder.now entry.now
        → RowOf (files_of (S.history disk.old)) folder.now entry.now result }
    ensures stored { IsTrue S.tells
        → IfOk result (StoredOf (files_of (S.history disk.new)) folder.now entry.now) }
    ensures wrote { IsTrue S.tells
        → AreIdentityRefs (files_of (S.history disk.old)) folder.now identities.now
        → IsFound (files_of (S.history disk.old)) folder.now entry.now
        → Wrote (IsRowWriteOf folder.now entry.now.id) (S.history disk.old) (S.history disk.new) }
    ensures reads { IsTrue S.tells → ReadsRef (files_of (S.history disk.old)) folder.now entry.now
        (S.object_reads disk.old) (S.object_reads disk.new) }
    ensures caused { KeepsFaults S.never_fails S.faults (IsErrOf result ReadStop.Disk)
        disk.old disk.new }
{
    let bug = head_of(alloc, folder, &Side::Bugs, entry)?;
    row_at(alloc, disk, folder, &bug, identities)
}

// The row of a bug at its head.
fn row_at<S: Store>(
    alloc: Global,
    disk: &mut S,
    folder: &Folder,
    bug: &HeadEntry,
    identities: &[RefEntry],
) -> Result<Excerpt, ReadStop>
    ensures answers { IsTrue S.tells
        → AreIdentityRefs (files_of (S.history disk.old)) folder.now identities.now
        → IsHead (files_of (S.history disk.old)) folder.now bug.now
        → RowAt (files_of (S.history disk.old)) folder.now bug.now result }
    ensures stored { IsTrue S.tells
        → IfOk result (IsStored (files_of (S.history disk.new)) folder.now bug.now) }
    ensures wrote { IsTrue S.tells
        → AreIdentityRefs (files_of (S.history disk.old)) folder.now identities.now
        → IsHead (files_of (S.history disk.old)) folder.now bug.now
        → Wrote (IsRowWriteOf folder.now bug.now.id) (S.history disk.old) (S.history disk.new) }
    ensures reads { IsTrue S.tells → ReadsBug (files_of (S.history disk.old)) folder.now bug.now
        (S.object_reads disk.old) (S.object_reads disk.new) }
    ensures caused { KeepsFaults S.never_fails S.faults (IsErrOf result ReadStop.Disk)
        disk.old disk.new }
{
    match stored_row(alloc, disk, folder, bug)? {
        Judged::Current(row) => Ok(row),
        Judged::Older(older) => new_row(alloc, disk, folder, bug, Some(older), identities),
        Judged::Missing => new_row(alloc, disk, folder, bug, None, identities),
    }
}

// The stored row of a bug, by the head that it is of.
fn stored_row<S: Store>(
    alloc: Global,
    disk: &mut S,
    folder: &Folder,
    bug: &HeadEntry,
) -> Result<Judged, ReadStop>
    ensures answers { IsTrue S.tells
        → StoredRow (files_of (S.history disk.old)) folder.now bug.now result }
    ensures unwritten { IsTrue S.tells → S.history disk.new ≡ S.history disk.old }
    ensures reads { S.object_reads disk.new ≡ S.object_reads disk.old }
    ensures caused { KeepsFaults S.never_fails S.faults (IsErrOf result ReadStop.Disk)
        disk.old disk.new }
{
    match read_row::<HeadRow, S>(alloc, disk, folder, &bug.id) {
        Ok(stored) => Ok(judge(stored, &bug.name)),
        Err(CacheFault::Memory) => Err(ReadStop::Memory),
        Err(CacheFault::Disk) => Err(ReadStop::Disk),
    }
}

// A stored row, by the head that it is of.
#[derive(Drop)]
enum Judged {
    Current(Excerpt),
    Older(HeadRow),
    Missing,
}

// Whether a stored row is of this head.
fn judge(stored: Option<HeadRow>, head: &Name) -> Judged
    ensures { IsJudged head.now stored result }
{
    let Some(stored) = stored else {
        return Judged::Missing;
    };
    if stored.head == *head {
        Judged::Current(stored.row)
    } else {
        Judged::Older(stored)
    }
}

// The row of a bug of which no row of its head is stored, by an older one if there is one. It is
// stored if it fits.
fn new_row<S: Store>(
    alloc: Global,
    disk: &mut S,
    folder: &Folder,
    bug: &HeadEntry,
    older: Option<HeadRow>,
    identities: &[RefEntry],
) -> Result<Excerpt, ReadStop>
    ensures answers { IsTrue S.tells
        → AreIdentityRefs (files_of (S.history disk.old)) folder.now identities.now
        → IsHead (files_of (S.history disk.old)) folder.now bug.now
        → IsOlder (files_of (S.history disk.old)) folder.now bug.now older
        → RowAt (files_of (S.history disk.old)) folder.now bug.now result }
    ensures stored { IsTrue S.tells
        → IfOk result (IsStored (files_of (S.history disk.new)) folder.now bug.now) }
    ensures wrote { IsTrue S.tells
        → AreIdentityRefs (files_of (S.history disk.old)) folder.now identities.now
        → IsHead (files_of (S.history disk.old)) folder.now bug.now
        → IsOlder (files_of (S.history disk.old)) folder.now bug.now older
        → HasNoCurrentRow (files_of (S.history disk.old)) folder.now bug.now
        → Wrote (IsRowWriteOf folder.now bug.now.id) (S.history disk.old) (S.history disk.new) }
    ensures below { IsTrue S.tells → ReadsBelow (files_of (S.history disk.old)) folder.now bug.now
        (S.object_reads disk.old) (S.object_reads disk.new) }
    ensures above { IsTrue S.tells
        → ReadsAboveRow (files_of (S.history disk.old)) folder.now bug.now older
        (S.object_reads disk.old) (S.object_reads disk.new) }
    ensures caused { KeepsFaults S.never_fails S.faults (IsErrOf result ReadStop.Disk)
        disk.old disk.new }
{
    let row = fresh_row(alloc, disk, folder, bug, older, identities)?;
    let stored = HeadRow {
        head: bug.name,
        row,
    };
    match store_row(alloc, disk, folder, &bug.id, &stored) {
        Ok(()) => Ok(stored.row),
        Err(CacheFault::Memory) => Err(ReadStop::Memory),
        Err(CacheFault::Disk) => Err(ReadStop::Disk),
    }
}

// The row of a bug, by an older one if there is one.
fn fresh_row<S: Store>(
    alloc: Global,
    disk: &mut S,
    folder: &Folder,
    bug: &HeadEntry,
    older: Option<HeadRow>,
    identities: &[RefEntry],
) -> Result<Excerpt, ReadStop>
    ensures answers { IsTrue S.tells
        → AreIdentityRefs (files_of (S.history disk.old)) folder.now identities.now
        → IsHead (files_of (S.history disk.old)) folder.now bug.now
        → IsOlder (files_of (S.history disk.old)) folder.now bug.now older
        → RowAt (files_of (S.history disk.old)) folder.now bug.now result }
    ensures unwritten { IsTrue S.tells → S.history disk.new ≡ S.history disk.old }
    ensures below { IsTrue S.tells → ReadsBelow (files_of (S.history disk.old)) folder.now bug.now
        (S.object_reads disk.old) (S.object_reads disk.new) }
    ensures above { IsTrue S.tells
        → ReadsAboveRow (files_of (S.history disk.old)) folder.now bug.now older
        (S.object_reads disk.old) (S.object_reads disk.new) }
    ensures caused { KeepsFaults S.never_fails S.faults (IsErrOf result ReadStop.Disk)
        disk.old disk.new }
{
    match older {
        Some(older) => grown_row(alloc, disk, folder, bug, older, identities),
        None => read_whole(alloc, disk, folder, bug, identities),
    }
}

// The row of a bug by one of another head: further by the operations since then if steps by the
// single parent lead to that head, and otherwise by all commits.
fn grown_row<S: Store>(
    alloc: Global,
    disk: &mut S,
    folder: &Folder,
    bug: &HeadEntry,
    older: HeadRow,
    identities: &[RefEntry],
) -> Result<Excerpt, ReadStop>
    ensures answers { IsTrue S.tells
        → AreIdentityRefs (files_of (S.history disk.old)) folder.now identities.now
        → GrownRow (files_of (S.history disk.old)) folder.now bug.now older result }
    ensures unwritten { IsTrue S.tells → S.history disk.new ≡ S.history disk.old }
    ensures below { IsTrue S.tells → ReadsBelow (files_of (S.history disk.old)) folder.now bug.now
        (S.object_reads disk.old) (S.object_reads disk.new) }
    ensures above { IsTrue S.tells
        → ReadsAbove (files_of (S.history disk.old)) folder.now bug.now older.head
        (S.object_reads disk.old) (S.object_reads disk.new) }
    ensures caused { KeepsFaults S.never_fails S.faults (IsErrOf result ReadStop.Disk)
        disk.old disk.new }
{
    match bug_since(alloc, disk, folder, bug, &older.head, identities)? {
        Since::Same => Ok(older.row),
        Since::Chain(packs) => Ok(followed(alloc, older.row, packs)?),
        Since::Whole(entity) => Ok(row_in(alloc, entity.packs)?),
    }
}

// A row further by the operations of these packs.
fn followed(alloc: Global, row: Excerpt, packs: List<Placed<BugOp>>) -> Result<Excerpt, Memory>
    ensures { IfOk result (λ grown. grown ≡ row_from bug_kind row (ops_in bug_kind packs)) }
{
    let mut row = row;
    let ops = ops_of(alloc, packs)?;
    follow(alloc, &mut row, ops.as_slice())?;
    Ok(row)
}

// The row of a bug, by all of its commits.
fn read_whole<S: Store>(
    alloc: Global,
    disk: &mut S,
    folder: &Folder,
    bug: &HeadEntry,
    identities: &[RefEntry],
) -> Result<Excerpt, ReadStop>
    ensures answers { IsTrue S.tells
        → AreIdentityRefs (files_of (S.history disk.old)) folder.now identities.now
        → ReadRow (files_of (S.history disk.old)) folder.now bug.now result }
    ensures unwritten { IsTrue S.tells → S.history disk.new ≡ S.history disk.old }
    ensures below { IsTrue S.tells → ReadsBelow (files_of (S.history disk.old)) folder.now bug.now
        (S.object_reads disk.old) (S.object_reads disk.new) }
    ensures caused { KeepsFaults S.never_fails S.faults (IsErrOf result ReadStop.Disk)
        disk.old disk.new }
{
    let entity = bug_among(alloc, disk, folder, bug, identities)?;
    Ok(row_in(alloc, entity.packs)?)
}

// Stores a row, if it fits.
fn store_row<S: Store>(
    alloc: Global,
    disk: &mut S,
    folder: &Folder,
    id: &Id,
    row: &HeadRow,
) -> Result<(), CacheFault>
    ensures stored { IsTrue S.tells → OnOk result (RowFits row.now
        → stored_row (files_of (S.history disk.new)) folder.now id.now ≡ Some row.now) }
    ensures wrote { IsTrue S.tells → MaybeStored folder.now id.now row.now
        (S.history disk.old) (S.history disk.new) }
    ensures reads { S.object_reads disk.new ≡ S.object_reads disk.old }
    ensures caused { KeepsFaults S.never_fails S.faults (IsErrOf result CacheFault.Disk)
        disk.old disk.new }
{
    if !row.satisfies_rules() {
        return Ok(());
    }
    write_row(alloc, disk, folder, id, row)
}

// The row of a bug with these packs.
fn row_in(alloc: Global, packs: List<Placed<BugOp>>) -> Result<Excerpt, Memory>
    ensures { IsBugList (ops_in bug_kind packs) → IfOk result (λ row. row
        ≡ (snapshot_of (ops_in bug_kind packs)).row) }
{
    let ops = ops_of(alloc, packs)?;
    let bug = compile(alloc, ops.as_slice())?;
    excerpt_of(alloc, &bug)
}
