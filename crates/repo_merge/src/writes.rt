//! The writes that give a bug a head.
ghost use Rattle.std.specs.Prelude.{◌≡◌, ◌≤◌, ◌+◌, ◌++◌, IsTrue, IfOk, IsErrOf, length};
ghost use Rattle.gb_store.specs.Faults.{KeepsFaults};
ghost use Rattle.gb_store.specs.Files.{files_of};
ghost use Rattle.repo_merge.specs.Giving.{GiveAnswers, WritesAnswers};
ghost use Rattle.repo_state.specs.Clocks.{clock_at, see_writes};
ghost use Rattle.repo_state.specs.declared.clocks.ClockFile.TheVariants as file;

use entity_merge::MergePlan;
use gb_store::{Change, Store, write_all};
use gb_text::{Folder, Id, Memory, Name};
use lamport::Clock;
use merge_steps::TurnStop;
use object_batch::plan_all;
use repo_state::{ClockFile, Side, clock, clock_changes, head_change};
use std::alloc::Global;

/// Gives a bug a head by a plan: puts the plan's objects that are missing, then sets the ref, and then lets
/// both clocks see those of the head and of its root. All writes are planned before the first is made.
pub fn give_head<S: Store>(
    alloc: Global,
    disk: &mut S,
    folder: &Folder,
    id: &Id,
    head: &Name,
    seen: Clock,
    plan: &MergePlan,
) -> Result<(), TurnStop>
    ensures answers { IsTrue S.tells
        → seen ≡ clock_at (files_of (S.history disk.old)) folder.now file.BugsEdit
        → GiveAnswers folder.now id.now head.now plan.now
        (S.history disk.old) (S.history disk.new) result }
    ensures reads { S.object_reads disk.new
        ≤ S.object_reads disk.old + length plan.now.objects }
    ensures caused { KeepsFaults S.never_fails S.faults (IsErrOf result TurnStop.Disk)
        disk.old disk.new }
{
    let writes = head_writes(alloc, disk, folder, id, head, seen, plan)?;
    write_all(alloc, disk, writes.as_slice())?;
    Ok(())
}

// The writes that give a bug a head.
fn head_writes<S: Store>(
    alloc: Global,
    disk: &mut S,
    folder: &Folder,
    id: &Id,
    head: &Name,
    seen: Clock,
    plan: &MergePlan,
) -> Result<Vec<Change>, TurnStop>
    ensures answers { IsTrue S.tells
        → seen ≡ clock_at (files_of (S.history disk.old)) folder.now file.BugsEdit
        → WritesAnswers folder.now id.now head.now plan.now (S.history disk.old) result }
    ensures unwritten { IsTrue S.tells → S.history disk.new ≡ S.history disk.old }
    ensures reads { S.object_reads disk.new
        ≤ S.object_reads disk.old + length plan.now.objects }
    ensures caused { KeepsFaults S.never_fails S.faults (IsErrOf result TurnStop.Disk)
        disk.old disk.new }
{
    let begun = clock(alloc, disk, folder, ClockFile::BugsCreate)?;
    let mut writes = plan_all(alloc, disk, folder, plan.objects.as_slice())?.into_vec();
    writes.push(head_change(alloc, folder, &Side::Bugs, id, head)?)?;
    let writes = with_clock(
        alloc,
        folder,
        ClockFile::BugsCreate,
        begun,
        plan.create,
        writes,
    )?;
    Ok(with_clock(alloc, folder, ClockFile::BugsEdit, seen, plan.edit, writes)?)
}

// These writes, and that of a clock that sees a number, where the clock changes.
fn with_clock(
    alloc: Global,
    folder: &Folder,
    which: ClockFile,
    clock: Clock,
    number: u64,
    writes: Vec<Change>,
) -> Result<Vec<Change>, Memory>
    ensures { IfOk result (λ all. all.items
        ≡ writes.items ++ see_writes folder.now which clock number) }
{
    let mut writes = writes;
    let changes = clock_changes(alloc, folder, which, clock, number)?;
    for change in changes.into_vec() {
        writes.push(change)?;
    }
    Ok(writes)
}
