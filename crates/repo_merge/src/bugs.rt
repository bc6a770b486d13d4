//! The turns of the bugs.
ghost use Rattle.std.specs.Prelude.{◌≡◌, ◌≤◌, ◌+◌, IsTrue, IsErrOf, Ok, Some, length};
ghost use Rattle.gb_store.specs.Faults.{KeepsFaults};
ghost use Rattle.gb_store.specs.Files.{files_of};
ghost use Rattle.object_store.specs.Held.{objects_after};
ghost use Rattle.bug_ops.specs.Kind.{bug_kind};
ghost use Rattle.entity_merge.specs.Joins.{PlanAnswers, both_heads};
ghost use Rattle.entity_merge.specs.Merging.{ReadsAndPuts};
ghost use Rattle.entity_merge.specs.declared.word.Merged.TheVariants as merged;
ghost use Rattle.merge_steps.specs.Merging.{BugStops, MergesBug};
ghost use Rattle.merge_steps.specs.Turns.{EachMerged};
ghost use Rattle.repo_merge.specs.Heads.{AreLocals, HasHeads, IsLocal};
ghost use Rattle.repo_merge.specs.Quiet.{AreKnownRefs, IsKnownRef, WasQuiet};
ghost use Rattle.repo_merge.specs.Reading.{EachBugRead, ReadsBug};
ghost use Rattle.repo_merge.specs.Turning.{OneBug, new_head, word_outcome};
ghost use Rattle.repo_state.specs.Clocks.{clock_at};
ghost use Rattle.repo_state.specs.declared.clocks.ClockFile.TheVariants as file;
ghost use Rattle.repo_state.specs.declared.refs.EntityRef.{EntityRef as EntityRefValue};
ghost use Rattle.repo_state.specs.declared.side.Side.{Side as SideValue};
ghost use Rattle.repo_state.specs.declared.side.Side.TheVariants as side;
ghost use Rattle.sync_steps.specs.declared.line.EntityWord.TheVariants as word;

use crate::heads::{Heads, heads_of};
use crate::maker::Maker;
use crate::writes::give_head;
use bug_ops::BugOp;
use entity_merge::{MergeFault, MergePlan, Merged, plan_merge};
use gb_store::Store;
use gb_text::{Folder, Name};
use lamport::Clock;
use listed_refs::ListedSide;
use merge_steps::{MergeLine, MergeOutcome, TurnStop};
use repo_state::{ClockFile, EntityRef, Side, clock};
use std::alloc::Global;
use sync_steps::EntityWord;

/// Joins the tracked heads of bugs with the local ones, and adds a line for each.
pub fn merge_bugs<S: Store>(
    alloc: Global,
    disk: &mut S,
    folder: &Folder,
    maker: &Maker,
    tracked: &Side,
    locals: &ListedSide,
    refs: &[EntityRef],
    lines: &mut Vec<MergeLine>,
) -> Result<(), TurnStop>
    ensures answers { IsTrue S.tells
        → AreLocals (files_of (S.history disk.old)) folder.now side.Bugs locals.now refs.now
        → EachMerged (MergesBug folder.now maker.now.user maker.now.authors maker.now.time)
        (BugStops folder.now maker.now.user maker.now.authors maker.now.time tracked.now)
        word.Bug refs.now lines.old.items lines.new.items
        (S.history disk.old) (S.history disk.new) result }
    ensures unread { IsTrue S.tells
        → AreLocals (files_of (S.history disk.old)) folder.now side.Bugs locals.now refs.now
        → AreKnownRefs (files_of (S.history disk.old)) folder.now side.Bugs refs.now
        → WasQuiet (S.history disk.old) (S.history disk.new)
        (S.object_reads disk.old) (S.object_reads disk.new) }
    ensures reads { IsTrue S.tells
        → AreLocals (files_of (S.history disk.old)) folder.now side.Bugs locals.now refs.now
        → EachBugRead folder.now maker.now.user maker.now.authors maker.now.time refs.now
        (S.history disk.old) (S.history disk.new)
        (S.object_reads disk.old) (S.object_reads disk.new) result }
    ensures caused { KeepsFaults S.never_fails S.faults (IsErrOf result TurnStop.Disk)
        disk.old disk.new }
{
    for entity in refs {
        let outcome = merge_bug(alloc, disk, folder, maker, tracked, locals, entity)?;
        lines.push(MergeLine {
            word: EntityWord::Bug,
            id: entity.id,
            outcome,
        })?;
    }
    Ok(())
}

// Joins the tracked head of a bug with the local one.
fn merge_bug<S: Store>(
    alloc: Global,
    disk: &mut S,
    folder: &Folder,
    maker: &Maker,
    tracked: &Side,
    locals: &ListedSide,
    entity: &EntityRef,
) -> Result<MergeOutcome, TurnStop>
    ensures answers { IsTrue S.tells
        → IsLocal (files_of (S.history disk.old)) folder.now side.Bugs locals.now entity.now.id
        → OneBug folder.now maker.now tracked.now entity.now
        (S.history disk.old) (S.history disk.new) result }
    ensures unread { IsTrue S.tells
        → IsLocal (files_of (S.history disk.old)) folder.now side.Bugs locals.now entity.now.id
        → IsKnownRef (files_of (S.history disk.old)) folder.now side.Bugs entity.now
        → WasQuiet (S.history disk.old) (S.history disk.new)
        (S.object_reads disk.old) (S.object_reads disk.new) }
    ensures reads { IsTrue S.tells
        → IsLocal (files_of (S.history disk.old)) folder.now side.Bugs locals.now entity.now.id
        → ReadsBug folder.now entity.now (S.history disk.old)
        (S.object_reads disk.old) (S.object_reads disk.new) }
    ensures caused { KeepsFaults S.never_fails S.faults (IsErrOf result TurnStop.Disk)
        disk.old disk.new }
{
    let heads = heads_of(alloc, folder, tracked, locals, entity)?;
    join_heads(alloc, disk, folder, maker, &heads)
}

// Joins both heads of a bug.
fn join_heads<S: Store>(
    alloc: Global,
    disk: &mut S,
    folder: &Folder,
    maker: &Maker,
    heads: &Heads,
) -> Result<MergeOutcome, TurnStop>
    ensures answers { (tracked : SideValue) (entity : EntityRefValue) → IsTrue S.tells
        → HasHeads (files_of (S.history disk.old)) folder.now side.Bugs entity heads.now
        → OneBug folder.now maker.now tracked entity (S.history disk.old) (S.history disk.new)
        result }
    ensures unread { IsTrue S.tells → heads.now.local ≡ Some heads.now.tracked
        → WasQuiet (S.history disk.old) (S.history disk.new)
        (S.object_reads disk.old) (S.object_reads disk.new) }
    ensures reads { IsTrue S.tells → ReadsAndPuts (objects_after (S.history disk.old) folder.now)
        (both_heads heads.now.local heads.now.tracked)
        (S.object_reads disk.old) (S.object_reads disk.new) }
    ensures caused { KeepsFaults S.never_fails S.faults (IsErrOf result TurnStop.Disk)
        disk.old disk.new }
{
    let seen = clock(alloc, disk, folder, ClockFile::BugsEdit)?;
    match plan_merge::<BugOp, S>(
        alloc,
        disk,
        folder,
        &heads.id,
        heads.local,
        &heads.tracked,
        &maker.user,
        maker.authors.as_slice(),
        &seen,
        maker.time,
    ) {
        Ok(plan) => follow(alloc, disk, folder, maker, heads, seen, &plan),
        Err(MergeFault::Invalid(fault)) => Ok(MergeOutcome::InvalidBug(fault)),
        Err(MergeFault::Memory) => Err(TurnStop::Memory),
        Err(MergeFault::Disk) => Err(TurnStop::Disk),
        Err(MergeFault::Taken(name)) => Err(TurnStop::Taken(name)),
    }
}

// Does with a bug what a plan says.
fn follow<S: Store>(
    alloc: Global,
    disk: &mut S,
    folder: &Folder,
    maker: &Maker,
    heads: &Heads,
    seen: Clock,
    plan: &MergePlan,
) -> Result<MergeOutcome, TurnStop>
    ensures answers { (tracked : SideValue) (entity : EntityRefValue) → IsTrue S.tells
        → HasHeads (files_of (S.history disk.old)) folder.now side.Bugs entity heads.now
        → seen ≡ clock_at (files_of (S.history disk.old)) folder.now file.BugsEdit
        → PlanAnswers bug_kind (objects_after (S.history disk.old) folder.now) heads.now.id
        heads.now.local heads.now.tracked maker.now.user maker.now.authors seen maker.now.time
        (Ok plan.now)
        → OneBug folder.now maker.now tracked entity (S.history disk.old) (S.history disk.new)
        result }
    ensures unread { IsTrue S.tells → plan.now.merged ≡ merged.Nothing
        → WasQuiet (S.history disk.old) (S.history disk.new)
        (S.object_reads disk.old) (S.object_reads disk.new) }
    ensures reads { S.object_reads disk.new
        ≤ S.object_reads disk.old + length plan.now.objects }
    ensures caused { KeepsFaults S.never_fails S.faults (IsErrOf result TurnStop.Disk)
        disk.old disk.new }
{
    let Some(head) = new_head(plan.merged) else {
        return Ok(MergeOutcome::Nothing);
    };
    give_head(alloc, disk, folder, &heads.id, &head, seen, plan)?;
    Ok(outcome_of(plan.merged))
}

// The head that a bug gets by a word; none where the local one stays.
fn new_head(merged: Merged) -> Option<Name>
    ensures { result ≡ new_head merged }
{
    match merged {
        Merged::Nothing => None,
        Merged::New(head) | Merged::Forward(head) | Merged::Joined(head) => Some(head),
    }
}

// What comes of a bug by a word.
fn outcome_of(merged: Merged) -> MergeOutcome
    ensures { result ≡ word_outcome merged }
{
    match merged {
        Merged::Nothing => MergeOutcome::Nothing,
        Merged::New(_) => MergeOutcome::New,
        Merged::Forward(_) => MergeOutcome::Forward,
        Merged::Joined(_) => MergeOutcome::Joined,
    }
}
