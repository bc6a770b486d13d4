//! The turns of the identities.
ghost use Rattle.std.specs.Prelude.{◌≡◌, IsTrue, IsErrOf, Some, Ok};
ghost use Rattle.gb_store.specs.Faults.{KeepsFaults};
ghost use Rattle.gb_store.specs.Files.{files_of};
ghost use Rattle.object_store.specs.Held.{objects_after};
ghost use Rattle.merge_steps.specs.Merging.{MergesPerson, PersonStops};
ghost use Rattle.merge_steps.specs.Turns.{EachMerged};
ghost use Rattle.merge_steps.specs.declared.line.MergeOutcome.TheVariants as outcomes;
ghost use Rattle.repo_merge.specs.Heads.{AreLocals, HasHeads, IsLocal};
ghost use Rattle.repo_merge.specs.Quiet.{AreKnownRefs, IsKnownRef, WasQuiet};
ghost use Rattle.repo_merge.specs.Reading.{EachPersonRead, ReadsChains, ReadsPerson};
ghost use Rattle.repo_merge.specs.Turning.{OnePerson};
ghost use Rattle.repo_state.specs.declared.refs.EntityRef.{EntityRef as EntityRefValue};
ghost use Rattle.repo_state.specs.declared.side.Side.{Side as SideValue};
ghost use Rattle.repo_state.specs.declared.side.Side.TheVariants as side;
ghost use Rattle.sync_steps.specs.declared.line.EntityWord.TheVariants as word;

use crate::heads::{Heads, heads_of};
use gb_store::Store;
use gb_text::Folder;
use identity::{AdvanceFault, Step, advance};
use listed_refs::ListedSide;
use merge_steps::{MergeLine, MergeOutcome, TurnStop};
use repo_state::{EntityRef, Side, set_head};
use std::alloc::Global;
use sync_steps::EntityWord;

/// Takes up the tracked heads of identities, and adds a line for each.
pub fn merge_people<S: Store>(
    alloc: Global,
    disk: &mut S,
    folder: &Folder,
    tracked: &Side,
    locals: &ListedSide,
    refs: &[EntityRef],
    lines: &mut Vec<MergeLine>,
) -> Result<(), TurnStop>
    ensures answers { IsTrue S.tells
        → AreLocals (files_of (S.history disk.old)) folder.now side.Identities locals.now refs.now
        → EachMerged (MergesPerson folder.now) (PersonStops folder.now tracked.now)
        word.Identity refs.now lines.old.items lines.new.items
        (S.history disk.old) (S.history disk.new) result }
    ensures unread { IsTrue S.tells
        → AreLocals (files_of (S.history disk.old)) folder.now side.Identities locals.now refs.now
        → AreKnownRefs (files_of (S.history disk.old)) folder.now side.Identities refs.now
        → WasQuiet (S.history disk.old) (S.history disk.new)
        (S.object_reads disk.old) (S.object_reads disk.new) }
    ensures reads { IsTrue S.tells
        → AreLocals (files_of (S.history disk.old)) folder.now side.Identities locals.now refs.now
        → EachPersonRead folder.now refs.now (S.history disk.old) (S.history disk.new)
        (S.object_reads disk.old) (S.object_reads disk.new) result }
    ensures caused { KeepsFaults S.never_fails S.faults (IsErrOf result TurnStop.Disk)
        disk.old disk.new }
{
    for entity in refs {
        let outcome = merge_person(alloc, disk, folder, tracked, locals, entity)?;
        lines.push(MergeLine {
            word: EntityWord::Identity,
            id: entity.id,
            outcome,
        })?;
    }
    Ok(())
}

// Takes up the tracked head of an identity.
fn merge_person<S: Store>(
    alloc: Global,
    disk: &mut S,
    folder: &Folder,
    tracked: &Side,
    locals: &ListedSide,
    entity: &EntityRef,
) -> Result<MergeOutcome, TurnStop>
    ensures answers { IsTrue S.tells
        → IsLocal (files_of (S.history disk.old)) folder.now side.Identities locals.now entity.now.id
        → OnePerson folder.now tracked.now entity.now
        (S.history disk.old) (S.history disk.new) result }
    ensures unread { IsTrue S.tells
        → IsLocal (files_of (S.history disk.old)) folder.now side.Identities locals.now entity.now.id
        → IsKnownRef (files_of (S.history disk.old)) folder.now side.Identities entity.now
        → WasQuiet (S.history disk.old) (S.history disk.new)
        (S.object_reads disk.old) (S.object_reads disk.new) }
    ensures reads { IsTrue S.tells
        → IsLocal (files_of (S.history disk.old)) folder.now side.Identities locals.now entity.now.id
        → ReadsPerson folder.now (result ≡ Ok outcomes.New) entity.now (S.history disk.old)
        (S.object_reads disk.old) (S.object_reads disk.new) }
    ensures caused { KeepsFaults S.never_fails S.faults (IsErrOf result TurnStop.Disk)
        disk.old disk.new }
{
    let heads = heads_of(alloc, folder, tracked, locals, entity)?;
    advance_person(alloc, disk, folder, &heads)
}

// Takes up a tracked head of an identity beside the local one.
fn advance_person<S: Store>(
    alloc: Global,
    disk: &mut S,
    folder: &Folder,
    heads: &Heads,
) -> Result<MergeOutcome, TurnStop>
    ensures answers { (tracked : SideValue) (entity : EntityRefValue) → IsTrue S.tells
        → HasHeads (files_of (S.history disk.old)) folder.now side.Identities entity heads.now
        → OnePerson folder.now tracked entity (S.history disk.old) (S.history disk.new) result }
    ensures unread { IsTrue S.tells → heads.now.local ≡ Some heads.now.tracked
        → WasQuiet (S.history disk.old) (S.history disk.new)
        (S.object_reads disk.old) (S.object_reads disk.new) }
    ensures reads { IsTrue S.tells → ReadsChains (objects_after (S.history disk.old) folder.now)
        heads.now.local heads.now.tracked (result ≡ Ok outcomes.New)
        (S.object_reads disk.old) (S.object_reads disk.new) }
    ensures caused { KeepsFaults S.never_fails S.faults (IsErrOf result TurnStop.Disk)
        disk.old disk.new }
{
    let own = &Side::Identities;
    match advance(alloc, disk, folder, &heads.id, heads.local, &heads.tracked) {
        Ok(Step::Nothing) => Ok(MergeOutcome::Nothing),
        Ok(Step::New) => {
            set_head(alloc, disk, folder, own, &heads.id, &heads.tracked)?;
            Ok(MergeOutcome::New)
        }
        Ok(Step::Forward) => {
            set_head(alloc, disk, folder, own, &heads.id, &heads.tracked)?;
            Ok(MergeOutcome::Forward)
        }
        Err(AdvanceFault::Invalid(fault)) => Ok(MergeOutcome::InvalidIdentity(fault)),
        Err(AdvanceFault::NotForward(_, name)) => Ok(MergeOutcome::NotForward(name)),
        Err(AdvanceFault::Memory) => Err(TurnStop::Memory),
        Err(AdvanceFault::Disk) => Err(TurnStop::Disk),
    }
}
