//! The log of a bug.
ghost use Rattle.std.specs.Prelude.{◌≡◌, ◌≤◌, ◌+◌, ◌*◌, List, length, IsTrue, IfOk, IsErrOf};
ghost use Rattle.bug_ops.specs.declared.op.BugOp.{BugOp as BugOps};
ghost use Rattle.commit_walk.specs.declared.below.TheConstants.{MOST_COMMITS};
ghost use Rattle.dag_entity.specs.declared.entity.Placed.{Placed as PlacedValue};
ghost use Rattle.gb_store.specs.Faults.{KeepsFaults};
ghost use Rattle.gb_store.specs.Files.{files_of};
ghost use Rattle.repo_state.specs.Bugs.{ReadsBelow};
ghost use Rattle.render.specs.Log.{log_text_of};
ghost use Rattle.repo_view.specs.Log.{LogAnswers, LogOfBug, ReadsLog};

use gb_store::Store;
use gb_text::{Folder, Text};
use render::log_text;
use repo_state::{FindStop, HeadEntry, ReadStop, Side, bug_at, find_head};
use std::alloc::Global;

/// The log of the bug with this id: a line for each commit of the entity at its head, merge commits
/// included, in the entity's order. Its authors are to be local identities.
pub fn log<S: Store>(
    alloc: Global,
    disk: &mut S,
    folder: &Folder,
    bug: &str,
) -> Result<Text, FindStop>
    ensures answers { IsTrue S.tells
        → LogAnswers (files_of (S.history disk.old)) folder.now bug.now result }
    ensures unwritten { IsTrue S.tells → S.history disk.new ≡ S.history disk.old }
    ensures reads { IsTrue S.tells → ReadsLog (files_of (S.history disk.old)) folder.now bug.now
        (S.object_reads disk.old) (S.object_reads disk.new) }
    ensures once { IfOk result (λ text. (packs : List (PlacedValue BugOps))
        × (text ≡ log_text_of packs)
        × (S.object_reads disk.new ≤ S.object_reads disk.old + 3 * length packs)) }
    ensures most { S.object_reads disk.new ≤ S.object_reads disk.old + 3 * (MOST_COMMITS + 1) }
    ensures caused { KeepsFaults S.never_fails S.faults (IsErrOf result FindStop.Disk)
        disk.old disk.new }
{
    let bug = find_head(alloc, disk, folder, &Side::Bugs, bug)?;
    Ok(log_of(alloc, disk, folder, &bug)?)
}

// The log of this bug.
fn log_of<S: Store>(
    alloc: Global,
    disk: &mut S,
    folder: &Folder,
    bug: &HeadEntry,
) -> Result<Text, ReadStop>
    ensures answers { IsTrue S.tells
        → LogOfBug (files_of (S.history disk.old)) folder.now bug.now result }
    ensures unwritten { IsTrue S.tells → S.history disk.new ≡ S.history disk.old }
    ensures reads { IsTrue S.tells → ReadsBelow (files_of (S.history disk.old)) folder.now bug.now
        (S.object_reads disk.old) (S.object_reads disk.new) }
    ensures once { IfOk result (λ text. (packs : List (PlacedValue BugOps))
        × (text ≡ log_text_of packs)
        × (S.object_reads disk.new ≤ S.object_reads disk.old + 3 * length packs)) }
    ensures most { S.object_reads disk.new ≤ S.object_reads disk.old + 3 * (MOST_COMMITS + 1) }
    ensures caused { KeepsFaults S.never_fails S.faults (IsErrOf result ReadStop.Disk)
        disk.old disk.new }
{
    let entity = bug_at(alloc, disk, folder, bug)?;
    Ok(log_text(alloc, &entity)?)
}
