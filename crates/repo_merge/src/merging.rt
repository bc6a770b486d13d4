//! The merge of what a remote was last seen to have.
ghost use Rattle.std.specs.Prelude.{IsTrue, IsErrOf};
ghost use Rattle.gb_store.specs.Faults.{KeepsFaults};
ghost use Rattle.gb_store.specs.Files.{files_of};
ghost use Rattle.merge_steps.specs.Turns.{MergeAnswers};
ghost use Rattle.repo_merge.specs.Quiet.{IsInStep, WasQuiet};
ghost use Rattle.repo_merge.specs.Reading.{ReadsMerging};

use crate::bugs::merge_bugs;
use crate::listing::{list_locals, list_tracked};
use crate::maker::Maker;
use crate::people::merge_people;
use gb_store::Store;
use gb_text::{Folder, List};
use merge_steps::{MergeLine, MergeStop};
use remote_name::RemoteName;
use std::alloc::Global;

/// Merges the tracking refs of a remote into the local ones: those of the identities first, then those of the
/// bugs, each as they stand at the start. A line for each, in the order of ids. A merge commit is of the
/// user, at this time, in seconds since 1970. An entity that has a fault keeps its head, and its line tells
/// the fault. `Damaged` where a ref of such an entity is no ref text, tracked or local: what was merged
/// before it stays. Where the local refs have the tracked heads, nothing is written and no object read.
/// However it answers, the turn of a bug reads at most three objects for each commit below its heads, and
/// four that are put.
pub fn merge<S: Store>(
    alloc: Global,
    disk: &mut S,
    folder: &Folder,
    remote: &RemoteName,
    now: u64,
) -> Result<List<MergeLine>, MergeStop>
    ensures answers { IsTrue S.tells → MergeAnswers folder.now remote.now now
        (S.history disk.old) (S.history disk.new) result }
    ensures unread { IsTrue S.tells
        → IsInStep (files_of (S.history disk.old)) folder.now remote.now
        → WasQuiet (S.history disk.old) (S.history disk.new)
        (S.object_reads disk.old) (S.object_reads disk.new) }
    ensures reads { IsTrue S.tells → ReadsMerging folder.now remote.now now (S.history disk.old)
        (S.object_reads disk.old) (S.object_reads disk.new) }
    ensures caused { KeepsFaults S.never_fails S.faults (IsErrOf result MergeStop.Disk)
        disk.old disk.new }
{
    let listing = list_tracked(alloc, disk, folder, remote)?;
    let mut lines = Vec::new(alloc);
    merge_people(
        alloc,
        disk,
        folder,
        &listing.people_side,
        &listing.people_here,
        listing.people.as_slice(),
        &mut lines,
    )?;
    let locals = list_locals(alloc, disk, folder)?;
    let maker = Maker {
        user: listing.user,
        authors: locals.authors,
        time: now,
    };
    merge_bugs(
        alloc,
        disk,
        folder,
        &maker,
        &listing.bugs_side,
        &locals.bugs,
        listing.bugs.as_slice(),
        &mut lines,
    )?;
    Ok(List::from_vec(lines))
}
