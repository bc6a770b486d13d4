//! A fetch and then a merge.
ghost use Rattle.std.specs.Prelude.{IsTrue, IsErrOf, IfOk};
ghost use Rattle.gb_store.specs.Faults.{KeepsFaults};
ghost use Rattle.gb_store.specs.Files.{files_of};
ghost use Rattle.merge_steps.specs.Pulling.{PullAnswers};
ghost use Rattle.repo_merge.specs.Quiet.{IsInStep, WasQuiet};
ghost use Rattle.repo_merge.specs.Reading.{ReadsPulling};
ghost use Rattle.sync_steps.specs.Quiet.{NothingToFetch};

use crate::merging::merge;
use gb_store::Store;
use merge_steps::{MergeStop, Pulled};
use remote_name::RemoteName;
use repo_state::user;
use repo_sync::fetch;
use std::alloc::Global;
use words::FolderPair;

/// Fetches from a peer, and merges what the remote's tracking refs then have. The user is looked for first:
/// where there is none, nothing is written. Where the fetch or the merge ends, what was done before stays.
/// A pull that has nothing to fetch, of heads that are the local ones, writes nothing and reads no object.
pub fn pull<S: Store>(
    alloc: Global,
    disk: &mut S,
    pair: &FolderPair,
    remote: &RemoteName,
    now: u64,
) -> Result<Pulled, MergeStop>
    ensures answers { IsTrue S.tells → PullAnswers pair.now.own pair.now.peer remote.now now
        (S.history disk.old) (S.history disk.new) result }
    ensures unread { IsTrue S.tells
        → NothingToFetch pair.now.own pair.now.peer remote.now (files_of (S.history disk.old))
        → IsInStep (files_of (S.history disk.old)) pair.now.own remote.now
        → IfOk result (λ pulled. WasQuiet (S.history disk.old) (S.history disk.new)
        (S.object_reads disk.old) (S.object_reads disk.new)) }
    ensures reads { IsTrue S.tells → ReadsPulling pair.now.own pair.now.peer remote.now now
        (S.history disk.old) (S.object_reads disk.old) (S.object_reads disk.new) }
    ensures caused { KeepsFaults S.never_fails S.faults (IsErrOf result MergeStop.Disk)
        disk.old disk.new }
{
    let Some(_user) = user(alloc, disk, &pair.own)? else {
        return Err(MergeStop::NoUser);
    };
    let fetched = fetch(alloc, disk, pair, remote)?;
    let merged = merge(alloc, disk, &pair.own, remote, now)?;
    Ok(Pulled { fetched, merged })
}
