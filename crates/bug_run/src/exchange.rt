//! Commands with a peer, and the merge of what was fetched.
ghost use Rattle.std.specs.Prelude.{◌≡◌, IsTrue, IsErrOf, IsOk};
ghost use Rattle.gb_store.specs.Faults.{KeepsFaults};
ghost use Rattle.bug_run.specs.Exchanges.{ExchangeAnswers, MergeTold, ReadsExchange, ReadsMerge, stop_of_merge};
ghost use Rattle.bug_run.specs.Looks.{ReadsGuarded};
ghost use Rattle.bug_run.specs.Run.{MergeRequestAnswers, PeerRequestAnswers};

use crate::answer::Answer;
use crate::look::{look, look_at_pair};
use bug_edits::Moment;
use gb_store::Store;
use merge_steps::MergeStop;
use repo_merge::{merge, pull};
use repo_steps::{Refusal, Stop};
use repo_sync::{fetch, push};
use std::alloc::Global;
use words::{MergeRequest, PeerCommand, PeerRequest};

/// Exchanges commits with the peer, and answers a line for each entity; a pull answers those of its merge
/// too. `now` is the time of a merge commit. The packed refs of both folders must read.
pub fn exchange<S: Store>(
    alloc: Global,
    disk: &mut S,
    request: &PeerRequest,
    moment: Moment,
) -> Result<Answer, Stop>
    ensures answers { PeerRequestAnswers S.tells request.now moment
        (S.history disk.old) (S.history disk.new) result }
    ensures reads { IsTrue S.tells → ReadsGuarded (IsOk result)
        (ReadsExchange request.now.command request.now.pair moment.now (S.history disk.old)
        (IsOk result) (S.object_reads disk.old) (S.object_reads disk.new))
        (S.object_reads disk.old) (S.object_reads disk.new) }
    ensures caused { KeepsFaults S.never_fails S.faults (IsErrOf result Stop.Disk)
        disk.old disk.new }
{
    look_at_pair(alloc, disk, request)?;
    exchange_lines(alloc, disk, request, moment.now)
}

// Exchanges commits with the peer.
fn exchange_lines<S: Store>(
    alloc: Global,
    disk: &mut S,
    request: &PeerRequest,
    now: u64,
) -> Result<Answer, Stop>
    ensures answers { IsTrue S.tells → ExchangeAnswers request.now.command request.now.pair now
        (S.history disk.old) (S.history disk.new) result }
    ensures reads { IsTrue S.tells → ReadsExchange request.now.command request.now.pair now
        (S.history disk.old) (IsOk result)
        (S.object_reads disk.old) (S.object_reads disk.new) }
    ensures caused { KeepsFaults S.never_fails S.faults (IsErrOf result Stop.Disk)
        disk.old disk.new }
{
    let pair = &request.pair;
    match &request.command {
        PeerCommand::Fetch { remote } => {
            let lines = fetch(alloc, disk, pair, remote)?;
            Ok(Answer::lines(alloc, lines.as_slice())?)
        }
        PeerCommand::Pull { remote } => match pull(alloc, disk, pair, remote, now) {
            Ok(pulled) => Ok(Answer::pulled(alloc, &pulled)?),
            Err(why) => Err(stop_of_merge(why)),
        },
        PeerCommand::Push => {
            let lines = push(alloc, disk, pair)?;
            Ok(Answer::lines(alloc, lines.as_slice())?)
        }
    }
}

/// Merges what was fetched from a remote, and answers a line for each tracked entity. The packed refs of
/// the folder must read.
pub fn merge_tracked<S: Store>(
    alloc: Global,
    disk: &mut S,
    request: &MergeRequest,
    moment: Moment,
) -> Result<Answer, Stop>
    ensures answers { MergeRequestAnswers S.tells request.now moment
        (S.history disk.old) (S.history disk.new) result }
    ensures reads { IsTrue S.tells → ReadsGuarded (IsOk result)
        (ReadsMerge request.now moment.now (S.history disk.old)
        (S.object_reads disk.old) (S.object_reads disk.new))
        (S.object_reads disk.old) (S.object_reads disk.new) }
    ensures caused { KeepsFaults S.never_fails S.faults (IsErrOf result Stop.Disk)
        disk.old disk.new }
{
    look(alloc, disk, &request.folder)?;
    merge_lines(alloc, disk, request, moment.now)
}

// Merges what was fetched from a remote.
fn merge_lines<S: Store>(
    alloc: Global,
    disk: &mut S,
    request: &MergeRequest,
    now: u64,
) -> Result<Answer, Stop>
    ensures answers { IsTrue S.tells → MergeTold request.now now
        (S.history disk.old) (S.history disk.new) result }
    ensures reads { IsTrue S.tells → ReadsMerge request.now now (S.history disk.old)
        (S.object_reads disk.old) (S.object_reads disk.new) }
    ensures caused { KeepsFaults S.never_fails S.faults (IsErrOf result Stop.Disk)
        disk.old disk.new }
{
    match merge(alloc, disk, &request.folder, &request.remote, now) {
        Ok(lines) => Ok(Answer::merged(alloc, lines.as_slice())?),
        Err(why) => Err(stop_of_merge(why)),
    }
}

// Why a command gives no answer that merges.
fn stop_of_merge(why: MergeStop) -> Stop
    ensures { result ≡ stop_of_merge why }
{
    match why {
        MergeStop::Memory => Stop::Memory,
        MergeStop::Disk => Stop::Disk,
        MergeStop::NoUser => Stop::Refused(Refusal::NoUser),
        MergeStop::Damaged(path) => Stop::Refused(Refusal::Damaged(path)),
        MergeStop::Taken(name) => Stop::Refused(Refusal::NameTaken(name)),
    }
}
