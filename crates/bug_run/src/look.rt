//! The look at the packed refs of a command's folders, before all else.
ghost use Rattle.std.specs.Prelude.{◌≡◌, ◌∷◌, [], IsTrue, IsErrOf, IfOk};
ghost use Rattle.gb_store.specs.Faults.{KeepsFaults};
ghost use Rattle.gb_store.specs.Files.{files_of};
ghost use Rattle.bug_run.specs.Looks.{LookAnswers, first_unread, looks_at_peer, pair_looks};

use gb_store::{Store, StoreFault};
use gb_text::Folder;
use repo_state::{check_packed, has_user_file};
use repo_steps::Stop;
use std::alloc::Global;
use words::{PeerCommand, PeerRequest};

/// Refuses a folder whose packed refs do not read.
pub fn look<S: Store>(alloc: Global, disk: &mut S, folder: &Folder) -> Result<(), Stop>
    ensures answers { IsTrue S.tells
        → LookAnswers (first_unread (files_of (S.history disk.old)) (folder.now ∷ [])) result }
    ensures unwritten { IsTrue S.tells → S.history disk.new ≡ S.history disk.old }
    ensures reads { S.object_reads disk.new ≡ S.object_reads disk.old }
    ensures caused { KeepsFaults S.never_fails S.faults (IsErrOf result Stop.Disk)
        disk.old disk.new }
{
    Ok(check_packed(alloc, disk, folder)?)
}

/// Refuses the first folder of a command with a peer whose packed refs do not read.
pub fn look_at_pair<S: Store>(
    alloc: Global,
    disk: &mut S,
    request: &PeerRequest,
) -> Result<(), Stop>
    ensures answers { IsTrue S.tells → LookAnswers (first_unread (files_of (S.history disk.old))
        (pair_looks request.now.command request.now.pair (files_of (S.history disk.old)))) result }
    ensures unwritten { IsTrue S.tells → S.history disk.new ≡ S.history disk.old }
    ensures reads { S.object_reads disk.new ≡ S.object_reads disk.old }
    ensures caused { KeepsFaults S.never_fails S.faults (IsErrOf result Stop.Disk)
        disk.old disk.new }
{
    look(alloc, disk, &request.pair.own)?;
    if looks_at_peer(alloc, disk, request)? {
        look(alloc, disk, &request.pair.peer)?;
    }
    Ok(())
}

// Whether a command looks at the peer: a pull of a folder without a user does not get there.
fn looks_at_peer<S: Store>(
    alloc: Global,
    disk: &mut S,
    request: &PeerRequest,
) -> Result<bool, StoreFault>
    ensures answers { IsTrue S.tells → IfOk result (λ looks. looks
        ≡ looks_at_peer request.now.command request.now.pair (files_of (S.history disk.old))) }
    ensures unwritten { IsTrue S.tells → S.history disk.new ≡ S.history disk.old }
    ensures reads { S.object_reads disk.new ≡ S.object_reads disk.old }
    ensures caused { KeepsFaults S.never_fails S.faults (IsErrOf result StoreFault.Failed)
        disk.old disk.new }
{
    match request.command {
        PeerCommand::Fetch { .. } => Ok(true),
        PeerCommand::Push => Ok(true),
        PeerCommand::Pull { .. } => has_user_file(alloc, disk, &request.pair.own),
    }
}
