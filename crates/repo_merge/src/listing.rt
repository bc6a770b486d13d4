//! What is to be merged, and by whom.
ghost use Rattle.std.specs.Prelude.{◌≡◌, IsTrue, IsErrOf, IfOk};
ghost use Rattle.gb_store.specs.Faults.{KeepsFaults};
ghost use Rattle.gb_store.specs.Files.{files_of};
ghost use Rattle.repo_merge.specs.Listing.{HasLocals, ListAnswers};

use gb_store::{Store, StoreFault};
use gb_text::{Folder, Id, List};
use listed_refs::ListedSide;
use merge_steps::MergeStop;
use remote_name::RemoteName;
use repo_state::{EntityRef, Side, all_refs, ids, user};
use std::alloc::Global;

/// The user of a folder, the refs on the tracking sides of a remote, and those of the local identities.
#[derive(Drop)]
pub struct Listing {
    pub user: Id,
    pub people_side: Side,
    pub people: List<EntityRef>,
    pub bugs_side: Side,
    pub bugs: List<EntityRef>,
    pub people_here: ListedSide,
}

/// The user of the folder, and the refs that a merge of a remote goes through.
pub fn list_tracked<S: Store>(
    alloc: Global,
    disk: &mut S,
    folder: &Folder,
    remote: &RemoteName,
) -> Result<Listing, MergeStop>
    ensures answers { IsTrue S.tells
        → ListAnswers folder.now remote.now (S.history disk.old) result }
    ensures unwritten { IsTrue S.tells → S.history disk.new ≡ S.history disk.old }
    ensures reads { S.object_reads disk.new ≡ S.object_reads disk.old }
    ensures caused { KeepsFaults S.never_fails S.faults (IsErrOf result MergeStop.Disk)
        disk.old disk.new }
{
    let Some(user) = user(alloc, disk, folder)? else {
        return Err(MergeStop::NoUser);
    };
    let people_side = Side::RemoteIdentities(remote.copied(alloc)?);
    let bugs_side = Side::RemoteBugs(remote.copied(alloc)?);
    let people = all_refs(alloc, disk, folder, &people_side)?;
    let bugs = all_refs(alloc, disk, folder, &bugs_side)?;
    let people_here = ListedSide::list(alloc, disk, folder, Side::Identities)?;
    Ok(Listing {
        user,
        people_side,
        people,
        bugs_side,
        bugs,
        people_here,
    })
}

/// The local identities, who may be authors, and the refs of the local bugs.
#[derive(Drop)]
pub struct Locals {
    pub authors: List<Id>,
    pub bugs: ListedSide,
}

/// What the bugs of a merge are joined by, once the identities are merged.
pub fn list_locals<S: Store>(
    alloc: Global,
    disk: &mut S,
    folder: &Folder,
) -> Result<Locals, StoreFault>
    ensures answers { IsTrue S.tells
        → IfOk result (HasLocals (files_of (S.history disk.old)) folder.now) }
    ensures unwritten { IsTrue S.tells → S.history disk.new ≡ S.history disk.old }
    ensures reads { S.object_reads disk.new ≡ S.object_reads disk.old }
    ensures caused { KeepsFaults S.never_fails S.faults (IsErrOf result StoreFault.Failed)
        disk.old disk.new }
{
    Ok(Locals {
        authors: ids(alloc, disk, folder, &Side::Identities)?,
        bugs: ListedSide::list(alloc, disk, folder, Side::Bugs)?,
    })
}
