//! Whether a chain has room for one version more.
ghost use Rattle.std.specs.Prelude.{◌≡◌, ◌≤◌, ◌+◌, ◌*◌, IsTrue, IsErrOf, OnOk};
ghost use Rattle.gb_store.specs.Faults.{KeepsFaults};
ghost use Rattle.gb_store.specs.Files.{files_of};
ghost use Rattle.repo_edit.specs.Reads.{ReadsRoom};
ghost use Rattle.repo_edit.specs.Room.{ChainStops, HasRoom};

use commit_walk::MOST_COMMITS;
use gb_store::Store;
use gb_text::{Folder, Id};
use identity::{IdentityFault, versions};
use repo_state::{HeadEntry, ReadStop, Side, damaged};
use repo_steps::{Refusal, Stop};
use std::alloc::Global;

/// Sees that the chain from an identity's head has no fault and room for one more version. Refuses
/// where the chain has a fault (`Damaged`, with the path of the ref), or has 65,536 versions
/// (`TooLarge`).
pub fn check_room<S: Store>(
    alloc: Global,
    disk: &mut S,
    folder: &Folder,
    entry: &HeadEntry,
) -> Result<(), Stop>
    ensures answers { IsTrue S.tells
        → HasRoom (files_of (S.history disk.old)) folder.now entry.now result }
    ensures unwritten { IsTrue S.tells → S.history disk.new ≡ S.history disk.old }
    ensures reads { S.object_reads disk.new ≤ S.object_reads disk.old + 3 * MOST_COMMITS }
    ensures once { IsTrue S.tells → OnOk result
        (ReadsRoom (files_of (S.history disk.old)) folder.now entry.now
        (S.object_reads disk.old) (S.object_reads disk.new)) }
    ensures caused { KeepsFaults S.never_fails S.faults (IsErrOf result Stop.Disk)
        disk.old disk.new }
{
    match versions(alloc, disk, folder, &entry.id, &entry.name) {
        Ok(count) if count < MOST_COMMITS as u64 => Ok(()),
        Ok(_) => Err(Stop::Refused(Refusal::TooLarge(MOST_COMMITS as u64 + 1))),
        Err(fault) => Err(chain_stop(alloc, folder, &entry.id, fault).into()),
    }
}

// Why no chain of an identity was read.
fn chain_stop(alloc: Global, folder: &Folder, id: &Id, fault: IdentityFault) -> ReadStop
    ensures { ChainStops folder.now id.now fault result }
{
    match fault {
        IdentityFault::Memory => ReadStop::Memory,
        IdentityFault::Disk => ReadStop::Disk,
        _ => damaged(alloc, folder, &Side::Identities, id),
    }
}
