//! Packing the refs of a folder.
ghost use Rattle.std.specs.Prelude.{◌≡◌, IsTrue, IsErrOf};
ghost use Rattle.gb_store.specs.Faults.{KeepsFaults};
ghost use Rattle.repo_edit.specs.Packing.{PackRefsAnswers, stop_of_pack};

use gb_store::Store;
use gb_text::Folder;
use ref_packing::{PackFault, pack};
use repo_steps::{Refusal, Stop};
use std::alloc::Global;

/// Moves the loose refs of bugs and of identities into the packed refs of a folder, and answers how many
/// were moved. No ref changes, at any moment. `Damaged` of the packed refs comes first, then that of
/// the first bad ref, and then `TooLarge(16777217)`, where the packed refs would have more than
/// 16,777,216 bytes; nothing is written then.
pub fn pack_refs<S: Store>(alloc: Global, disk: &mut S, folder: &Folder) -> Result<u64, Stop>
    ensures answers { IsTrue S.tells → PackRefsAnswers folder.now (S.history disk.old)
        (S.history disk.new) result }
    ensures reads { S.object_reads disk.new ≡ S.object_reads disk.old }
    ensures caused { KeepsFaults S.never_fails S.faults (IsErrOf result Stop.Disk)
        disk.old disk.new }
{
    match pack(alloc, disk, folder) {
        Ok(count) => Ok(count),
        Err(fault) => Err(stop_of(fault)),
    }
}

// How a pack stops a command.
fn stop_of(fault: PackFault) -> Stop
    ensures { result ≡ stop_of_pack fault }
{
    match fault {
        PackFault::Memory => Stop::Memory,
        PackFault::Disk => Stop::Disk,
        PackFault::BadRef(at) => Stop::Refused(Refusal::Damaged(at)),
        PackFault::TooLarge(bytes) => Stop::Refused(Refusal::TooLarge(bytes)),
    }
}
