//! The packed refs of a folder.
ghost use Rattle.std.specs.Prelude.{◌≡◌, IsTrue, IsErrOf};
ghost use Rattle.gb_store.specs.Faults.{KeepsFaults};
ghost use Rattle.gb_store.specs.Files.{files_of};
ghost use Rattle.repo_state.specs.Packed.{PackedAnswers};

use crate::stop::ReadStop;
use gb_store::Store;
use gb_text::Folder;
use ref_store::{packed_path, packed_refs_read};
use std::alloc::Global;

/// Looks at the packed refs of a folder: `Damaged`, with the path of their file, exactly where it is no
/// packed text, or has more than 16,777,216 bytes. All other functions read refs as if such a file did
/// not exist, so each command looks here first.
pub fn check_packed<S: Store>(alloc: Global, disk: &mut S, folder: &Folder) -> Result<(), ReadStop>
    ensures answers { IsTrue S.tells
        → PackedAnswers (files_of (S.history disk.old)) folder.now result }
    ensures unwritten { IsTrue S.tells → S.history disk.new ≡ S.history disk.old }
    ensures reads { S.object_reads disk.new ≡ S.object_reads disk.old }
    ensures caused { KeepsFaults S.never_fails S.faults (IsErrOf result ReadStop.Disk)
        disk.old disk.new }
{
    if packed_refs_read(alloc, disk, folder)? {
        return Ok(());
    }
    Err(ReadStop::Damaged(packed_path(alloc, folder)?))
}
