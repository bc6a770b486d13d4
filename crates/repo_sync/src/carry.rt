//! How a head comes into another folder.
ghost use Rattle.std.specs.Prelude.{IsTrue, IsErrOf};
ghost use Rattle.gb_text.specs.Overlap.{Overlap};
ghost use Rattle.gb_store.specs.Faults.{KeepsFaults};
ghost use Rattle.object_store.specs.Held.{objects_after};
ghost use Rattle.remote_copy.specs.Copies.{ReadsEach};
ghost use Rattle.sync_steps.specs.Carrying.{CarryAnswers, CauseAnswers};

use gb_store::{Store, StoreFault};
use gb_text::Folder;
use remote_copy::{CopyFault, copy};
use repo_state::{HeadEntry, Side, set_head};
use std::alloc::Global;
use sync_steps::CopyCause;

/// Copies the closure of a head into another folder, and then sets a ref there. Answers what keeps the
/// head from being copied, if anything does: then the ref is not set. Where the target is said to be
/// closed, commits that it has are not followed.
pub fn carry<S: Store>(
    alloc: Global,
    disk: &mut S,
    source: &Folder,
    target: &Folder,
    closed: bool,
    to: &Side,
    head: &HeadEntry,
) -> Result<Option<CopyCause>, StoreFault>
    requires { Overlap source.now target.now → ⊥ }
    ensures answers { IsTrue S.tells → CarryAnswers closed source.now target.now to.now head.now
        (S.history disk.old) (S.history disk.new) result }
    ensures reads { IsTrue S.tells → ReadsEach closed (objects_after (S.history disk.old) source.now)
        (objects_after (S.history disk.old) target.now) head.now.name
        (S.object_reads disk.old) (S.object_reads disk.new) }
    ensures caused { KeepsFaults S.never_fails S.faults (IsErrOf result StoreFault.Failed)
        disk.old disk.new }
{
    match copy(alloc, disk, source, target, &head.name, closed) {
        Ok(_) => {
            set_head(alloc, disk, target, to, &head.id, &head.name)?;
            Ok(None)
        }
        Err(fault) => Ok(Some(cause_of(fault)?)),
    }
}

// The refusal of a copy, which memory and the disk are not.
fn cause_of(fault: CopyFault) -> Result<CopyCause, StoreFault>
    ensures { CauseAnswers fault result }
{
    match fault {
        CopyFault::Memory => Err(StoreFault::Memory),
        CopyFault::Disk => Err(StoreFault::Failed),
        CopyFault::Missing(name) => Ok(CopyCause::Missing(name)),
        CopyFault::Damaged(name) => Ok(CopyCause::Damaged(name)),
        CopyFault::WrongKind(name) => Ok(CopyCause::WrongKind(name)),
        CopyFault::TooLarge(count) => Ok(CopyCause::TooLarge(count)),
        CopyFault::Ring(name) => Ok(CopyCause::Ring(name)),
        CopyFault::Taken(name) => Ok(CopyCause::Taken(name)),
    }
}
