//! Packs of refs.
ghost use Rattle.std.specs.Prelude.{◌≡◌, IsTrue, IsErrOf};
ghost use Rattle.gb_store.specs.Faults.{KeepsFaults};
ghost use Rattle.bug_run.specs.Run.{PackTells};

use crate::answer::Answer;
use gb_store::Store;
use gb_text::Folder;
use repo_edit::pack_refs;
use repo_steps::Stop;
use std::alloc::Global;

/// Packs the refs of a folder.
#[tactic(auto, using(ref_packing::proofs::WroteLemmas::packs_maybe))]
pub fn pack<S: Store>(alloc: Global, disk: &mut S, folder: &Folder) -> Result<Answer, Stop>
    ensures answers { IsTrue S.tells
        → PackTells folder.now (S.history disk.old) (S.history disk.new) result }
    ensures reads { S.object_reads disk.new ≡ S.object_reads disk.old }
    ensures caused { KeepsFaults S.never_fails S.faults (IsErrOf result Stop.Disk)
        disk.old disk.new }
{
    let count = pack_refs(alloc, disk, folder)?;
    Ok(Answer::packed(alloc, count)?)
}
