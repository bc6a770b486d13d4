//! The packed refs of a folder, before a pack.
ghost use Rattle.std.specs.Prelude.{◌≡◌, IsTrue, IsErrOf};
ghost use Rattle.gb_store.specs.Faults.{KeepsFaults};
ghost use Rattle.gb_store.specs.Files.{files_of};
ghost use Rattle.ref_packing.specs.Reading.{OldAnswers};

use crate::fault::PackFault;
use gb_store::{Content, Store};
use gb_text::{Folder, List};
use packed_refs::{RefLine, is_packed, refs};
use ref_store::{MOST_PACKED_BYTES, packed_path};
use std::alloc::Global;

/// The packed refs of a folder, in the order of lines: none where their file does not exist.
/// `BadRef` where it is too long or no packed text.
#[tactic(auto, using(ref_store::proofs::IdPathLemmas::packed_reads_none))]
pub(crate) fn old_refs<S: Store>(
    alloc: Global,
    disk: &mut S,
    folder: &Folder,
) -> Result<List<RefLine>, PackFault>
    ensures answers { IsTrue S.tells
        → OldAnswers (files_of (S.history disk.old)) folder.now result }
    ensures unwritten { IsTrue S.tells → S.history disk.new ≡ S.history disk.old }
    ensures reads { S.object_reads disk.new ≡ S.object_reads disk.old }
    ensures caused { KeepsFaults S.never_fails S.faults (IsErrOf result PackFault.Disk)
        disk.old disk.new }
{
    let at = packed_path(alloc, folder)?;
    match disk.read(alloc, at.as_str(), MOST_PACKED_BYTES)? {
        Content::Absent => Ok(List::new(alloc)),
        Content::Long => Err(PackFault::BadRef(at)),
        Content::Whole(text) => {
            if is_packed(text.as_slice()) {
                Ok(List::from_vec(refs(alloc, text.as_slice())?))
            } else {
                Err(PackFault::BadRef(at))
            }
        }
    }
}
