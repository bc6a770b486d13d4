//! Reading refs.
ghost use Rattle.std.specs.Prelude.{◌≡◌, IsTrue, IsErrOf};
ghost use Rattle.gb_text.specs.Folder.{joined};
ghost use Rattle.gb_store.specs.Faults.{KeepsFaults};
ghost use Rattle.gb_store.specs.Files.{files_of};
ghost use Rattle.ref_store.specs.Refs.{Answers, ReadsOnce, ref_at, ref_of};

use crate::fault::RefFault;
use crate::packed::packed_head;
use gb_store::{Content, Store};
use gb_text::{Folder, Name, without_line_end};
use std::alloc::Global;

/// The most bytes that a ref file may have. A ref text has 40 or 41.
pub const MOST_BYTES: u64 = 4096;

/// The head that the ref at a path of the folder names: its file, or the last line of the packed refs
/// with that name where it has none. None exactly where neither gives one; `BadRef` exactly where the
/// file exists and is no ref text.
pub fn get<S: Store>(
    alloc: Global,
    disk: &mut S,
    folder: &Folder,
    path: &str,
) -> Result<Option<Name>, RefFault>
    ensures answers { IsTrue S.tells
        → Answers (joined folder.now path.now) (ref_at (files_of
        (S.history disk.old)) folder.now path.now) result }
    ensures unwritten { IsTrue S.tells → S.history disk.new ≡ S.history disk.old }
    ensures reads { ReadsOnce (joined folder.now path.now) result (S.object_reads disk.old)
        (S.object_reads disk.new) }
    ensures caused { KeepsFaults S.never_fails S.faults
        (IsErrOf result RefFault.Disk) disk.old disk.new }
{
    match get_loose(alloc, disk, folder, path)? {
        Some(head) => Ok(Some(head)),
        None => Ok(packed_head(alloc, disk, folder, path)?),
    }
}

/// The head that the file of a loose ref names. None exactly where no file exists; `BadRef` exactly
/// where one exists that is no ref text.
#[tactic(auto, using(crate::proofs::RefLemmas::long_is_bad))]
pub(crate) fn get_loose<S: Store>(
    alloc: Global,
    disk: &mut S,
    folder: &Folder,
    path: &str,
) -> Result<Option<Name>, RefFault>
    ensures answers { IsTrue S.tells
        → Answers (joined folder.now path.now) (ref_of (files_of
        (S.history disk.old) (joined folder.now path.now))) result }
    ensures unwritten { IsTrue S.tells → S.history disk.new ≡ S.history disk.old }
    ensures reads { ReadsOnce (joined folder.now path.now) result (S.object_reads disk.old)
        (S.object_reads disk.new) }
    ensures caused { KeepsFaults S.never_fails S.faults
        (IsErrOf result RefFault.Disk) disk.old disk.new }
{
    let at = folder.join(alloc, path)?;
    match disk.read(alloc, at.as_str(), MOST_BYTES)? {
        Content::Absent => Ok(None),
        Content::Long => Err(RefFault::BadRef(at)),
        Content::Whole(text) => match Name::read(without_line_end(text.as_slice())) {
            Some(name) => Ok(Some(name)),
            None => Err(RefFault::BadRef(at)),
        },
    }
}
