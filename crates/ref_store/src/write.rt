//! Setting refs.
ghost use Rattle.std.specs.Prelude.{◌≡◌, ◌++◌, ◌∷◌, [], IsTrue, IsErrOf, IfOk, OnOk, Some};
ghost use Rattle.hex.specs.Hex.{encode_lower};
ghost use Rattle.gb_text.specs.Folder.{joined};
ghost use Rattle.gb_store.specs.Faults.{KeepsFaults};
ghost use Rattle.gb_store.specs.Files.{files_of};
ghost use Rattle.gb_store.specs.Moments.{WroteIf};
ghost use Rattle.ref_store.specs.Refs.{Head, ref_at, ref_of};
ghost use Rattle.ref_store.specs.Setting.{PutsRef, SetAnswers, ref_write};

use crate::fault::RefFault;
use gb_store::{Change, Store};
use gb_text::{Bytes, Folder, Memory, Name};
use std::alloc::Global;

/// Sets the ref at a path of the folder to a head, by one write, whatever stood there. Never
/// answers `BadRef`.
pub fn set<S: Store>(
    alloc: Global,
    disk: &mut S,
    folder: &Folder,
    path: &str,
    head: &Name,
) -> Result<(), RefFault>
    ensures answers { IsTrue S.tells
        → SetAnswers (ref_write folder.now path.now head.now) (S.history disk.old)
        (S.history disk.new) result }
    ensures reads_back { IsTrue S.tells
        → OnOk result (ref_at (files_of (S.history disk.new)) folder.now path.now ≡ Head head.now) }
    ensures wrote { WroteIf S.tells (PutsRef folder.now path.now head.now) (S.history disk.old)
        (S.history disk.new) }
    ensures reads { S.object_reads disk.new ≡ S.object_reads disk.old }
    ensures caused { KeepsFaults S.never_fails S.faults
        (IsErrOf result RefFault.Disk) disk.old disk.new }
{
    let at = folder.join(alloc, path)?;
    let text = ref_text(alloc, head)?;
    disk.put(alloc, at.as_str(), text.as_slice())?;
    Ok(())
}

/// The write that sets the ref at a path of the folder to a head.
pub fn write_of(alloc: Global, folder: &Folder, path: &str, head: &Name) -> Result<Change, Memory>
    ensures { IfOk result (λ change. change ≡ ref_write folder.now path.now head.now) }
{
    Ok(Change {
        path: folder.join(alloc, path)?,
        bytes: Some(ref_text(alloc, head)?),
    })
}

// The text of a ref: the 40 digits of its head and a line feed.
#[tactic(auto, using(crate::proofs::RefLemmas::reads_as_head))]
fn ref_text(alloc: Global, head: &Name) -> Result<Bytes, Memory>
    ensures text { IfOk result (λ text. text ≡ encode_lower head.now.bytes ++ 10 ∷ []) }
    ensures reads_back { IfOk result (λ text. ref_of (Some text) ≡ Head head.now) }
{
    let mut text = head.text().to_vec(alloc)?;
    text.push(b'\n')?;
    Ok(Bytes::from_vec(text))
}
