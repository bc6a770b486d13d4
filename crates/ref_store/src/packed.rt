//! The packed refs of a folder: one file with a line for each of many refs (Git's packed-refs).
ghost use Rattle.std.specs.Prelude.{◌≡◌, IsTrue, IsErrOf, IfOk};
ghost use Rattle.gb_text.specs.Folder.{joined};
ghost use Rattle.gb_store.specs.Faults.{KeepsFaults};
ghost use Rattle.gb_store.specs.Files.{files_of};
ghost use Rattle.packed_refs.specs.Packed.{head_of, heads_in};
ghost use Rattle.ref_store.specs.Refs.{packed_at, packed_place, packed_reads, refs_of_text};

use gb_store::{Content, Store, StoreFault};
use gb_text::{Bytes, Folder, Memory, Name, Text};
use packed_refs::PackedHead;
use std::alloc::Global;

/// The most bytes that the packed refs of a folder may have.
pub const MOST_PACKED_BYTES: u64 = 16_777_216;

/// The path of the packed refs of a folder.
pub fn packed_path(alloc: Global, folder: &Folder) -> Result<Text, Memory>
    ensures { IfOk result (λ path. path ≡ joined folder.now packed_place) }
{
    folder.join(alloc, "packed-refs")
}

/// Whether the packed refs of a folder read: their file does not exist, or it has at most 16,777,216
/// bytes and is a packed text. Where they don't, each ref is read as if that file did not exist.
#[tactic(auto, using(crate::proofs::IdPathLemmas::packed_reads_none))]
pub fn packed_refs_read<S: Store>(
    alloc: Global,
    disk: &mut S,
    folder: &Folder,
) -> Result<bool, StoreFault>
    ensures answers { IsTrue S.tells → IfOk result (λ reads. reads
        ≡ packed_reads (files_of (S.history disk.old)) folder.now) }
    ensures unwritten { IsTrue S.tells → S.history disk.new ≡ S.history disk.old }
    ensures reads { S.object_reads disk.new ≡ S.object_reads disk.old }
    ensures caused { KeepsFaults S.never_fails S.faults (IsErrOf result StoreFault.Failed)
        disk.old disk.new }
{
    let at = packed_path(alloc, folder)?;
    match disk.read(alloc, at.as_str(), MOST_PACKED_BYTES)? {
        Content::Absent => Ok(true),
        Content::Long => Ok(false),
        Content::Whole(text) => Ok(packed_refs::is_packed(text.as_slice())),
    }
}

// The text of the packed refs, if their file exists and is not too long.
#[tactic(auto, using(crate::proofs::IdPathLemmas::packed_reads_none))]
fn packed_text<S: Store>(
    alloc: Global,
    disk: &mut S,
    folder: &Folder,
) -> Result<Option<Bytes>, StoreFault>
    ensures text { IsTrue S.tells → IfOk result (λ text. refs_of_text text
        ≡ packed_at (files_of (S.history disk.old)) folder.now) }
    ensures unwritten { IsTrue S.tells → S.history disk.new ≡ S.history disk.old }
    ensures reads { S.object_reads disk.new ≡ S.object_reads disk.old }
    ensures caused { KeepsFaults S.never_fails S.faults (IsErrOf result StoreFault.Failed)
        disk.old disk.new }
{
    let at = packed_path(alloc, folder)?;
    match disk.read(alloc, at.as_str(), MOST_PACKED_BYTES)? {
        Content::Absent | Content::Long => Ok(None),
        Content::Whole(text) => Ok(Some(text)),
    }
}

/// The head that the packed refs give a path.
pub(crate) fn packed_head<S: Store>(
    alloc: Global,
    disk: &mut S,
    folder: &Folder,
    path: &str,
) -> Result<Option<Name>, StoreFault>
    ensures head { IsTrue S.tells → IfOk result (λ head. head
        ≡ head_of path.now (packed_at (files_of (S.history disk.old)) folder.now)) }
    ensures unwritten { IsTrue S.tells → S.history disk.new ≡ S.history disk.old }
    ensures reads { S.object_reads disk.new ≡ S.object_reads disk.old }
    ensures caused { KeepsFaults S.never_fails S.faults (IsErrOf result StoreFault.Failed)
        disk.old disk.new }
{
    match packed_text(alloc, disk, folder)? {
        Some(text) => Ok(packed_refs::head_of(text.as_slice(), path.as_bytes())),
        None => Ok(None),
    }
}

/// The heads that the packed refs give ids right in a dir, in the order of lines.
pub(crate) fn packed_heads<S: Store>(
    alloc: Global,
    disk: &mut S,
    folder: &Folder,
    dir: &str,
) -> Result<Vec<PackedHead>, StoreFault>
    ensures heads { IsTrue S.tells → IfOk result (λ heads. heads.items
        ≡ heads_in dir.now (packed_at (files_of (S.history disk.old)) folder.now)) }
    ensures unwritten { IsTrue S.tells → S.history disk.new ≡ S.history disk.old }
    ensures reads { S.object_reads disk.new ≡ S.object_reads disk.old }
    ensures caused { KeepsFaults S.never_fails S.faults (IsErrOf result StoreFault.Failed)
        disk.old disk.new }
{
    match packed_text(alloc, disk, folder)? {
        Some(text) => Ok(packed_refs::heads_in(alloc, text.as_slice(), dir.as_bytes())?),
        None => Ok(Vec::new(alloc)),
    }
}
