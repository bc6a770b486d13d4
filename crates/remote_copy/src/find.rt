//! Reading the source.
ghost use Rattle.std.specs.Prelude.{◌≡◌, ◌≤◌, ◌+◌, IsTrue, IfOk, IsErrOf};
ghost use Rattle.gb_store.specs.Faults.{KeepsFaults};
ghost use Rattle.gb_store.specs.Files.{TellsFile};
ghost use Rattle.object_store.specs.Held.{Objects, objects_after};
ghost use Rattle.remote_copy.specs.Answers.{FindAnswers, IsStop, object_named};

use crate::fault::CopyFault;
use gb_store::{Content, Store};
use gb_text::{Bytes, Folder, Memory, Name};
use git_object::{Object, name_of_text};
use object_store::{MOST_BYTES, path_of};
use std::alloc::Global;

/// An object with its text.
#[derive(Drop)]
pub struct Found {
    pub text: Bytes,
    pub object: Object,
}

/// The object that the name holds in the folder, with its text. One object read, whatever the answer.
pub fn find<S: Store>(
    alloc: Global,
    disk: &mut S,
    folder: &Folder,
    name: &Name,
) -> Result<Found, CopyFault>
    ensures answers { IsTrue S.tells
        → FindAnswers (objects_after (S.history disk.old) folder.now) name.now result }
    ensures unwritten { IsTrue S.tells → S.history disk.new ≡ S.history disk.old }
    ensures reads { S.object_reads disk.new ≤ S.object_reads disk.old + 1 }
    ensures caused { KeepsFaults S.never_fails S.faults (IsErrOf result CopyFault.Disk)
        disk.old disk.new }
{
    let read = read_file(alloc, disk, folder, name)?;
    judge(alloc, name, read)
}

/// What stands at the name's path in a folder.
pub fn read_file<S: Store>(
    alloc: Global,
    disk: &mut S,
    folder: &Folder,
    name: &Name,
) -> Result<Content, CopyFault>
    ensures found { IsTrue S.tells → IfOk result (TellsFile
        (objects_after (S.history disk.old) folder.now name.now) MOST_BYTES) }
    ensures refused { IsStop result }
    ensures unwritten { IsTrue S.tells → S.history disk.new ≡ S.history disk.old }
    ensures reads { S.object_reads disk.new ≤ S.object_reads disk.old + 1 }
    ensures caused { KeepsFaults S.never_fails S.faults (IsErrOf result CopyFault.Disk)
        disk.old disk.new }
{
    let path = path_of(alloc, folder, name)?;
    Ok(disk.read(alloc, path.as_str(), MOST_BYTES)?)
}

// The object that a name holds where this was read at its path.
fn judge(alloc: Global, name: &Name, read: Content) -> Result<Found, CopyFault>
    ensures answers { (objects : Objects) → TellsFile (objects name.now) MOST_BYTES read
        → FindAnswers objects name.now result }
    ensures undisturbed { IsErrOf result CopyFault.Disk → ⊥ }
{
    let text = match read {
        Content::Absent => return Err(CopyFault::Missing(*name)),
        Content::Long => return Err(CopyFault::TooLarge(MOST_BYTES + 1)),
        Content::Whole(text) => text,
    };
    match object_in(alloc, name, text.as_slice())? {
        Some(object) => Ok(Found { text, object }),
        None => Err(CopyFault::Damaged(*name)),
    }
}

/// The object of this text, where it has the name: at most 4,194,304 bytes and that SHA-1.
pub fn object_in(alloc: Global, name: &Name, text: &[u8]) -> Result<Option<Object>, Memory>
    ensures { IfOk result (λ object. object ≡ object_named name.now text.now) }
{
    if text.len() as u64 > MOST_BYTES || name_of_text(text) != *name {
        return Ok(None);
    }
    Object::read(alloc, text)
}
