//! Looking into the target, and putting there.
ghost use Rattle.std.specs.Prelude.{◌≡◌, IsTrue, IfOk, IsErrOf};
ghost use Rattle.gb_store.specs.Faults.{KeepsFaults};
ghost use Rattle.gb_store.specs.Files.{TellsFile};
ghost use Rattle.object_store.specs.Held.{Objects};
ghost use Rattle.object_store.specs.Texts.{IsShort};
ghost use Rattle.object_store.specs.declared.read.TheConstants.{MOST_BYTES};
ghost use Rattle.remote_copy.specs.Answers.{HoldsCommit, PutAnswers, StandAnswers};

use crate::fault::CopyFault;
use crate::find::object_in;
use gb_store::{Content, Store};
use gb_text::{Folder, Memory, Name};
use git_object::Object;
use object_store::path_of;
use std::alloc::Global;

/// Whether the name holds a commit where this was read at its path.
pub fn holds_commit(alloc: Global, name: &Name, read: &Content) -> Result<bool, Memory>
    ensures { (objects : Objects) → TellsFile (objects name.now) MOST_BYTES read.now
        → IfOk result (HoldsCommit objects name.now) }
{
    let Content::Whole(text) = read else {
        return Ok(false);
    };
    let object = object_in(alloc, name, text.as_slice())?;
    Ok(matches!(object, Some(Object::Commit(_))))
}

/// Whether the text stands where this was read. Other bytes there are `Taken`.
pub fn stands(name: &Name, text: &[u8], read: &Content) -> Result<bool, CopyFault>
    ensures answers { (objects : Objects) → TellsFile (objects name.now) MOST_BYTES read.now
        → IsShort text.now → StandAnswers objects name.now text.now result }
    ensures undisturbed { IsErrOf result CopyFault.Disk → ⊥ }
{
    match read {
        Content::Absent => Ok(false),
        Content::Whole(found) if found.as_slice() == text => Ok(true),
        _ => Err(CopyFault::Taken(*name)),
    }
}

/// Puts a text at the path of a name.
pub fn put_at<S: Store>(
    alloc: Global,
    disk: &mut S,
    folder: &Folder,
    name: &Name,
    text: &[u8],
) -> Result<(), CopyFault>
    ensures answers { IsTrue S.tells → PutAnswers folder.now name.now text.now
        (S.history disk.old) (S.history disk.new) result }
    ensures reads { S.object_reads disk.new ≡ S.object_reads disk.old }
    ensures caused { KeepsFaults S.never_fails S.faults (IsErrOf result CopyFault.Disk)
        disk.old disk.new }
{
    let path = path_of(alloc, folder, name)?;
    Ok(disk.put(alloc, path.as_str(), text)?)
}
