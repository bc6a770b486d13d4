//! Reading an object by its name.
ghost use Rattle.std.specs.Prelude.{◌≡◌, IsTrue, IfOk, IsErrOf};
ghost use Rattle.gb_store.specs.Faults.{KeepsFaults};
ghost use Rattle.gb_store.specs.Files.{TellsFile};
ghost use Rattle.object_store.specs.Held.{Objects, Answers, AnswersRaw, AnswersText, IsReadOrStopped, ReadsOne, objects_after};
ghost use Rattle.object_store.specs.Named.{IsFor, IsNamedBy, IsObjectOf, IsRawOf};

use crate::fault::ObjFault;
use crate::path::path_of;
use gb_store::{Content, Store};
use gb_text::{Bytes, Folder, Name};
use git_object::{Frame, Kind, Object, name_of_text};
use std::alloc::Global;

/// The most bytes that an object file may have.
pub const MOST_BYTES: u64 = 4_194_304;

/// An object as its text has it: the kind and the content's bytes.
#[derive(Debug, Drop)]
pub struct Raw {
    pub kind: Kind,
    pub content: Bytes,
}

/// The object that the name holds in the folder: the one whose text is the file at the name's
/// path, where that file has at most 4,194,304 bytes and the SHA-1 that the name says. One object
/// read, whatever the answer.
pub fn get<S: Store>(
    alloc: Global,
    disk: &mut S,
    folder: &Folder,
    name: &Name,
) -> Result<Object, ObjFault>
    ensures answers { IsTrue S.tells
        → Answers (objects_after (S.history disk.old) folder.now) name.now result }
    ensures asked { IsFor (IsObjectOf name.now) name.now result }
    ensures unwritten { IsTrue S.tells → S.history disk.new ≡ S.history disk.old }
    ensures reads { ReadsOne (IsErrOf result ObjFault.Memory)
        (S.object_reads disk.old) (S.object_reads disk.new) }
    ensures caused { KeepsFaults S.never_fails S.faults (IsErrOf result ObjFault.Disk)
        disk.old disk.new }
{
    let read = read_file(alloc, disk, folder, name)?;
    judge_object(alloc, name, read)
}

/// The kind and the content of that object, as they stand in its text, with the same refusals.
/// One object read, whatever the answer.
pub fn get_raw<S: Store>(
    alloc: Global,
    disk: &mut S,
    folder: &Folder,
    name: &Name,
) -> Result<Raw, ObjFault>
    ensures answers { IsTrue S.tells
        → AnswersRaw (objects_after (S.history disk.old) folder.now) name.now result }
    ensures asked { IsFor (IsRawOf name.now) name.now result }
    ensures unwritten { IsTrue S.tells → S.history disk.new ≡ S.history disk.old }
    ensures reads { ReadsOne (IsErrOf result ObjFault.Memory)
        (S.object_reads disk.old) (S.object_reads disk.new) }
    ensures caused { KeepsFaults S.never_fails S.faults (IsErrOf result ObjFault.Disk)
        disk.old disk.new }
{
    let read = read_file(alloc, disk, folder, name)?;
    judge(alloc, name, read)
}

/// The text under the name in the folder: the file at the name's path, where it has at most
/// 4,194,304 bytes and the SHA-1 that the name says. Whether it is an object's isn't looked at. One
/// object read, whatever the answer.
pub fn get_text<S: Store>(
    alloc: Global,
    disk: &mut S,
    folder: &Folder,
    name: &Name,
) -> Result<Bytes, ObjFault>
    ensures answers { IsTrue S.tells
        → AnswersText (objects_after (S.history disk.old) folder.now) name.now result }
    ensures asked { IsFor (IsNamedBy name.now) name.now result }
    ensures unwritten { IsTrue S.tells → S.history disk.new ≡ S.history disk.old }
    ensures reads { ReadsOne (IsErrOf result ObjFault.Memory)
        (S.object_reads disk.old) (S.object_reads disk.new) }
    ensures caused { KeepsFaults S.never_fails S.faults (IsErrOf result ObjFault.Disk)
        disk.old disk.new }
{
    let read = read_file(alloc, disk, folder, name)?;
    text_in(name, read)
}

/// What a name holds in each folder where this was read at its path, asked for as many bytes as an
/// object may have: the answer of `get`, without the read.
pub fn judge_object(alloc: Global, name: &Name, read: Content) -> Result<Object, ObjFault>
    ensures answers { (objects : Objects) → TellsFile (objects name.now) MOST_BYTES read
        → Answers objects name.now result }
    ensures asked { IsFor (IsObjectOf name.now) name.now result }
    ensures undisturbed { IsErrOf result ObjFault.Disk → ⊥ }
{
    let text = text_in(name, read)?;
    match Object::read(alloc, text.as_slice())? {
        Some(object) => Ok(object),
        None => Err(ObjFault::Damaged(*name)),
    }
}

/// The same answer as `get_raw` gives it.
pub fn judge(alloc: Global, name: &Name, read: Content) -> Result<Raw, ObjFault>
    ensures answers { (objects : Objects) → TellsFile (objects name.now) MOST_BYTES read
        → AnswersRaw objects name.now result }
    ensures asked { IsFor (IsRawOf name.now) name.now result }
    ensures undisturbed { IsErrOf result ObjFault.Disk → ⊥ }
{
    let text = text_in(name, read)?;
    if Object::read(alloc, text.as_slice())?.is_none() {
        return Err(ObjFault::Damaged(*name));
    }
    match Frame::read(text.as_slice()) {
        Some(frame) => Ok(Raw {
            kind: frame.kind,
            content: Bytes::from_slice(alloc, frame.content)?,
        }),
        None => Err(ObjFault::Damaged(*name)),
    }
}

// The text under a name that was read so.
fn text_in(name: &Name, read: Content) -> Result<Bytes, ObjFault>
    ensures answers { (objects : Objects) → TellsFile (objects name.now) MOST_BYTES read
        → AnswersText objects name.now result }
    ensures asked { IsFor (IsNamedBy name.now) name.now result }
    ensures undisturbed { IsErrOf result ObjFault.Disk → ⊥ }
{
    match read {
        Content::Absent => Err(ObjFault::Missing(*name)),
        Content::Long => Err(ObjFault::Large(*name)),
        Content::Whole(text) if text.as_slice().len() as u64 > MOST_BYTES => {
            Err(ObjFault::Large(*name))
        }
        Content::Whole(text) if name_of_text(text.as_slice()) == *name => Ok(text),
        Content::Whole(_) => Err(ObjFault::Damaged(*name)),
    }
}

// What stands at the name's path.
fn read_file<S: Store>(
    alloc: Global,
    disk: &mut S,
    folder: &Folder,
    name: &Name,
) -> Result<Content, ObjFault>
    ensures found { IsTrue S.tells → IfOk result (TellsFile
        (objects_after (S.history disk.old) folder.now name.now) MOST_BYTES) }
    ensures refused { IsReadOrStopped result }
    ensures unwritten { IsTrue S.tells → S.history disk.new ≡ S.history disk.old }
    ensures reads { ReadsOne (IsErrOf result ObjFault.Memory)
        (S.object_reads disk.old) (S.object_reads disk.new) }
    ensures caused { KeepsFaults S.never_fails S.faults (IsErrOf result ObjFault.Disk)
        disk.old disk.new }
{
    let path = path_of(alloc, folder, name)?;
    Ok(disk.read(alloc, path.as_str(), MOST_BYTES)?)
}
