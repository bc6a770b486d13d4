//! Putting an object under its name.
ghost use Rattle.std.specs.Prelude.{◌≡◌, IsTrue, IfOk, IsErrOf, Some};
ghost use Rattle.git_object.specs.Reading.{object_with};
ghost use Rattle.gb_store.specs.Faults.{KeepsFaults};
ghost use Rattle.gb_store.specs.Moments.{WroteIf};
ghost use Rattle.object_store.specs.Held.{object_at, objects_after, text_at};
ghost use Rattle.object_store.specs.Texts.{HasObject, IsShort};
ghost use Rattle.object_store.specs.Puts.{PutAnswers, PutsObject, ReadsAtMostOne, StandsAnswers, TextAnswers};

use crate::fault::PutFault;
use crate::object_text::ObjectText;
use crate::path::path_of;
use crate::read::MOST_BYTES;
use gb_store::{Content, Store};
use gb_text::{Folder, Name};
use git_object::Kind;
use std::alloc::Global;

/// Puts the object of a kind with this content under its name, where it doesn't stand there yet,
/// and answers the name. Makes one write or none, and at most one object read. An object text of
/// more than 4,194,304 bytes is `Large`, whatever stands under the name.
pub fn put<S: Store>(
    alloc: Global,
    disk: &mut S,
    folder: &Folder,
    kind: Kind,
    content: &[u8],
) -> Result<Name, PutFault>
    requires { HasObject kind content.now }
    ensures answers { IsTrue S.tells → PutAnswers folder.now kind content.now
        (S.history disk.old) (S.history disk.new) result }
    ensures held { IsTrue S.tells → IfOk result (λ name. object_at
        (objects_after (S.history disk.new) folder.now) name ≡ object_with kind content.now) }
    ensures wrote { WroteIf S.tells (PutsObject folder.now)
        (S.history disk.old) (S.history disk.new) }
    ensures reads { ReadsAtMostOne (S.object_reads disk.old) (S.object_reads disk.new) }
    ensures caused { KeepsFaults S.never_fails S.faults (IsErrOf result PutFault.Disk)
        disk.old disk.new }
{
    let text = ObjectText::new(alloc, kind, content)?;
    put_text(alloc, disk, folder, &text)
}

/// Puts an object of which the text is made already, as `put` does.
pub fn put_text<S: Store>(
    alloc: Global,
    disk: &mut S,
    folder: &Folder,
    text: &ObjectText,
) -> Result<Name, PutFault>
    ensures answers { IsTrue S.tells → TextAnswers folder.now text.now
        (S.history disk.old) (S.history disk.new) result }
    ensures held { IsTrue S.tells → IfOk result (λ name. text_at
        (objects_after (S.history disk.new) folder.now) name ≡ Some text.now) }
    ensures wrote { WroteIf S.tells (PutsObject folder.now)
        (S.history disk.old) (S.history disk.new) }
    ensures reads { ReadsAtMostOne (S.object_reads disk.old) (S.object_reads disk.new) }
    ensures caused { KeepsFaults S.never_fails S.faults (IsErrOf result PutFault.Disk)
        disk.old disk.new }
{
    if !text.is_short() {
        return Err(PutFault::Large(MOST_BYTES + 1));
    }
    let name = text.name();
    if !stands(alloc, disk, folder, text)? {
        let path = path_of(alloc, folder, &name)?;
        disk.put(alloc, path.as_str(), text.as_slice())?;
    }
    Ok(name)
}

/// Whether a text of at most 4,194,304 bytes stands under its name. Any other text there is `Taken`.
pub fn stands<S: Store>(
    alloc: Global,
    disk: &mut S,
    folder: &Folder,
    text: &ObjectText,
) -> Result<bool, PutFault>
    requires { IsShort text.now }
    ensures answers { IsTrue S.tells
        → StandsAnswers folder.now text.now (S.history disk.old) result }
    ensures unwritten { IsTrue S.tells → S.history disk.new ≡ S.history disk.old }
    ensures reads { ReadsAtMostOne (S.object_reads disk.old) (S.object_reads disk.new) }
    ensures caused { KeepsFaults S.never_fails S.faults (IsErrOf result PutFault.Disk)
        disk.old disk.new }
{
    let name = text.name();
    let path = path_of(alloc, folder, &name)?;
    match disk.read(alloc, path.as_str(), MOST_BYTES)? {
        Content::Absent => Ok(false),
        Content::Whole(found) if found.as_slice() == text.as_slice() => Ok(true),
        _ => Err(PutFault::Taken(name)),
    }
}
