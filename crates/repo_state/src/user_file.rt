//! The user of a folder.
ghost use Rattle.std.specs.Prelude.{◌≡◌, IsTrue, IsErrOf, IfOk, Some, is_some};
ghost use Rattle.gb_text.specs.Folder.{joined};
ghost use Rattle.gb_store.specs.Faults.{KeepsFaults};
ghost use Rattle.gb_store.specs.Files.{files_of};
ghost use Rattle.gb_store.specs.Moments.{WroteIf};
ghost use Rattle.gb_store.specs.ObjectPath.{reads_after};
ghost use Rattle.repo_state.specs.Answers.{FindsUser, IsBadUser, IsUser, PutAnswers, PutsUser, Reads, UserAnswers};
ghost use Rattle.repo_state.specs.Users.{id_line, local_user, user_at, user_of, user_place, user_write};

use crate::refs::{EntityRef, entity, whole};
use crate::side::{HeadEntry, Side};
use crate::stop::ReadStop;
use gb_store::{Change, Content, Store, StoreFault};
use gb_text::{Bytes, Folder, Id, Memory, Text, without_line_end};
use ref_store::MOST_BYTES;
use std::alloc::Global;

/// Where the user file stands, below its folder.
pub const USER_PLACE: &str = "git-bug/user";

/// The user of the folder: an identity whose ref stands. None exactly where no user file stands;
/// `Damaged`, with the path of the user file, exactly where that file is no id with at most one line
/// feed behind it, or no ref of the identity stands.
pub fn user<S: Store>(alloc: Global, disk: &mut S, folder: &Folder) -> Result<Option<Id>, ReadStop>
    ensures answers { IsTrue S.tells → Reads (IsUser (files_of (S.history disk.old)) folder.now)
        (IsBadUser (files_of (S.history disk.old)) folder.now) result }
    ensures unwritten { IsTrue S.tells → S.history disk.new ≡ S.history disk.old }
    ensures reads { S.object_reads disk.new ≡ S.object_reads disk.old }
    ensures caused { KeepsFaults S.never_fails S.faults (IsErrOf result ReadStop.Disk)
        disk.old disk.new }
{
    match user_ref(alloc, disk, folder)? {
        Some(user) => Ok(Some(user.id)),
        None => Ok(None),
    }
}

/// The user of the folder with its head, by one reading of the user file and of the user's ref. None
/// and `Damaged` as of `user`, and `Damaged` with the path of the user's ref where that is no ref text.
pub fn user_head<S: Store>(
    alloc: Global,
    disk: &mut S,
    folder: &Folder,
) -> Result<Option<HeadEntry>, ReadStop>
    ensures answers { IsTrue S.tells
        → FindsUser (files_of (S.history disk.old)) folder.now result }
    ensures unwritten { IsTrue S.tells → S.history disk.new ≡ S.history disk.old }
    ensures reads { S.object_reads disk.new ≡ S.object_reads disk.old }
    ensures caused { KeepsFaults S.never_fails S.faults (IsErrOf result ReadStop.Disk)
        disk.old disk.new }
{
    match user_ref(alloc, disk, folder)? {
        Some(user) => Ok(Some(whole(alloc, folder, &Side::Identities, &user)?)),
        None => Ok(None),
    }
}

/// Whether the folder has a user file, whatever that holds.
pub fn has_user_file<S: Store>(
    alloc: Global,
    disk: &mut S,
    folder: &Folder,
) -> Result<bool, StoreFault>
    ensures answers { IsTrue S.tells → IfOk result (λ has. has
        ≡ is_some (files_of (S.history disk.old) (joined folder.now user_place))) }
    ensures unwritten { IsTrue S.tells → S.history disk.new ≡ S.history disk.old }
    ensures reads { S.object_reads disk.new ≡ S.object_reads disk.old }
    ensures caused { KeepsFaults S.never_fails S.faults (IsErrOf result StoreFault.Failed)
        disk.old disk.new }
{
    let path = folder.join(alloc, USER_PLACE)?;
    has_file(alloc, disk, &path)
}

// Whether there is a file at a path.
fn has_file<S: Store>(alloc: Global, disk: &mut S, path: &Text) -> Result<bool, StoreFault>
    ensures answers { IsTrue S.tells → IfOk result (λ has. has
        ≡ is_some (files_of (S.history disk.old) path.now)) }
    ensures unwritten { IsTrue S.tells → S.history disk.new ≡ S.history disk.old }
    ensures reads { S.object_reads disk.new ≡ reads_after path.now (S.object_reads disk.old) }
    ensures caused { KeepsFaults S.never_fails S.faults (IsErrOf result StoreFault.Failed)
        disk.old disk.new }
{
    match disk.read(alloc, path.as_str(), MOST_BYTES)? {
        Content::Absent => Ok(false),
        Content::Long => Ok(true),
        Content::Whole(_) => Ok(true),
    }
}

// The user of the folder, with its ref.
fn user_ref<S: Store>(
    alloc: Global,
    disk: &mut S,
    folder: &Folder,
) -> Result<Option<EntityRef>, ReadStop>
    ensures answers { IsTrue S.tells
        → UserAnswers (files_of (S.history disk.old)) folder.now (joined folder.now user_place)
        (user_at (files_of (S.history disk.old)) folder.now) result }
    ensures unwritten { IsTrue S.tells → S.history disk.new ≡ S.history disk.old }
    ensures reads { S.object_reads disk.new ≡ S.object_reads disk.old }
    ensures caused { KeepsFaults S.never_fails S.faults (IsErrOf result ReadStop.Disk)
        disk.old disk.new }
{
    let path = folder.join(alloc, USER_PLACE)?;
    user_in(alloc, disk, folder, path)
}

// The user that the file at a path names, with its ref.
#[tactic(auto, using(crate::proofs::UserFileLemmas::long_is_bad))]
fn user_in<S: Store>(
    alloc: Global,
    disk: &mut S,
    folder: &Folder,
    path: Text,
) -> Result<Option<EntityRef>, ReadStop>
    ensures answers { IsTrue S.tells
        → UserAnswers (files_of (S.history disk.old)) folder.now path
        (user_of (files_of (S.history disk.old)) folder.now (files_of (S.history disk.old) path))
        result }
    ensures unwritten { IsTrue S.tells → S.history disk.new ≡ S.history disk.old }
    ensures reads { S.object_reads disk.new ≡ reads_after path (S.object_reads disk.old) }
    ensures caused { KeepsFaults S.never_fails S.faults (IsErrOf result ReadStop.Disk)
        disk.old disk.new }
{
    match disk.read(alloc, path.as_str(), MOST_BYTES)? {
        Content::Absent => Ok(None),
        Content::Long => Err(ReadStop::Damaged(path)),
        Content::Whole(text) => match Id::read(without_line_end(text.as_slice())) {
            Some(id) => local_user(alloc, disk, folder, &id, path),
            None => Err(ReadStop::Damaged(path)),
        },
    }
}

// The identity of this id, which the user file at a path names, with its ref.
fn local_user<S: Store>(
    alloc: Global,
    disk: &mut S,
    folder: &Folder,
    id: &Id,
    path: Text,
) -> Result<Option<EntityRef>, ReadStop>
    ensures answers { IsTrue S.tells → UserAnswers (files_of (S.history disk.old)) folder.now path
        (local_user (files_of (S.history disk.old)) folder.now (Some id.now)) result }
    ensures unwritten { IsTrue S.tells → S.history disk.new ≡ S.history disk.old }
    ensures reads { S.object_reads disk.new ≡ S.object_reads disk.old }
    ensures caused { KeepsFaults S.never_fails S.faults (IsErrOf result ReadStop.Disk)
        disk.old disk.new }
{
    match entity(alloc, disk, folder, &Side::Identities, id)? {
        Some(user) => Ok(Some(user)),
        None => Err(ReadStop::Damaged(path)),
    }
}

/// The write that makes an identity the user: its digits and a line feed.
pub fn user_change(alloc: Global, folder: &Folder, id: &Id) -> Result<Change, Memory>
    ensures { IfOk result (λ change. change ≡ user_write folder.now id.now) }
{
    Ok(Change {
        path: folder.join(alloc, USER_PLACE)?,
        bytes: Some(id_line(alloc, id)?),
    })
}

/// Makes an identity the user, by one write: its digits and a line feed.
pub fn set_user<S: Store>(
    alloc: Global,
    disk: &mut S,
    folder: &Folder,
    id: &Id,
) -> Result<(), StoreFault>
    ensures answers { IsTrue S.tells → PutAnswers (user_write folder.now id.now)
        (S.history disk.old) (S.history disk.new) result }
    ensures wrote { WroteIf S.tells (PutsUser folder.now id.now)
        (S.history disk.old) (S.history disk.new) }
    ensures reads { S.object_reads disk.new ≡ S.object_reads disk.old }
    ensures caused { KeepsFaults S.never_fails S.faults (IsErrOf result StoreFault.Failed)
        disk.old disk.new }
{
    let path = folder.join(alloc, USER_PLACE)?;
    let line = id_line(alloc, id)?;
    disk.put(alloc, path.as_str(), line.as_slice())
}

// The line of an id: its digits and a line feed.
fn id_line(alloc: Global, id: &Id) -> Result<Bytes, Memory>
    ensures { IfOk result (λ line. line ≡ id_line id.now) }
{
    let mut line = id.text().to_vec(alloc)?;
    line.push(b'\n')?;
    Ok(Bytes::from_vec(line))
}
