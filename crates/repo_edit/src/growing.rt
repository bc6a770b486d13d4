//! The bug that an edit adds to, and what bars it.
ghost use Rattle.std.specs.Prelude.{◌≡◌, ◌≤◌, IfOk, IsTrue, IsErrOf};
ghost use Rattle.std.specs.List.{list_any};
ghost use Rattle.gb_store.specs.Faults.{KeepsFaults};
ghost use Rattle.gb_store.specs.Files.{files_of};
ghost use Rattle.repo_state.specs.Finds.{bug_finder};
ghost use Rattle.repo_edit.specs.Growing.{AuthorAnswers, BeginningAnswers, CommentAnswers, GrowingAnswers, ReadsCommented, ReadsGrowing, RoomAnswers, growing_from, has_id};

use bug_ops::BugOp;
use commit_walk::MOST_COMMITS;
use dag_entity::Entity;
use gb_store::Store;
use gb_text::{Folder, Id, List, Memory};
use lamport::{Clock, Time};
use op_kind::OpKind;
use repo_state::{
    ClockFile, HeadEntry, Side, bug_at, clock, find_comment, find_head, ops_of, user,
};
use repo_steps::{Refusal, Stop};
use std::alloc::Global;

/// A bug that the user adds to: the author of what is added, the bug's head, its operations in
/// order, the clock of the folder, and the head's edit clock and number of commits.
#[derive(Drop)]
pub struct Growing {
    pub author: Id,
    pub head: HeadEntry,
    pub ops: List<BugOp>,
    pub seen: Clock,
    pub edit: u64,
    pub commits: u64,
}

// The user, who is the author of what a command adds to a bug.
fn edit_author<S: Store>(alloc: Global, disk: &mut S, folder: &Folder) -> Result<Id, Stop>
    ensures answers { IsTrue S.tells
        → AuthorAnswers (files_of (S.history disk.old)) folder.now result }
    ensures unwritten { IsTrue S.tells → S.history disk.new ≡ S.history disk.old }
    ensures reads { S.object_reads disk.new ≡ S.object_reads disk.old }
    ensures caused { KeepsFaults S.never_fails S.faults (IsErrOf result Stop.Disk)
        disk.old disk.new }
{
    user(alloc, disk, folder)?.ok_or(Stop::Refused(Refusal::NoUser))
}

/// What a new bug begins with: its author, and the clocks of the folder.
#[derive(Clone, Copy, Debug, PartialEq, Eq)]
pub struct Beginning {
    pub author: Id,
    pub create: Clock,
    pub edit: Clock,
}

/// What a new bug of the user begins with.
pub fn root_of<S: Store>(alloc: Global, disk: &mut S, folder: &Folder) -> Result<Beginning, Stop>
    ensures answers { IsTrue S.tells
        → BeginningAnswers (files_of (S.history disk.old)) folder.now result }
    ensures unwritten { IsTrue S.tells → S.history disk.new ≡ S.history disk.old }
    ensures reads { S.object_reads disk.new ≡ S.object_reads disk.old }
    ensures caused { KeepsFaults S.never_fails S.faults (IsErrOf result Stop.Disk)
        disk.old disk.new }
{
    let author = edit_author(alloc, disk, folder)?;
    let create = clock(alloc, disk, folder, ClockFile::BugsCreate)?;
    let edit = clock(alloc, disk, folder, ClockFile::BugsEdit)?;
    Ok(Beginning {
        author,
        create,
        edit,
    })
}

/// A bug that the user adds to, and the comment of it that is edited.
#[derive(Drop)]
pub struct GrowingComment {
    pub bug: Growing,
    pub comment: Id,
}

// A bug at its head with this entity, that an author adds to where the clock of the folder is this.
fn growing_from(
    alloc: Global,
    author: Id,
    head: HeadEntry,
    entity: Entity<BugOp>,
    seen: Clock,
) -> Result<Growing, Memory>
    ensures { IfOk result (λ g. g ≡ growing_from author head entity seen) }
{
    let (edit, commits) = (entity.edit, entity.commits);
    Ok(Growing {
        author,
        head,
        ops: ops_of(alloc, entity.packs)?,
        seen,
        edit,
        commits,
    })
}

/// The bug that a word finds, and the user, who adds to it.
pub fn growing_bug<S: Store>(
    alloc: Global,
    disk: &mut S,
    folder: &Folder,
    word: &str,
) -> Result<Growing, Stop>
    ensures answers { IsTrue S.tells
        → GrowingAnswers (files_of (S.history disk.old)) folder.now
        (bug_finder (files_of (S.history disk.old)) folder.now word.now) result }
    ensures unwritten { IsTrue S.tells → S.history disk.new ≡ S.history disk.old }
    ensures reads { IsTrue S.tells
        → ReadsGrowing (files_of (S.history disk.old)) folder.now word.now
        (S.object_reads disk.old) (S.object_reads disk.new) result }
    ensures caused { KeepsFaults S.never_fails S.faults (IsErrOf result Stop.Disk)
        disk.old disk.new }
{
    let author = edit_author(alloc, disk, folder)?;
    let head = find_head(alloc, disk, folder, &Side::Bugs, word)?;
    let entity = bug_at(alloc, disk, folder, &head)?;
    let seen = clock(alloc, disk, folder, ClockFile::BugsEdit)?;
    Ok(growing_from(alloc, author, head, entity, seen)?)
}

/// The comment that a word finds, with its bug, and the user, who adds to it.
pub fn growing_comment<S: Store>(
    alloc: Global,
    disk: &mut S,
    folder: &Folder,
    word: &str,
) -> Result<GrowingComment, Stop>
    ensures answers { IsTrue S.tells
        → CommentAnswers (files_of (S.history disk.old)) folder.now word.now result }
    ensures unwritten { IsTrue S.tells → S.history disk.new ≡ S.history disk.old }
    ensures reads { IsTrue S.tells
        → ReadsCommented (files_of (S.history disk.old)) folder.now word.now
        (S.object_reads disk.old) (S.object_reads disk.new) result }
    ensures caused { KeepsFaults S.never_fails S.faults (IsErrOf result Stop.Disk)
        disk.old disk.new }
{
    let author = edit_author(alloc, disk, folder)?;
    let found = find_comment(alloc, disk, folder, word)?;
    let seen = clock(alloc, disk, folder, ClockFile::BugsEdit)?;
    let entry = found.entry;
    let bug = growing_from(alloc, author, entry.bug, found.entity, seen)?;
    Ok(GrowingComment {
        bug,
        comment: entry.comment,
    })
}

/// The edit clock of what is added to a bug: above that of its head, of which one has to be left,
/// and where it has room for one commit more.
pub fn room(bug: &Growing) -> Result<Time, Stop>
    ensures room { RoomAnswers bug.now.seen bug.now.head.name bug.now.edit bug.now.commits result }
{
    let Ok(later) = bug.seen.edit_time(bug.edit) else {
        return Err(Stop::Refused(Refusal::ClockFull(bug.head.name)));
    };
    if bug.commits >= MOST_COMMITS as u64 {
        return Err(Stop::Refused(Refusal::TooLarge(MOST_COMMITS as u64 + 1)));
    }
    Ok(later)
}

/// Whether one of these operations has an id. It is proved for each kind, which costs far less than
/// for that of bugs.
pub fn has_operation<K: OpKind>(ops: &[K], id: &Id) -> bool
    ensures { result ≡ list_any (has_id K.meaning id.now) ops.now }
{
    ops.iter().any(|op| op.common().place.id == *id)
}
