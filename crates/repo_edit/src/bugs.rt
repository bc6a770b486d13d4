//! A new bug, and the one edit of a bug that stands: each writes one operation.
ghost use Rattle.std.specs.Prelude.{◌≤◌, ◌+◌, IsTrue, IsErrOf};
ghost use Rattle.gb_store.specs.Faults.{KeepsFaults};
ghost use Rattle.gb_store.specs.Files.{files_of};
ghost use Rattle.repo_steps.specs.Answers.{DoingAnswers};
ghost use Rattle.repo_steps.specs.BugDoings.{begun_bug, new_bug};
ghost use Rattle.repo_steps.specs.Doings.{BugEditAnswers, EditAnswers};
ghost use Rattle.words.specs.declared.edit.Edit.TheVariants.{OfComment};
ghost use Rattle.repo_edit.specs.Reads.{ReadsComment, ReadsEdit};

use crate::carry::carry_out;
use crate::plan_bug::{plan_begun, plan_edit, plan_edited_comment};
use bug_edits::{BugEdit, NewOp, create_op};
use gb_store::Store;
use gb_text::{Id, Message, Title};
use repo_steps::{Env, Stop};
use std::alloc::Global;

/// Makes a bug of the user with this title and this message, which is its first comment. Answers
/// the bug's id. Refuses in this order: a user file that names no local identity (`Damaged`), no
/// user file (`NoUser`), sizes (`TooLarge`), a bug that has the id (`EntityExists`), names of
/// objects (`NameTaken`). The objects are written first, then the ref, then the clocks.
pub fn new_bug<S: Store>(
    alloc: Global,
    disk: &mut S,
    env: &Env,
    title: &Title,
    message: &Message,
) -> Result<Id, Stop>
    ensures answers { IsTrue S.tells
        → DoingAnswers (new_bug env.entry.now title.now message.now (S.history disk.old))
        (S.history disk.old) (S.history disk.new) result }
    ensures reads { S.object_reads disk.new ≤ S.object_reads disk.old + 4 }
    ensures caused { KeepsFaults S.never_fails S.faults (IsErrOf result Stop.Disk)
        disk.old disk.new }
{
    let new = create_op(alloc, &env.moment, title, message)?;
    begin_bug(alloc, disk, env, new)
}

/// Makes an edit of the user in the bug that the word finds: a commit over its head, whose pack has
/// the one operation that the edit adds by what the bug says. Answers the id of that operation.
/// Refuses in this order: a damaged user file, no user file (`NoUser`), a bug that isn't found
/// (`NotFound`) or is damaged (`Damaged`, with the path of its ref), labels none of which would
/// change (`NoLabelChange`), the status that the bug has (`SameStatus`), a head with the greatest
/// edit clock (`ClockFull`), sizes (`TooLarge`, of 65,536 commits that stand already or of an
/// object), an operation that the bug has (`RepeatedOperation`), names of objects (`NameTaken`).
/// The objects are written first, then the ref, then the clock.
pub fn edit_bug<S: Store>(
    alloc: Global,
    disk: &mut S,
    env: &Env,
    bug: &str,
    edit: &BugEdit,
) -> Result<Id, Stop>
    ensures answers { IsTrue S.tells
        → BugEditAnswers env.entry.now edit.now bug.now (S.history disk.old)
        (S.history disk.new) result }
    ensures reads { IsTrue S.tells
        → ReadsEdit (files_of (S.history disk.old)) env.entry.now.folder bug.now
        (S.object_reads disk.old) (S.object_reads disk.new) }
    ensures caused { KeepsFaults S.never_fails S.faults (IsErrOf result Stop.Disk)
        disk.old disk.new }
{
    let plan = plan_edit(alloc, disk, env, bug, edit)?;
    carry_out(alloc, disk, &plan)
}

/// Gives the comment that the word finds another message, as an edit of its bug by the user. Answers the id
/// of that operation. Refuses in this order: a damaged user file, no user file (`NoUser`), a bug that may
/// have the comment and is damaged (`Damaged`, with the path of its ref), a comment that isn't found
/// (`NotFound`) or several (`Ambiguous`, with the ids of the two least), and then as `edit_bug`.
pub fn edit_comment<S: Store>(
    alloc: Global,
    disk: &mut S,
    env: &Env,
    comment: &str,
    message: &Message,
) -> Result<Id, Stop>
    ensures answers { IsTrue S.tells
        → EditAnswers env.entry.now (OfComment comment.now message.now) (S.history disk.old)
        (S.history disk.new) result }
    ensures reads { IsTrue S.tells
        → ReadsComment (files_of (S.history disk.old)) env.entry.now.folder comment.now
        (S.object_reads disk.old) (S.object_reads disk.new) }
    ensures caused { KeepsFaults S.never_fails S.faults (IsErrOf result Stop.Disk)
        disk.old disk.new }
{
    let plan = plan_edited_comment(alloc, disk, env, comment, message)?;
    carry_out(alloc, disk, &plan)
}

// Begins a bug with an operation of the user.
fn begin_bug<S: Store>(alloc: Global, disk: &mut S, env: &Env, new: NewOp) -> Result<Id, Stop>
    ensures answers { IsTrue S.tells
        → DoingAnswers (begun_bug env.entry.now new.op (S.history disk.old))
        (S.history disk.old) (S.history disk.new) result }
    ensures reads { S.object_reads disk.new ≤ S.object_reads disk.old + 4 }
    ensures caused { KeepsFaults S.never_fails S.faults (IsErrOf result Stop.Disk)
        disk.old disk.new }
{
    let plan = plan_begun(alloc, disk, env, new)?;
    carry_out(alloc, disk, &plan)
}
