//! What an edit of a bug is to write.
ghost use Rattle.std.specs.Prelude.{◌≡◌, ◌≤◌, ◌+◌, IsTrue, IsErrOf};
ghost use Rattle.gb_store.specs.Faults.{KeepsFaults};
ghost use Rattle.gb_store.specs.Files.{files_of};
ghost use Rattle.repo_steps.specs.Answers.{Plans};
ghost use Rattle.repo_steps.specs.BugDoings.{begun_bug};
ghost use Rattle.repo_edit.specs.Growing.{Begins, EditPlans, GrownPlans};
ghost use Rattle.repo_edit.specs.Reads.{ReadsComment, ReadsEdit};
ghost use Rattle.words.specs.declared.edit.Edit.TheVariants.{OfBug, OfComment};

use crate::addition::{only_id, plan_commit, with_clock, with_root_clocks};
use crate::growing::{
    Beginning, Growing, growing_bug, growing_comment, has_operation, room, root_of,
};
use crate::writes::head_writes;
use bug_edits::{BugEdit, NewOp, edit_op, edited_comment_op};
use gb_store::Store;
use gb_text::{Id, List, Message};
use lamport::Time;
use repo_state::{ClockFile, Side, stands};
use repo_steps::{Env, Plan, Refusal, Stop};
use std::alloc::Global;

/// What a command writes that begins a bug with an operation.
pub fn plan_begun<S: Store>(
    alloc: Global,
    disk: &mut S,
    env: &Env,
    new: NewOp,
) -> Result<Plan, Stop>
    ensures answers { IsTrue S.tells
        → Plans (begun_bug env.entry.now new.op (S.history disk.old)) result }
    ensures unwritten { IsTrue S.tells → S.history disk.new ≡ S.history disk.old }
    ensures reads { S.object_reads disk.new ≤ S.object_reads disk.old + 4 }
    ensures caused { KeepsFaults S.never_fails S.faults (IsErrOf result Stop.Disk)
        disk.old disk.new }
{
    let root = root_of(alloc, disk, &env.folder)?;
    plan_root(alloc, disk, env, &root, new)
}

// What begins a bug with an operation of this author and these clocks.
fn plan_root<S: Store>(
    alloc: Global,
    disk: &mut S,
    env: &Env,
    root: &Beginning,
    new: NewOp,
) -> Result<Plan, Stop>
    ensures answers { IsTrue S.tells
        → Begins (files_of (S.history disk.old)) env.entry.now.folder root.now
        → Plans (begun_bug env.entry.now new.op (S.history disk.old)) result }
    ensures unwritten { IsTrue S.tells → S.history disk.new ≡ S.history disk.old }
    ensures reads { S.object_reads disk.new ≤ S.object_reads disk.old + 4 }
    ensures caused { KeepsFaults S.never_fails S.faults (IsErrOf result Stop.Disk)
        disk.old disk.new }
{
    let edit = root.edit.root_time();
    let create = Some(root.create.root_time());
    let commit = plan_commit(alloc, &[], &root.author, edit, create, new, env.moment.now)?;
    let id = only_id(&commit);
    if stands(alloc, disk, &env.folder, &Side::Bugs, &id)? {
        return Err(Stop::Refused(Refusal::EntityExists(id)));
    }
    let writes = head_writes(
        alloc,
        disk,
        &env.folder,
        &Side::Bugs,
        &id,
        &commit.head,
        &commit.objects,
    )?;
    let writes = with_root_clocks(alloc, &env.folder, root.create, root.edit, writes)?;
    Ok(Plan {
        writes: List::from_vec(writes),
        id,
    })
}

/// What an edit of the bug that a word finds writes.
pub fn plan_edit<S: Store>(
    alloc: Global,
    disk: &mut S,
    env: &Env,
    word: &str,
    edit: &BugEdit,
) -> Result<Plan, Stop>
    ensures answers { IsTrue S.tells
        → EditPlans env.entry.now (OfBug word.now edit.now) (S.history disk.old) result }
    ensures unwritten { IsTrue S.tells → S.history disk.new ≡ S.history disk.old }
    ensures reads { IsTrue S.tells
        → ReadsEdit (files_of (S.history disk.old)) env.entry.now.folder word.now
        (S.object_reads disk.old) (S.object_reads disk.new) }
    ensures caused { KeepsFaults S.never_fails S.faults (IsErrOf result Stop.Disk)
        disk.old disk.new }
{
    let bug = growing_bug(alloc, disk, &env.folder, word)?;
    let new = edit_op(alloc, &env.moment, edit, bug.ops.as_slice())?;
    let clock = room(&bug)?;
    plan_grown(alloc, disk, env, &bug, clock, new)
}

/// What another message of the comment that a word finds writes.
pub fn plan_edited_comment<S: Store>(
    alloc: Global,
    disk: &mut S,
    env: &Env,
    word: &str,
    message: &Message,
) -> Result<Plan, Stop>
    ensures answers { IsTrue S.tells
        → EditPlans env.entry.now (OfComment word.now message.now) (S.history disk.old) result }
    ensures unwritten { IsTrue S.tells → S.history disk.new ≡ S.history disk.old }
    ensures reads { IsTrue S.tells
        → ReadsComment (files_of (S.history disk.old)) env.entry.now.folder word.now
        (S.object_reads disk.old) (S.object_reads disk.new) }
    ensures caused { KeepsFaults S.never_fails S.faults (IsErrOf result Stop.Disk)
        disk.old disk.new }
{
    let found = growing_comment(alloc, disk, &env.folder, word)?;
    let new = edited_comment_op(alloc, &env.moment, found.comment, message)?;
    let clock = room(&found.bug)?;
    plan_grown(alloc, disk, env, &found.bug, clock, new)
}

// What adds an operation with this edit clock to a bug.
fn plan_grown<S: Store>(
    alloc: Global,
    disk: &mut S,
    env: &Env,
    bug: &Growing,
    edit: Time,
    new: NewOp,
) -> Result<Plan, Stop>
    ensures answers { IsTrue S.tells
        → GrownPlans env.entry.now bug.now edit new.op (S.history disk.old) result }
    ensures unwritten { IsTrue S.tells → S.history disk.new ≡ S.history disk.old }
    ensures reads { S.object_reads disk.new ≤ S.object_reads disk.old + 4 }
    ensures caused { KeepsFaults S.never_fails S.faults (IsErrOf result Stop.Disk)
        disk.old disk.new }
{
    let parents = [bug.head.name];
    let commit = plan_commit(
        alloc,
        &parents,
        &bug.author,
        edit,
        None,
        new,
        env.moment.now,
    )?;
    let id = only_id(&commit);
    if has_operation(bug.ops.as_slice(), &id) {
        return Err(Stop::Refused(Refusal::RepeatedOperation(id)));
    }
    let writes = head_writes(
        alloc,
        disk,
        &env.folder,
        &Side::Bugs,
        &bug.head.id,
        &commit.head,
        &commit.objects,
    )?;
    let which = ClockFile::BugsEdit;
    let writes = with_clock(alloc, &env.folder, which, bug.seen, edit.number(), writes)?;
    Ok(Plan {
        writes: List::from_vec(writes),
        id,
    })
}
