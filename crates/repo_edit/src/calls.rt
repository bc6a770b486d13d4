//! The call of each edit of a bug, for a caller that knows the edit. The program has an edit as a
//! value, and calls `edit_bug`; only tests call these yet.
ghost use Rattle.std.specs.Prelude.{IsTrue, IsErrOf};
ghost use Rattle.gb_store.specs.Faults.{KeepsFaults};
ghost use Rattle.bug_edits.specs.declared.edit.BugEdit.TheVariants as kind;
ghost use Rattle.repo_edit.specs.Reads.{CallsEdit};

use crate::bugs::edit_bug;
use bug_edits::BugEdit;
use bug_ops::BugStatus;
use gb_store::Store;
use gb_text::{Id, List, Message, Title};
use repo_steps::{Env, Stop};
use std::alloc::Global;

/// Adds a comment with this message. Answers, refuses and writes as `edit_bug`.
pub fn comment<S: Store>(
    alloc: Global,
    disk: &mut S,
    env: &Env,
    bug: &str,
    message: Message,
) -> Result<Id, Stop>
    ensures calls { IsTrue S.tells → CallsEdit env.entry.now (kind.Comment message) bug.now
        (S.history disk.old) (S.history disk.new)
        (S.object_reads disk.old) (S.object_reads disk.new) result }
    ensures caused { KeepsFaults S.never_fails S.faults (IsErrOf result Stop.Disk)
        disk.old disk.new }
{
    edit_bug(alloc, disk, env, bug, &BugEdit::Comment { message })
}

/// Adds an operation that changes nothing of what the bug says, as `edit_bug`.
pub fn noop<S: Store>(alloc: Global, disk: &mut S, env: &Env, bug: &str) -> Result<Id, Stop>
    ensures calls { IsTrue S.tells → CallsEdit env.entry.now kind.Noop bug.now
        (S.history disk.old) (S.history disk.new)
        (S.object_reads disk.old) (S.object_reads disk.new) result }
    ensures caused { KeepsFaults S.never_fails S.faults (IsErrOf result Stop.Disk)
        disk.old disk.new }
{
    edit_bug(alloc, disk, env, bug, &BugEdit::Noop)
}

/// Gives the bug this title, in place of the one that it has, as `edit_bug`.
pub fn title<S: Store>(
    alloc: Global,
    disk: &mut S,
    env: &Env,
    bug: &str,
    title: Title,
) -> Result<Id, Stop>
    ensures calls { IsTrue S.tells → CallsEdit env.entry.now (kind.Title title) bug.now
        (S.history disk.old) (S.history disk.new)
        (S.object_reads disk.old) (S.object_reads disk.new) result }
    ensures caused { KeepsFaults S.never_fails S.faults (IsErrOf result Stop.Disk)
        disk.old disk.new }
{
    edit_bug(alloc, disk, env, bug, &BugEdit::Title { title })
}

/// Gives the bug this status, which it does not have yet, as `edit_bug`.
pub fn set_status<S: Store>(
    alloc: Global,
    disk: &mut S,
    env: &Env,
    bug: &str,
    status: BugStatus,
) -> Result<Id, Stop>
    ensures calls { IsTrue S.tells → CallsEdit env.entry.now (kind.Status status) bug.now
        (S.history disk.old) (S.history disk.new)
        (S.object_reads disk.old) (S.object_reads disk.new) result }
    ensures caused { KeepsFaults S.never_fails S.faults (IsErrOf result Stop.Disk)
        disk.old disk.new }
{
    edit_bug(alloc, disk, env, bug, &BugEdit::Status { status })
}

/// Puts those of the labels that are off on, as `edit_bug`.
pub fn label_add<S: Store>(
    alloc: Global,
    disk: &mut S,
    env: &Env,
    bug: &str,
    labels: List<Title>,
) -> Result<Id, Stop>
    ensures calls { IsTrue S.tells → CallsEdit env.entry.now (kind.AddLabels labels) bug.now
        (S.history disk.old) (S.history disk.new)
        (S.object_reads disk.old) (S.object_reads disk.new) result }
    ensures caused { KeepsFaults S.never_fails S.faults (IsErrOf result Stop.Disk)
        disk.old disk.new }
{
    edit_bug(alloc, disk, env, bug, &BugEdit::AddLabels { labels })
}

/// Takes those of the labels that are on off, as `edit_bug`.
pub fn label_rm<S: Store>(
    alloc: Global,
    disk: &mut S,
    env: &Env,
    bug: &str,
    labels: List<Title>,
) -> Result<Id, Stop>
    ensures calls { IsTrue S.tells → CallsEdit env.entry.now (kind.RemoveLabels labels) bug.now
        (S.history disk.old) (S.history disk.new)
        (S.object_reads disk.old) (S.object_reads disk.new) result }
    ensures caused { KeepsFaults S.never_fails S.faults (IsErrOf result Stop.Disk)
        disk.old disk.new }
{
    edit_bug(alloc, disk, env, bug, &BugEdit::RemoveLabels { labels })
}

/// Sets this value under this key; it shows where none is set yet. As `edit_bug`.
pub fn meta<S: Store>(
    alloc: Global,
    disk: &mut S,
    env: &Env,
    bug: &str,
    key: Title,
    value: Message,
) -> Result<Id, Stop>
    ensures calls { IsTrue S.tells → CallsEdit env.entry.now (kind.Metadata key value) bug.now
        (S.history disk.old) (S.history disk.new)
        (S.object_reads disk.old) (S.object_reads disk.new) result }
    ensures caused { KeepsFaults S.never_fails S.faults (IsErrOf result Stop.Disk)
        disk.old disk.new }
{
    edit_bug(alloc, disk, env, bug, &BugEdit::Metadata { key, value })
}
