//! The call of each command that edits.
ghost use Rattle.std.specs.Prelude.{IsTrue, IsErrOf, IsOk};
ghost use Rattle.gb_store.specs.Faults.{KeepsFaults};
ghost use Rattle.gb_store.specs.Files.{files_of};
ghost use Rattle.repo_steps.specs.Doings.{EditAnswers};
ghost use Rattle.repo_edit.specs.Reads.{ReadsFor};

use crate::bugs::{edit_bug, edit_comment, new_bug};
use crate::people::{user_edit, user_new, user_set};
use gb_store::Store;
use gb_text::Id;
use repo_steps::{Env, Stop};
use std::alloc::Global;
use words::Edit;

/// Does what a command says, and answers the id that it tells.
pub fn run_edit<S: Store>(
    alloc: Global,
    disk: &mut S,
    env: &Env,
    command: &Edit,
) -> Result<Id, Stop>
    ensures answers { IsTrue S.tells
        → EditAnswers env.entry.now command.now (S.history disk.old) (S.history disk.new) result }
    ensures reads { IsTrue S.tells
        → ReadsFor (files_of (S.history disk.old)) env.entry.now.folder command.now (IsOk result)
        (S.object_reads disk.old) (S.object_reads disk.new) }
    ensures caused { KeepsFaults S.never_fails S.faults (IsErrOf result Stop.Disk)
        disk.old disk.new }
{
    match command {
        Edit::UserNew { name, email } => user_new(alloc, disk, env, name, email),
        Edit::UserEdit { name, email } => user_edit(alloc, disk, env, name, email),
        Edit::UserSet { id } => user_set(alloc, disk, env, id.as_str()),
        Edit::New { title, message } => new_bug(alloc, disk, env, title, message),
        Edit::OfBug { bug, edit } => edit_bug(alloc, disk, env, bug.as_str(), edit),
        Edit::OfComment { comment, message } => {
            edit_comment(alloc, disk, env, comment.as_str(), message)
        }
    }
}
