//! The people of a folder as text.
ghost use Rattle.std.specs.Prelude.{◌≡◌, IsTrue, IsErrOf};
ghost use Rattle.gb_store.specs.Faults.{KeepsFaults};
ghost use Rattle.gb_store.specs.Files.{files_of};
ghost use Rattle.repo_state.specs.Answers.{ReadsPeople};
ghost use Rattle.repo_view.specs.Shown.{UsersAnswers};

use gb_store::Store;
use gb_text::{Folder, Text};
use render::users_text;
use repo_state::{ReadStop, names, user};
use std::alloc::Global;

/// The people of the folder as text, a line for each local identity, and which of them is the user.
/// `Damaged` with the path of an identity's ref, where some is no ref text or has no version, or with
/// that of a user file that names no local identity.
pub fn users<S: Store>(alloc: Global, disk: &mut S, folder: &Folder) -> Result<Text, ReadStop>
    ensures answers { IsTrue S.tells
        → UsersAnswers (files_of (S.history disk.old)) folder.now result }
    ensures unwritten { IsTrue S.tells → S.history disk.new ≡ S.history disk.old }
    ensures reads { IsTrue S.tells → ReadsPeople (files_of (S.history disk.old)) folder.now
        (S.object_reads disk.old) (S.object_reads disk.new) }
    ensures caused { KeepsFaults S.never_fails S.faults (IsErrOf result ReadStop.Disk)
        disk.old disk.new }
{
    let people = names(alloc, disk, folder)?;
    let user = user(alloc, disk, folder)?;
    Ok(users_text(alloc, people.as_slice(), user)?)
}
