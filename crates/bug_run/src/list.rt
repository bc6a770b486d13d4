//! Lists of bugs.
ghost use Rattle.std.specs.Prelude.{IsTrue, IsErrOf, IsOk};
ghost use Rattle.gb_store.specs.Faults.{KeepsFaults};
ghost use Rattle.gb_store.specs.Files.{files_of};
ghost use Rattle.repo_lists.specs.Lists.{ReadsList};
ghost use Rattle.bug_run.specs.Looks.{ReadsGuarded};
ghost use Rattle.bug_run.specs.Run.{ListRequestAnswers, ListTold};

use crate::answer::Answer;
use crate::look::look;
use gb_store::Store;
use repo_lists::list_bugs;
use repo_steps::Stop;
use std::alloc::Global;
use words::ListRequest;

/// Lists the bugs that a query asks for, where the packed refs of the folder read.
pub fn list<S: Store>(alloc: Global, disk: &mut S, request: &ListRequest) -> Result<Answer, Stop>
    ensures answers { ListRequestAnswers S.tells request.now
        (S.history disk.old) (S.history disk.new) result }
    ensures reads { IsTrue S.tells → ReadsGuarded (IsOk result)
        (ReadsList (files_of (S.history disk.old)) request.now.folder
        (S.object_reads disk.old) (S.object_reads disk.new))
        (S.object_reads disk.old) (S.object_reads disk.new) }
    ensures caused { KeepsFaults S.never_fails S.faults (IsErrOf result Stop.Disk)
        disk.old disk.new }
{
    look(alloc, disk, &request.folder)?;
    list_found(alloc, disk, request)
}

// Lists the bugs that a query asks for.
fn list_found<S: Store>(alloc: Global, disk: &mut S, request: &ListRequest) -> Result<Answer, Stop>
    ensures answers { IsTrue S.tells
        → ListTold request.now (S.history disk.old) (S.history disk.new) result }
    ensures reads { IsTrue S.tells
        → ReadsList (files_of (S.history disk.old)) request.now.folder
        (S.object_reads disk.old) (S.object_reads disk.new) }
    ensures caused { KeepsFaults S.never_fails S.faults (IsErrOf result Stop.Disk)
        disk.old disk.new }
{
    let folder = &request.folder;
    let text = list_bugs(alloc, disk, folder, request.layout, &request.query)?;
    Ok(Answer::text(text))
}
