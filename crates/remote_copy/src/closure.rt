//! The copy of a head's closure.
ghost use Rattle.std.specs.Prelude.{◌≡◌, ◌+◌, IsTrue, IfOk, IsErrOf, length};
ghost use Rattle.gb_text.specs.Overlap.{Overlap};
ghost use Rattle.gb_store.specs.Faults.{KeepsFaults};
ghost use Rattle.gb_store.specs.Moments.{WroteIf};
ghost use Rattle.git_object.specs.declared.frame.Kind.TheVariants.{Commit};
ghost use Rattle.object_store.specs.Held.{objects_after};
ghost use Rattle.remote_copy.specs.Copies.{CopyAnswers, IsCopied, ReadsEach, StartAnswers};
ghost use Rattle.remote_copy.specs.Needs.{as_kind};
ghost use Rattle.remote_copy.specs.Opens.{BeginReads};
ghost use Rattle.remote_copy.specs.Writes.{PutsCopy};

use crate::fault::CopyFault;
use crate::need::Need;
use crate::open::begin;
use crate::work::{Work, step};
use gb_store::Store;
use gb_text::{Folder, Name};
use git_object::Kind;
use std::alloc::Global;

/// Copies the closure of a head into another folder: the commits below the head with their trees
/// and all that those name, but for the commits of modules. An object is put where nothing stands
/// under its name, after all that it names. Answers how many objects were put. Where the target is
/// said to be closed, a commit that it holds is not followed: then the whole closure of the head is
/// held there only where the closure of each of its commits was.
pub fn copy<S: Store>(
    alloc: Global,
    disk: &mut S,
    source: &Folder,
    target: &Folder,
    head: &Name,
    closed: bool,
) -> Result<u64, CopyFault>
    requires { Overlap source.now target.now → ⊥ }
    ensures answers { IsTrue S.tells
        → CopyAnswers closed (objects_after (S.history disk.old) source.now)
        (objects_after (S.history disk.old) target.now) head.now result }
    ensures copied { IsTrue S.tells
        → IfOk result (λ _. IsCopied closed (objects_after (S.history disk.old) source.now)
        (objects_after (S.history disk.old) target.now)
        (objects_after (S.history disk.new) target.now) head.now) }
    ensures counted { IsTrue S.tells → IfOk result
        (λ put. length (S.history disk.new) ≡ length (S.history disk.old) + put) }
    ensures wrote { WroteIf S.tells (PutsCopy closed source.now target.now
        (objects_after (S.history disk.old) target.now) head.now)
        (S.history disk.old) (S.history disk.new) }
    ensures reads { IsTrue S.tells
        → ReadsEach closed (objects_after (S.history disk.old) source.now)
        (objects_after (S.history disk.old) target.now) head.now
        (S.object_reads disk.old) (S.object_reads disk.new) }
    ensures caused { KeepsFaults S.never_fails S.faults (IsErrOf result CopyFault.Disk)
        disk.old disk.new }
{
    let mut work = start(alloc, disk, source, target, closed, head)?;
    while !work.stack.is_empty() {
        step(alloc, disk, source, target, closed, &mut work)?;
    }
    Ok(work.put)
}

// The head is open, or is left.
fn start<S: Store>(
    alloc: Global,
    disk: &mut S,
    source: &Folder,
    target: &Folder,
    closed: bool,
    head: &Name,
) -> Result<Work, CopyFault>
    ensures answers { IsTrue S.tells
        → StartAnswers closed (objects_after (S.history disk.old) source.now)
        (objects_after (S.history disk.old) target.now) head.now result }
    ensures unwritten { IsTrue S.tells → S.history disk.new ≡ S.history disk.old }
    ensures reads { IsTrue S.tells
        → BeginReads closed (objects_after (S.history disk.old) target.now)
        (as_kind Commit head.now) (S.object_reads disk.old) (S.object_reads disk.new) }
    ensures caused { KeepsFaults S.never_fails S.faults (IsErrOf result CopyFault.Disk)
        disk.old disk.new }
{
    let need = Need {
        name: *head,
        kind: Kind::Commit,
    };
    let found = begin(alloc, disk, source, target, closed, need)?;
    let mut work = Work::new(alloc);
    work.enter(need, found)?;
    Ok(work)
}
