//! Whether the chain from a head passes a name, whatever is wrong with its commits.
ghost use Rattle.std.specs.Prelude.{◌≡◌, ◌≤◌, ◌+◌, IsTrue, IfOk, IsErrOf};
ghost use Rattle.gb_store.specs.Faults.{KeepsFaults};
ghost use Rattle.object_store.specs.Held.{objects_after};
ghost use Rattle.commit_walk.specs.Passing.{HasParent, PassesAnswers, ReadsAbove};

use crate::below::MOST_COMMITS;
use crate::chain::step;
use crate::fault::ChainStop;
use gb_store::{Store, StoreFault};
use gb_text::{Folder, Name};
use std::alloc::Global;

/// Whether the chain from the head passes this name: it is the head, or a commit's single parent on the
/// way, among the first 65,537 names. A name that holds no commit, or a commit of several parents, ends
/// the chain, and is passed itself. Each commit above the name is read once, and nothing below it.
pub fn passes<S: Store>(
    alloc: Global,
    disk: &mut S,
    folder: &Folder,
    head: &Name,
    sought: &Name,
) -> Result<bool, StoreFault>
    ensures answers { IsTrue S.tells → IfOk result (PassesAnswers
        (objects_after (S.history disk.old) folder.now) head.now sought.now) }
    ensures unwritten { IsTrue S.tells → S.history disk.new ≡ S.history disk.old }
    ensures reads { S.object_reads disk.new ≤ S.object_reads disk.old + MOST_COMMITS }
    ensures above { IsTrue S.tells
        → ReadsAbove (objects_after (S.history disk.old) folder.now) head.now sought.now
        (S.object_reads disk.old) (S.object_reads disk.new) }
    ensures caused { KeepsFaults S.never_fails S.faults (IsErrOf result StoreFault.Failed)
        disk.old disk.new }
{
    let mut name = *head;
    for _ in 0..MOST_COMMITS {
        if name == *sought {
            return Ok(true);
        }
        match parent_of(alloc, disk, folder, &name)? {
            Some(parent) => name = parent,
            None => return Ok(false),
        }
    }
    Ok(name == *sought)
}

// The single parent of the commit under a name; none where it holds no such commit.
fn parent_of<S: Store>(
    alloc: Global,
    disk: &mut S,
    folder: &Folder,
    name: &Name,
) -> Result<Option<Name>, StoreFault>
    ensures answers { IsTrue S.tells → IfOk result
        (HasParent (objects_after (S.history disk.old) folder.now) name.now) }
    ensures unwritten { IsTrue S.tells → S.history disk.new ≡ S.history disk.old }
    ensures reads { S.object_reads disk.new ≤ S.object_reads disk.old + 1 }
    ensures caused { KeepsFaults S.never_fails S.faults (IsErrOf result StoreFault.Failed)
        disk.old disk.new }
{
    match step(alloc, disk, folder, name) {
        Ok((_, parent)) => Ok(parent),
        Err(ChainStop::Memory) => Err(StoreFault::Memory),
        Err(ChainStop::Disk) => Err(StoreFault::Failed),
        Err(_) => Ok(None),
    }
}
