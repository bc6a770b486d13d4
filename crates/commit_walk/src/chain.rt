//! The walk along a chain: from a head by the single parent.
ghost use Rattle.std.specs.Prelude.{◌≡◌, ◌≤◌, ◌+◌, IsTrue, IfOk, IsErrOf, length};
ghost use Rattle.gb_store.specs.Faults.{KeepsFaults};
ghost use Rattle.object_store.specs.Held.{objects_after};
ghost use Rattle.commit_walk.specs.ChainAnswers.{ChainAnswers, LinkAnswers};

use crate::below::{MOST_COMMITS, meet};
use crate::fault::{ChainStop, WalkFault};
use gb_store::Store;
use gb_text::{Folder, Name};
use std::alloc::Global;

/// A commit of a chain, and its tree. It has one parent or none.
#[derive(Clone, Copy, Debug, PartialEq, Eq)]
pub struct Link {
    pub name: Name,
    pub tree: Name,
}

/// The commits that the walk from the head meets, the root first. Each is read once.
pub fn walk_chain<S: Store>(
    alloc: Global,
    disk: &mut S,
    folder: &Folder,
    head: &Name,
) -> Result<Vec<Link>, ChainStop>
    ensures answers { IsTrue S.tells
        → ChainAnswers (objects_after (S.history disk.old) folder.now) head.now result }
    ensures unwritten { IsTrue S.tells → S.history disk.new ≡ S.history disk.old }
    ensures few { IfOk result (λ walk. length walk.items ≤ MOST_COMMITS) }
    ensures reads { S.object_reads disk.new ≤ S.object_reads disk.old + (MOST_COMMITS + 1) }
    ensures once { IfOk result (λ walk. S.object_reads disk.new
        ≤ S.object_reads disk.old + length walk.items) }
    ensures caused { KeepsFaults S.never_fails S.faults (IsErrOf result ChainStop.Disk)
        disk.old disk.new }
{
    let mut above = Vec::new(alloc);
    let mut name = *head;
    for _ in 0..MOST_COMMITS {
        let (link, parent) = step(alloc, disk, folder, &name)?;
        above.push(link)?;
        match parent {
            Some(parent) => name = parent,
            None => {
                above.reverse();
                return Ok(above);
            }
        }
    }
    step(alloc, disk, folder, &name)?;
    Err(ChainStop::Fault(WalkFault::TooMany))
}

/// The commit under a name, and its parent if it has one.
pub(crate) fn step<S: Store>(
    alloc: Global,
    disk: &mut S,
    folder: &Folder,
    name: &Name,
) -> Result<(Link, Option<Name>), ChainStop>
    ensures answers { IsTrue S.tells
        → LinkAnswers (objects_after (S.history disk.old) folder.now) name.now result }
    ensures unwritten { IsTrue S.tells → S.history disk.new ≡ S.history disk.old }
    ensures reads { S.object_reads disk.new ≤ S.object_reads disk.old + 1 }
    ensures caused { KeepsFaults S.never_fails S.faults (IsErrOf result ChainStop.Disk)
        disk.old disk.new }
{
    let met = meet(alloc, disk, folder, name)?;
    let link = Link {
        name: *name,
        tree: met.tree,
    };
    match met.parents.as_slice() {
        [] => Ok((link, None)),
        [parent] => Ok((link, Some(*parent))),
        _ => Err(ChainStop::Merge(*name)),
    }
}
