//! The walk from a head to a known name.
ghost use Rattle.std.specs.Prelude.{◌≡◌, ◌≤◌, ◌+◌, ◌∷◌, [], IsTrue, IsErrOf, length};
ghost use Rattle.gb_store.specs.Faults.{KeepsFaults};
ghost use Rattle.object_store.specs.Held.{objects_after};
ghost use Rattle.commit_walk.specs.Above.{AboveAnswers, IfMet, IfWhole};
ghost use Rattle.commit_walk.specs.Answers.{ReadsBelow};
ghost use Rattle.commit_walk.specs.Below.{IsClosed};
ghost use Rattle.commit_walk.specs.Passing.{ReadsAbove};

use crate::below::{MOST_COMMITS, Met, step};
use crate::fault::{WalkFault, WalkStop};
use crate::queue::Queue;
use gb_store::Store;
use gb_text::{Folder, Name};
use std::alloc::Global;

/// What lies above a known name.
#[derive(Drop)]
pub enum Above {
    /// Steps from a commit to its only parent lead from the head to the known name: the commits above
    /// it, the lowest first.
    Chain(Vec<Met>),
    /// No such steps lead there: all commits below the head, each once.
    Whole(Vec<Met>),
}

/// The commits above a known name, if steps from a commit to its only parent lead there from the head;
/// and otherwise all commits below the head. Each is read once, and nothing below the known name is read
/// where such steps lead there.
pub fn walk_above<S: Store>(
    alloc: Global,
    disk: &mut S,
    folder: &Folder,
    head: &Name,
    known: &Name,
) -> Result<Above, WalkStop>
    ensures answers { IsTrue S.tells
        → AboveAnswers (objects_after (S.history disk.old) folder.now) head.now known.now
        result }
    ensures closed { IfWhole result (λ walk. IsClosed (head.now ∷ []) walk) }
    ensures few { IfMet result (λ walk. length walk ≤ MOST_COMMITS) }
    ensures unwritten { IsTrue S.tells → S.history disk.new ≡ S.history disk.old }
    ensures reads { S.object_reads disk.new ≤ S.object_reads disk.old + (MOST_COMMITS + 1) }
    ensures once { IfMet result (λ walk. S.object_reads disk.new
        ≤ S.object_reads disk.old + length walk) }
    ensures each { IsTrue S.tells
        → ReadsBelow (objects_after (S.history disk.old) folder.now) (head.now ∷ [])
        (S.object_reads disk.old) (S.object_reads disk.new) }
    ensures above { IsTrue S.tells
        → ReadsAbove (objects_after (S.history disk.old) folder.now) head.now known.now
        (S.object_reads disk.old) (S.object_reads disk.new) }
    ensures caused { KeepsFaults S.never_fails S.faults (IsErrOf result WalkStop.Disk)
        disk.old disk.new }
{
    let mut queue = Queue::new(alloc);
    let mut walk = Vec::new(alloc);
    let mut is_chain = true;
    queue.add(&[*head])?;
    for place in 0..=MOST_COMMITS {
        let Some(name) = queue.get(place) else {
            return Ok(Above::Whole(walk));
        };
        if is_chain && name == *known {
            walk.reverse();
            return Ok(Above::Chain(walk));
        }
        let met = step(alloc, disk, folder, &mut queue, &name)?;
        is_chain = is_chain && met.parents.len() == 1;
        walk.push(met)?;
    }
    Err(WalkStop::Fault(WalkFault::TooMany))
}
