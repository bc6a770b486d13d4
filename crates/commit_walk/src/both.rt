//! How two names lie to each other, and the walk below two heads.
ghost use Rattle.std.specs.Prelude.{◌≡◌, ◌≤◌, ◌+◌, ◌∷◌, [], IsTrue, IfOk, IsErrOf, length};
ghost use Rattle.gb_store.specs.Faults.{KeepsFaults};
ghost use Rattle.object_store.specs.Held.{objects_after};
ghost use Rattle.commit_walk.specs.Answers.{ReadsBelow};
ghost use Rattle.commit_walk.specs.Below.{IsClosed};
ghost use Rattle.commit_walk.specs.Both.{BothAnswers, IfLies, IfWalk, IsKnownEqual, LiesAnswers};
ghost use Rattle.commit_walk.specs.Searches.{ReadsUntil};

use crate::below::{MOST_COMMITS, Met};
use crate::fault::WalkStop;
use crate::reach::Reach;
use gb_store::{Store, StoreFault};
use gb_text::{Folder, Name};
use std::alloc::Global;

/// What lies below two heads.
#[derive(Drop)]
pub enum Both {
    /// The second head is the first.
    Equal,
    /// The second head is another, and lies below the first.
    Below,
    /// The second head does not lie below the first: all commits below both, each once.
    Walk(Vec<Met>),
}

/// Whether the second head lies below the first, whatever is wrong there and however many commits
/// lie there; and where it doesn't, all commits below both. Each name is read once. Equal heads read
/// nothing, and nothing is read once the second head is met below the first.
pub fn walk_both<S: Store>(
    alloc: Global,
    disk: &mut S,
    folder: &Folder,
    first: &Name,
    second: &Name,
) -> Result<Both, WalkStop>
    ensures answers { IsTrue S.tells
        → BothAnswers (objects_after (S.history disk.old) folder.now) first.now second.now
        result }
    ensures equal { first.now ≡ second.now
        → IsKnownEqual result (S.object_reads disk.old) (S.object_reads disk.new) }
    ensures closed { IfWalk result (λ walk. IsClosed (first.now ∷ second.now ∷ []) walk) }
    ensures few { IfWalk result (λ walk. length walk ≤ MOST_COMMITS) }
    ensures unwritten { IsTrue S.tells → S.history disk.new ≡ S.history disk.old }
    ensures once { IfWalk result (λ walk. S.object_reads disk.new
        ≤ S.object_reads disk.old + length walk) }
    ensures each { IsTrue S.tells
        → ReadsBelow (objects_after (S.history disk.old) folder.now)
        (first.now ∷ second.now ∷ []) (S.object_reads disk.old) (S.object_reads disk.new) }
    ensures until { IsTrue S.tells → IfLies result
        (ReadsUntil (objects_after (S.history disk.old) folder.now) first.now second.now
        (S.object_reads disk.old) (S.object_reads disk.new)) }
    ensures caused { KeepsFaults S.never_fails S.faults (IsErrOf result WalkStop.Disk)
        disk.old disk.new }
{
    if *first == *second {
        return Ok(Both::Equal);
    }
    let mut reach = Reach::seek(alloc, disk, folder, first, second)?;
    if reach.leads_to(second) {
        return Ok(Both::Below);
    }
    reach.follow(alloc, disk, folder, second)?;
    let walk = reach.whole()?;
    Ok(Both::Walk(walk))
}

/// Whether the low name is the high one or lies below it, whatever is wrong there and however many
/// commits lie there. Each name is read at most once, and nothing is read once the low name is met.
pub fn lies_below<S: Store>(
    alloc: Global,
    disk: &mut S,
    folder: &Folder,
    high: &Name,
    low: &Name,
) -> Result<bool, StoreFault>
    ensures answers { IsTrue S.tells → IfOk result
        (LiesAnswers (objects_after (S.history disk.old) folder.now) high.now low.now) }
    ensures unwritten { IsTrue S.tells → S.history disk.new ≡ S.history disk.old }
    ensures until { IsTrue S.tells
        → ReadsUntil (objects_after (S.history disk.old) folder.now) high.now low.now
        (S.object_reads disk.old) (S.object_reads disk.new) }
    ensures each { IsTrue S.tells
        → ReadsBelow (objects_after (S.history disk.old) folder.now) (high.now ∷ [])
        (S.object_reads disk.old) (S.object_reads disk.new) }
    ensures caused { KeepsFaults S.never_fails S.faults (IsErrOf result StoreFault.Failed)
        disk.old disk.new }
{
    let reach = Reach::seek(alloc, disk, folder, high, low)?;
    Ok(reach.leads_to(low))
}
