//! The refs of an exchange, each read once.
ghost use Rattle.std.specs.Prelude.{◌≡◌, IsTrue, IsErrOf, IfOk};
ghost use Rattle.gb_store.specs.Faults.{KeepsFaults};
ghost use Rattle.gb_store.specs.Files.{files_of};
ghost use Rattle.repo_sync.specs.Listing.{IsListing};

use gb_store::{Store, StoreFault};
use gb_text::{Folder, List};
use listed_refs::ListedSide;
use repo_state::{EntityRef, Side, all_refs};
use std::alloc::Global;

/// The local refs of the folder from which an exchange copies, and the sides of the other folder that it
/// sets.
#[derive(Drop)]
pub struct Listing {
    pub people: List<EntityRef>,
    pub bugs: List<EntityRef>,
    pub people_there: ListedSide,
    pub bugs_there: ListedSide,
}

/// The refs of an exchange from one folder to another, whose sides are given.
pub fn list_refs<S: Store>(
    alloc: Global,
    disk: &mut S,
    source: &Folder,
    target: &Folder,
    people_side: Side,
    bugs_side: Side,
) -> Result<Listing, StoreFault>
    ensures answers { IsTrue S.tells → IfOk result
        (IsListing (files_of (S.history disk.old)) source.now target.now people_side bugs_side) }
    ensures unwritten { IsTrue S.tells → S.history disk.new ≡ S.history disk.old }
    ensures reads { S.object_reads disk.new ≡ S.object_reads disk.old }
    ensures caused { KeepsFaults S.never_fails S.faults (IsErrOf result StoreFault.Failed)
        disk.old disk.new }
{
    Ok(Listing {
        people: all_refs(alloc, disk, source, &Side::Identities)?,
        bugs: all_refs(alloc, disk, source, &Side::Bugs)?,
        people_there: ListedSide::list(alloc, disk, target, people_side)?,
        bugs_there: ListedSide::list(alloc, disk, target, bugs_side)?,
    })
}
