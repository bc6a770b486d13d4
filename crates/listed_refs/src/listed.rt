//! A side with its refs as they were listed.
ghost use Rattle.std.specs.Cmp.Lexicographic.{slice_cmp};
ghost use Rattle.std.specs.Ordering.{nat_cmp};
ghost use Rattle.std.specs.Prelude.{◌≡◌};

use gb_store::{Store, StoreFault};
use gb_text::{Folder, Id, List, Name};
use repo_state::{EntityRef, ReadStop, Side, all_refs, whole};
use std::alloc::Global;
use std::cmp::Ordering;

/// A side of a folder, and its refs in the order of ids. What they say of an id holds for as long as the
/// ref of that id stands as it was listed.
#[derive(Drop)]
pub struct ListedSide {
    pub side: Side,
    pub refs: List<EntityRef>,
}

impl ListedSide {
    ghost use Rattle.std.specs.Prelude.{List as Items, ℕ, IsTrue, IsErrOf, IfOk, Ok};
    ghost use Rattle.gb_store.specs.Faults.{KeepsFaults};
    ghost use Rattle.gb_store.specs.Files.{Files, files_of};
    ghost use Rattle.listed_refs.specs.AsListed.{IsAsListed};
    ghost use Rattle.repo_state.specs.Answers.{EntityAnswers, IsHeadAt, Reads};
    ghost use Rattle.repo_state.specs.Listed.{AreRefs};
    ghost use Rattle.repo_state.specs.Sides.{IsBadRef};

    /// The side with the refs that stand there.
    pub fn list<S: Store>(
        alloc: Global,
        disk: &mut S,
        folder: &Folder,
        side: Side,
    ) -> Result<ListedSide, StoreFault>
        ensures side { IfOk result (λ listed. listed.side ≡ side) }
        ensures refs { IsTrue S.tells → IfOk result (λ listed.
            AreRefs (files_of (S.history disk.old)) folder.now side listed.refs) }
        ensures unwritten { IsTrue S.tells → S.history disk.new ≡ S.history disk.old }
        ensures reads { S.object_reads disk.new ≡ S.object_reads disk.old }
        ensures caused { KeepsFaults S.never_fails S.faults (IsErrOf result StoreFault.Failed)
            disk.old disk.new }
    {
        let refs = all_refs(alloc, disk, folder, &side)?;
        Ok(ListedSide { side, refs })
    }

    /// The ref of an id, if one stands. Nothing is read of the disk.
    pub fn entity(&self, id: &Id) -> Option<EntityRef>
        ensures { (files : Files) (folder : Items ℕ) → IsAsListed files folder self.now id.now
            → EntityAnswers files folder self.now.side id.now (Ok result) }
    {
        let refs = self.refs.as_slice();
        match refs.binary_search_by(|entry| order(&entry.id, id)) {
            Ok(place) => Some(refs[place]),
            Err(_) => None,
        }
    }

    /// The head of an id. None exactly where no ref of it stands; `Damaged`, with the path of the ref in
    /// this folder, exactly where that is no ref text. Nothing is read of the disk.
    pub fn head(&self, alloc: Global, folder: &Folder, id: &Id) -> Result<Option<Name>, ReadStop>
        ensures answers { (files : Files) → IsAsListed files folder.now self.now id.now
            → Reads (IsHeadAt files folder.now self.now.side id.now)
            (IsBadRef files folder.now self.now.side id.now) result }
        ensures no_disk { IsErrOf result ReadStop.Disk → ⊥ }
    {
        match self.entity(id) {
            Some(entity) => Ok(Some(whole(alloc, folder, &self.side, &entity)?.name)),
            None => Ok(None),
        }
    }
}

// How an id stands to another in the order of their bytes.
fn order(one: &Id, other: &Id) -> Ordering
    ensures { result ≡ slice_cmp nat_cmp one.now.bytes other.now.bytes }
{
    one.cmp(other)
}
