//! What lies below some names, as far as it was followed, whatever is wrong there.
ghost use Rattle.std.specs.Prelude.{◌≡◌, ◌≤◌, ◌+◌, ◌++◌, ◌∷◌, [], None, IsTrue, IfOk, IsErrOf, OnOk, List, Contains, length, ◌↔◌};
ghost use Rattle.gb_store.specs.Faults.{KeepsFaults};
ghost use Rattle.gb_text.specs.declared.id.Name.{Name as NameValue};
ghost use Rattle.object_store.specs.Held.{objects_after};
ghost use Rattle.commit_walk.specs.Queues.{IsQueue};
ghost use Rattle.commit_walk.specs.Reaches.{IsReach, IsSought, IsSoughtIn, Reached, ReadsKnown, Turned, TurnedIn, WholeAnswers, known};
ghost use Rattle.commit_walk.specs.Searches.{ReadsUntil};

use crate::below::{MOST_COMMITS, Met, meet};
use crate::fault::{WalkFault, WalkStop};
use crate::queue::Queue;
use gb_store::{Store, StoreFault};
use gb_text::{Folder, Name};
use std::alloc::Global;

/// What was found below some names: the names that are known, those of them that hold commits, and a
/// fault of one that doesn't, if there is one. A name that holds no commit leads nowhere.
#[derive(Drop)]
pub struct Reach {
    pub queue: Queue,
    pub walk: Vec<Met>,
    pub wrong: Option<WalkFault>,
}

impl Reach {
    /// What a head leads to, as far as the sought name: nothing is read once that is known.
    pub fn seek<S: Store>(
        alloc: Global,
        disk: &mut S,
        folder: &Folder,
        head: &Name,
        sought: &Name,
    ) -> Result<Reach, StoreFault>
        ensures queue { IfOk result (λ reach. IsQueue reach.queue) }
        ensures reach { IfOk result (IsSought head.now sought.now) }
        ensures answers { IsTrue S.tells → IfOk result
            (IsSoughtIn (objects_after (S.history disk.old) folder.now) head.now sought.now) }
        ensures unwritten { IsTrue S.tells → S.history disk.new ≡ S.history disk.old }
        ensures reads { IfOk result (λ reach. S.object_reads disk.new
            ≤ S.object_reads disk.old + length (known reach)) }
        ensures until { IsTrue S.tells
            → ReadsUntil (objects_after (S.history disk.old) folder.now) head.now sought.now
            (S.object_reads disk.old) (S.object_reads disk.new) }
        ensures caused { KeepsFaults S.never_fails S.faults (IsErrOf result StoreFault.Failed)
            disk.old disk.new }
    {
        let mut reach = Reach::new(alloc);
        reach.queue.add(&[*head])?;
        for place in 0..usize::MAX {
            if reach.leads_to(sought) {
                return Ok(reach);
            }
            let Some(name) = reach.queue.get(place) else {
                return Ok(reach);
            };
            reach.turn(alloc, disk, folder, &name)?;
        }
        Err(StoreFault::Memory)
    }

    // Nothing is known.
    fn new(alloc: Global) -> Reach
        ensures queue { IsQueue result.queue }
        ensures names { result.queue.names.items ≡ [] }
        ensures walk { result.walk.items ≡ [] }
        ensures wrong { result.wrong ≡ None }
    {
        Reach {
            queue: Queue::new(alloc),
            walk: Vec::new(alloc),
            wrong: None,
        }
    }

    /// Adds a head and all that it leads to, where what is known was followed.
    pub fn follow<S: Store>(
        &mut self,
        alloc: Global,
        disk: &mut S,
        folder: &Folder,
        head: &Name,
    ) -> Result<(), StoreFault>
        requires { IsQueue self.old.queue }
        ensures queue { OnOk result (IsQueue self.new.queue) }
        ensures reach { (tops : List NameValue) → IsReach tops self.old
            (length self.old.queue.names.items) → OnOk result
            (IsReach (tops ++ head.now ∷ []) self.new (length self.new.queue.names.items)) }
        ensures reached { IsTrue S.tells → (tops : List NameValue)
            → Reached (objects_after (S.history disk.old) folder.now) tops self.old
            (length self.old.queue.names.items) → OnOk result
            (Reached (objects_after (S.history disk.old) folder.now) (tops ++ head.now ∷ [])
            self.new (length self.new.queue.names.items)) }
        ensures unwritten { IsTrue S.tells → S.history disk.new ≡ S.history disk.old }
        ensures reads { OnOk result
            (S.object_reads disk.new + length self.old.queue.names.items
            ≤ S.object_reads disk.old + length self.new.queue.names.items) }
        ensures each { IsTrue S.tells → (tops : List NameValue)
            → Reached (objects_after (S.history disk.old) folder.now) tops self.old
            (length self.old.queue.names.items)
            → ReadsKnown (objects_after (S.history disk.old) folder.now)
            (tops ++ head.now ∷ []) (length self.old.queue.names.items)
            (S.object_reads disk.old) (S.object_reads disk.new) }
        ensures caused { KeepsFaults S.never_fails S.faults (IsErrOf result StoreFault.Failed)
            disk.old disk.new }
    {
        let start = self.queue.names.len();
        self.queue.add(&[*head])?;
        for place in start..usize::MAX {
            let Some(name) = self.queue.get(place) else {
                return Ok(());
            };
            self.turn(alloc, disk, folder, &name)?;
        }
        Err(StoreFault::Memory)
    }

    // Reads a name that is known.
    fn turn<S: Store>(
        &mut self,
        alloc: Global,
        disk: &mut S,
        folder: &Folder,
        name: &Name,
    ) -> Result<(), StoreFault>
        requires { IsQueue self.old.queue }
        ensures queue { OnOk result (IsQueue self.new.queue) }
        ensures turned { OnOk result (Turned self.old self.new name.now) }
        ensures answers { IsTrue S.tells → OnOk result
            (TurnedIn (objects_after (S.history disk.old) folder.now) self.old self.new
            name.now) }
        ensures unwritten { IsTrue S.tells → S.history disk.new ≡ S.history disk.old }
        ensures reads { S.object_reads disk.new ≤ S.object_reads disk.old + 1 }
        ensures caused { KeepsFaults S.never_fails S.faults (IsErrOf result StoreFault.Failed)
            disk.old disk.new }
    {
        match meet(alloc, disk, folder, name) {
            Ok(met) => {
                self.queue.add(met.parents.as_slice())?;
                self.walk.push(met)?;
                Ok(())
            }
            Err(WalkStop::Fault(fault)) => {
                self.wrong = Some(fault);
                Ok(())
            }
            Err(WalkStop::Memory) => Err(StoreFault::Memory),
            Err(WalkStop::Disk) => Err(StoreFault::Failed),
        }
    }

    /// Whether a name is known.
    pub fn leads_to(&self, name: &Name) -> bool
        requires { IsQueue self.now.queue }
        ensures { IsTrue result ↔ Contains self.now.queue.names.items name.now }
    {
        self.queue.known.contains(name)
    }

    /// All commits that were found, if each name that is known holds one and they are not too many.
    pub fn whole(self) -> Result<Vec<Met>, WalkStop>
        ensures { WholeAnswers self result }
    {
        if let Some(fault) = self.wrong {
            return Err(WalkStop::Fault(fault));
        }
        if self.walk.len() > MOST_COMMITS {
            return Err(WalkStop::Fault(WalkFault::TooMany));
        }
        Ok(self.walk)
    }
}
