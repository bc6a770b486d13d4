//! The steps of a copy: the deepest open object has its needs met, and then is put.
ghost use Rattle.std.specs.Prelude.{◌≡◌, ◌<◌, ℕ, IsTrue, IsErrOf, OnOk, length};
ghost use Rattle.gb_text.specs.Overlap.{Overlap};
ghost use Rattle.gb_text.specs.declared.id.Name.{Name};
ghost use Rattle.gb_store.specs.Faults.{KeepsFaults};
ghost use Rattle.object_store.specs.Held.{Objects, objects_after};
ghost use Rattle.remote_copy.specs.Copies.{AreRead, StepReads};
ghost use Rattle.remote_copy.specs.Copying.{IsCopying, Steps};
ghost use Rattle.remote_copy.specs.Work.{AddAnswers, Advances, DescendAnswers, EnterAnswers, Finishes, IsNew, IsShortOfMemory, SameCounts, ring_fault, weight_of};

use crate::fault::CopyFault;
use crate::index::{Index, Mark};
use crate::look::put_at;
use crate::need::Need;
use crate::open::{MOST_TREES, Open, begin};
use commit_walk::MOST_COMMITS;
use gb_store::Store;
use gb_text::Folder;
use git_object::Kind;
use std::alloc::Global;

/// The most other objects that a copy follows, beside the most commits of a walk.
pub const MOST_OTHERS: usize = 1_048_576;

/// A copy on its way.
#[derive(Drop)]
pub struct Work {
    pub index: Index,
    /// The open objects, each named by the one before it.
    pub stack: Vec<Open>,
    /// How many commits were opened.
    pub commits: usize,
    /// How many other objects were opened.
    pub others: usize,
    /// How many objects were put.
    pub put: u64,
}

impl Work {
    /// Nothing was done.
    pub fn new(alloc: Global) -> Work
        ensures { IsNew result }
    {
        Work {
            index: Index::new(alloc),
            stack: Vec::new(alloc),
            commits: 0,
            others: 0,
            put: 0,
        }
    }

    // Puts an object back on the stack, of which one more need is done.
    fn advance(&mut self, mut item: Open) -> Result<(), CopyFault>
        requires { item.next < length item.needs.items }
        ensures advances { OnOk result (Advances self.old item self.new) }
        ensures stopped { IsShortOfMemory result }
    {
        item.next += 1;
        self.stack.push(item)?;
        Ok(())
    }

    // Puts an object on the stack that was not met before.
    fn add(&mut self, item: Open) -> Result<(), CopyFault>
        ensures { AddAnswers self.old item self.new result }
    {
        match item.need.kind {
            Kind::Commit if self.commits >= MOST_COMMITS => {
                return Err(CopyFault::TooLarge(MOST_COMMITS as u64 + 1));
            }
            Kind::Commit => self.commits += 1,
            _ if self.others >= MOST_OTHERS => {
                return Err(CopyFault::TooLarge(MOST_OTHERS as u64 + 1));
            }
            _ => self.others += 1,
        }
        self.index.set(&item.need, Mark::Open)?;
        self.stack.push(item)?;
        Ok(())
    }

    /// A head was opened, or is left.
    pub fn enter(&mut self, head: Need, found: Option<Open>) -> Result<(), CopyFault>
        ensures { EnterAnswers self.old head found self.new result }
    {
        match found {
            Some(item) => self.add(item),
            None => Ok(self.index.set(&head, Mark::Done(0))?),
        }
    }

    // What the deepest open object names was opened, or is left.
    fn descend(&mut self, top: Open, need: Need, found: Option<Open>) -> Result<(), CopyFault>
        requires { top.next < length top.needs.items }
        ensures { DescendAnswers self.old top need found self.new result }
    {
        if let Some(item) = found {
            self.stack.push(top)?;
            return self.add(item);
        }
        self.index.set(&need, Mark::Done(0))?;
        self.advance(top)
    }
}

/// One step, where an object is open.
pub fn step<S: Store>(
    alloc: Global,
    disk: &mut S,
    source: &Folder,
    target: &Folder,
    closed: bool,
    work: &mut Work,
) -> Result<(), CopyFault>
    requires { Overlap source.now target.now → ⊥ }
    ensures falls { OnOk result
        (0 < length work.old.stack.items → weight_of work.new < weight_of work.old) }
    ensures steps { IsTrue S.tells → (entry : Objects) (head : Name)
        → IsCopying closed (objects_after (S.history disk.old) source.now) entry
        (objects_after (S.history disk.old) target.now) head work.old work.old.stack.items
        → Steps closed source.now target.now entry head
        (S.history disk.old) (S.history disk.new) work.old work.new result }
    ensures reads { IsTrue S.tells → (entry : Objects) (head : Name) (before : ℕ)
        → IsCopying closed (objects_after (S.history disk.old) source.now) entry
        (objects_after (S.history disk.old) target.now) head work.old work.old.stack.items
        → AreRead closed (objects_after (S.history disk.old) source.now) entry head
        work.old.index before (S.object_reads disk.old)
        → StepReads closed (objects_after (S.history disk.old) source.now) entry head
        work.new.index before (S.object_reads disk.new) result }
    ensures caused { KeepsFaults S.never_fails S.faults (IsErrOf result CopyFault.Disk)
        disk.old disk.new }
{
    let Some(top) = work.stack.pop() else {
        return Ok(());
    };
    let Some(need) = top.upcoming() else {
        return finish(alloc, disk, target, work, top);
    };
    match work.index.get(&need) {
        Some(Mark::Done(_)) => work.advance(top),
        Some(Mark::Open) => Err(ring(&need)),
        None if work.index.was_opened(&need.name) => Err(CopyFault::WrongKind(need.name)),
        None => {
            let found = begin(alloc, disk, source, target, closed, need)?;
            work.descend(top, need, found)
        }
    }
}

// What it is to name an open object: it lies below itself.
fn ring(need: &Need) -> CopyFault
    ensures { result ≡ ring_fault need.now }
{
    match need.kind {
        Kind::Commit => CopyFault::Ring(need.name),
        _ => CopyFault::TooLarge(MOST_TREES as u64 + 1),
    }
}

// Puts an object, all of whose needs are done.
fn finish<S: Store>(
    alloc: Global,
    disk: &mut S,
    target: &Folder,
    work: &mut Work,
    top: Open,
) -> Result<(), CopyFault>
    ensures finishes { IsTrue S.tells → Finishes target.now (S.history disk.old)
        (S.history disk.new) work.old top work.new result }
    ensures stack { OnOk result (work.new.stack.items ≡ work.old.stack.items) }
    ensures counts { OnOk result (SameCounts work.old work.new) }
    ensures reads { S.object_reads disk.new ≡ S.object_reads disk.old }
    ensures caused { KeepsFaults S.never_fails S.faults (IsErrOf result CopyFault.Disk)
        disk.old disk.new }
{
    let height = match top.need.kind {
        Kind::Tree => work.index.height(&top.needs),
        _ => 0,
    };
    if height > MOST_TREES {
        return Err(CopyFault::TooLarge(MOST_TREES as u64 + 1));
    }
    if !top.stands {
        put_at(alloc, disk, target, &top.need.name, top.text.as_slice())?;
        work.put = work.put.saturating_add(1);
    }
    Ok(work.index.set(&top.need, Mark::Done(height))?)
}
