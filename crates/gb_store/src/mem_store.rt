//! A store in memory: a list of writes, and an index of it by path.
ghost use Rattle.std.specs.Prelude.{◌≡◌, length, IfOk, OnOk, OnErr, IsErrOf, IsSome};
ghost use Rattle.std.specs.Option.{option_copied};
ghost use Rattle.gb_store.specs.Counts.{raised};
ghost use Rattle.gb_store.specs.Faults.{KeepsFaults};
ghost use Rattle.gb_store.specs.Files.{file_at, files_of, TellsFile, IsListing};
ghost use Rattle.gb_store.specs.MemStore.{fail_at};

use crate::mem_index::{append, find, index_of, names};
use crate::object_path::is_object_path;
use crate::{Change, Content, Store, StoreFault};
use gb_text::{Bytes, List, Memory, Text};
use std::alloc::Global;
use std::collections::BTreeMap;
use std::marker::Model;

/// A call that fails: its number, counted from 0 over calls of all four kinds, and whether its
/// write is made first.
#[derive(Clone, Copy, Debug, PartialEq, Eq)]
pub struct Fail {
    pub call: u64,
    pub after: bool,
}

/// A store that keeps its writes in memory, and fails at the calls that it is told to. Its numbers
/// stand still at 2^64 - 1.
#[derive(Drop)]
pub struct MemStore {
    // the oldest first
    changes: Vec<Change>,
    // where in `changes` the last write of each path is
    latest: BTreeMap<String, usize>,
    fails: List<Fail>,
    calls: u64,
    faults: u64,
    reads: u64,
}

impl Model for MemStore {
    ghost use Rattle.std.specs.Prelude.{reverse};
    ghost use Rattle.gb_store.specs.MemStore.{MemState};

    ghost Value = { MemState };

    ghost use Rattle.gb_store.specs.MemIndex.{IsIndex};

    ghost view = { λ s. record {
      history = reverse s.changes.items;
      fails = s.fails;
      calls = s.calls;
      faults = s.faults;
      reads = s.reads;
    } };

    ghost invariant = { λ s. IsIndex s.latest s.changes.items };
}

impl MemStore {
    ghost use Rattle.gb_store.specs.MemStore.{WriteAnswers, empty_store, next_fail, after_call, with_write, cut_to, has_no_fails, fault_count};

    /// An empty store, whose listed calls fail; of two entries for one call the first decides.
    /// Takes no memory.
    pub fn new(alloc: Global, fails: List<Fail>) -> MemStore
        ensures { result ≡ empty_store fails }
    {
        MemStore {
            changes: Vec::new(alloc),
            latest: BTreeMap::new(alloc),
            fails,
            calls: 0,
            faults: 0,
            reads: 0,
        }
    }

    /// How many calls were listed.
    pub fn faults(&self) -> u64
        ensures { result ≡ self.now.faults }
    {
        self.faults
    }

    /// How many calls of `read` had the path of an object.
    pub fn reads(&self) -> u64
        ensures { result ≡ self.now.reads }
    {
        self.reads
    }

    /// How many writes there are.
    pub fn writes(&self) -> u64
        ensures { result ≡ length self.now.history }
    {
        self.changes.len() as u64
    }

    /// Keeps the first `count` writes, all where there are fewer, and the counts. At want of memory
    /// nothing has changed.
    pub fn cut(&mut self, alloc: Global, count: u64) -> Result<(), Memory>
        ensures ok { OnOk result (self.new ≡ cut_to count self.old) }
        ensures err { OnErr result (self.new ≡ self.old) }
    {
        let count = count as usize;
        if count >= self.changes.len() {
            return Ok(());
        }
        let latest = index_of(alloc, &self.changes[..count])?;
        self.changes.truncate(count);
        self.latest = latest;
        Ok(())
    }

    // Counts a call, and a fault if it is listed. Answers whether its write is to be made, if it
    // is.
    fn begin(&mut self) -> Option<bool>
        ensures fail { result ≡ next_fail self.old }
        ensures state { self.new ≡ after_call self.old }
        ensures caused { KeepsFaults has_no_fails fault_count (IsSome result) self.old self.new }
    {
        let call = self.calls;
        let faults = self.faults;
        let fail = find_fail(self.fails.as_slice(), call);
        self.calls = call.saturating_add(1);
        if fail.is_some() {
            self.faults = faults.saturating_add(1);
        }
        fail
    }

    // What stands at a path.
    fn content(&self, alloc: Global, path: &str, limit: u64) -> Result<Content, Memory>
        ensures { IfOk result (TellsFile (file_at self.now.history path.now) limit) }
    {
        find(alloc, &self.changes, &self.latest, path, limit)
    }

    // The names right in a folder.
    fn listing(&self, alloc: Global, dir: &str) -> Result<Vec<Text>, Memory>
        ensures { IfOk result (λ names. IsListing (files_of self.now.history) dir.now names.items) }
    {
        names(alloc, &self.changes, &self.latest, dir)
    }

    // Counts an object read.
    fn count_read(&mut self)
        ensures { self.new ≡ record self.old { reads = raised self.old.reads } }
    {
        self.reads = self.reads.saturating_add(1);
    }

    // Counts a call and makes its write, as the list of failures has it.
    fn write(&mut self, alloc: Global, path: &str, bytes: Option<&[u8]>) -> Result<(), StoreFault>
        ensures exact { WriteAnswers (record { path = path.now; bytes = option_copied bytes.entry })
            self.old self.new result }
        ensures caused { KeepsFaults has_no_fails fault_count (IsErrOf result StoreFault.Failed)
            self.old self.new }
    {
        let faults = self.faults;
        let fail = self.begin();
        if fail == Some(false) {
            return Err(StoreFault::Failed);
        }
        if let Err(memory) = self.add(alloc, path, bytes) {
            self.faults = faults;
            return Err(memory.into());
        }
        match fail {
            Some(_) => Err(StoreFault::Failed),
            None => Ok(()),
        }
    }

    // Adds a write.
    fn add(&mut self, alloc: Global, path: &str, bytes: Option<&[u8]>) -> Result<(), Memory>
        ensures ok { OnOk result (self.new
            ≡ with_write (record { path = path.now; bytes = option_copied bytes.entry }) self.old) }
        ensures err { OnErr result (self.new ≡ self.old) }
    {
        let key = String::from_str(alloc, path)?;
        let change = Change {
            path: Text::from_str(alloc, path)?,
            bytes: copied(alloc, bytes)?,
        };
        append(&mut self.changes, &mut self.latest, key, change)
    }
}

impl Store for MemStore {
    ghost use Rattle.std.specs.Prelude.{true};
    ghost use Rattle.gb_store.specs.Files.{IsWithin, Put, Removed};
    ghost use Rattle.gb_store.specs.MemStore.{after_call, after_read, ReadAnswers, WriteAnswers, has_no_fails, fault_count};

    ghost tells = { true };

    ghost history = { λ s. s.history };

    ghost faults = { fault_count };

    ghost object_reads = { λ s. s.reads };

    ghost never_fails = { has_no_fails };

    fn read(&mut self, alloc: Global, path: &str, limit: u64) -> Result<Content, StoreFault>
        ensures state { self.new ≡ after_read path.now self.old }
        ensures answer { ReadAnswers self.old result
            (λ content. TellsFile (file_at self.old.history path.now) limit content) }
        ensures within { IfOk result (IsWithin limit) }
        ensures caused { KeepsFaults has_no_fails fault_count (IsErrOf result StoreFault.Failed)
            self.old self.new }
    {
        if is_object_path(path) {
            self.count_read();
        }
        if self.begin().is_some() {
            return Err(StoreFault::Failed);
        }
        Ok(self.content(alloc, path, limit)?)
    }

    fn list(&mut self, alloc: Global, dir: &str) -> Result<List<Text>, StoreFault>
        ensures state { self.new ≡ after_call self.old }
        ensures answer { ReadAnswers self.old result
            (λ names. IsListing (files_of self.old.history) dir.now names) }
        ensures caused { KeepsFaults has_no_fails fault_count (IsErrOf result StoreFault.Failed)
            self.old self.new }
    {
        if self.begin().is_some() {
            return Err(StoreFault::Failed);
        }
        Ok(List::from_vec(self.listing(alloc, dir)?))
    }

    fn put(&mut self, alloc: Global, path: &str, bytes: &[u8]) -> Result<(), StoreFault>
        ensures exact { WriteAnswers (Put path.now bytes.now) self.old self.new result }
        ensures caused { KeepsFaults has_no_fails fault_count (IsErrOf result StoreFault.Failed)
            self.old self.new }
    {
        self.write(alloc, path, Some(bytes))
    }

    fn remove(&mut self, alloc: Global, path: &str) -> Result<(), StoreFault>
        ensures exact { WriteAnswers (Removed path.now) self.old self.new result }
        ensures caused { KeepsFaults has_no_fails fault_count (IsErrOf result StoreFault.Failed)
            self.old self.new }
    {
        self.write(alloc, path, None)
    }
}

// What the first entry for a call says.
fn find_fail(fails: &[Fail], call: u64) -> Option<bool>
    ensures { result ≡ fail_at call fails.now }
{
    let found = fails.iter().find(|f| f.call == call)?;
    Some(found.after)
}

// A copy of some bytes, if there are any.
fn copied(alloc: Global, bytes: Option<&[u8]>) -> Result<Option<Bytes>, Memory>
    ensures { IfOk result (λ copy. copy ≡ option_copied bytes.entry) }
{
    match bytes {
        Some(bytes) => Ok(Some(Bytes::from_slice(alloc, bytes)?)),
        None => Ok(None),
    }
}
