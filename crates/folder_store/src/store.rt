//! A store over real folders.
ghost use Rattle.std.specs.Prelude.{◌≡◌, ◌↔◌, Ok, IfOk, IfErr, IsErr, OnErr, IsErrOf, IsErrAnd, IsTrue};
ghost use Rattle.gb_store.specs.Counts.{raised};
ghost use Rattle.gb_store.specs.Faults.{KeepsFaults};
ghost use Rattle.gb_store.specs.ObjectPath.{reads_after};

use crate::claim::Claim;
use crate::failure::Failure;
use crate::folders::Folders;
use crate::lock::Locking;
use gb_store::{Content, Store, StoreFault, is_object_path};
use gb_text::{List, Text};
use std::alloc::Global;
use std::marker::Model;

/// The files below the folders that the words name, by their paths from the folder in which the program runs. It tells no
/// content. Only plain files stand in it: a folder or a link at a path, or a path below a plain file, reads as absent.
#[derive(Drop)]
pub struct FolderStore<R: Locking + AllocGlobal + Clone + Drop> {
    rt: R,
    folders: Folders,
    faults: u64,
    reads: u64,
    failure: Option<Failure>,
}

impl<R: Locking + AllocGlobal + Clone + Drop> Model for FolderStore<R> {
    ghost use Rattle.folder_store.specs.FolderState.{FolderState};

    ghost Value = { FolderState };

    ghost view = { λ s. record { faults = s.faults; reads = s.reads } };
}

impl<R: Locking + AllocGlobal + Clone + Drop> FolderStore<R> {
    ghost use Rattle.std.specs.Prelude.{false};
    ghost use Rattle.folder_store.specs.FolderState.{fault_count};

    /// The store over the folders that are claimed, which has failed and read 0 times. Takes no memory.
    pub fn new(rt: R, claims: Vec<Claim>) -> FolderStore<R>
        ensures { result ≡ record { faults = 0; reads = 0 } }
    {
        let folders = Folders::new(rt.alloc(), claims);
        FolderStore {
            rt,
            folders,
            faults: 0,
            reads: 0,
            failure: None,
        }
    }

    /// Ends the work in the folders. Those that were made for this run and have stayed empty go.
    pub fn leave(&mut self)
        ensures { self.new ≡ self.old }
    {
        self.folders.leave(&self.rt);
    }

    /// How often it has failed.
    pub fn faults(&self) -> u64
        ensures { result ≡ self.now.faults }
    {
        self.faults
    }

    /// How often a path of an object was read.
    pub fn reads(&self) -> u64
        ensures { result ≡ self.now.reads }
    {
        self.reads
    }

    /// The first call of the system that failed, for people: nothing is decided by it.
    pub fn failure(&self) -> Option<&Failure> {
        self.failure.as_ref()
    }

    // The answer to what the system did, and a failure counted. The first one is kept.
    fn settle<T: Drop>(&mut self, done: Result<T, Failure>) -> Result<T, StoreFault>
        ensures ok { IfOk done (λ value. result ≡ Ok value) }
        ensures err { OnErr done (IsErr result) }
        ensures memory { IsErrOf result StoreFault.Memory ↔ IsErrAnd done (λ e.
            IsTrue e.is_out_of_memory) }
        ensures kept { ¬ IsErrOf result StoreFault.Failed → self.new ≡ self.old }
        ensures reads { self.new.reads ≡ self.old.reads }
        ensures caused { KeepsFaults (λ _. false) fault_count
            (IsErrOf result StoreFault.Failed) self.old self.new }
    {
        match done {
            Ok(value) => Ok(value),
            Err(e) if e.is_out_of_memory => Err(StoreFault::Memory),
            Err(e) => {
                let faults = self.faults;
                self.faults = faults.saturating_add(1);
                if self.failure.is_none() {
                    self.failure = Some(e);
                }
                Err(StoreFault::Failed)
            }
        }
    }
}

impl<R: Locking + AllocGlobal + Clone + Drop> Store for FolderStore<R> {
    ghost use Rattle.std.specs.Prelude.{[], false};

    ghost tells = { false };

    ghost history = { λ _. [] };

    ghost faults = { λ s. s.faults };

    ghost object_reads = { λ s. s.reads };

    ghost never_fails = { λ _. false };

    fn read(&mut self, alloc: Global, path: &str, limit: u64) -> Result<Content, StoreFault> {
        let is_object = is_object_path(path);
        if is_object {
            let reads = self.reads;
            self.reads = reads.saturating_add(1);
        }
        let content = self.folders.read(&self.rt, alloc, path, is_object, limit);
        self.settle(content)
    }

    fn list(&mut self, alloc: Global, dir: &str) -> Result<List<Text>, StoreFault> {
        let names = self.folders.list(&self.rt, alloc, dir);
        Ok(List::from_vec(self.settle(names)?))
    }

    fn put(&mut self, alloc: Global, path: &str, bytes: &[u8]) -> Result<(), StoreFault> {
        let done = self.folders.put(&self.rt, alloc, path, bytes);
        self.settle(done)
    }

    fn remove(&mut self, alloc: Global, path: &str) -> Result<(), StoreFault> {
        let done = self.folders.remove(&self.rt, alloc, path);
        self.settle(done)
    }
}
