//! The real folders of a run: what stands in them, and what is put.
ghost use Rattle.std.specs.Prelude.{ℕ, List, IfOk, IfErr, IsFalse};
ghost use Rattle.std.specs.Cmp.Lexicographic.{slice_cmp};
ghost use Rattle.std.specs.List.Sorted.{IsStrictlySortedBy};
ghost use Rattle.std.specs.Ordering.{nat_cmp};
ghost use Rattle.gb_store.specs.Files.{IsWithin};

use crate::claim::{Claim, Purpose};
use crate::disk;
use crate::failure::{Call, Failure, at};
use crate::lock::{Locking, Locks};
use crate::packed::PackedFiles;
use crate::place::{Kind, folder_of, is_packed, is_tracking};
use crate::settled::{Settled, is_commit};
use crate::unsynced::Unsynced;
use crate::ways::Ways;
use gb_store::Content;
use gb_text::{Name, Text, without_line_end};
use std::alloc::Global;
use std::collections::BTreeSet;
use std::io;
use std::io::ErrorKind;
use std::rt::Files;

/// The folders that the words name, and what a run knows of them.
#[derive(Drop)]
pub struct Folders {
    claims: Vec<Claim>,
    locks: Locks,
    ways: Ways,
    unsynced: Unsynced,
    settled: Settled,
    found: BTreeSet<String>,
    packed: PackedFiles,
    exchanges: bool,
    cleaned: BTreeSet<String>,
}

impl Folders {
    /// The folders that are claimed, of which nothing is known. Takes no memory.
    pub fn new(alloc: Global, claims: Vec<Claim>) -> Folders {
        let exchanges = claims.len() > 1;
        Folders {
            claims,
            locks: Locks::none(alloc),
            ways: Ways::new(alloc),
            unsynced: Unsynced::new(alloc),
            settled: Settled::new(alloc),
            found: BTreeSet::new(alloc),
            packed: PackedFiles::none(alloc),
            exchanges,
            cleaned: BTreeSet::new(alloc),
        }
    }

    /// What stands at a path. The caller knows whether the path is that of an object.
    pub fn read<R: Locking>(
        &mut self,
        rt: &R,
        alloc: Global,
        path: &str,
        is_object: bool,
        limit: u64,
    ) -> Result<Content, Failure>
        ensures within { IfOk result (IsWithin limit) }
    {
        self.locks.take(rt, alloc, &self.claims)?;
        let claim = claim_of(alloc, &self.claims, path)?;
        if !self.ways.stands(rt, alloc, claim, folder_of(path))? {
            return Ok(Content::Absent);
        }
        let read = match is_packed(path) {
            true => self.packed.read(rt, alloc, path, limit),
            false => disk::read(rt, alloc, path, limit),
        };
        let content = at(alloc, Call::Read, path, read)?;
        if claim.purpose == Purpose::Write && !is_object && Kind::of(path) == Kind::Other {
            self.note_found(rt, alloc, path, &content)?;
        }
        Ok(content)
    }

    /// The names of the plain files right in a folder.
    pub fn list<R: Locking + AllocGlobal + Clone + Drop>(
        &mut self,
        rt: &R,
        alloc: Global,
        dir: &str,
    ) -> Result<Vec<Text>, Failure>
        ensures { IfOk result (λ names. IsStrictlySortedBy (slice_cmp nat_cmp) names.items) }
    {
        self.locks.take(rt, alloc, &self.claims)?;
        let claim = claim_of(alloc, &self.claims, dir)?;
        if !self.ways.stands(rt, alloc, claim, dir)? {
            return Ok(Vec::new(alloc));
        }
        at(alloc, Call::List, dir, disk::list(rt, alloc, dir))
    }

    /// Puts a file. One that may name objects does not reach the disk before them, and has reached it afterwards.
    pub fn put<R: Locking + AllocGlobal + Clone + Drop>(
        &mut self,
        rt: &R,
        alloc: Global,
        path: &str,
        bytes: &[u8],
    ) -> Result<(), Failure> {
        let kind = Kind::of(path);
        let folder = folder_of(path);
        self.locks.take(rt, alloc, &self.claims)?;
        let claim = claim_of(alloc, &self.claims, path)?;
        self.ways
            .enter(rt, alloc, claim, folder, &mut self.unsynced)?;
        self.clean(rt, alloc, folder)?;
        self.prepare(rt, alloc, kind, path, bytes)?;
        let done = disk::put(rt, alloc, folder, path, bytes, kind != Kind::Object);
        if done.is_err() {
            self.settled.forget(path);
        }
        at(alloc, Call::Write, path, done)?;
        self.sync_written(rt, alloc, kind)
    }

    /// Removes a file. All that was put before has reached the disk. The removal reaches it when the folder is next synced.
    pub fn remove<R: Locking>(&mut self, rt: &R, alloc: Global, path: &str) -> Result<(), Failure> {
        let kind = Kind::of(path);
        let folder = folder_of(path);
        self.locks.take(rt, alloc, &self.claims)?;
        let claim = claim_of(alloc, &self.claims, path)?;
        if !self.ways.stands(rt, alloc, claim, folder)? {
            return Ok(());
        }
        if kind == Kind::Other {
            self.unsynced.add(alloc, folder)?;
        }
        at(alloc, Call::Remove, path, disk::remove(rt, path))
    }

    /// Removes the folders that were made for this run's locks and have stayed empty.
    pub fn leave<R: Files>(&mut self, rt: &R) {
        self.locks.leave(rt);
    }

    // What was found at a path may be named by what is put later. It stands, but whether its folder has reached the disk
    // nobody knows. What a ref names reached the disk before the ref stood.
    //
    // An exchange or a merge says of a ref that it found that nothing is left to be done, and writes nothing then. So there the
    // folder is synced when the first file is found in it. Each folder is looked at once: this run has its lock.
    fn note_found<R: Files>(
        &mut self,
        rt: &R,
        alloc: Global,
        path: &str,
        content: &Content,
    ) -> Result<(), Failure> {
        let Content::Whole(text) = content else {
            return Ok(());
        };
        let claim = claim_of(alloc, &self.claims, path)?;
        let folder = folder_of(path);
        if !self.found.contains(folder) {
            self.ways
                .enter(rt, alloc, claim, folder, &mut self.unsynced)?;
            self.unsynced.add(alloc, folder)?;
            self.exchanges = self.exchanges || is_tracking(path);
            if self.exchanges {
                self.unsynced.sync(rt, alloc, &self.claims)?;
            }
            self.found.insert(String::from_str(alloc, folder)?)?;
        }
        match head_in(text.as_slice()) {
            Some(head) => self.settled.add_head(alloc, claim, &head),
            None => Ok(()),
        }
    }

    // Has what a file may name reach the disk before it is put. What a blob or a tree names may wait, since no commit leads to
    // it yet.
    fn prepare<R: Files>(
        &mut self,
        rt: &R,
        alloc: Global,
        kind: Kind,
        path: &str,
        bytes: &[u8],
    ) -> Result<(), Failure> {
        let claim = claim_of(alloc, &self.claims, path)?;
        match kind {
            Kind::Row => return Ok(()),
            Kind::Object => {
                self.settled.add_names(alloc, claim, bytes)?;
                if is_commit(bytes) {
                    self.sync_named(rt, alloc, path)?;
                }
                self.settled.add_put(alloc, path)?;
            }
            Kind::Other => {
                if let Some(head) = head_in(bytes) {
                    self.settled.add_named(alloc, claim, &head)?;
                }
                self.sync_named(rt, alloc, path)?;
            }
        }
        Ok(self.unsynced.add(alloc, folder_of(path))?)
    }

    // Has all that was put, and the objects that wait, reach the disk before a file that may name them is put at this path.
    fn sync_named<R: Files>(&mut self, rt: &R, alloc: Global, path: &str) -> Result<(), Failure> {
        let claim = claim_of(alloc, &self.claims, path)?;
        self.settled
            .settle(rt, alloc, claim, &mut self.ways, &mut self.unsynced)?;
        self.unsynced.sync(rt, alloc, &self.claims)
    }

    // Removes what killed runs left in a folder, once. A run that may not be alone leaves it.
    fn clean<R: Files + AllocGlobal + Clone + Drop>(
        &mut self,
        rt: &R,
        alloc: Global,
        folder: &str,
    ) -> Result<(), Failure> {
        if !self.locks.are_alone() || self.cleaned.contains(folder) {
            return Ok(());
        }
        self.cleaned.insert(String::from_str(alloc, folder)?)?;
        at(
            alloc,
            Call::List,
            folder,
            disk::remove_temporaries(rt, folder),
        )
    }

    // Has what was written reach the disk, but for what may wait. The write was made, so no error is want of memory.
    fn sync_written<R: Files>(&mut self, rt: &R, alloc: Global, kind: Kind) -> Result<(), Failure>
        ensures failed { IfErr result (λ e. IsFalse e.is_out_of_memory) }
    {
        if kind != Kind::Other {
            return Ok(());
        }
        match self.unsynced.sync(rt, alloc, &self.claims) {
            Ok(()) => Ok(()),
            Err(e) => Err(e.after_a_write()),
        }
    }
}

// The object that the text of a ref names.
fn head_in(text: &[u8]) -> Option<Name> {
    Name::read(without_line_end(text))
}

// The folder that the words name and below which a path lies. No other path is read or written.
fn claim_of<'a>(alloc: Global, claims: &'a [Claim], path: &str) -> Result<&'a Claim, Failure> {
    for claim in claims {
        if claim.covers(path) {
            return Ok(claim);
        }
    }
    let said = io::Error::new(
        ErrorKind::PermissionDenied,
        "no folder of the command has it",
    );
    Err(Failure::new(alloc, Call::Enter, path, said))
}
