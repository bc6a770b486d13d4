//! Which objects have reached the disk, as far as a run knows. A commit is put after all that it names has reached the disk,
//! so what a commit that stands names has reached it too.
use crate::claim::Claim;
use crate::disk;
use crate::failure::{Call, Failure, at};
use crate::place::folder_of;
use crate::unsynced::Unsynced;
use crate::ways::Ways;
use gb_store::Content;
use gb_text::{Name, Text};
use git_object::{Commit, Frame, Kind, Mode, Tree};
use object_store::{MOST_BYTES, path_of};
use std::alloc::{AllocError, Global};
use std::collections::BTreeSet;
use std::io;
use std::io::ErrorKind;
use std::rt::Files;

/// The objects, by their paths, whose files have reached the disk with all that they name, but for those that wait and for the
/// folders that are to be synced.
#[derive(Drop)]
pub struct Settled {
    whole: BTreeSet<String>,
    waiting: Vec<Text>,
}

impl Settled {
    /// None. Takes no memory.
    pub fn new(alloc: Global) -> Settled {
        Settled {
            whole: BTreeSet::new(alloc),
            waiting: Vec::new(alloc),
        }
    }

    /// An object is put at this path, and so its file reaches the disk.
    pub fn add_put(&mut self, alloc: Global, path: &str) -> Result<(), AllocError> {
        self.add_whole(alloc, path)
    }

    /// The object at a path was not put in the end.
    pub fn forget(&mut self, path: &str) {
        self.whole.remove(path);
    }

    /// The ref that names this object stands, so the object reached the disk before, with all that it names.
    pub fn add_head(&mut self, alloc: Global, claim: &Claim, head: &Name) -> Result<(), Failure> {
        let path = object_path(alloc, claim, head)?;
        Ok(self.add_whole(alloc, path.as_str())?)
    }

    /// A ref is to name this object, which waits.
    pub fn add_named(&mut self, alloc: Global, claim: &Claim, head: &Name) -> Result<(), Failure> {
        Ok(self.waiting.push(object_path(alloc, claim, head)?)?)
    }

    /// Has the objects that wait reach the disk, with what another run may have left in memory of what they name, but for
    /// the folders that it adds to those that are to be synced. An object that is missing is an error.
    pub fn settle<R: Files>(
        &mut self,
        rt: &R,
        alloc: Global,
        claim: &Claim,
        ways: &mut Ways,
        unsynced: &mut Unsynced,
    ) -> Result<(), Failure> {
        for _ in 0..u64::MAX {
            let Some(path) = self.waiting.pop() else {
                break;
            };
            let done = self.settle_one(rt, alloc, claim, path.as_str(), ways, unsynced);
            if done.is_err() {
                self.waiting.push(path)?;
                return done;
            }
        }
        Ok(())
    }

    // Has the file of an object reach the disk. What it names waits, unless it is a commit: what that names has reached the
    // disk before.
    fn settle_one<R: Files>(
        &mut self,
        rt: &R,
        alloc: Global,
        claim: &Claim,
        path: &str,
        ways: &mut Ways,
        unsynced: &mut Unsynced,
    ) -> Result<(), Failure> {
        let folder = folder_of(path);
        if self.whole.contains(path) {
            return Ok(());
        }
        if !ways.stands(rt, alloc, claim, folder)? {
            return Err(missing(alloc, path));
        }
        ways.enter(rt, alloc, claim, folder, unsynced)?;
        unsynced.add(alloc, folder)?;
        let read = disk::read_synced(rt, alloc, path, MOST_BYTES);
        match at(alloc, Call::Sync, path, read)? {
            Content::Absent => return Err(missing(alloc, path)),
            Content::Whole(text) if !is_commit(text.as_slice()) => {
                self.add_names(alloc, claim, text.as_slice())?;
            }
            _ => {}
        }
        Ok(self.add_whole(alloc, path)?)
    }

    /// Has the objects wait that the text of an object names, but those that reached the disk.
    pub fn add_names(&mut self, alloc: Global, claim: &Claim, text: &[u8]) -> Result<(), Failure> {
        for name in names_in(alloc, text)? {
            let path = object_path(alloc, claim, &name)?;
            if !self.whole.contains(path.as_str()) {
                self.waiting.push(path)?;
            }
        }
        Ok(())
    }

    fn add_whole(&mut self, alloc: Global, path: &str) -> Result<(), AllocError> {
        self.whole.insert(String::from_str(alloc, path)?)?;
        Ok(())
    }
}

fn object_path(alloc: Global, claim: &Claim, name: &Name) -> Result<Text, AllocError> {
    path_of(alloc, &claim.folder, name).map_err(|_| AllocError)
}

// What is to be named is not there.
fn missing(alloc: Global, path: &str) -> Failure {
    let said = io::Error::new(
        ErrorKind::NotFound,
        "a commit or a ref would name it, and it is missing",
    );
    Failure::new(alloc, Call::Sync, path, said)
}

/// Whether the text of an object is that of a commit.
pub fn is_commit(text: &[u8]) -> bool {
    Frame::read(text).is_some_and(|frame| frame.kind == Kind::Commit)
}

// The objects that the text of an object names. A commit of another repository is none of them.
fn names_in(alloc: Global, text: &[u8]) -> Result<Vec<Name>, Failure> {
    match Frame::read(text) {
        Some(frame) => match frame.kind {
            Kind::Blob => Ok(Vec::new(alloc)),
            Kind::Tree => entries_of(alloc, frame.content),
            Kind::Commit => tree_and_parents_of(alloc, frame.content),
        },
        None => Ok(Vec::new(alloc)),
    }
}

fn entries_of(alloc: Global, content: &[u8]) -> Result<Vec<Name>, Failure> {
    let mut names = Vec::new(alloc);
    if let Some(tree) = Tree::read(alloc, content).map_err(|_| AllocError)? {
        for entry in tree.entries.as_slice() {
            if entry.mode != Mode::Module {
                names.push(entry.object)?;
            }
        }
    }
    Ok(names)
}

fn tree_and_parents_of(alloc: Global, content: &[u8]) -> Result<Vec<Name>, Failure> {
    let mut names = Vec::new(alloc);
    if let Some(commit) = Commit::read(alloc, content).map_err(|_| AllocError)? {
        names.push(commit.tree)?;
        for parent in commit.parents.as_slice() {
            names.push(*parent)?;
        }
    }
    Ok(names)
}
