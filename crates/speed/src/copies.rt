//! Bugs in a store in memory, and their copies in another folder of it.
use crate::texts::{commit_text, pack_text, tree_text};
use gb_store::{MemStore, Store};
use gb_text::{Folder, List, Name};
use git_object::{Kind, frame_text, name_of_text};
use object_store::path_of;
use remote_copy::{CopyFault, copy};
use std::alloc::Global;

/// What is done with bugs in memory.
#[derive(Clone, Copy, Debug, PartialEq, Eq)]
pub enum Work {
    /// They are made, and their objects counted.
    Build,
    /// They are made and copied, and the objects counted that were put for that.
    Copy,
    /// The same, but the reads of objects are counted.
    Reads,
}

impl Work {
    /// The work that has this word.
    pub fn named(word: &str) -> Option<Work> {
        match word {
            "build" => Some(Work::Build),
            "copy" => Some(Work::Copy),
            "reads" => Some(Work::Reads),
            _ => None,
        }
    }
}

// A folder in a store in memory.
#[derive(Drop)]
struct Source {
    alloc: Global,
    folder: Folder,
    store: MemStore,
}

/// What the work counts over so many bugs. None where it could not be done.
pub fn count(alloc: Global, work: Work, bugs: u64) -> Option<u64> {
    let mut source = Source {
        alloc,
        folder: Folder::read(alloc, "a").ok()?,
        store: MemStore::new(alloc, List::new(alloc)),
    };
    let heads = put_bugs(&mut source, bugs).ok()?;
    if work == Work::Build {
        return Some(source.store.writes());
    }
    let target = Folder::read(alloc, "b").ok()?;
    let put = copy_all(&mut source, &target, &heads).ok()?;
    if work == Work::Reads {
        return Some(source.store.reads());
    }
    Some(put)
}

// Copies each head, and answers how many objects were put.
fn copy_all(source: &mut Source, target: &Folder, heads: &[Name]) -> Result<u64, CopyFault> {
    let mut put = 0u64;
    for head in heads {
        put = put.saturating_add(copy_head(source, target, head)?);
    }
    Ok(put)
}

fn copy_head(source: &mut Source, target: &Folder, head: &Name) -> Result<u64, CopyFault> {
    if source.folder.overlaps(target) {
        return Err(CopyFault::Taken(*head));
    }
    copy(
        source.alloc,
        &mut source.store,
        &source.folder,
        target,
        head,
        true,
    )
}

// Puts so many bugs, and answers their heads.
fn put_bugs(source: &mut Source, bugs: u64) -> Result<Vec<Name>, CopyFault> {
    let mut heads = Vec::new(source.alloc);
    put_object(source, Kind::Blob, b"")?;
    for bug in 0..bugs {
        heads.push(put_bug(source, bug)?)?;
    }
    Ok(heads)
}

// Puts a bug of four commits, whose packs have the sizes of one operation that creates a bug, of two
// comments and of a change of labels.
fn put_bug(source: &mut Source, bug: u64) -> Result<Name, CopyFault> {
    let first = put_edit(source, bug, 709, "edit-clock-1", None)?;
    let second = put_edit(source, bug, 303, "edit-clock-2", Some(first))?;
    let third = put_edit(source, bug, 303, "edit-clock-3", Some(second))?;
    put_edit(source, bug, 223, "edit-clock-4", Some(third))
}

// Puts a commit with its tree and a pack of so many bytes.
fn put_edit(
    source: &mut Source,
    bug: u64,
    size: usize,
    clock: &str,
    parent: Option<Name>,
) -> Result<Name, CopyFault> {
    let pack = pack_text(source.alloc, bug, size, clock)?;
    let pack = put_object(source, Kind::Blob, &pack)?;
    let tree = tree_text(source.alloc, clock, &pack)?;
    let tree = put_object(source, Kind::Tree, &tree)?;
    let commit = commit_text(source.alloc, &tree, parent)?;
    put_object(source, Kind::Commit, &commit)
}

// Puts an object with this content, and answers its name.
fn put_object(source: &mut Source, kind: Kind, content: &[u8]) -> Result<Name, CopyFault> {
    let text = frame_text(source.alloc, kind, content)?;
    let name = name_of_text(text.as_slice());
    let path = path_of(source.alloc, &source.folder, &name)?;
    source
        .store
        .put(source.alloc, path.as_str(), text.as_slice())?;
    Ok(name)
}
