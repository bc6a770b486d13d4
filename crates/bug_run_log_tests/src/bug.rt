//! Folder `f` with a bug of two commits, and what is other than good in it; and with bugs of more
//! commits. One person stands in it.
use fixtures::{
    CREATE, Disk, commit_content, joined, name, no_ops, pack_text, put_commit, put_files,
    put_object, put_pack, put_text, put_under, remove_object, tree_content,
};
use gb_store::{Content, Store};
use gb_text::Name;
use git_object::Kind;
use object_store::path_of;
use std::alloc::Global;
use std::test::Fail;

/// The SHA-256 of the operation with which the good bug begins.
pub const BUG: &str = "3912f32747d1e7d315d89cd550e61a80638342c85e80fec8f844c37035613dc8";

/// What is told of it where it is damaged.
pub const DAMAGED: &str =
    "refused 14 damaged f/refs/bugs/3912f32747d1e7d315d89cd550e61a80638342c85e80fec8f844c37035613dc8\n";

/// The id of no bug.
pub const ZEROS: &str = "0000000000000000000000000000000000000000000000000000000000000000";

// The objects of the good bug, named as Git names them.
pub const EMPTY: &str = "e69de29bb2d1d6434b8b29ae775ad8c2e48c5391";

pub const ROOT_TREE: &str = "fd46b15973091185a7dcb97506048c2fad9bb32e";

pub const ROOT: &str = "f3f9abbaf8d4952b1fa36776fc04587c25db8557";

pub const ROOT_PACK: &str = "8376ceac7f343fada57604820bad30470fabf93f";

pub const TREE: &str = "5bcc65b56b2f7ed004d855d8dbf0939ea47958c5";

pub const PACK: &str = "f414cf142e63f2b48a03a6853567fed5aec23988";

pub const HEAD: &str = "da112c73eb36436fbf3fbfcfe0347d16340d355a";

const ROOT_ENTRIES: &[&str] = &["create-clock-1", "edit-clock-2", "ops", "version-4"];

const HEAD_ENTRIES: &[&str] = &["edit-clock-3", "ops", "version-4"];

/// The person who stands in the folder.
pub const AUTHOR: &str = "000000000000000000000000000000000000000000000000000000000000000a";

/// What is other than in the good bug: one thing. Objects stand under the SHA-1 of their texts, but
/// for those of `Gone` and `Ends`.
#[derive(Clone, Copy)]
pub enum Case {
    /// Nothing.
    Good,
    /// The file of the ref.
    Ref(&'static [u8]),
    /// The object that the ref names.
    Head(&'static str),
    /// The object that the head names as its parent.
    Parent(&'static str),
    /// The object that the head names as its tree.
    Tree(&'static str),
    /// The names in the root's tree.
    RootEntries(&'static [&'static str]),
    /// The names in the head's tree.
    Entries(&'static [&'static str]),
    /// The header of the head.
    Header(&'static [u8]),
    /// So many bytes are the head's content, by a longer message.
    LongHead(usize),
    /// So many bytes are the content of the head's tree, by one entry more.
    LongTree(usize),
    /// The text of the head's pack.
    Pack(&'static [u8]),
    /// So many bytes are the text of the head's pack, by spaces at its end.
    LongPack(usize),
    /// The head's pack has so many operations, each another one.
    Operations(u64),
    /// The mode and the object of `ops` in the head's tree.
    Ops(&'static str, &'static str),
    /// There is no file of this object.
    Gone(&'static str),
    /// These bytes stand for the last byte in the file of this object.
    Ends(&'static str, &'static [u8]),
}

/// Puts the ref of the bug with this id.
pub fn put_ref(disk: &mut Disk, bug: &str, text: &[u8]) -> Result<(), Fail> {
    let path = format!(in disk.alloc; "f/refs/bugs/{bug}")?;
    disk.put(path.as_str(), text)
}

// Puts the ref of the person who stands in the folder. What it holds is not looked at.
fn put_author(disk: &mut Disk) -> Result<(), Fail> {
    let path = format!(in disk.alloc; "f/refs/identities/{AUTHOR}")?;
    disk.put(path.as_str(), b"")
}

/// Puts the empty blob, which trees name.
pub fn put_empty(disk: &mut Disk) -> Result<Name, Fail> {
    put_text(disk, b"blob 0\0")
}

/// Puts the person, and the blobs that trees name.
pub fn put_blobs(disk: &mut Disk) -> Result<(), Fail> {
    put_author(disk)?;
    put_empty(disk)?;
    put_pack(disk, AUTHOR.as_bytes(), &[CREATE])?;
    put_pack(disk, AUTHOR.as_bytes(), &[])?;
    Ok(())
}

/// Puts a commit with a tree of these files, and answers its name.
pub fn put_above(
    disk: &mut Disk,
    files: &[&str],
    pack: &Name,
    parents: &[Name],
) -> Result<Name, Fail> {
    let tree = put_files(disk, files, pack)?;
    put_commit(disk, &tree, parents)
}

// What a case has in the place of what the good bug has.

fn root_entries(case: Case) -> &'static [&'static str] {
    match case {
        Case::RootEntries(names) => names,
        _ => ROOT_ENTRIES,
    }
}

fn entries(case: Case) -> &'static [&'static str] {
    match case {
        Case::Entries(names) => names,
        _ => HEAD_ENTRIES,
    }
}

// The text of the head's pack.
fn text_of_pack(alloc: Global, case: Case) -> Result<Vec<u8>, Fail> {
    let author = AUTHOR.as_bytes();
    match case {
        Case::Pack(text) => joined(alloc, &[text]),
        Case::Operations(count) => pack_text(alloc, author, &[&no_ops(alloc, count)?]),
        Case::LongPack(size) => grown(pack_text(alloc, author, &[])?, b' ', size),
        _ => pack_text(alloc, author, &[]),
    }
}

// The text with one byte again and again behind it, up to so many bytes.
fn grown(text: Vec<u8>, byte: u8, size: usize) -> Result<Vec<u8>, Fail> {
    let mut text = text;
    text.resize(size, byte)?;
    Ok(text)
}

// The content of the head's tree, whose pack has this name.
fn content_of_tree(alloc: Global, case: Case, pack: &Name) -> Result<Vec<u8>, Fail> {
    match case {
        Case::Ops(mode, object) => tree_content(alloc, entries(case), mode, &name(object)?),
        Case::LongTree(size) => long_tree(alloc, size, pack),
        _ => tree_content(alloc, entries(case), "100644", pack),
    }
}

// The good content with one entry more, which makes it so long.
fn long_tree(alloc: Global, size: usize, pack: &Name) -> Result<Vec<u8>, Fail> {
    let content = tree_content(alloc, HEAD_ENTRIES, "100644", pack)?;
    let front = joined(alloc, &[&content, b"100644 "])?;
    let long = grown(front, b'x', size.saturating_sub(21))?;
    joined(alloc, &[&long, b"\0", &name(EMPTY)?.bytes])
}

// The content of the head, over this tree and this root.
fn content_of_head(alloc: Global, case: Case, tree: &Name, root: &Name) -> Result<Vec<u8>, Fail> {
    match case {
        Case::Tree(other) => commit_content(alloc, &name(other)?, &[*root]),
        Case::Parent(other) => commit_content(alloc, tree, &[name(other)?]),
        Case::LongHead(size) => grown(commit_content(alloc, tree, &[*root])?, b'x', size),
        _ => commit_content(alloc, tree, &[*root]),
    }
}

// Puts the head with this content.
fn put_head(disk: &mut Disk, case: Case, content: &[u8]) -> Result<Name, Fail> {
    let Case::Header(header) = case else {
        return put_object(disk, Kind::Commit, content);
    };
    let mut text = Vec::new(disk.alloc);
    text.extend_from_slice(header)?;
    text.extend_from_slice(content)?;
    put_text(disk, &text)
}

// Puts the ref that names this head.
fn put_head_ref(disk: &mut Disk, case: Case, head: &Name) -> Result<(), Fail> {
    match case {
        Case::Ref(text) => put_ref(disk, BUG, text),
        Case::Head(other) => put_ref(disk, BUG, other.as_bytes()),
        _ => put_ref(disk, BUG, &head.text()),
    }
}

// Puts other bytes in the place of the last byte of an object's file.
fn change_end(disk: &mut Disk, object: &Name, end: &[u8]) -> Result<(), Fail> {
    let path = path_of(disk.alloc, &disk.folder, object)?;
    let Content::Whole(bytes) = disk.store.read(disk.alloc, path.as_str(), 4096)? else {
        return Err("a small file")?;
    };
    let Some((_, front)) = bytes.as_slice().split_last() else {
        return Err("a file with a byte")?;
    };
    let text = joined(disk.alloc, &[front, end])?;
    put_under(disk, object, &text)
}

// Removes or changes the file of an object.
fn spoil(disk: &mut Disk, case: Case) -> Result<(), Fail> {
    match case {
        Case::Gone(object) => remove_object(disk, &name(object)?),
        Case::Ends(object, end) => change_end(disk, &name(object)?, end),
        _ => Ok(()),
    }
}

// Puts the commits of a case, and answers its head.
fn put_both(disk: &mut Disk, case: Case) -> Result<Name, Fail> {
    let root = put_above(disk, root_entries(case), &name(ROOT_PACK)?, &[])?;
    let pack = put_object(disk, Kind::Blob, &text_of_pack(disk.alloc, case)?)?;
    let tree = put_object(disk, Kind::Tree, &content_of_tree(disk.alloc, case, &pack)?)?;
    let content = content_of_head(disk.alloc, case, &tree, &root)?;
    put_head(disk, case, &content)
}

/// Puts the bug of a case.
pub fn put_bug(disk: &mut Disk, case: Case) -> Result<(), Fail> {
    put_blobs(disk)?;
    let head = put_both(disk, case)?;
    put_head_ref(disk, case, &head)?;
    spoil(disk, case)
}

/// A commit of a graph. Its parents are told by their places among the commits; its pack is by the
/// person who stands in the folder, where nothing else is said.
#[derive(Clone, Copy)]
pub enum Commit {
    /// One without parents, of which both clocks are this, and its operations.
    Root(&'static str, &'static [&'static [u8]]),
    /// One above these, its edit clock and its operations.
    Above(&'static [usize], &'static str, &'static [&'static [u8]]),
    /// The names in its tree, its parents, the author of its pack, and its operations.
    Other(&'static [&'static str], &'static [usize], &'static str, &'static [&'static [u8]]),
}

// The parents at these places.
fn parents_at(alloc: Global, places: &[usize], commits: &[Name]) -> Result<Vec<Name>, Fail> {
    let mut parents = Vec::new(alloc);
    for place in places {
        parents.push(*commits.get(*place).ok_or("a parent")?)?;
    }
    Ok(parents)
}

// Puts a commit over those before it, with the files of these names in its tree.
fn put_next(
    disk: &mut Disk,
    files: &[&str],
    author: &str,
    ops: &[&[u8]],
    parents: &[Name],
) -> Result<Name, Fail> {
    let pack = put_pack(disk, author.as_bytes(), ops)?;
    put_above(disk, files, &pack, parents)
}

// Puts a commit of a graph over those before it, and answers its name.
fn put_one(disk: &mut Disk, commit: Commit, before: &[Name]) -> Result<Name, Fail> {
    match commit {
        Commit::Root(clock, ops) => {
            let create = format!(in disk.alloc; "create-clock-{clock}")?;
            let edit = format!(in disk.alloc; "edit-clock-{clock}")?;
            let files = [create.as_str(), edit.as_str(), "ops", "version-4"];
            put_next(disk, &files, AUTHOR, ops, &[])
        }
        Commit::Above(places, clock, ops) => {
            let edit = format!(in disk.alloc; "edit-clock-{clock}")?;
            let parents = parents_at(disk.alloc, places, before)?;
            put_next(
                disk,
                &[edit.as_str(), "ops", "version-4"],
                AUTHOR,
                ops,
                &parents,
            )
        }
        Commit::Other(files, places, author, ops) => {
            let parents = parents_at(disk.alloc, places, before)?;
            put_next(disk, files, author, ops, &parents)
        }
    }
}

/// Puts the bug of this id with these commits, of which the last is its head.
pub fn put_graph(disk: &mut Disk, bug: &str, graph: &[Commit]) -> Result<(), Fail> {
    put_author(disk)?;
    put_empty(disk)?;
    let mut commits = Vec::new(disk.alloc);
    for commit in graph {
        let name = put_one(disk, *commit, &commits)?;
        commits.push(name)?;
    }
    let head = commits.last().ok_or("a head")?;
    put_ref(disk, bug, &head.text())
}
