//! Objects of the peer `p`, which marks name: `c0` is the first commit, `t1` the tree of the second
//! one, and `p2` the pack of the third one.
use fixtures::{
    Disk, joined, no_ops, pack_text, put_commit, put_files, put_object, put_pack, put_text,
    put_tree, put_under, remove_object,
};
use gb_store::{Content, Store};
use gb_text::Name;
use git_object::Kind;
use object_store::path_of;
use std::alloc::Global;
use std::test::Fail;

/// The id of the peer's person.
pub const ANN: &str = "e0c69511e22433d8d03566bbc80d513495561a6a5cf36be50568cbac51c11026";

/// The id of a person of whom the peer has no ref.
pub const STRANGER: &str = "000000000000000000000000000000000000000000000000000000000000000b";

/// The id of the operation with which another bug begins.
const OTHER_ID: &str = "f6b27d2d8ad5bc2d80e62c152d8229c209a3f5e8c9ab50075ff4fe6938e19d39";

/// The id of the first operation that changes nothing.
const NO_OP_ID: &str = "1312d866e02ab8088770e18dd14bddc4baec4e35b2745823cbd86ea87814f60d";

// The id that a letter stands for in lines, where `X` stands for this one.
fn id_of<'a>(letter: char, id: &'a str) -> Option<&'a str> {
    match letter {
        'X' => Some(id),
        'Z' => Some(OTHER_ID),
        'N' => Some(NO_OP_ID),
        'S' => Some(STRANGER),
        _ => None,
    }
}

/// What a commit holds.
#[derive(Clone, Copy)]
pub enum Body {
    /// A pack of these operations of the peer's person.
    Ops(&'static [&'static [u8]]),
    /// A pack of these operations of a person of whom the peer has no ref.
    Stranger(&'static [&'static [u8]]),
    /// A pack of so many operations of the peer's person.
    Many(u64),
    /// A pack without operations, of so many bytes by spaces behind it.
    Long(usize),
    /// This text in the place of a pack.
    Text(&'static str),
    /// The tree's `ops` names this object.
    Names(&'static str),
    /// The commit names this object as its tree.
    Tree(&'static str),
    /// This text of a person's version.
    Version(&'static str),
}

/// A commit: its parents, the names in its tree, and what it holds.
#[derive(Clone, Copy)]
pub struct Commit(
    pub &'static [&'static str],
    pub &'static [&'static str],
    pub Body,
);

/// What marks name.
#[derive(Drop)]
pub struct Names {
    commits: Vec<Name>,
    trees: Vec<Name>,
    packs: Vec<Name>,
}

impl Names {
    /// No mark names anything.
    pub fn new(alloc: Global) -> Names {
        Names {
            commits: Vec::new(alloc),
            trees: Vec::new(alloc),
            packs: Vec::new(alloc),
        }
    }

    /// How many commits there are.
    pub fn count(&self) -> usize {
        self.commits.len()
    }

    fn at(&self, letter: char, digit: char) -> Result<Name, Fail> {
        let names = match letter {
            'c' => &self.commits,
            't' => &self.trees,
            _ => &self.packs,
        };
        let place = digit.to_digit(10).ok_or("a digit")?;
        Ok(*names.get(place as usize).ok_or("an object")?)
    }

    /// The object that a mark names.
    pub fn get(&self, mark: &str) -> Result<Name, Fail> {
        let mut chars = mark.chars();
        let letter = chars.next().ok_or("a letter")?;
        let digit = chars.next().ok_or("a digit")?;
        self.at(letter, digit)
    }

    // Adds what begins with a mark or with the letter of an id.
    fn push_part(
        &self,
        alloc: Global,
        full: &mut String,
        part: &str,
        id: &str,
    ) -> Result<(), Fail> {
        let mut rest = part.chars();
        let letter = rest.next().ok_or("a letter")?;
        match id_of(letter, id) {
            Some(id) => full.push_str(id)?,
            None => {
                let digit = rest.next().ok_or("a digit")?;
                let name = self.at(letter, digit)?;
                full.push_str(String::from_utf8_lossy(alloc, &name.text())?.as_str())?;
            }
        }
        full.push_str(rest.as_str())?;
        Ok(())
    }

    /// A line with names in the place of marks, as `$c0`, and ids in that of letters, of which `$X`
    /// is this one.
    pub fn full(&self, alloc: Global, text: &str, id: &str) -> Result<String, Fail> {
        let mut full = String::new(alloc);
        for (place, part) in text.split('$').enumerate() {
            if place == 0 {
                full.push_str(part)?;
            } else {
                self.push_part(alloc, &mut full, part, id)?;
            }
        }
        Ok(full)
    }

    fn all(&self, alloc: Global, marks: &[&str]) -> Result<Vec<Name>, Fail> {
        let mut names = Vec::new(alloc);
        for mark in marks {
            names.push(self.get(mark)?)?;
        }
        Ok(names)
    }

    fn push(&mut self, pack: Name, tree: Name, commit: Name) -> Result<(), Fail> {
        self.packs.push(pack)?;
        self.trees.push(tree)?;
        self.commits.push(commit)?;
        Ok(())
    }

    // Puts what a commit holds, and answers its name.
    fn put_body(&self, disk: &mut Disk, body: Body) -> Result<Name, Fail> {
        match body {
            Body::Ops(ops) => put_pack(disk, ANN.as_bytes(), ops),
            Body::Stranger(ops) => put_pack(disk, STRANGER.as_bytes(), ops),
            Body::Many(count) => {
                let ops = no_ops(disk.alloc, count)?;
                put_pack(disk, ANN.as_bytes(), &[&ops])
            }
            Body::Long(size) => {
                let mut text = pack_text(disk.alloc, ANN.as_bytes(), &[])?;
                text.resize(size, b' ')?;
                put_object(disk, Kind::Blob, &text)
            }
            Body::Text(text) => put_object(disk, Kind::Blob, text.as_bytes()),
            Body::Version(text) => put_object(disk, Kind::Blob, text.as_bytes()),
            Body::Names(mark) | Body::Tree(mark) => self.get(mark),
        }
    }

    /// Puts a commit, its tree and what it holds.
    pub fn put(&mut self, disk: &mut Disk, commit: Commit) -> Result<(), Fail> {
        let Commit(parents, files, body) = commit;
        let parents = self.all(disk.alloc, parents)?;
        let pack = self.put_body(disk, body)?;
        let tree = match body {
            Body::Tree(_) => pack,
            Body::Version(_) => put_tree(disk, "100644", "version", &pack)?,
            _ => put_files(disk, files, &pack)?,
        };
        let commit = put_commit(disk, &tree, &parents)?;
        self.push(pack, tree, commit)
    }

    /// Puts these commits, and the empty file.
    pub fn put_all(&mut self, disk: &mut Disk, commits: &[Commit]) -> Result<(), Fail> {
        put_text(disk, b"blob 0\0")?;
        for commit in commits {
            self.put(disk, *commit)?;
        }
        Ok(())
    }
}

/// What happens to the peer's files.
#[derive(Clone, Copy)]
pub enum Change {
    Nothing,
    /// The object of this mark has no file.
    Gone(&'static str),
    /// One byte of its file is another one.
    Other(&'static str),
    /// Its file lacks the last byte.
    Cut(&'static str),
}

// Puts other bytes in the place of the last byte of an object's file.
fn change_end(disk: &mut Disk, name: &Name, end: &[u8]) -> Result<(), Fail> {
    let path = path_of(disk.alloc, &disk.folder, name)?;
    let Content::Whole(bytes) = disk.store.read(disk.alloc, path.as_str(), 4096)? else {
        return Err("a small file")?;
    };
    let Some((_, front)) = bytes.as_slice().split_last() else {
        return Err("a file with a byte")?;
    };
    let text = joined(disk.alloc, &[front, end])?;
    put_under(disk, name, &text)
}

/// Changes the peer's files.
pub fn spoil(disk: &mut Disk, names: &Names, change: Change) -> Result<(), Fail> {
    match change {
        Change::Nothing => Ok(()),
        Change::Gone(mark) => remove_object(disk, &names.get(mark)?),
        Change::Other(mark) => change_end(disk, &names.get(mark)?, b"?"),
        Change::Cut(mark) => change_end(disk, &names.get(mark)?, b""),
    }
}
