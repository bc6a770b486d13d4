//! What is seen of the folders `a` and `b`: their refs, and what their bugs show.
use fixtures::{Disk, text_at};
use gb_store::Store;
use run_fixtures::{run_into, sink};
use std::test::Fail;

// The folders of refs.
const DIRS: [&str; 8] = [
    "a/refs/bugs",
    "a/refs/identities",
    "a/refs/remotes/o/bugs",
    "a/refs/remotes/o/identities",
    "b/refs/bugs",
    "b/refs/identities",
    "b/refs/remotes/o/bugs",
    "b/refs/remotes/o/identities",
];

// Adds a line for each ref in a folder: its path and its head.
fn push_refs(disk: &mut Disk, dir: &str, text: &mut String) -> Result<(), Fail> {
    let names = disk.store.list(disk.alloc, dir)?;
    for name in names.as_slice() {
        let path = format!(in disk.alloc; "{dir}/{}", name.as_str())?;
        let head = text_at(disk, path.as_str())?.ok_or("a ref")?;
        text.push_str(path.as_str())?;
        text.push(' ')?;
        text.push_str(head.as_str())?;
    }
    Ok(())
}

/// A line for each ref in both folders: its path and its head.
pub fn refs(disk: &mut Disk) -> Result<String, Fail> {
    let mut text = String::new(disk.alloc);
    for dir in DIRS {
        push_refs(disk, dir, &mut text)?;
    }
    Ok(text)
}

/// How a run with a number ends, and what it prints.
pub fn told(disk: &mut Disk, words: &[&str], number: u8) -> Result<(u8, String), Fail> {
    let mut sink = sink(disk.alloc);
    let status = run_into(disk, &mut sink, words, number)?;
    Ok((status, String::from_utf8_lossy(disk.alloc, sink.bytes())?))
}

// Adds what a run prints.
fn push_told(disk: &mut Disk, words: &[&str], text: &mut String) -> Result<(), Fail> {
    let (_, printed) = told(disk, words, 0)?;
    text.push_str(printed.as_str())?;
    Ok(())
}

/// What `b` prints of its people, and of each of its bugs.
pub fn shown(disk: &mut Disk) -> Result<String, Fail> {
    let mut text = String::new(disk.alloc);
    push_told(disk, &["b", "users"], &mut text)?;
    let names = disk.store.list(disk.alloc, "b/refs/bugs")?;
    for name in names.as_slice() {
        push_told(disk, &["b", "show", name.as_str()], &mut text)?;
    }
    Ok(text)
}

// Whether a text has this line.
fn has_line(text: &str, line: &str) -> bool {
    text.lines().any(|other| other == line)
}

// Whether a text has a line of the same path as this line.
fn has_path(text: &str, line: &str) -> bool {
    let path = line.split(' ').next();
    text.lines().any(|other| other.split(' ').next() == path)
}

/// Whether no ref is lost, and each one is the old one or the new one.
pub fn are_old_or_new(refs: &str, old: &str, new: &str) -> bool {
    refs.lines()
        .all(|line| has_line(old, line) || has_line(new, line))
        && old.lines().all(|line| has_path(refs, line))
}
