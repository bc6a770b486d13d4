//! A bug of many comments is shown.
use crate::bug::{BUG, put_above, put_empty, put_ref};
use fixtures::{CREATE, Disk, put_pack};
use gb_text::Name;
use run_fixtures::{DONE, run_into, sink};
use std::alloc::Global;
use std::test::Fail;

const ROOT: &[&str] = &["create-clock-1", "edit-clock-1", "ops", "version-4"];

// A comment, before and behind its message.
const FRONT: &str = "{\"files\":[],\"message\":\"";

const END: &str = "\",\"nonce\":\"AAAAAAAAAAAAAAAAAAAAAAAAAAA=\",\"timestamp\":0,\"type\":3}";

// Makes a person by the program itself, and answers the digits of its id.
fn new_author(disk: &mut Disk) -> Result<String, Fail> {
    let mut sink = sink(disk.alloc);
    run_into(disk, &mut sink, &["f", "user-new", "Ana", "ana@x"], 1)?;
    let digits = sink.bytes().get(..64).ok_or("an id")?;
    let text = str::from_utf8(digits).ok().ok_or("digits")?;
    Ok(String::from_str(disk.alloc, text)?)
}

// The text of a comment that tells its clock.
fn comment(alloc: Global, clock: u64) -> Result<String, Fail> {
    Ok(format!(in alloc; "{}{}{}", FRONT, clock, END)?)
}

// Puts such a comment over a commit, and answers its own name.
fn put_comment(disk: &mut Disk, author: &str, clock: u64, below: Name) -> Result<Name, Fail> {
    let comment = comment(disk.alloc, clock)?;
    let pack = put_pack(disk, author.as_bytes(), &[comment.as_bytes()])?;
    let entry = format!(in disk.alloc; "edit-clock-{clock}")?;
    put_above(disk, &[entry.as_str(), "ops", "version-4"], &pack, &[below])
}

// Puts a bug of so many commits, whose clocks are 1, 2, 3 and so on; each but the first is a comment.
fn put_comments(disk: &mut Disk, author: &str, count: u64) -> Result<(), Fail> {
    put_empty(disk)?;
    let pack = put_pack(disk, author.as_bytes(), &[CREATE])?;
    let mut head = put_above(disk, ROOT, &pack, &[])?;
    for clock in 2..=count {
        head = put_comment(disk, author, clock, head)?;
    }
    put_ref(disk, BUG, &head.text())
}

// Whether the bug is shown by so many lines, of which the last tells the last clock, and so many
// reads of objects.
fn is_shown(disk: &mut Disk, count: usize, last: &str, reads: u64) -> Result<bool, Fail> {
    let before = disk.store.reads();
    let mut sink = sink(disk.alloc);
    let status = run_into(disk, &mut sink, &["f", "show", BUG], 0)?;
    let lines = sink.bytes().iter().filter(|b| **b == b'\n').count();
    let is_last = sink.bytes().ends_with(last.as_bytes());
    let is_read = disk.store.reads() == before.saturating_add(reads);
    Ok(status == DONE && lines == count && is_last && is_read)
}

// Eight lines tell the bug, and two each of its 10,001 comments. Of each commit three objects are
// read, itself, its tree and its pack, and of the person three.
#[test]
fn a_bug_of_10000_further_comments_is_shown(rt: HostRuntime) -> Result<(), Fail> {
    let mut disk = Disk::new(rt.alloc())?;
    let author = new_author(&mut disk)?;
    put_comments(&mut disk, author.as_str(), 10_001)?;
    assert!(rt; is_shown(&mut disk, 20_010, "\n    10001\n", 30_006)?);
    Ok(())
}
