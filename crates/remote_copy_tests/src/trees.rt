//! Trees of a few and of many entries.
use crate::sides::Sides;
use fixtures::{EMPTY, put_commit, put_object};
use gb_text::Name;
use git_object::Kind;
use remote_copy::CopyFault;
use std::test::Fail;

// The first commit of a bug, with the tree that says its clocks and its pack.
fn put_bug(sides: &mut Sides) -> Result<Name, Fail> {
    put_object(&mut sides.disk, Kind::Blob, b"")?;
    let pack = br#"{"author":{"id":"1"},"ops":[]}"#;
    let pack = put_object(&mut sides.disk, Kind::Blob, pack)?;
    let entries = [
        ("100644", "create-clock-1", EMPTY),
        ("100644", "edit-clock-1", EMPTY),
        ("100644", "ops", pack),
        ("100644", "version-4", EMPTY),
    ];
    sides.commit(&entries, &[])
}

// Whether a new bug is copied, and then stands.
fn is_copied(sides: &mut Sides) -> Result<bool, Fail> {
    let head = put_bug(sides)?;
    Ok(sides.copy(&head, true) == Ok(4) && sides.copy(&head, false) == Ok(0))
}

#[test]
fn a_new_bug_is_copied_as_four_objects(rt: HostRuntime) -> Result<(), Fail> {
    let is_copied = is_copied(&mut Sides::new(rt.alloc())?);
    assert!(rt; is_copied?);
    Ok(())
}

// One of 64 bytes that a name may have.
fn letter(number: u32) -> u8 {
    64 | (number % 64) as u8
}

// Adds a plain file with a name of three bytes: 31 bytes.
fn push_file(content: &mut Vec<u8>, number: u32) -> Result<(), Fail> {
    content.extend_from_slice(b"100644 ")?;
    let name = [letter(number / 4_096), letter(number / 64), letter(number)];
    content.extend_from_slice(&name)?;
    content.push(0)?;
    content.extend_from_slice(&EMPTY.bytes)?;
    Ok(())
}

// A commit whose tree has so many files, all of which are the empty blob.
fn put_wide(sides: &mut Sides, files: u32) -> Result<Name, Fail> {
    put_object(&mut sides.disk, Kind::Blob, b"")?;
    let mut content = Vec::new(sides.disk.alloc);
    for number in 0..files {
        push_file(&mut content, number)?;
    }
    let tree = put_object(&mut sides.disk, Kind::Tree, &content)?;
    put_commit(&mut sides.disk, &tree, &[])
}

// Whether such a tree is copied so, by so many object reads.
fn is_wide(
    sides: &mut Sides,
    files: u32,
    wanted: Result<u64, CopyFault>,
    reads: u64,
) -> Result<bool, Fail> {
    let head = put_wide(sides, files)?;
    Ok(sides.copy(&head, true) == wanted && sides.disk.store.reads() == reads)
}

#[test]
fn a_blob_with_135000_names_is_put_once(rt: HostRuntime) -> Result<(), Fail> {
    let is_wide = is_wide(&mut Sides::new(rt.alloc())?, 135_000, Ok(3), 6);
    assert!(rt; is_wide?);
    Ok(())
}

// The texts of 150,000 entries have more bytes than an object may.
#[test]
fn a_tree_of_150000_entries_is_too_large(rt: HostRuntime) -> Result<(), Fail> {
    let large = Err(CopyFault::TooLarge(4_194_305));
    let is_wide = is_wide(&mut Sides::new(rt.alloc())?, 150_000, large, 4);
    assert!(rt; is_wide?);
    Ok(())
}
