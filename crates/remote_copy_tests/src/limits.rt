//! The limits of a copy.
use crate::sides::Sides;
use fixtures::{filled, put_object};
use gb_text::Name;
use git_object::Kind;
use remote_copy::CopyFault;
use std::test::Fail;

// A commit whose tree has so many trees below it, one below the other.
fn put_deep(sides: &mut Sides, depth: usize) -> Result<Name, Fail> {
    let mut tree = sides.tree(&[])?;
    for _ in 1..depth {
        tree = sides.tree(&[("40000", "in", tree)])?;
    }
    sides.commit(&[("40000", "in", tree)], &[])
}

// Whether so many trees may lie below a commit's tree, and not one more.
fn is_deepest(sides: &mut Sides, depth: usize) -> Result<bool, Fail> {
    let deepest = put_deep(sides, depth)?;
    let deeper = put_deep(sides, depth.saturating_add(1))?;
    let is_copied = sides.copy(&deepest, true) == Ok(18);
    Ok(is_copied && sides.copy(&deeper, true) == Err(CopyFault::TooLarge(17)))
}

#[test]
fn a_tree_lies_at_most_16_trees_deep(rt: HostRuntime) -> Result<(), Fail> {
    let is_deepest = is_deepest(&mut Sides::new(rt.alloc())?, 16);
    assert!(rt; is_deepest?);
    Ok(())
}

// So many commits, one below the other.
fn put_chain(sides: &mut Sides, count: usize) -> Result<Name, Fail> {
    let mut head = sides.commit(&[], &[])?;
    for _ in 1..count {
        head = sides.commit(&[], &[head])?;
    }
    Ok(head)
}

// Whether a copy follows so many commits, and not one more.
fn is_most(sides: &mut Sides, count: usize) -> Result<bool, Fail> {
    let head = put_chain(sides, count)?;
    let next = sides.commit(&[], &[head])?;
    let is_copied = sides.copy(&head, false) == Ok(65_537);
    let is_refused = sides.copy(&next, false) == Err(CopyFault::TooLarge(65_537));
    Ok(is_copied && is_refused && sides.copy(&next, true) == Ok(1))
}

#[test]
fn a_copy_follows_at_most_65536_commits(rt: HostRuntime) -> Result<(), Fail> {
    let is_most = is_most(&mut Sides::new(rt.alloc())?, 65_536);
    assert!(rt; is_most?);
    Ok(())
}

// A commit whose tree has one blob, of so many bytes.
fn put_long(sides: &mut Sides, count: usize) -> Result<Name, Fail> {
    let content = filled(sides.disk.alloc, b'x', count)?;
    let blob = put_object(&mut sides.disk, Kind::Blob, &content)?;
    sides.commit(&[("100644", "long", blob)], &[])
}

// Whether a blob of so many bytes is copied, and not one with one more.
fn is_longest(sides: &mut Sides, count: usize) -> Result<bool, Fail> {
    let whole = put_long(sides, count)?;
    let longer = put_long(sides, count.saturating_add(1))?;
    let is_copied = sides.copy(&whole, true) == Ok(3);
    Ok(is_copied && sides.copy(&longer, true) == Err(CopyFault::TooLarge(4_194_305)))
}

#[test]
fn an_object_has_at_most_4194304_bytes(rt: HostRuntime) -> Result<(), Fail> {
    let is_longest = is_longest(&mut Sides::new(rt.alloc())?, 4_194_291);
    assert!(rt; is_longest?);
    Ok(())
}
