//! Bugs at the limits of sizes.
use crate::bugs::{ANA_DIGITS, read_one, read_two};
use bug_ops::BugOp;
use dag_entity::{Entity, EntityFault};
use fixtures::{CREATE, Disk, EMPTY, filled, pack_text, push_entry, put_commit, put_object};
use gb_text::Name;
use git_object::Kind;
use op_kind::OpKind;
use std::alloc::Global;
use std::test::Fail;

fn put_pack(disk: &mut Disk, ops: &[&[u8]]) -> Result<Name, Fail> {
    let text = pack_text(disk.alloc, ANA_DIGITS, ops)?;
    put_object(disk, Kind::Blob, &text)
}

// The content of a tree with this clock and this pack.
fn tree_content(alloc: Global, clock: u64, ops: &Name) -> Result<Vec<u8>, Fail> {
    let mut content = Vec::new(alloc);
    let edit = format!(in alloc; "edit-clock-{clock}")?;
    push_entry(&mut content, "100644", &edit, &EMPTY)?;
    push_entry(&mut content, "100644", "ops", ops)?;
    push_entry(&mut content, "100644", "version-4", &EMPTY)?;
    Ok(content)
}

// Puts a commit with this clock and this pack.
fn put_above(disk: &mut Disk, clock: u64, ops: &Name, parents: &[Name]) -> Result<Name, Fail> {
    let content = tree_content(disk.alloc, clock, ops)?;
    let tree = put_object(disk, Kind::Tree, &content)?;
    put_commit(disk, &tree, parents)
}

// Puts the same with one entry more.
fn put_beside(disk: &mut Disk, clock: u64, ops: &Name, parents: &[Name]) -> Result<Name, Fail> {
    let mut content = tree_content(disk.alloc, clock, ops)?;
    push_entry(&mut content, "100644", "x", &EMPTY)?;
    let tree = put_object(disk, Kind::Tree, &content)?;
    put_commit(disk, &tree, parents)
}

// Puts the first commit, which has the clock 1.
fn put_root(disk: &mut Disk) -> Result<Name, Fail> {
    let ops = put_pack(disk, &[CREATE])?;
    let mut content = Vec::new(disk.alloc);
    push_entry(&mut content, "100644", "create-clock-1", &EMPTY)?;
    content.extend_from_slice(&tree_content(disk.alloc, 1, &ops)?)?;
    let tree = put_object(disk, Kind::Tree, &content)?;
    put_commit(disk, &tree, &[])
}

// How many commits a bug has, and its edit clock.
fn numbers<K: OpKind>(read: Result<Entity<K>, EntityFault>) -> Result<(u64, u64), EntityFault> {
    let entity = read?;
    Ok((entity.commits, entity.edit))
}

// Whether the bug below a head has these numbers or this fault, by so many object reads.
fn is_one(
    disk: &mut Disk,
    head: &Name,
    wanted: Result<(u64, u64), EntityFault>,
    reads: u64,
) -> bool {
    let before = disk.store.reads();
    let found = numbers(read_one::<BugOp>(disk, head));
    found == wanted && disk.store.reads() == before.saturating_add(reads)
}

// The same of two heads.
fn is_two(
    disk: &mut Disk,
    heads: (Name, Name),
    wanted: Result<(u64, u64), EntityFault>,
    reads: u64,
) -> bool {
    let before = disk.store.reads();
    let found = numbers(read_two::<BugOp>(disk, &heads.0, &heads.1));
    found == wanted && disk.store.reads() == before.saturating_add(reads)
}

// Puts two commits above a low one, and their merge.
fn put_diamond(disk: &mut Disk, clock: u64, ops: &Name, low: Name) -> Result<Name, Fail> {
    let left = put_above(disk, clock, ops, &[low])?;
    let right = put_beside(disk, clock, ops, &[low])?;
    put_above(disk, clock.saturating_add(1), ops, &[left, right])
}

// Puts so many diamonds, each above the one before, and answers the last merge.
fn put_diamonds(disk: &mut Disk, count: u64) -> Result<Name, Fail> {
    let ops = put_pack(disk, &[])?;
    let mut head = put_root(disk)?;
    let mut clock = 2u64;
    for _ in 0..count {
        head = put_diamond(disk, clock, &ops, head)?;
        clock = clock.saturating_add(2);
    }
    Ok(head)
}

#[test]
fn what_parents_share_is_read_once(rt: HostRuntime) -> Result<(), Fail> {
    let mut disk = Disk::new(rt.alloc())?;
    let head = put_diamonds(&mut disk, 16_384)?;
    assert!(rt; is_one(&mut disk, &head, Ok((49_153, 32_769)), 147_459));
    Ok(())
}

// Puts a chain of so many commits, and answers the last but one and the last.
fn put_chain(disk: &mut Disk, count: u64) -> Result<(Name, Name), Fail> {
    let ops = put_pack(disk, &[])?;
    let mut head = put_root(disk)?;
    let mut low = head;
    for number in 1..count {
        low = head;
        head = put_above(disk, number.saturating_add(1), &ops, &[low])?;
    }
    Ok((low, head))
}

#[test]
fn there_are_65536_commits_at_most(rt: HostRuntime) -> Result<(), Fail> {
    let mut disk = Disk::new(rt.alloc())?;
    let ops = put_pack(&mut disk, &[])?;
    let (low, head) = put_chain(&mut disk, 65_535)?;
    let side = put_beside(&mut disk, 65_535, &ops, &[low])?;
    let fault = EntityFault::TooLarge(65_537);
    assert!(rt; is_two(&mut disk, (head, side), Err(fault), 196_608));
    let above = put_above(&mut disk, 65_536, &ops, &[head])?;
    assert!(rt; is_one(&mut disk, &above, Ok((65_536, 65_536)), 196_608));
    let over = put_above(&mut disk, 65_537, &ops, &[above])?;
    assert!(rt; is_one(&mut disk, &over, Err(fault), 65_537));
    Ok(())
}

// Adds an operation to the text of a pack.
fn push_operation(text: &mut Vec<u8>, time: u64, alloc: Global) -> Result<(), Fail> {
    text.extend_from_slice(b"{\"nonce\":\"AAAAAAAAAAAAAAAAAAAAAAAAAAA=\",\"timestamp\":")?;
    text.extend_from_slice(format!(in alloc; "{time}")?.as_bytes())?;
    text.extend_from_slice(b",\"type\":7}")?;
    Ok(())
}

// So many operations with commas between them.
fn operations(alloc: Global, count: u64) -> Result<Vec<u8>, Fail> {
    let mut text = Vec::new(alloc);
    for time in 0..count {
        if time > 0 {
            text.push(b',')?;
        }
        push_operation(&mut text, time, alloc)?;
    }
    Ok(text)
}

// Puts a commit with so many operations above the first.
fn put_operations(disk: &mut Disk, root: &Name, count: u64) -> Result<Name, Fail> {
    let text = operations(disk.alloc, count)?;
    let ops = put_pack(disk, &[&text])?;
    put_above(disk, 2, &ops, &[*root])
}

#[test]
fn a_pack_has_4096_operations_at_most(rt: HostRuntime) -> Result<(), Fail> {
    let mut disk = Disk::new(rt.alloc())?;
    let root = put_root(&mut disk)?;
    let most = put_operations(&mut disk, &root, 4_096)?;
    assert!(rt; is_one(&mut disk, &most, Ok((2, 2)), 6));
    let more = put_operations(&mut disk, &root, 4_097)?;
    assert!(rt; is_one(&mut disk, &more, Err(EntityFault::TooLarge(4_097)), 4));
    Ok(())
}

// Puts a commit above the first, whose pack's text has so many bytes by spaces behind it.
fn put_wide(disk: &mut Disk, root: &Name, size: usize) -> Result<Name, Fail> {
    let mut text = pack_text(disk.alloc, ANA_DIGITS, &[])?;
    let rest = size.saturating_sub(text.len());
    text.extend_from_slice(&filled(disk.alloc, b' ', rest)?)?;
    let ops = put_object(disk, Kind::Blob, &text)?;
    put_above(disk, 2, &ops, &[*root])
}

#[test]
fn a_file_has_4_mebibytes_at_most(rt: HostRuntime) -> Result<(), Fail> {
    let mut disk = Disk::new(rt.alloc())?;
    let root = put_root(&mut disk)?;
    let most = put_wide(&mut disk, &root, 4_194_291)?;
    assert!(rt; is_one(&mut disk, &most, Ok((2, 2)), 6));
    let more = put_wide(&mut disk, &root, 4_194_292)?;
    assert!(rt; is_one(&mut disk, &more, Err(EntityFault::TooLarge(4_194_305)), 4));
    Ok(())
}
