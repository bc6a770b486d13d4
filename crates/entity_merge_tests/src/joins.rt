//! Heads that are joined: the four words.
use crate::heads::{
    ANA, BOB, FIRST, LAST, ONE, SECOND, THIRD, TWO, counts_of, fork, head_of, join, join_as, out,
    put, root,
};
use bug_ops::BugOp;
use dag_entity::EntityFault;
use entity_merge::Merged;
use fixtures::{CREATE, Disk};
use gb_store::Store;
use op_kind::AnyOp;
use std::test::Fail;

#[test]
fn heads_that_are_apart_are_joined(rt: HostRuntime) -> Result<(), Fail> {
    let mut disk = Disk::new(rt.alloc())?;
    let (_, local, remote) = fork(&mut disk)?;
    assert_eq!(rt; disk.store.writes(), 9);
    let joined = join::<BugOp>(&mut disk, Some(local), &remote);
    assert_eq!(rt; disk.store.reads(), 9 + 4);
    assert_eq!(rt; disk.store.writes(), 9 + 4);
    let head = head_of(&joined);
    assert_eq!(rt; joined, out(Merged::Joined(head), 3, 7));
    assert_eq!(rt; counts_of::<BugOp>(&mut disk, &head), Ok((4, 3)));
    Ok(())
}

#[test]
fn a_join_is_seen_again(rt: HostRuntime) -> Result<(), Fail> {
    let mut disk = Disk::new(rt.alloc())?;
    let (_, local, remote) = fork(&mut disk)?;
    let joined = join::<BugOp>(&mut disk, Some(local), &remote);
    let head = head_of(&joined);
    let writes = disk.store.writes();
    let nothing = out(Merged::Nothing, 0, 0);
    assert_eq!(rt; join::<BugOp>(&mut disk, Some(head), &remote), nothing);
    assert_eq!(rt; join::<BugOp>(&mut disk, Some(head), &local), nothing);
    let forward = out(Merged::Forward(head), 3, 7);
    assert_eq!(rt; join::<BugOp>(&mut disk, Some(remote), &head), forward);
    let new = out(Merged::New(head), 3, 7);
    assert_eq!(rt; join::<BugOp>(&mut disk, None, &head), new);
    assert_eq!(rt; disk.store.writes(), writes);
    assert_eq!(rt; join::<BugOp>(&mut disk, Some(local), &remote), joined);
    assert_eq!(rt; disk.store.writes(), writes);
    Ok(())
}

#[test]
fn what_is_known_costs_few_reads(rt: HostRuntime) -> Result<(), Fail> {
    let mut disk = Disk::new(rt.alloc())?;
    let (root, local, _) = fork(&mut disk)?;
    let nothing = out(Merged::Nothing, 0, 0);
    assert_eq!(rt; join::<BugOp>(&mut disk, Some(local), &local), nothing);
    assert_eq!(rt; disk.store.reads(), 0);
    assert_eq!(rt; join::<BugOp>(&mut disk, Some(local), &root), nothing);
    assert_eq!(rt; disk.store.reads(), 1);
    Ok(())
}

#[test]
fn the_first_head_of_an_entity_is_new(rt: HostRuntime) -> Result<(), Fail> {
    let mut disk = Disk::new(rt.alloc())?;
    let root = root(&mut disk)?;
    let next = put(&mut disk, &[root], THIRD, &[ONE])?;
    let new = out(Merged::New(root), 1, 7);
    assert_eq!(rt; join::<BugOp>(&mut disk, None, &root), new);
    let forward = out(Merged::Forward(next), 3, 7);
    assert_eq!(rt; join::<BugOp>(&mut disk, Some(root), &next), forward);
    Ok(())
}

#[test]
fn a_head_with_the_greatest_clock_is_taken(rt: HostRuntime) -> Result<(), Fail> {
    let mut disk = Disk::new(rt.alloc())?;
    let (_, local, remote) = fork(&mut disk)?;
    let last = put(&mut disk, &[local, remote], LAST, &[])?;
    let new = out(Merged::New(last), 9223372036854775807, 7);
    assert_eq!(rt; join::<BugOp>(&mut disk, None, &last), new);
    let forward = out(Merged::Forward(last), 9223372036854775807, 7);
    assert_eq!(rt; join::<BugOp>(&mut disk, Some(local), &last), forward);
    Ok(())
}

#[test]
fn a_merge_clock_is_above_the_folders(rt: HostRuntime) -> Result<(), Fail> {
    let mut disk = Disk::new(rt.alloc())?;
    let (_, local, remote) = fork(&mut disk)?;
    let joined = join_as::<BugOp>(&mut disk, Some(local), &remote, &ANA, b"5000000");
    let head = head_of(&joined);
    assert_eq!(rt; joined, out(Merged::Joined(head), 5_000_001, 7));
    assert_eq!(rt; counts_of::<BugOp>(&mut disk, &head), Ok((4, 3)));
    Ok(())
}

#[test]
fn an_author_who_is_not_known_can_join(rt: HostRuntime) -> Result<(), Fail> {
    let mut disk = Disk::new(rt.alloc())?;
    let (_, local, remote) = fork(&mut disk)?;
    let joined = join_as::<BugOp>(&mut disk, Some(local), &remote, &BOB, b"");
    let head = head_of(&joined);
    assert_eq!(rt; joined, out(Merged::Joined(head), 3, 7));
    let unknown = EntityFault::AuthorUnknown(BOB);
    assert_eq!(rt; counts_of::<BugOp>(&mut disk, &head), Err(unknown));
    Ok(())
}

#[test]
fn both_sides_joining_agree_on_the_operations(rt: HostRuntime) -> Result<(), Fail> {
    let mut disk = Disk::new(rt.alloc())?;
    let (_, local, remote) = fork(&mut disk)?;
    let here = head_of(&join::<BugOp>(&mut disk, Some(local), &remote));
    let there = head_of(&join::<BugOp>(&mut disk, Some(remote), &local));
    assert!(rt; here != there);
    let again = join::<BugOp>(&mut disk, Some(here), &there);
    let head = head_of(&again);
    assert_eq!(rt; again, out(Merged::Joined(head), 4, 7));
    assert_eq!(rt; counts_of::<BugOp>(&mut disk, &head), Ok((6, 3)));
    Ok(())
}

#[test]
fn every_kind_is_joined(rt: HostRuntime) -> Result<(), Fail> {
    let mut disk = Disk::new(rt.alloc())?;
    let root = put(&mut disk, &[], FIRST, &[CREATE])?;
    let local = put(&mut disk, &[root], SECOND, &[ONE])?;
    let remote = put(&mut disk, &[root], THIRD, &[TWO])?;
    let joined = join::<AnyOp>(&mut disk, Some(local), &remote);
    let head = head_of(&joined);
    assert_eq!(rt; joined, out(Merged::Joined(head), 4, 7));
    assert_eq!(rt; counts_of::<AnyOp>(&mut disk, &head), Ok((4, 3)));
    Ok(())
}
