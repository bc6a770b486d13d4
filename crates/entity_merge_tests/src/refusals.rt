//! Heads that are not joined.
use crate::heads::{
    ABSENT, FIRST, LAST, ONE, ONE_ID, SECOND, THIRD, TWO, fork, head_of, join, out, put, root,
};
use bug_ops::BugOp;
use dag_entity::EntityFault;
use entity_merge::{MergeFault, Merged};
use fixtures::{CREATE, Disk, put_under, remove_object};
use gb_store::Store;
use std::test::Fail;

#[test]
fn an_operation_of_both_is_refused(rt: HostRuntime) -> Result<(), Fail> {
    let mut disk = Disk::new(rt.alloc())?;
    let root = root(&mut disk)?;
    let local = put(&mut disk, &[root], SECOND, &[ONE])?;
    let remote = put(&mut disk, &[root], THIRD, &[ONE])?;
    let writes = disk.store.writes();
    let fault = MergeFault::Invalid(EntityFault::RepeatedOperation(ONE_ID));
    assert_eq!(rt; join::<BugOp>(&mut disk, Some(local), &remote), Err(fault));
    let new = out(Merged::New(remote), 3, 7);
    assert_eq!(rt; join::<BugOp>(&mut disk, None, &remote), new);
    assert_eq!(rt; disk.store.writes(), writes);
    Ok(())
}

#[test]
fn roots_of_both_are_refused(rt: HostRuntime) -> Result<(), Fail> {
    let mut disk = Disk::new(rt.alloc())?;
    let local = put(&mut disk, &[], FIRST, &[CREATE])?;
    let remote = put(&mut disk, &[], FIRST, &[CREATE, ONE])?;
    let writes = disk.store.writes();
    let one = MergeFault::Invalid(EntityFault::SecondRoot(local));
    let two = MergeFault::Invalid(EntityFault::SecondRoot(remote));
    let joined = join::<BugOp>(&mut disk, Some(local), &remote);
    assert!(rt; joined == Err(one) || joined == Err(two));
    assert_eq!(rt; disk.store.writes(), writes);
    Ok(())
}

#[test]
fn no_commit_follows_the_greatest_clock(rt: HostRuntime) -> Result<(), Fail> {
    let mut disk = Disk::new(rt.alloc())?;
    let (_, local, remote) = fork(&mut disk)?;
    let last = put(&mut disk, &[local, remote], LAST, &[])?;
    let next = put(&mut disk, &[local], THIRD, &[])?;
    let writes = disk.store.writes();
    let fault = MergeFault::Invalid(EntityFault::ClockFull(last));
    assert_eq!(rt; join::<BugOp>(&mut disk, Some(next), &last), Err(fault));
    assert_eq!(rt; disk.store.writes(), writes);
    Ok(())
}

#[test]
fn what_is_known_is_known_whatever_is_missing(rt: HostRuntime) -> Result<(), Fail> {
    let mut disk = Disk::new(rt.alloc())?;
    let local = put(&mut disk, &[ABSENT], SECOND, &[ONE])?;
    let nothing = out(Merged::Nothing, 0, 0);
    assert_eq!(rt; join::<BugOp>(&mut disk, Some(local), &ABSENT), nothing);
    assert_eq!(rt; join::<BugOp>(&mut disk, Some(ABSENT), &ABSENT), nothing);
    let fault = MergeFault::Invalid(EntityFault::Missing(ABSENT));
    assert_eq!(rt; join::<BugOp>(&mut disk, None, &ABSENT), Err(fault));
    assert_eq!(rt; join::<BugOp>(&mut disk, Some(ABSENT), &local), Err(fault));
    Ok(())
}

#[test]
fn the_local_side_is_judged_too(rt: HostRuntime) -> Result<(), Fail> {
    let mut disk = Disk::new(rt.alloc())?;
    let root = root(&mut disk)?;
    let low = put(&mut disk, &[root], SECOND, &[ONE])?;
    let local = put(&mut disk, &[low], THIRD, &[])?;
    let remote = put(&mut disk, &[root], SECOND, &[TWO])?;
    remove_object(&mut disk, &low)?;
    let fault = MergeFault::Invalid(EntityFault::Missing(low));
    assert_eq!(rt; join::<BugOp>(&mut disk, Some(local), &remote), Err(fault));
    Ok(())
}

#[test]
fn a_taken_name_stops_all(rt: HostRuntime) -> Result<(), Fail> {
    let mut disk = Disk::new(rt.alloc())?;
    let (_, local, remote) = fork(&mut disk)?;
    let head = head_of(&join::<BugOp>(&mut disk, Some(local), &remote));
    let mut disk = Disk::new(rt.alloc())?;
    let (_, local, remote) = fork(&mut disk)?;
    put_under(&mut disk, &head, b"x")?;
    let writes = disk.store.writes();
    let fault = MergeFault::Taken(head);
    assert_eq!(rt; join::<BugOp>(&mut disk, Some(local), &remote), Err(fault));
    assert_eq!(rt; disk.store.writes(), writes);
    Ok(())
}

#[test]
fn a_failing_disk_is_reported(rt: HostRuntime) -> Result<(), Fail> {
    // Nine puts come before the join, which reads 9 objects, looks at 4 and puts 4.
    for call in 9..26 {
        let mut disk = Disk::failing(rt.alloc(), &[(call, false)])?;
        let (_, local, remote) = fork(&mut disk)?;
        let joined = join::<BugOp>(&mut disk, Some(local), &remote);
        assert!(rt; joined == Err(MergeFault::Disk), "{call}");
        let joined = join::<BugOp>(&mut disk, Some(local), &remote);
        let head = head_of(&joined);
        assert!(rt; joined == out(Merged::Joined(head), 3, 7), "{call}");
    }
    Ok(())
}
