//! Remote heads of an identity beside a local one.
use crate::chains::{ANA, BOB, WITH_KEYS, put_version};
use fixtures::Disk;
use gb_text::Name;
use identity::{AdvanceFault, IdentityFault, Step, advance, id_of_version};
use std::test::Fail;

// How the remote head of Ana's identity is taken up.
fn taken(disk: &mut Disk, local: Option<Name>, remote: &Name) -> Result<Step, AdvanceFault> {
    advance(
        disk.alloc,
        &mut disk.store,
        &disk.folder,
        &id_of_version(ANA),
        local,
        remote,
    )
}

// The words, and how many objects were read for each: two commits, two trees and two versions, of which
// the first commit is known.
#[test]
fn heads_are_new_then_known_then_forward(rt: HostRuntime) -> Result<(), Fail> {
    let mut disk = Disk::new(rt.alloc())?;
    let root = put_version(&mut disk, ANA, &[])?;
    let head = put_version(&mut disk, BOB, &[root])?;
    assert_eq!(rt; taken(&mut disk, None, &head).ok(), Some(Step::New));
    assert_eq!(rt; disk.store.reads(), 6);
    assert_eq!(rt;
        taken(&mut disk, Some(head), &head).ok(),
        Some(Step::Nothing)
    );
    assert_eq!(rt; disk.store.reads(), 6);
    assert_eq!(rt;
        taken(&mut disk, Some(head), &root).ok(),
        Some(Step::Nothing)
    );
    assert_eq!(rt; disk.store.reads(), 7);
    assert_eq!(rt;
        taken(&mut disk, Some(root), &head).ok(),
        Some(Step::Forward)
    );
    assert_eq!(rt; disk.store.reads(), 14);
    Ok(())
}

#[test]
fn chains_that_part_are_not_forward(rt: HostRuntime) -> Result<(), Fail> {
    let mut disk = Disk::new(rt.alloc())?;
    let root = put_version(&mut disk, ANA, &[])?;
    let ours = put_version(&mut disk, BOB, &[root])?;
    let theirs = put_version(&mut disk, ANA, &[root])?;
    assert_eq!(rt;
        taken(&mut disk, Some(ours), &theirs).err(),
        Some(AdvanceFault::NotForward(ours, theirs))
    );
    Ok(())
}

// What is wrong with the remote chain is told, unless its head is known: then whatever is wrong with the
// local chain is not looked for.
#[test]
fn faults_of_the_remote_chain_alone_are_told(rt: HostRuntime) -> Result<(), Fail> {
    let mut disk = Disk::new(rt.alloc())?;
    let root = put_version(&mut disk, ANA, &[])?;
    let keyed = put_version(&mut disk, WITH_KEYS, &[root])?;
    let other = put_version(&mut disk, BOB, &[])?;
    let fault = AdvanceFault::Invalid(IdentityFault::KeysPresent(keyed));
    assert_eq!(rt; taken(&mut disk, Some(root), &keyed).err(), Some(fault));
    assert_eq!(rt; taken(&mut disk, None, &keyed).err(), Some(fault));
    assert_eq!(rt;
        taken(&mut disk, Some(keyed), &root).ok(),
        Some(Step::Nothing)
    );
    let id = IdentityFault::WrongId(id_of_version(BOB));
    assert_eq!(rt;
        taken(&mut disk, Some(root), &other).err(),
        Some(AdvanceFault::Invalid(id))
    );
    Ok(())
}
