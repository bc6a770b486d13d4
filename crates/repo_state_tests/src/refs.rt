//! Where the refs of each side stand, and that each call on them can succeed.
use fixtures::{Disk, EMPTY, text_at};
use gb_store::StoreFault;
use gb_text::{Id, Name};
use remote_name::RemoteName;
use repo_state::{HeadEntry, Side};
use std::alloc::Global;
use std::test::Fail;

const BUG: Id = Id { bytes: [10; 32] };

fn set_head(disk: &mut Disk, side: &Side) -> Result<(), StoreFault> {
    repo_state::set_head(
        disk.alloc,
        &mut disk.store,
        &disk.folder,
        side,
        &BUG,
        &EMPTY,
    )
}

// The head of the bug, if it is read.
fn head(disk: &mut Disk) -> Option<Name> {
    let read = repo_state::head(disk.alloc, &mut disk.store, &disk.folder, &Side::Bugs, &BUG);
    read.ok().flatten()
}

fn stands(disk: &mut Disk) -> Result<bool, StoreFault> {
    repo_state::stands(disk.alloc, &mut disk.store, &disk.folder, &Side::Bugs, &BUG)
}

// The bug that digits find.
fn find(disk: &mut Disk, digits: &str) -> Option<Id> {
    repo_state::find(
        disk.alloc,
        &mut disk.store,
        &disk.folder,
        &Side::Bugs,
        digits,
    )
    .ok()
}

// Whether the bug and its head are listed alone.
fn lists_heads(disk: &mut Disk) -> bool {
    match repo_state::heads(disk.alloc, &mut disk.store, &disk.folder, &Side::Bugs) {
        Ok(heads) => heads.as_slice()
            == &[HeadEntry {
                id: BUG,
                name: EMPTY,
            }][..],
        Err(_) => false,
    }
}

// How many refs of bugs stand, and how many of them have a head.
fn count_refs(disk: &mut Disk) -> Result<usize, StoreFault> {
    let refs = repo_state::all_refs(disk.alloc, &mut disk.store, &disk.folder, &Side::Bugs)?;
    Ok(refs.len())
}

// How many ids of bugs are listed.
fn count_ids(disk: &mut Disk) -> Result<usize, StoreFault> {
    let ids = repo_state::ids(disk.alloc, &mut disk.store, &disk.folder, &Side::Bugs)?;
    Ok(ids.len())
}

#[test]
fn a_head_that_is_set_is_found(rt: HostRuntime) -> Result<(), Fail> {
    let mut disk = Disk::new(rt.alloc())?;
    assert_eq!(rt; set_head(&mut disk, &Side::Bugs), Ok(()));
    assert_eq!(rt; head(&mut disk), Some(EMPTY));
    assert_eq!(rt; stands(&mut disk), Ok(true));
    assert_eq!(rt; find(&mut disk, "0a0"), Some(BUG));
    Ok(())
}

#[test]
fn a_head_that_is_set_is_listed(rt: HostRuntime) -> Result<(), Fail> {
    let mut disk = Disk::new(rt.alloc())?;
    assert_eq!(rt; set_head(&mut disk, &Side::Bugs), Ok(()));
    assert!(rt; lists_heads(&mut disk));
    assert_eq!(rt; count_refs(&mut disk), Ok(1));
    assert_eq!(rt; count_ids(&mut disk), Ok(1));
    Ok(())
}

// The remote of the tests.
fn origin(alloc: Global) -> Result<RemoteName, Fail> {
    Ok(RemoteName::read(alloc, "origin")?.ok_or("a remote")?)
}

// Whether a ref that is set on a side stands in the directory.
fn is_set_in(disk: &mut Disk, side: Side, dir: &str) -> Result<bool, Fail> {
    set_head(disk, &side)?;
    let path = format!(in disk.alloc;
        "f/{dir}/0a0a0a0a0a0a0a0a0a0a0a0a0a0a0a0a0a0a0a0a0a0a0a0a0a0a0a0a0a0a0a0a"
    )?;
    let text = text_at(disk, &path)?;
    Ok(text.is_some_and(|text| text.as_str() == "e69de29bb2d1d6434b8b29ae775ad8c2e48c5391\n"))
}

#[test]
fn each_side_has_a_directory(rt: HostRuntime) -> Result<(), Fail> {
    let mut disk = Disk::new(rt.alloc())?;
    let bugs = Side::RemoteBugs(origin(rt.alloc())?);
    let identities = Side::RemoteIdentities(origin(rt.alloc())?);
    assert!(rt; is_set_in(&mut disk, Side::Bugs, "refs/bugs")?);
    assert!(rt; is_set_in(&mut disk, Side::Identities, "refs/identities")?);
    assert!(rt; is_set_in(&mut disk, bugs, "refs/remotes/origin/bugs")?);
    assert!(rt; is_set_in(&mut disk, identities, "refs/remotes/origin/identities")?);
    Ok(())
}
