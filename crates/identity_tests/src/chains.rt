//! Chains of versions in a store in memory.
use fixtures::{Disk, filled, put_commit, put_object, put_tree, put_under};
use gb_text::Name;
use git_object::Kind;
use identity::{IdentityFault, Person, id_of_version, read_chain, read_last, versions};
use std::test::Fail;

pub const ANA: &[u8] =
    b"{\"version\":2,\"unix_time\":0,\"nonce\":\"AAAAAAAAAAAAAAAAAAAAAAAAAAA=\",\"name\":\"Ana\",\"email\":\"a@x\"}";

pub const BOB: &[u8] =
    b"{\"version\":2,\"unix_time\":0,\"nonce\":\"AAAAAAAAAAAAAAAAAAAAAAAAAAA=\",\"login\":\"Bob\",\"email\":\"b@x\"}";

pub const WITH_KEYS: &[u8] =
    b"{\"version\":2,\"unix_time\":0,\"nonce\":\"AAAAAAAAAAAAAAAAAAAAAAAAAAA=\",\"name\":\"Ana\",\"pub_keys\":[\"k\"]}";

const ABSENT: Name = Name { bytes: [7; 20] };

const DAMAGED: Name = Name { bytes: [8; 20] };

const LARGE: Name = Name { bytes: [9; 20] };

// Puts a tree whose only entry has this mode and name, and a commit with it.
fn put_head(disk: &mut Disk, mode: &str, name: &str, object: &Name) -> Result<Name, Fail> {
    let tree = put_tree(disk, mode, name, object)?;
    put_commit(disk, &tree, &[])
}

// Puts a commit with a version of this text.
pub fn put_version(disk: &mut Disk, text: &[u8], parents: &[Name]) -> Result<Name, Fail> {
    let blob = put_object(disk, Kind::Blob, text)?;
    let tree = put_tree(disk, "100644", "version", &blob)?;
    put_commit(disk, &tree, parents)
}

// The chain that is to have the id of Ana.
fn chain_of(disk: &mut Disk, head: &Name) -> Result<Person, IdentityFault> {
    read_chain(
        disk.alloc,
        &mut disk.store,
        &disk.folder,
        &id_of_version(ANA),
        head,
    )
}

// The same, by its last version alone.
fn last_of(disk: &mut Disk, head: &Name) -> Result<Person, IdentityFault> {
    read_last(
        disk.alloc,
        &mut disk.store,
        &disk.folder,
        &id_of_version(ANA),
        head,
    )
}

fn count_of(disk: &mut Disk, head: &Name) -> Result<u64, Fail> {
    Ok(versions(
        disk.alloc,
        &mut disk.store,
        &disk.folder,
        &id_of_version(ANA),
        head,
    )?)
}

// Whether this is the person, with the id of Ana.
fn is_person(person: &Person, name: &str, email: &str, head: &Name) -> bool {
    let texts = person.name.as_str() == name && person.email.as_str() == email;
    texts && person.id == id_of_version(ANA) && person.head == *head
}

#[test]
fn a_chain_is_the_person_of_its_last_version(rt: HostRuntime) -> Result<(), Fail> {
    let mut disk = Disk::new(rt.alloc())?;
    let root = put_version(&mut disk, ANA, &[])?;
    let head = put_version(&mut disk, BOB, &[root])?;
    assert!(rt; is_person(&chain_of(&mut disk, &head)?, "Bob", "b@x", &head));
    assert_eq!(rt; disk.store.reads(), 6);
    assert!(rt; is_person(&last_of(&mut disk, &head)?, "Bob", "b@x", &head));
    assert_eq!(rt; disk.store.reads(), 9);
    assert_eq!(rt; count_of(&mut disk, &head)?, 2);
    Ok(())
}

// The head of a chain of so many commits, which take two versions in turn.
fn put_in_turn(disk: &mut Disk, count: u64) -> Result<Name, Fail> {
    let mut head = put_version(disk, ANA, &[])?;
    for number in 1..count {
        let text = if number % 2 == 0 { ANA } else { BOB };
        head = put_version(disk, text, &[head])?;
    }
    Ok(head)
}

// Six commits, two trees, two versions.
#[test]
fn what_commits_share_is_read_once(rt: HostRuntime) -> Result<(), Fail> {
    let mut disk = Disk::new(rt.alloc())?;
    let head = put_in_turn(&mut disk, 6)?;
    assert!(rt; is_person(&chain_of(&mut disk, &head)?, "Bob", "b@x", &head));
    assert_eq!(rt; disk.store.reads(), 10);
    Ok(())
}

// Whether both readings of a head name this fault.
fn both_name(disk: &mut Disk, head: &Name, fault: IdentityFault) -> bool {
    let whole = chain_of(disk, head).err();
    let last = last_of(disk, head).err();
    whole == Some(fault) && last == Some(fault)
}

// A folder with a damaged file and one that is too large.
fn spoil(disk: &mut Disk) -> Result<(), Fail> {
    put_under(disk, &DAMAGED, b"blob 1\0a")?;
    let large = filled(disk.alloc, 0, 4_194_305)?;
    put_under(disk, &LARGE, &large)
}

#[test]
fn what_the_tree_names_is_judged(rt: HostRuntime) -> Result<(), Fail> {
    let mut disk = Disk::new(rt.alloc())?;
    spoil(&mut disk)?;
    let blob = put_object(&mut disk, Kind::Blob, ANA)?;
    let absent = put_head(&mut disk, "100755", "version", &ABSENT)?;
    assert!(rt; both_name(&mut disk, &absent, IdentityFault::Missing(ABSENT)));
    let damaged = put_head(&mut disk, "100644", "version", &DAMAGED)?;
    assert!(rt; both_name(&mut disk, &damaged, IdentityFault::Damaged(DAMAGED)));
    let large = put_head(&mut disk, "100644", "version", &LARGE)?;
    assert!(rt; both_name(&mut disk, &large, IdentityFault::TooLarge(4_194_305)));
    let link = put_head(&mut disk, "120000", "version", &blob)?;
    assert!(rt; both_name(&mut disk, &link, IdentityFault::BadVersion(link)));
    let other = put_head(&mut disk, "100644", "versions", &blob)?;
    assert!(rt; both_name(&mut disk, &other, IdentityFault::BadVersion(other)));
    Ok(())
}

#[test]
fn heads_and_trees_of_another_kind_are_named(rt: HostRuntime) -> Result<(), Fail> {
    let mut disk = Disk::new(rt.alloc())?;
    let blob = put_object(&mut disk, Kind::Blob, ANA)?;
    let head = put_commit(&mut disk, &blob, &[])?;
    assert!(rt; both_name(&mut disk, &ABSENT, IdentityFault::Missing(ABSENT)));
    assert!(rt; both_name(&mut disk, &blob, IdentityFault::NotCommit(blob)));
    assert!(rt; both_name(&mut disk, &head, IdentityFault::BadVersion(head)));
    Ok(())
}

#[test]
fn texts_that_are_no_version_are_named(rt: HostRuntime) -> Result<(), Fail> {
    let mut disk = Disk::new(rt.alloc())?;
    let head = put_version(&mut disk, b"{}", &[])?;
    assert!(rt; both_name(&mut disk, &head, IdentityFault::BadVersion(head)));
    let head = put_version(&mut disk, WITH_KEYS, &[])?;
    assert!(rt; both_name(&mut disk, &head, IdentityFault::KeysPresent(head)));
    Ok(())
}

// Whether the chain has this fault, and its last version has none.
fn lies_below(disk: &mut Disk, head: &Name, fault: IdentityFault) -> bool {
    chain_of(disk, head).err() == Some(fault) && last_of(disk, head).is_ok()
}

#[test]
fn faults_below_the_head_are_those_of_the_chain(rt: HostRuntime) -> Result<(), Fail> {
    let mut disk = Disk::new(rt.alloc())?;
    let ana = put_version(&mut disk, ANA, &[])?;
    let bob = put_version(&mut disk, BOB, &[])?;
    let merge = put_version(&mut disk, ANA, &[ana, bob])?;
    assert!(rt; lies_below(&mut disk, &merge, IdentityFault::NotLinear(merge)));
    let other = put_version(&mut disk, ANA, &[bob])?;
    assert!(rt;
        lies_below(
            &mut disk,
            &other,
            IdentityFault::WrongId(id_of_version(BOB))
        )
    );
    let keyed = put_version(&mut disk, WITH_KEYS, &[ana])?;
    let above = put_version(&mut disk, ANA, &[keyed])?;
    assert!(rt; lies_below(&mut disk, &above, IdentityFault::KeysPresent(keyed)));
    Ok(())
}

// Puts a chain of so many commits of one tree, and answers the last.
fn put_long(disk: &mut Disk, count: u64) -> Result<Name, Fail> {
    let blob = put_object(disk, Kind::Blob, ANA)?;
    let tree = put_tree(disk, "100644", "version", &blob)?;
    let mut head = put_commit(disk, &tree, &[])?;
    for _ in 1..count {
        head = put_commit(disk, &tree, &[head])?;
    }
    Ok(head)
}

#[test]
fn no_more_than_65536_versions_are_read(rt: HostRuntime) -> Result<(), Fail> {
    let mut disk = Disk::new(rt.alloc())?;
    let head = put_long(&mut disk, 65_537)?;
    let fault = IdentityFault::TooLarge(65_537);
    assert_eq!(rt; chain_of(&mut disk, &head).err(), Some(fault));
    Ok(())
}
