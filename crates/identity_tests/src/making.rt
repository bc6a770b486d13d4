//! What no clause says of making versions: worked names, and that calls succeed.
use fixtures::{Disk, filled, id, name, put_under};
use gb_text::{Line, Name, Title};
use identity::{Made, Person, new_version, plan_version, read_chain, read_last, versions};
use object_store::PutFault;
use std::alloc::Global;
use std::test::Fail;

// This name, and an email.
fn named(alloc: Global, name: &str) -> Result<(Title, Line), PutFault> {
    let name = Title::read(alloc, name)?.ok_or(PutFault::Memory)?;
    let email = Line::read(alloc, "ana@x")?.ok_or(PutFault::Memory)?;
    Ok((name, email))
}

// Makes a version with this name.
fn make(disk: &mut Disk, parent: Option<Name>, name: &str) -> Result<Made, PutFault> {
    let (name, email) = named(disk.alloc, name)?;
    let (store, folder) = (&mut disk.store, &disk.folder);
    new_version(
        disk.alloc, store, folder, parent, &name, &email, &[7; 32], 100,
    )
}

// What would be made of the same.
fn plan(alloc: Global, parent: Option<Name>, name: &str) -> Result<Made, PutFault> {
    let (name, email) = named(alloc, name)?;
    Ok(plan_version(alloc, parent, &name, &email, &[7; 32], 100)?.made)
}

// What the version of Ana is to be.
fn ana() -> Result<Made, Fail> {
    Ok(Made {
        id: id("c2cce04c7df5848d9b83d62b57736ed566b562bb824e58caaa49bd2c451f5427")?,
        head: name("a89113bbde92bf17b1aed90e601eebd48dead51a")?,
    })
}

#[test]
fn a_version_is_made_once(rt: HostRuntime) -> Result<(), Fail> {
    let mut disk = Disk::new(rt.alloc())?;
    let Made { id, head } = ana()?;
    assert_eq!(rt; make(&mut disk, None, "Ana")?, Made { id, head });
    assert_eq!(rt; disk.store.writes(), 3);
    assert_eq!(rt; make(&mut disk, None, "Ana")?, Made { id, head });
    assert_eq!(rt; disk.store.writes(), 3);
    let next = name("2a9414ebd4f87b44e1af6cdeef7c866c65735c9a")?;
    assert_eq!(rt;
        make(&mut disk, Some(head), "Ana")?,
        Made { id, head: next }
    );
    assert_eq!(rt; disk.store.writes(), 4);
    Ok(())
}

#[test]
fn a_plan_is_what_is_made(rt: HostRuntime) -> Result<(), Fail> {
    let alloc = rt.alloc();
    let mut disk = Disk::new(alloc)?;
    let first = plan(alloc, None, "Ana")?;
    let second = plan(alloc, Some(first.head), "Eva")?;
    assert_eq!(rt; disk.store.writes(), 0);
    assert_eq!(rt; make(&mut disk, None, "Ana"), Ok(first));
    assert_eq!(rt; make(&mut disk, Some(first.head), "Eva"), Ok(second));
    Ok(())
}

#[test]
fn a_taken_blob_stops_the_version(rt: HostRuntime) -> Result<(), Fail> {
    let mut disk = Disk::new(rt.alloc())?;
    let blob = name("aec2069b4dcfca750e4142f60950fe55bae2f4b9")?;
    put_under(&mut disk, &blob, b"x")?;
    assert_eq!(rt; make(&mut disk, None, "Ana"), Err(PutFault::Taken(blob)));
    assert_eq!(rt; disk.store.writes(), 1);
    Ok(())
}

#[test]
fn a_long_name_stops_the_version(rt: HostRuntime) -> Result<(), Fail> {
    let mut disk = Disk::new(rt.alloc())?;
    let bytes = filled(disk.alloc, b'x', 4_194_304)?;
    let name = String::from_utf8_lossy(disk.alloc, &bytes)?;
    let large = PutFault::Large(4_194_305);
    assert_eq!(rt; make(&mut disk, None, name.as_str()), Err(large));
    assert_eq!(rt; plan(rt.alloc(), None, name.as_str()), Err(large));
    assert_eq!(rt; disk.store.writes(), 0);
    Ok(())
}

// Makes a version in a store that fails at this call, and then once more. Answers whether the disk's
// fault was told, and how many writes stood after each.
fn stopped(alloc: Global, call: u64) -> Result<(bool, u64, u64), Fail> {
    let mut disk = Disk::failing(alloc, &[(call, false)])?;
    let told = make(&mut disk, None, "Ana") == Err(PutFault::Disk);
    let written = disk.store.writes();
    make(&mut disk, None, "Ana")?;
    Ok((told, written, disk.store.writes()))
}

#[test]
fn a_write_that_fails_keeps_those_before_it(rt: HostRuntime) -> Result<(), Fail> {
    // Three reads come first, and then the three writes.
    assert_eq!(rt; stopped(rt.alloc(), 3)?, (true, 0, 3));
    assert_eq!(rt; stopped(rt.alloc(), 4)?, (true, 1, 3));
    assert_eq!(rt; stopped(rt.alloc(), 5)?, (true, 2, 3));
    Ok(())
}

fn person_of(disk: &mut Disk, made: &Made) -> Result<Person, Fail> {
    let (store, folder) = (&mut disk.store, &disk.folder);
    Ok(read_chain(disk.alloc, store, folder, &made.id, &made.head)?)
}

fn last_of(disk: &mut Disk, made: &Made) -> Result<Person, Fail> {
    let (store, folder) = (&mut disk.store, &disk.folder);
    Ok(read_last(disk.alloc, store, folder, &made.id, &made.head)?)
}

fn count_of(disk: &mut Disk, made: &Made) -> Result<u64, Fail> {
    let (store, folder) = (&mut disk.store, &disk.folder);
    Ok(versions(disk.alloc, store, folder, &made.id, &made.head)?)
}

#[test]
fn a_version_that_is_made_is_a_person(rt: HostRuntime) -> Result<(), Fail> {
    let mut disk = Disk::new(rt.alloc())?;
    let made = make(&mut disk, None, "Ana")?;
    let person = person_of(&mut disk, &made)?;
    assert_eq!(rt; (person.id, person.head), (made.id, made.head));
    assert_eq!(rt; person.name.as_str(), "Ana");
    assert_eq!(rt; last_of(&mut disk, &made)?.email.as_str(), "ana@x");
    assert_eq!(rt; count_of(&mut disk, &made)?, 1);
    Ok(())
}
