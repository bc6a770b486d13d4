//! The user and the people of a folder.
use fixtures::Disk;
use gb_store::StoreFault;
use gb_text::{Id, Line, Title};
use identity::{Made, new_version};
use repo_state::{Side, set_head, set_user};
use std::test::Fail;

const ANA: Id = Id { bytes: [10; 32] };

const ANA_PATH: &str =
    "f/refs/identities/0a0a0a0a0a0a0a0a0a0a0a0a0a0a0a0a0a0a0a0a0a0a0a0a0a0a0a0a0a0a0a0a";

const USER_PATH: &str = "f/git-bug/user";

// The user, if there is one and its file is not damaged.
fn user(disk: &mut Disk) -> Option<Id> {
    let read = repo_state::user(disk.alloc, &mut disk.store, &disk.folder);
    read.ok().flatten()
}

fn set_ana(disk: &mut Disk) -> Result<(), StoreFault> {
    set_user(disk.alloc, &mut disk.store, &disk.folder, &ANA)
}

#[test]
fn the_user_that_is_set_is_read(rt: HostRuntime) -> Result<(), Fail> {
    let mut disk = Disk::new(rt.alloc())?;
    disk.put(ANA_PATH, b"x")?;
    assert_eq!(rt; set_ana(&mut disk), Ok(()));
    assert_eq!(rt; user(&mut disk), Some(ANA));
    Ok(())
}

// Texts of a user file, and whether each names the user. All others are damaged.
const USERS: &[(&[u8], bool)] = &[
    (
        b"0a0a0a0a0a0a0a0a0a0a0a0a0a0a0a0a0a0a0a0a0a0a0a0a0a0a0a0a0a0a0a0a",
        true,
    ),
    (
        b"0a0a0a0a0a0a0a0a0a0a0a0a0a0a0a0a0a0a0a0a0a0a0a0a0a0a0a0a0a0a0a0a\n",
        true,
    ),
    (
        b"0a0a0a0a0a0a0a0a0a0a0a0a0a0a0a0a0a0a0a0a0a0a0a0a0a0a0a0a0a0a0a0a\n\n",
        false,
    ),
    (
        b"0A0A0A0A0A0A0A0A0A0A0A0A0A0A0A0A0A0A0A0A0A0A0A0A0A0A0A0A0A0A0A0A",
        false,
    ),
    (
        b"0b0b0b0b0b0b0b0b0b0b0b0b0b0b0b0b0b0b0b0b0b0b0b0b0b0b0b0b0b0b0b0b",
        false,
    ),
    (b"", false),
    (&[b'0'; 5000], false),
];

#[test]
fn a_user_file_has_64_digits_and_at_most_one_line_end(rt: HostRuntime) -> Result<(), Fail> {
    let mut disk = Disk::new(rt.alloc())?;
    disk.put(ANA_PATH, b"x")?;
    for (row, (text, is_ana)) in USERS.iter().enumerate() {
        disk.put(USER_PATH, text)?;
        assert_eq!(rt; user(&mut disk) == Some(ANA), *is_ana, "row {row}");
    }
    Ok(())
}

// Makes an identity with this name.
fn make(disk: &mut Disk, name: &Title, email: &Line) -> Result<Made, Fail> {
    let (store, folder) = (&mut disk.store, &disk.folder);
    Ok(new_version(disk.alloc, store, folder, None, name, email, &[7; 32], 100)?)
}

// Makes an identity with this name, and sets its head.
fn make_person(disk: &mut Disk, name: &str) -> Result<(), Fail> {
    let name = Title::read(disk.alloc, name)?.ok_or("a name")?;
    let email = Line::read(disk.alloc, "ana@x")?.ok_or("an email")?;
    let made = make(disk, &name, &email)?;
    let (store, folder) = (&mut disk.store, &disk.folder);
    set_head(
        disk.alloc,
        store,
        folder,
        &Side::Identities,
        &made.id,
        &made.head,
    )?;
    Ok(())
}

// The names of the people, each with a space after it.
fn names(disk: &mut Disk) -> Result<String, Fail> {
    let mut text = String::new(disk.alloc);
    let people = repo_state::names(disk.alloc, &mut disk.store, &disk.folder)?;
    for person in people.as_slice() {
        text.push_str(person.name.as_str())?;
        text.push_str(" ")?;
    }
    Ok(text)
}

// The id of Ana begins with c2, and that of Bob with 15.
#[test]
fn people_are_named_in_the_order_of_ids(rt: HostRuntime) -> Result<(), Fail> {
    let mut disk = Disk::new(rt.alloc())?;
    make_person(&mut disk, "Ana")?;
    make_person(&mut disk, "Bob")?;
    assert_eq!(rt; names(&mut disk)?.as_str(), "Bob Ana ");
    Ok(())
}
