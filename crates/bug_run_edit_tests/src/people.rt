//! What the commands of persons print, write and leave, one after the other.
use fixtures::{Disk, id};
use repo_state::{Side, heads, names, user};
use run_fixtures::Row::{self, Done, Refused, Usage};
use run_fixtures::{DISK_FAULT, DONE, REFUSED, hold, run_at, run_into, run_words, sink};
use std::alloc::Global;
use std::test::Fail;

const ANA: &str = "a206955f92c7be1bb318733460d3b85e208c8b1c8fb805c6d9991de1e0f35c00\n";

const BO: &str = "1ad3ae4547bb1d614e5b427941cb338a23337548df8aa90ad06ab93e51e4ec20\n";

const SESSION: &[Row] = &[
    Refused(&["f", "user-edit", "x", "y"], 1, "1 no user", 0),
    Done(&["f", "user-new", "Ana", "ana@x"], 1, ANA, 5),
    Refused(
        &["f", "user-new", "Ana", "ana@x"],
        1,
        "9 entity exists a206955f92c7be1bb318733460d3b85e208c8b1c8fb805c6d9991de1e0f35c00",
        5,
    ),
    Done(&["f", "user-new", "Bo", "bo@x"], 2, BO, 9),
    Done(
        &[
            "f",
            "user-set",
            "1ad3ae4547bb1d614e5b427941cb338a23337548df8aa90ad06ab93e51e4ec20",
        ],
        9,
        BO,
        10,
    ),
    Done(&["f", "user-edit", "Bo2", "bo@x"], 4, BO, 14),
    Refused(&["f", "user-new", "", "x"], 4, "4 bad text 1", 14),
];

#[test]
fn a_first_person_edits_a_folder(rt: HostRuntime) -> Result<(), Fail> {
    let mut disk = Disk::new(rt.alloc())?;
    hold(&mut disk, SESSION)?;
    let bo = id("1ad3ae4547bb1d614e5b427941cb338a23337548df8aa90ad06ab93e51e4ec20")?;
    assert_eq!(rt; user(disk.alloc, &mut disk.store, &disk.folder)?, Some(bo));
    let people = names(disk.alloc, &mut disk.store, &disk.folder)?;
    let [first, second] = people.as_slice() else {
        return Err(Fail::from("two people"));
    };
    assert_eq!(rt; first.id, bo);
    assert_eq!(rt; first.name.as_str(), "Bo2");
    assert_eq!(rt;
        first.head.text(),
        *b"d6f548e5bc2b0770a584e36837766c75e74472b1"
    );
    assert_eq!(rt; second.name.as_str(), "Ana");
    Ok(())
}

// What is refused in a folder whose user file names no identity, by words alone, or by a word that
// names nobody.
const REFUSALS: &[Row] = &[
    Refused(
        &["f", "user-new", "Ana", "ana@x"],
        1,
        "14 damaged f/git-bug/user",
        1,
    ),
    Refused(
        &["f", "user-edit", "Ana", "ana@x"],
        1,
        "14 damaged f/git-bug/user",
        1,
    ),
    Refused(&["f", "user-edit", "Ana", "ana\n@x"], 1, "4 bad text 2", 1),
    Refused(
        &["f", "user-edit", "A\u{7f}na", "ana\n@x"],
        1,
        "4 bad text 1",
        1,
    ),
    Refused(
        &[
            "f",
            "user-set",
            "1ad3ae4547bb1d614e5b427941cb338a23337548df8aa90ad06ab93e51e4ec20",
        ],
        1,
        "2 not found",
        1,
    ),
    Refused(&["f", "user-set", ""], 1, "2 not found", 1),
    Refused(
        &["a/../b", "user-new", "Ana", "ana@x"],
        1,
        "17 bad folder",
        1,
    ),
    Usage(&["f", "user-new", "Ana"], 1),
    Usage(&["f", "user-set", "a", "b"], 1),
];

#[test]
fn refused_edits_write_nothing(rt: HostRuntime) -> Result<(), Fail> {
    let mut disk = Disk::new(rt.alloc())?;
    disk.put(
        "f/git-bug/user",
        b"a206955f92c7be1bb318733460d3b85e208c8b1c8fb805c6d9991de1e0f35c00\n",
    )?;
    hold(&mut disk, REFUSALS)?;
    Ok(())
}

const TAKEN: &[Row] = &[Refused(
    &["f", "user-new", "Ana", "ana@x"],
    1,
    "10 name taken d25ed61d16b3e7727459e236e98d8a171ed7b864",
    1,
)];

#[test]
fn another_text_under_the_name_of_the_blob_is_kept(rt: HostRuntime) -> Result<(), Fail> {
    let mut disk = Disk::new(rt.alloc())?;
    disk.put("f/objects/d2/5ed61d16b3e7727459e236e98d8a171ed7b864", b"x")?;
    hold(&mut disk, TAKEN)?;
    Ok(())
}

#[test]
fn a_name_of_four_megabytes_is_too_large(rt: HostRuntime) -> Result<(), Fail> {
    let mut disk = Disk::new(rt.alloc())?;
    let mut sink = sink(disk.alloc);
    let mut name = String::new(disk.alloc);
    for _ in 0..4_194_304 {
        name.push('a')?;
    }
    let words = ["f", "user-new", name.as_str(), "x"];
    assert_eq!(rt; run_into(&mut disk, &mut sink, &words, 1)?, REFUSED);
    assert!(rt; sink.bytes() == b"refused 13 too large 4194305\n".as_slice());
    assert_eq!(rt; disk.store.writes(), 0);
    Ok(())
}

#[test]
fn a_moment_before_1970_counts_as_0(rt: HostRuntime) -> Result<(), Fail> {
    let mut disk = Disk::new(rt.alloc())?;
    let mut sink = sink(disk.alloc);
    let words = ["g", "user-new", "Ana", "ana@x"];
    assert_eq!(rt; run_at(&mut disk, &mut sink, &words, -5, 1)?, DONE);
    let line = b"75d5e40e1775c8cc291fb23f98109bc81bc0396eb10a8fce49af5864f297f4f7\n";
    assert!(rt; sink.bytes() == line.as_slice());
    Ok(())
}

// Makes an identity in a store that fails at one call, before or after its write is made, and then
// once more. Answers the status of both and how many identities there are.
fn stopped(alloc: Global, call: u64, after: bool) -> Result<(u8, u8, usize), Fail> {
    let mut disk = Disk::failing(alloc, &[(call, after)])?;
    let words = ["f", "user-new", "Ana", "ana@x"];
    let first = run_words(&mut disk, &words, 1)?;
    let second = run_words(&mut disk, &words, 1)?;
    let people = heads(alloc, &mut disk.store, &disk.folder, &Side::Identities)?;
    Ok((first, second, people.as_slice().len()))
}

#[test]
fn a_failed_call_stops_an_edit(rt: HostRuntime) -> Result<(), Fail> {
    let alloc = rt.alloc();
    for call in 0..12 {
        let refused = if call < 10 { DONE } else { REFUSED };
        assert_eq!(rt;
            stopped(alloc, call, false)?,
            (DISK_FAULT, if call < 11 { DONE } else { REFUSED }, 1)
        );
        assert_eq!(rt; stopped(alloc, call, true)?, (DISK_FAULT, refused, 1));
    }
    assert_eq!(rt; stopped(alloc, 12, false)?.0, DONE);
    Ok(())
}

// Sets the user of a folder in a store that fails at one call. The twelve calls before this run make
// the person.
fn set_user_at(alloc: Global, call: u64) -> Result<u8, Fail> {
    let mut disk = Disk::failing(alloc, &[(call, false)])?;
    run_words(&mut disk, &["f", "user-new", "Ana", "ana@x"], 1)?;
    let ana = "a206955f92c7be1bb318733460d3b85e208c8b1c8fb805c6d9991de1e0f35c00";
    run_words(&mut disk, &["f", "user-set", ana], 1)
}

#[test]
fn a_user_is_set_without_a_look_at_the_user_file(rt: HostRuntime) -> Result<(), Fail> {
    let alloc = rt.alloc();
    assert_eq!(rt;
        set_user_at(alloc, 12)?,
        DISK_FAULT,
        "the packed refs are read"
    );
    assert_eq!(rt;
        set_user_at(alloc, 13)?,
        DISK_FAULT,
        "the ref of the word is read"
    );
    assert_eq!(rt; set_user_at(alloc, 14)?, DISK_FAULT, "the user file is put");
    assert_eq!(rt; set_user_at(alloc, 15)?, DONE, "and nothing else is asked");
    Ok(())
}
