//! What is told where a file is damaged or a name is taken, also where memory suffices: no clause keeps
//! want of memory apart from these refusals.
use crate::bugs::{BEGUN, SHOWN};
use fixtures::{Disk, id};
use gb_text::Id;
use repo_state::{FindStop, Missed, read_bug};
use run_fixtures::Row::{self, Done, Refused};
use run_fixtures::{DONE, REFUSED, hold, run_into, run_words, sink};
use std::alloc::Global;
use std::test::Fail;

const BUG: &str = "b946b7380c3eb77a68d0dc6a49f8fb74554aad7c4dc3167cb4fe898d15cbfc63";

const ANA: &str =
    "f/refs/identities/a206955f92c7be1bb318733460d3b85e208c8b1c8fb805c6d9991de1e0f35c00";

const BO: &str =
    "f/refs/identities/1ad3ae4547bb1d614e5b427941cb338a23337548df8aa90ad06ab93e51e4ec20";

const USER: &str = "f/git-bug/user";

// A head that no folder holds.
const NOTHING: &str = "0000000000000000000000000000000000000000\n";

/// A folder in which the first rows of a session were run and then a file was put, with what is run
/// there.
struct Case {
    begun: usize,
    path: &'static str,
    bytes: &'static str,
    rows: &'static [Row],
}

const CASES: &[Case] = &[
    Case {
        begun: 4,
        path: BO,
        bytes: "x",
        rows: OTHER,
    },
    Case {
        begun: 4,
        path: BO,
        bytes: NOTHING,
        rows: OTHER,
    },
    Case {
        begun: 4,
        path: ANA,
        bytes: "x",
        rows: OWN,
    },
    Case {
        begun: 4,
        path: ANA,
        bytes: NOTHING,
        rows: OWN,
    },
    Case {
        begun: 4,
        path: USER,
        bytes: "x",
        rows: FILE,
    },
    Case {
        begun: 1,
        path: "f/objects/d1/32c3385e8e582cab45db797188e127b7452808",
        bytes: "x",
        rows: ROOT,
    },
    Case {
        begun: 2,
        path: "f/objects/14/8a34b345ce0531b31a68e8055d81731f1cdabf",
        bytes: "x",
        rows: COMMENT,
    },
];

// With a ref of another person that is no ref text, or whose head is missing.
const OTHER: &[Row] = &[
    Refused(
        &["f", "users"],
        0,
        "14 damaged f/refs/identities/1ad3ae4547bb1d614e5b427941cb338a23337548df8aa90ad06ab93e51e4ec20",
        23,
    ),
    Refused(
        &["f", "show", BUG],
        0,
        "14 damaged f/refs/identities/1ad3ae4547bb1d614e5b427941cb338a23337548df8aa90ad06ab93e51e4ec20",
        23,
    ),
];

// With such a ref of the user.
const OWN: &[Row] = &[
    Refused(
        &["f", "user-edit", "Ana", "ana@y"],
        9,
        "14 damaged f/refs/identities/a206955f92c7be1bb318733460d3b85e208c8b1c8fb805c6d9991de1e0f35c00",
        23,
    ),
    Refused(
        &["f", "users"],
        0,
        "14 damaged f/refs/identities/a206955f92c7be1bb318733460d3b85e208c8b1c8fb805c6d9991de1e0f35c00",
        23,
    ),
    Refused(
        &["f", "show", BUG],
        0,
        "14 damaged f/refs/identities/a206955f92c7be1bb318733460d3b85e208c8b1c8fb805c6d9991de1e0f35c00",
        23,
    ),
];

// With a user file that is no id.
const FILE: &[Row] = &[
    Refused(&["f", "users"], 0, "14 damaged f/git-bug/user", 23),
    Refused(&["f", "new", "t", "m"], 9, "14 damaged f/git-bug/user", 23),
    Refused(&["f", "noop", BUG], 9, "14 damaged f/git-bug/user", 23),
    Done(&["f", "show", BUG], 0, SHOWN, 23),
];

// With other bytes under the name of the commit that is to be written.
const ROOT: &[Row] = &[Refused(
    &["f", "new", "Login fails", "Since monday"],
    2,
    "10 name taken d132c3385e8e582cab45db797188e127b7452808",
    6,
)];

const COMMENT: &[Row] = &[Refused(
    &["f", "comment", BUG, "hi"],
    3,
    "10 name taken 148a34b345ce0531b31a68e8055d81731f1cdabf",
    13,
)];

#[test]
fn damage_and_taken_names_are_told(rt: HostRuntime) -> Result<(), Fail> {
    for case in CASES {
        let mut disk = Disk::new(rt.alloc())?;
        for row in BEGUN.iter().take(case.begun) {
            hold(&mut disk, &[*row])?;
        }
        disk.put(case.path, case.bytes.as_bytes())?;
        hold(&mut disk, case.rows)?;
    }
    Ok(())
}

// The bug is shown as before to three people more.
const SHOWN_TO_MANY: &[Row] = &[Done(&["f", "show", BUG], 0, SHOWN, 34)];

#[test]
fn a_bug_is_shown_to_many(rt: HostRuntime) -> Result<(), Fail> {
    let mut disk = Disk::new(rt.alloc())?;
    hold(&mut disk, BEGUN)?;
    for number in 5..8 {
        let words = ["f", "user-new", "Bo", "bo@x"];
        assert_eq!(rt; run_words(&mut disk, &words, number)?, DONE);
    }
    hold(&mut disk, SHOWN_TO_MANY)
}

// A text of so many letters.
fn letters(alloc: Global, count: u32) -> Result<String, Fail> {
    let mut text = String::new(alloc);
    for _ in 0..count {
        text.push('a')?;
    }
    Ok(text)
}

#[test]
fn a_comment_of_four_megabytes_is_too_large(rt: HostRuntime) -> Result<(), Fail> {
    let mut disk = Disk::new(rt.alloc())?;
    hold(&mut disk, BEGUN)?;
    let message = letters(disk.alloc, 4_194_304)?;
    let words = ["f", "comment", BUG, message.as_str()];
    let mut sink = sink(disk.alloc);
    assert_eq!(rt; run_into(&mut disk, &mut sink, &words, 5)?, REFUSED);
    assert!(rt; sink.bytes() == b"refused 13 too large 4194305\n".as_slice());
    Ok(())
}

#[test]
fn a_long_comment_is_written(rt: HostRuntime) -> Result<(), Fail> {
    let mut disk = Disk::new(rt.alloc())?;
    hold(&mut disk, BEGUN)?;
    let message = letters(disk.alloc, 100_000)?;
    let words = ["f", "comment", BUG, message.as_str()];
    assert_eq!(rt; run_words(&mut disk, &words, 6)?, DONE);
    Ok(())
}

#[test]
fn an_empty_value_is_written(rt: HostRuntime) -> Result<(), Fail> {
    let mut disk = Disk::new(rt.alloc())?;
    hold(&mut disk, BEGUN)?;
    let words = ["f", "meta", BUG, "k", ""];
    assert_eq!(rt; run_words(&mut disk, &words, 7)?, DONE);
    Ok(())
}

#[test]
fn a_folder_with_a_long_word_is_read(rt: HostRuntime) -> Result<(), Fail> {
    let mut disk = Disk::new(rt.alloc())?;
    let folder = letters(disk.alloc, 100_000)?;
    let words = [folder.as_str(), "users"];
    assert_eq!(rt; run_words(&mut disk, &words, 8)?, DONE);
    Ok(())
}

// How many packs the bug with an id has. The contract of `read_bug` is long, so nothing goes on behind
// it here.
fn packs(disk: &mut Disk, bug: &Id) -> Result<usize, FindStop> {
    let entity = read_bug(disk.alloc, &mut disk.store, &disk.folder, bug)?;
    Ok(entity.packs.as_slice().len())
}

#[test]
fn a_bug_is_read_by_its_id(rt: HostRuntime) -> Result<(), Fail> {
    let mut disk = Disk::new(rt.alloc())?;
    hold(&mut disk, BEGUN)?;
    let bug = id(BUG)?;
    assert!(rt; matches!(packs(&mut disk, &bug), Ok(3)));
    let other = Id::from_bytes([7; 32]);
    assert!(rt;
        matches!(
            packs(&mut disk, &other),
            Err(FindStop::Missed(Missed::NotFound))
        )
    );
    disk.put(
        "f/refs/bugs/b946b7380c3eb77a68d0dc6a49f8fb74554aad7c4dc3167cb4fe898d15cbfc63",
        b"x",
    )?;
    assert!(rt;
        matches!(
            packs(&mut disk, &bug),
            Err(FindStop::Missed(Missed::Damaged(_)))
        )
    );
    Ok(())
}
