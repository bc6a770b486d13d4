//! What the first commands on bugs print, write and leave, one after the other.
use fixtures::Disk;
use repo_state::{ClockFile, Side, clock, heads};
use run_fixtures::Row::{self, Done, Refused, Usage};
use run_fixtures::{DISK_FAULT, DONE, REFUSED, hold, run_into, run_words, sink};
use std::alloc::Global;
use std::test::Fail;

const BUG: &str = "b946b7380c3eb77a68d0dc6a49f8fb74554aad7c4dc3167cb4fe898d15cbfc63";

// Ids and names are those that a script apart from the program makes of the format.
const SESSION: &[Row] = &[
    Refused(&["f", "new", "", "m"], 2, "4 bad text 1", 0),
    Refused(&["f", "new", "t", "m"], 2, "1 no user", 0),
    Refused(&["f", "noop", BUG], 4, "1 no user", 0),
    Done(
        &["f", "user-new", "Ana", "ana@x"],
        1,
        "a206955f92c7be1bb318733460d3b85e208c8b1c8fb805c6d9991de1e0f35c00\n",
        5,
    ),
    Refused(&["f", "comment", BUG, "hi"], 3, "2 not found", 5),
    Done(
        &["f", "new", "Login fails", "Since monday"],
        2,
        "b946b7380c3eb77a68d0dc6a49f8fb74554aad7c4dc3167cb4fe898d15cbfc63\n",
        12,
    ),
    Refused(
        &["f", "new", "Login fails", "Since monday"],
        2,
        "9 entity exists b946b7380c3eb77a68d0dc6a49f8fb74554aad7c4dc3167cb4fe898d15cbfc63",
        12,
    ),
    Done(
        &["f", "comment", BUG, "hi"],
        3,
        "e4935016ce47972c287159671c9cc66a5f1ce2e49e398d1357bb86791390ebde\n",
        17,
    ),
    Refused(
        &["f", "comment", BUG, "hi"],
        3,
        "8 repeated operation e4935016ce47972c287159671c9cc66a5f1ce2e49e398d1357bb86791390ebde",
        17,
    ),
    Done(
        &["f", "noop", BUG],
        4,
        "239b4c7b0e733b50df3a82248123fd3d5b4d1866da84c86d9b488625380a9b3a\n",
        22,
    ),
    Done(
        &["f", "log", BUG],
        0,
        "1 d132c3385e8e582cab45db797188e127b7452808\n2 148a34b345ce0531b31a68e8055d81731f1cdabf\n3 f68ea21b9b5ffabf6862a263eca4c7fe5bf634bc\n",
        22,
    ),
];

/// What is shown of it then.
pub const SHOWN: &str =
    "bug b946b7380c3eb77a68d0dc6a49f8fb74554aad7c4dc3167cb4fe898d15cbfc63\ntitle Login fails\nstatus open\nauthor Ana\ncreated 1 102\nedited 3 104\nactor Ana\nparticipant Ana\ncomment bb99446b76380cb3eb777a683d0dc86a490f8fbc745534aade7c4dbc31677cb4 Ana 102\n    Since monday\ncomment be94496b73380c53eb707a681d0dc66a49cf8fbe745544aad77c4d9c31677cb4 Ana 103\n    hi\n";

const USERS: &str =
    "a206955f92c7be1bb318733460d3b85e208c8b1c8fb805c6d9991de1e0f35c00\tAna\tana@x\t*\n";

const VIEWS: &[Row] = &[
    Done(&["f", "show", BUG], 0, SHOWN, 22),
    Done(&["f", "users"], 0, USERS, 22),
    Refused(&["f", "show", "0"], 0, "2 not found", 22),
    Usage(&["f", "show"], 22),
    Usage(&["f", "users", "x"], 22),
];

// Of a folder without anything.
const EMPTY: &[Row] = &[
    Done(&["f", "users"], 0, "", 0),
    Refused(&["f", "show", "0"], 0, "2 not found", 0),
];

const WORDS: &[Row] = &[
    Refused(&["f", "new", " ", "m"], 9, "4 bad text 1", 0),
    Refused(&["f", "new", "a\nb", "\u{1}"], 9, "4 bad text 1", 0),
    Refused(&["f", "new", "t", "\u{7f}"], 9, "4 bad text 2", 0),
    Refused(&["f", "comment", "", "\u{1}"], 9, "4 bad text 2", 0),
    Refused(&["f", "comment", "x", "a\r\n\tb"], 9, "1 no user", 0),
    Refused(&["a/../b", "noop", BUG], 9, "17 bad folder", 0),
    Usage(&["f", "new", "t"], 0),
    Usage(&["f", "new", "t", "m", "x"], 0),
    Usage(&["f", "comment", BUG], 0),
    Usage(&["f", "noop"], 0),
    Usage(&["f", "noop", BUG, "x"], 0),
];

#[test]
fn a_first_bug_is_made_and_commented(rt: HostRuntime) -> Result<(), Fail> {
    let mut disk = Disk::new(rt.alloc())?;
    hold(&mut disk, EMPTY)?;
    hold(&mut disk, SESSION)?;
    hold(&mut disk, VIEWS)?;
    Ok(())
}

#[test]
fn words_of_bugs_keep_their_rules(rt: HostRuntime) -> Result<(), Fail> {
    let mut disk = Disk::new(rt.alloc())?;
    hold(&mut disk, WORDS)?;
    Ok(())
}

/// A bug of two comments and a no-op. Ids are those that a script apart from the program makes of the format.
pub const BEGUN: &[Row] = &[
    Done(
        &["f", "user-new", "Ana", "ana@x"],
        1,
        "a206955f92c7be1bb318733460d3b85e208c8b1c8fb805c6d9991de1e0f35c00\n",
        5,
    ),
    Done(
        &["f", "new", "Login fails", "Since monday"],
        2,
        "b946b7380c3eb77a68d0dc6a49f8fb74554aad7c4dc3167cb4fe898d15cbfc63\n",
        12,
    ),
    Done(
        &["f", "comment", BUG, "hi"],
        3,
        "e4935016ce47972c287159671c9cc66a5f1ce2e49e398d1357bb86791390ebde\n",
        17,
    ),
    Done(
        &["f", "noop", BUG],
        4,
        "239b4c7b0e733b50df3a82248123fd3d5b4d1866da84c86d9b488625380a9b3a\n",
        22,
    ),
];

// After the clock file holds 8.
const CAUGHT_UP: &[Row] = &[
    Done(
        &["f", "comment", BUG, ""],
        5,
        "2ae63bf668486df83aaf9bd5c7d578b734906187938cb420d8192d14a27d6a94\n",
        28,
    ),
    Done(
        &["f", "new", "x", ""],
        6,
        "e20d51f4b16fd71bc34a6ca4d78adc1f4e2b4f706e6c65425d5ea59c4fcb9aca\n",
        34,
    ),
];

// After it holds 2^62: a jump is the most that an edit takes, and a root has no later clock.
const CAPPED: &[Row] = &[
    Done(
        &[
            "f",
            "noop",
            "e20d51f4b16fd71bc34a6ca4d78adc1f4e2b4f706e6c65425d5ea59c4fcb9aca",
        ],
        7,
        "e2f01ceb819385990e636d9e46fffce25650e00b06f85d392d1c1e5f321fee5f\n",
        39,
    ),
    Done(
        &[
            "f",
            "log",
            "e20d51f4b16fd71bc34a6ca4d78adc1f4e2b4f706e6c65425d5ea59c4fcb9aca",
        ],
        0,
        "10 fbb9e5516fa99aaa5887c19de142f314124ec157\n1000010 add22fe9ad4b1131fbd5e1146fc6175e6c2dcb60\n",
        39,
    ),
    Done(
        &["f", "new", "y", ""],
        8,
        "d2f57988117be4ef549b63418ff9d59a79825cac198533967322d08a8e791808\n",
        44,
    ),
    Done(
        &[
            "f",
            "log",
            "d2f57988117be4ef549b63418ff9d59a79825cac198533967322d08a8e791808",
        ],
        0,
        "4611686018427387904 1f8f548b2a22002e44ce73ca1c32f73369e93420\n",
        44,
    ),
];

// The clocks of the folder, the create clock first.
fn clocks(disk: &mut Disk) -> Result<(u64, u64), Fail> {
    let create = clock(
        disk.alloc,
        &mut disk.store,
        &disk.folder,
        ClockFile::BugsCreate,
    )?;
    let edit = clock(
        disk.alloc,
        &mut disk.store,
        &disk.folder,
        ClockFile::BugsEdit,
    )?;
    Ok((create.value(), edit.value()))
}

#[test]
fn clocks_are_seen_and_capped(rt: HostRuntime) -> Result<(), Fail> {
    let mut disk = Disk::new(rt.alloc())?;
    hold(&mut disk, BEGUN)?;
    assert_eq!(rt; clocks(&mut disk)?, (1, 3));
    disk.put("f/git-bug/clocks/bugs-edit", b"8")?;
    hold(&mut disk, CAUGHT_UP)?;
    assert_eq!(rt; clocks(&mut disk)?, (2, 10));
    disk.put("f/git-bug/clocks/bugs-edit", b"4611686018427387904\n")?;
    hold(&mut disk, CAPPED)?;
    assert_eq!(rt; clocks(&mut disk)?, (3, 4_611_686_018_427_387_904));
    Ok(())
}

#[test]
fn a_title_of_four_megabytes_is_too_large(rt: HostRuntime) -> Result<(), Fail> {
    let mut disk = Disk::new(rt.alloc())?;
    hold(&mut disk, &BEGUN[..1])?;
    let mut sink = sink(disk.alloc);
    let mut title = String::new(disk.alloc);
    for _ in 0..4_194_304 {
        title.push('a')?;
    }
    let words = ["f", "new", title.as_str(), "x"];
    let status = run_into(&mut disk, &mut sink, &words, 2)?;
    assert_eq!(rt; status, REFUSED);
    assert!(rt; sink.bytes() == b"refused 13 too large 4194305\n".as_slice());
    assert_eq!(rt; disk.store.writes(), 5);
    Ok(())
}

// The words and the numbers of a person, a bug and a comment.
const STOPPED: &[(&[&str], u8)] = &[
    (&["f", "user-new", "Ana", "ana@x"], 1),
    (&["f", "new", "Login fails", "Since monday"], 2),
    (&["f", "comment", BUG, "hi"], 3),
];

// A person, a bug and a comment, in a store that fails at one call, before or after its write is made;
// then what did not succeed once more. Answers how the comment ended in the end, how many bugs there
// are, and the clocks.
fn stopped(alloc: Global, call: u64, after: bool) -> Result<(u8, usize, (u64, u64)), Fail> {
    let mut disk = Disk::failing(alloc, &[(call, after)])?;
    let mut last = DONE;
    for &(words, number) in STOPPED {
        last = run_words(&mut disk, words, number)?;
        if last == DISK_FAULT {
            last = run_words(&mut disk, words, number)?;
        }
    }
    let bugs = heads(alloc, &mut disk.store, &disk.folder, &Side::Bugs)?;
    let count = bugs.as_slice().len();
    Ok((last, count, clocks(&mut disk)?))
}

#[test]
fn a_failed_call_stops_a_command_on_a_bug(rt: HostRuntime) -> Result<(), Fail> {
    let alloc = rt.alloc();
    for call in 12..50 {
        for after in [false, true] {
            let (last, bugs, (create, edit)) = stopped(alloc, call, after)?;
            assert!(rt; last == DONE || last == REFUSED);
            assert_eq!(rt; bugs, 1);
            assert!(rt; create <= 1 && edit <= 2);
        }
    }
    Ok(())
}
