//! Arguments that begin with `-`, and those after `--`.
use crate::bugs::BEGUN;
use fixtures::Disk;
use run_fixtures::Row::{self, Done, Refused, Usage};
use run_fixtures::hold;
use std::test::Fail;

const BUG: &str = "b946b7380c3eb77a68d0dc6a49f8fb74554aad7c4dc3167cb4fe898d15cbfc63";

// Over an empty folder, where what is a command is refused for want of a user, a bug or a person.
const READ: &[Row] = &[
    Refused(&["f", "title", "0", "-"], 9, "1 no user", 0),
    Refused(&["f", "title", "-", "t"], 9, "1 no user", 0),
    Usage(&["f", "title", "0", "-x"], 0),
    Usage(&["f", "title", "-x", "t"], 0),
    Usage(&["f", "title", "0", "-1"], 0),
    Usage(&["f", "title", "0", "--x"], 0),
    Usage(&["f", "title", "0", "--=é"], 0),
    Usage(&["f", "title", "0", "-é"], 0),
    Usage(&["f", "title", "0", "---"], 0),
    Usage(&["f", "title", "0", "--help"], 0),
    Usage(&["f", "title", "0", "-h"], 0),
    Usage(&["f", "title", "0", "--version"], 0),
    Usage(&["f", "title", "0", "t", "-x"], 0),
    Usage(&["f", "title", "0", "--"], 0),
    Usage(&["f", "title", "--", "0"], 0),
    Refused(&["f", "title", "--", "0", "t"], 9, "1 no user", 0),
    Refused(&["f", "title", "0", "--", "t"], 9, "1 no user", 0),
    Refused(&["f", "title", "0", "t", "--"], 9, "1 no user", 0),
    Refused(&["f", "title", "0", "--", "-x"], 9, "1 no user", 0),
    Refused(&["f", "title", "0", "--", "--help"], 9, "1 no user", 0),
    Refused(&["f", "title", "--", "-0", "--=é"], 9, "1 no user", 0),
    Refused(&["f", "title", "0", "--", "--"], 9, "1 no user", 0),
    Refused(&["f", "title", "--", "--", "--"], 9, "1 no user", 0),
    Usage(&["f", "title", "--", "0", "--", "t"], 0),
    Usage(&["f", "title", "-x", "--", "t"], 0),
    Refused(&["f", "title", "--", "0", "\u{1}"], 9, "4 bad text 2", 0),
    Refused(
        &["f", "label-add", "0", "--", "-a", ""],
        9,
        "4 bad text 3",
        0,
    ),
    Usage(&["f", "label-add", "0", "a", "-b"], 0),
    Usage(&["f", "label-rm", "0", "--"], 0),
    Refused(&["f", "label-rm", "0", "a", "--", "-b"], 9, "1 no user", 0),
    Refused(&["f", "meta", "0", "--", "-k", "-v"], 9, "1 no user", 0),
    Usage(&["f", "meta", "0", "k", "-v"], 0),
    Refused(&["f", "comment", "0", "--", "-\n-"], 9, "1 no user", 0),
    Usage(&["f", "comment", "0", "-\u{1}"], 0),
    Refused(&["f", "close", "--", "-0"], 9, "1 no user", 0),
    Usage(&["f", "open", "-0"], 0),
    Refused(&["f", "noop", "0", "--"], 9, "1 no user", 0),
    Refused(&["f", "new", "--", "-t", "-m"], 9, "1 no user", 0),
    Usage(&["f", "new", "t", "-m"], 0),
    Refused(&["f", "user-new", "--", "\n", "-e"], 9, "4 bad text 1", 0),
    Usage(&["f", "user-new", "-n", "e"], 0),
    Refused(&["f", "user-edit", "n", "--", "-e"], 9, "1 no user", 0),
    Refused(&["f", "user-set", "--", "-0"], 9, "2 not found", 0),
    Refused(&["f", "log", "-"], 9, "2 not found", 0),
    Refused(&["f", "show", "--", "--"], 9, "2 not found", 0),
    Usage(&["f", "show", "--"], 0),
    Usage(&["f", "users", "-x"], 0),
    Done(&["f", "users", "--"], 9, "", 0),
    Usage(&["f", "users", "--", "--"], 0),
    Usage(&["f", "-x", "0"], 0),
    Usage(&["f", "--", "users"], 0),
    Usage(&["--", "f", "users"], 0),
    Done(&["-f", "users"], 9, "", 0),
    Done(&["--", "users"], 9, "", 0),
    Usage(&["", "log", "-x"], 0),
    Refused(&["", "log", "--", "-x"], 9, "17 bad folder", 0),
];

// A title and labels that begin with `-`.
const EDITED: &[Row] = &[
    Usage(&["f", "title", BUG, "-x"], 22),
    Done(
        &["f", "title", BUG, "--", "-x"],
        5,
        "6ef4aad88689a541079f5987070a2b6cd3ea492be5be9601ec31d2b8f6258bc6\n",
        27,
    ),
    Done(
        &["f", "label-add", BUG, "--", "-a", "-b"],
        6,
        "9ed39505e29a73e9ccd6a413d50596fc9ad752fdaa952033efad91466789df86\n",
        32,
    ),
    Done(&["f", "show", "--", BUG], 0, SHOWN, 32),
];

const SHOWN: &str =
    "bug b946b7380c3eb77a68d0dc6a49f8fb74554aad7c4dc3167cb4fe898d15cbfc63\ntitle -x\nstatus open\nlabel -a\nlabel -b\nauthor Ana\ncreated 1 102\nedited 5 106\nactor Ana\nparticipant Ana\ncomment bb99446b76380cb3eb777a683d0dc86a490f8fbc745534aade7c4dbc31677cb4 Ana 102\n    Since monday\ncomment be94496b73380c53eb707a681d0dc66a49cf8fbe745544aad77c4d9c31677cb4 Ana 103\n    hi\n";

#[test]
fn arguments_are_read_up_to_two_dashes(rt: HostRuntime) -> Result<(), Fail> {
    let mut disk = Disk::new(rt.alloc())?;
    hold(&mut disk, READ)
}

#[test]
fn titles_and_labels_begin_with_a_dash(rt: HostRuntime) -> Result<(), Fail> {
    let mut disk = Disk::new(rt.alloc())?;
    hold(&mut disk, BEGUN)?;
    hold(&mut disk, EDITED)
}
