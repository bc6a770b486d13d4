//! A bug is worked on: its title, status, labels and metadata change, or they don't.
use crate::bugs::BEGUN;
use fixtures::Disk;
use run_fixtures::Row::{self, Done, Refused, Usage};
use run_fixtures::{DONE, REFUSED, hold, run_words};
use std::alloc::Global;
use std::test::Fail;

const BUG: &str = "b946b7380c3eb77a68d0dc6a49f8fb74554aad7c4dc3167cb4fe898d15cbfc63";

// An id is the SHA-256 of the operation's text, so it tells the title of before, the labels that
// change in their order, and the target.
const CHANGES: &[Row] = &[
    Done(
        &["f", "title", BUG, "Login works"],
        5,
        "86515501d98b9f562fb5d727c51b3664e9f2c2c09e4fdae57246dca31859f383\n",
        27,
    ),
    Done(
        &["f", "title", BUG, "Login works"],
        6,
        "17013ea02344abdfa5556a4a821bc6b70a57c8d1c23782303e3a1bbd79f0f599\n",
        32,
    ),
    Done(
        &["f", "close", BUG],
        7,
        "c1544e98bb3a3800bab18ca27da2505abbef30288532992768fccf9b06ff25e3\n",
        37,
    ),
    Refused(&["f", "close", BUG], 8, "6 same status", 37),
    Done(
        &["f", "open", BUG],
        9,
        "f03ffd584c39695f9fb01415820bd2e3cac10cd243b32a2c4675a55890b486f1\n",
        42,
    ),
    Refused(&["f", "open", BUG], 10, "6 same status", 42),
    Done(
        &["f", "label-add", BUG, "b", "a", "b"],
        11,
        "27af4e7058e09e8f6023c1eff1d47f88e33d4121dad1fd16bc1f66d19e0e4b80\n",
        47,
    ),
    Refused(&["f", "label-add", BUG, "a"], 12, "5 no label change", 47),
    Done(
        &["f", "label-add", BUG, "c", "a"],
        13,
        "7597a4a8f4f2c7dd80a3b0c01d9ffe99cd173a62c65c11effc99b4bffeab8795\n",
        52,
    ),
    Refused(&["f", "label-rm", BUG, "x"], 14, "5 no label change", 52),
    Done(
        &["f", "label-rm", BUG, "c", "x", "a"],
        15,
        "19910e828c3fd7a3c4ed19756a3ed4f2f46c10cc23defdc6a4576e1d23ca5306\n",
        57,
    ),
    Done(
        &["f", "meta", BUG, "k", "v"],
        16,
        "52a08175c83bd29d411fb97d04992b1e07390aeb08c8b513f0b9e5a8e0eebd40\n",
        62,
    ),
    Refused(
        &["f", "meta", BUG, "k", "v"],
        16,
        "8 repeated operation 52a08175c83bd29d411fb97d04992b1e07390aeb08c8b513f0b9e5a8e0eebd40",
        62,
    ),
    Done(
        &["f", "meta", BUG, "k", "w"],
        17,
        "8c42e39b6115a0c9f32deea1570e67469e78cb73776f1ce0a7b50b6d6984bb5c\n",
        67,
    ),
];

// What is shown of it then: the value that was set first stands under the key.
const SHOWN: &str =
    "bug b946b7380c3eb77a68d0dc6a49f8fb74554aad7c4dc3167cb4fe898d15cbfc63\ntitle Login works\nstatus open\nlabel b\nauthor Ana\ncreated 1 102\nedited 12 117\nactor Ana\nparticipant Ana\nmetadata \"k\" \"v\"\ncomment bb99446b76380cb3eb777a683d0dc86a490f8fbc745534aade7c4dbc31677cb4 Ana 102\n    Since monday\ncomment be94496b73380c53eb707a681d0dc66a49cf8fbe745544aad77c4d9c31677cb4 Ana 103\n    hi\n";

const VIEWS: &[Row] = &[Done(&["f", "show", BUG], 0, SHOWN, 67)];

// Words come before all else.
const WORDS: &[Row] = &[
    Refused(&["f", "title", BUG, ""], 9, "4 bad text 2", 0),
    Refused(&["f", "title", "", " "], 9, "4 bad text 2", 0),
    Refused(&["f", "title", BUG, "a\nb"], 9, "4 bad text 2", 0),
    Refused(&["f", "label-add", BUG, "a", ""], 9, "4 bad text 3", 0),
    Refused(
        &["f", "label-add", BUG, "a", "b", "c", "\u{7f}"],
        9,
        "4 bad text 5",
        0,
    ),
    Refused(&["f", "label-rm", BUG, "\u{1}", ""], 9, "4 bad text 2", 0),
    Refused(&["f", "meta", BUG, "", "\u{1}"], 9, "4 bad text 2", 0),
    Refused(&["f", "meta", BUG, "k", "\u{1}"], 9, "4 bad text 3", 0),
    Refused(&["f", "title", "0", "t"], 9, "1 no user", 0),
    Refused(&["f", "close", "0"], 9, "1 no user", 0),
    Refused(&["f", "open", BUG], 9, "1 no user", 0),
    Refused(&["f", "label-add", BUG, "a"], 9, "1 no user", 0),
    Refused(&["f", "label-rm", BUG, "a"], 9, "1 no user", 0),
    Refused(&["f", "meta", BUG, "k", ""], 9, "1 no user", 0),
    Usage(&["f", "title", BUG], 0),
    Usage(&["f", "title", BUG, "a", "b"], 0),
    Usage(&["f", "close"], 0),
    Usage(&["f", "close", BUG, "x"], 0),
    Usage(&["f", "open"], 0),
    Usage(&["f", "label-add", BUG], 0),
    Usage(&["f", "label-add"], 0),
    Usage(&["f", "label-rm", BUG], 0),
    Usage(&["f", "meta", BUG, "k"], 0),
    Usage(&["f", "meta", BUG, "k", "v", "x"], 0),
];

// With a user, and without the bug.
const UNKNOWN: &[Row] = &[
    Refused(&["f", "title", "0", ""], 9, "4 bad text 2", 5),
    Refused(&["f", "title", "0", "t"], 9, "2 not found", 5),
    Refused(&["f", "close", BUG], 9, "2 not found", 5),
    Refused(&["f", "open", BUG], 9, "2 not found", 5),
    Refused(&["f", "label-add", BUG, "a"], 9, "2 not found", 5),
    Refused(&["f", "label-rm", BUG, "a"], 9, "2 not found", 5),
    Refused(&["f", "meta", BUG, "k", "v"], 9, "2 not found", 5),
];

// With a head that is none, which comes before what the bug says.
const DAMAGED: &[Row] = &[
    Refused(
        &["f", "open", BUG],
        9,
        "14 damaged f/refs/bugs/b946b7380c3eb77a68d0dc6a49f8fb74554aad7c4dc3167cb4fe898d15cbfc63",
        23,
    ),
    Refused(
        &["f", "label-rm", BUG, "a"],
        9,
        "14 damaged f/refs/bugs/b946b7380c3eb77a68d0dc6a49f8fb74554aad7c4dc3167cb4fe898d15cbfc63",
        23,
    ),
    Refused(&["f", "label-rm", BUG, ""], 9, "4 bad text 2", 23),
];

#[test]
fn a_bug_is_worked_on(rt: HostRuntime) -> Result<(), Fail> {
    let mut disk = Disk::new(rt.alloc())?;
    hold(&mut disk, BEGUN)?;
    hold(&mut disk, CHANGES)?;
    hold(&mut disk, VIEWS)
}

#[test]
fn words_of_changes_keep_their_rules(rt: HostRuntime) -> Result<(), Fail> {
    let mut disk = Disk::new(rt.alloc())?;
    hold(&mut disk, WORDS)?;
    hold(&mut disk, &BEGUN[..1])?;
    hold(&mut disk, UNKNOWN)
}

#[test]
fn a_damaged_bug_is_not_worked_on(rt: HostRuntime) -> Result<(), Fail> {
    let mut disk = Disk::new(rt.alloc())?;
    hold(&mut disk, BEGUN)?;
    disk.put(
        "f/refs/bugs/b946b7380c3eb77a68d0dc6a49f8fb74554aad7c4dc3167cb4fe898d15cbfc63",
        b"x",
    )?;
    hold(&mut disk, DAMAGED)
}

// The labels from `l100` to the one before this.
fn labels(alloc: Global, end: u32) -> Result<Vec<String>, Fail> {
    let mut labels = Vec::new(alloc);
    for number in 100..end {
        labels.push(format!(in alloc; "l{number}")?)?;
    }
    Ok(labels)
}

// How a change of all these labels ends.
fn change(disk: &mut Disk, name: &str, labels: &[String], number: u8) -> Result<u8, Fail> {
    let mut words = Vec::new(disk.alloc);
    for word in ["f", name, BUG] {
        words.push(word)?;
    }
    for label in labels {
        words.push(label.as_str())?;
    }
    run_words(disk, &words, number)
}

#[test]
fn three_hundred_labels_are_put_on_and_taken_off(rt: HostRuntime) -> Result<(), Fail> {
    let alloc = rt.alloc();
    let mut disk = Disk::new(alloc)?;
    hold(&mut disk, BEGUN)?;
    let most = labels(alloc, 399)?;
    let labels = labels(alloc, 400)?;
    assert_eq!(rt; change(&mut disk, "label-rm", &labels, 5)?, REFUSED);
    assert_eq!(rt; change(&mut disk, "label-add", &labels, 6)?, DONE);
    assert_eq!(rt; change(&mut disk, "label-add", &labels, 7)?, REFUSED);
    assert_eq!(rt; change(&mut disk, "label-rm", &most, 8)?, DONE);
    assert_eq!(rt; change(&mut disk, "label-rm", &labels, 9)?, DONE);
    assert_eq!(rt; change(&mut disk, "label-rm", &labels, 10)?, REFUSED);
    Ok(())
}
