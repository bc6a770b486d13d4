//! A list costs what is new: how many objects are read and rows written for many bugs, and for one of many commits.
use fixtures::{Disk, name, put_ops, text_at};
use run_fixtures::Step::{Commits, Does, Has, Puts, Read, Shortens, Wrote};
use run_fixtures::{DONE, Script, Step, run_at, sink};
use std::alloc::Global;
use std::test::Fail;

// How many bugs a folder gets.
const MANY: i64 = 1_000;

const PERSON: &[Step] = &[Does(&["f", "user-new", "Ana", "ana@x"], 1, "$A\n")];

// Makes a bug of this number.
fn new(disk: &mut Disk, number: i64) -> Result<(), Fail> {
    let title = format!(in disk.alloc; "title {number}")?;
    let mut sink = sink(disk.alloc);
    let words = ["f", "new", title.as_str(), "message"];
    let status = run_at(disk, &mut sink, &words, number, 7)?;
    if status == DONE {
        return Ok(());
    }
    Err(Fail::new(format_args!("{title:?}: ended with {status}")))
}

// The text of a list that wrote so many rows and read so many objects.
fn listed(script: &mut Script, writes: u64, reads: u64) -> Result<String, Fail> {
    let list = script.printed(&["f", "ls", "title:title"], 9)?;
    script.play(&[Wrote(writes), Read(reads)])?;
    Ok(list)
}

#[test]
fn a_thousand_bugs_are_read_once(rt: HostRuntime) -> Result<(), Fail> {
    let mut script = Script::new(rt.alloc(), "f")?;
    script.play(PERSON)?;
    for number in 0..MANY {
        new(&mut script.disk, number)?;
    }
    let first = listed(&mut script, 1_000, 3_003)?;
    assert_eq!(rt; first.as_str().lines().count(), 1_000);
    let second = listed(&mut script, 0, 3)?;
    assert_eq!(rt; second.as_str(), first.as_str());
    let id = script.printed(&["f", "new", "One more", "m"], 10)?;
    let bug = id.as_str().trim_end();
    assert_eq!(rt; listed(&mut script, 1, 6)?.as_str(), first.as_str());
    let _comment = script.printed(&["f", "comment", bug, "m"], 11)?;
    assert_eq!(rt; listed(&mut script, 1, 6)?.as_str(), first.as_str());
    Ok(())
}

const COMMENT: &str =
    "{\"type\":3,\"timestamp\":7,\"nonce\":\"AAAAAAAAAAAAAAAAAAAAAAAAAAAAAAAAAAAAAAAAAAA=\",\"message\":\"m\"}";

const LATER: &str =
    "{\"type\":3,\"timestamp\":8,\"nonce\":\"AAAAAAAAAAAAAAAAAAAAAAAAAAAAAAAAAAAAAAAAAAA=\",\"message\":\"m\"}";

const ROW_BELOW_A_MERGE: &str =
    "{\"actors\":[\"$A\"],\"author\":\"$A\",\"comments\":2,\"create\":1,\"edit\":4,\"first\":102,\"head\":\"$S\",\"id\":\"$B\",\"labels\":[],\"last\":106,\"metadata\":{},\"participants\":[\"$A\"],\"row\":1,\"status\":2,\"title\":\"Two\"}";

const ROW_OF_NO_COMMIT: &str =
    "{\"actors\":[\"$A\"],\"author\":\"$A\",\"comments\":2,\"create\":1,\"edit\":4,\"first\":102,\"head\":\"0000000000000000000000000000000000000000\",\"id\":\"$B\",\"labels\":[],\"last\":106,\"metadata\":{},\"participants\":[\"$A\"],\"row\":1,\"status\":2,\"title\":\"Two\"}";

// A row follows a chain of three commits. Then the head is a merge commit, and the bug is read whole. So it is where
// the row is of a commit below a merge, or of one that is not there.
const CHAINS: &[Step] = &[
    Does(&["f", "new", "One", "m"], 2, "$B\n"),
    Shortens('b', 'B'),
    Has("f/refs/bugs/$B", "$R\n"),
    Does(&["f", "ls"], 3, "$b\topen\tOne\tAna\t1\n"),
    Read(6),
    Wrote(1),
    Does(&["f", "comment", "$B", "m"], 4, "$1\n"),
    Does(&["f", "title", "$B", "Two"], 5, "$2\n"),
    Does(&["f", "close", "$B"], 6, "$3\n"),
    Has("f/refs/bugs/$B", "$S\n"),
    Does(&["f", "ls"], 7, "$b\tclosed\tTwo\tAna\t2\n"),
    Read(12),
    Wrote(1),
    Does(&["f", "ls"], 8, "$b\tclosed\tTwo\tAna\t2\n"),
    Read(3),
    Wrote(0),
    Commits(
        'T',
        &['R'],
        &["edit-clock-2", "ops", "version-4"],
        &[COMMENT],
    ),
    Commits('U', &['S', 'T'], &["edit-clock-5", "ops", "version-4"], &[]),
    Puts("f/refs/bugs/$B", "$U\n"),
    Does(&["f", "ls"], 9, "$b\tclosed\tTwo\tAna\t3\n"),
    Read(21),
    Wrote(1),
    Commits('V', &['U'], &["edit-clock-6", "ops", "version-4"], &[LATER]),
    Puts("f/refs/bugs/$B", "$V\n"),
    Puts("f/git-bug/cache/bugs/$B", ROW_BELOW_A_MERGE),
    Does(&["f", "ls"], 10, "$b\tclosed\tTwo\tAna\t4\n"),
    Read(24),
    Wrote(1),
    Puts("f/git-bug/cache/bugs/$B", ROW_OF_NO_COMMIT),
    Does(&["f", "ls"], 11, "$b\tclosed\tTwo\tAna\t4\n"),
    Read(24),
    Wrote(1),
];

#[test]
fn rows_follow_chains(rt: HostRuntime) -> Result<(), Fail> {
    let mut script = Script::new(rt.alloc(), "f")?;
    script.play(PERSON)?;
    script.play(CHAINS)
}

// How many comments each of three commits has.
const COMMENTS: u64 = 3_334;

// So many comments, each of another time, with commas between them.
fn comments(alloc: Global, first: u64) -> Result<String, Fail> {
    let mut text = String::new(alloc);
    for time in first..first.saturating_add(COMMENTS) {
        if time > first {
            text.push(',')?;
        }
        text.push_str(
            "{\"type\":3,\"nonce\":\"AAAAAAAAAAAAAAAAAAAAAAAAAAA=\",\"message\":\"m\",\"timestamp\":",
        )?;
        text.push_str(format!(in alloc; "{time}}}")?.as_str())?;
    }
    Ok(text)
}

// Sets the head of a bug to a commit over it, with an edit clock and operations.
fn add(disk: &mut Disk, author: &str, bug: &str, clock: &str, ops: &str) -> Result<(), Fail> {
    let path = format!(in disk.alloc; "f/refs/bugs/{bug}")?;
    let Some(head) = text_at(disk, path.as_str())? else {
        return Err(Fail::new(format_args!("{bug} has no head")));
    };
    let head = name(head.as_str().trim_end())?;
    let next = put_ops(disk, author, &[clock, "ops", "version-4"], &[ops], &[head])?;
    let digits = String::from_utf8_lossy(disk.alloc, &next.text())?;
    let line = format!(in disk.alloc; "{digits}\n")?;
    disk.put(path.as_str(), line.as_bytes())
}

#[test]
fn ten_thousand_comments_are_read_once(rt: HostRuntime) -> Result<(), Fail> {
    let alloc = rt.alloc();
    let mut script = Script::new(alloc, "f")?;
    let person = script.printed(&["f", "user-new", "Ana", "ana@x"], 1)?;
    let id = script.printed(&["f", "new", "A title", "m"], 2)?;
    let (author, bug) = (person.as_str().trim_end(), id.as_str().trim_end());
    let commits = [
        ("edit-clock-2", 0),
        ("edit-clock-3", COMMENTS),
        ("edit-clock-4", 2 * COMMENTS),
    ];
    for (clock, first) in commits {
        let ops = comments(alloc, first)?;
        add(&mut script.disk, author, bug, clock, ops.as_str())?;
    }
    let all = listed(&mut script, 1, 3 + 12)?;
    assert!(rt; all.as_str().ends_with("\tAna\t10003\n"));
    let _comment = script.printed(&["f", "comment", bug, "m"], 3)?;
    let more = listed(&mut script, 1, 3 + 3)?;
    assert!(rt; more.as_str().ends_with("\tAna\t10004\n"));
    Ok(())
}
