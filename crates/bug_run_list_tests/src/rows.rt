//! Rows that are stored: out of date, missing, damaged, or of another bug. The text is the same, and the
//! row is stored again.
use run_fixtures::Step::{Commits, Does, Has, Puts, Shortens, Wrote};
use run_fixtures::{Script, Step};
use std::test::Fail;

const BEGIN: &[Step] = &[
    Does(&["f", "user-new", "Ana", "ana@x"], 1, "$A\n"),
    Does(&["f", "new", "One", "m"], 2, "$B\n"),
    Does(&["f", "new", "Two", "m"], 3, "$C\n"),
    Shortens('b', 'B'),
    Shortens('c', 'C'),
    Has("f/refs/bugs/$B", "$H\n"),
    Has("f/refs/bugs/$C", "$I\n"),
    Does(
        &["f", "ls"],
        4,
        "$c\topen\tTwo\tAna\t1\n$b\topen\tOne\tAna\t1\n",
    ),
    Wrote(2),
    Does(
        &["f", "ls"],
        5,
        "$c\topen\tTwo\tAna\t1\n$b\topen\tOne\tAna\t1\n",
    ),
    Wrote(0),
];

const STALE: &[Step] = &[
    Does(&["f", "title", "$B", "Uno"], 6, "$T\n"),
    Has("f/refs/bugs/$B", "$J\n"),
    Does(
        &["f", "ls"],
        7,
        "$c\topen\tTwo\tAna\t1\n$b\topen\tUno\tAna\t1\n",
    ),
    Wrote(1),
    Does(
        &["f", "board", "title:uno"],
        7,
        "ID      STATUS TITLE                                    AUTHOR          CMTS\n\
         $b open   Uno                                      Ana                1\n1 open, 0 closed\n",
    ),
    Wrote(0),
];

const ROW: &str =
    "{\"actors\":[\"$A\"],\"author\":\"$A\",\"comments\":1,\"create\":1,\"edit\":3,\"first\":102,\"head\":\"$J\",\"id\":\"$B\",\"labels\":[],\"last\":106,\"metadata\":{},\"participants\":[\"$A\"],\"row\":1,\"status\":1,\"title\":\"Uno\"}";

// Texts that are no row of the bug at its head. The fourth is its row at an older head.
const OTHERS: [&str; 9] = [
    "",
    "{}",
    "x",
    "{\"actors\":[\"$A\"],\"author\":\"$A\",\"comments\":1,\"create\":1,\"edit\":1,\"first\":102,\"head\":\"$H\",\"id\":\"$B\",\"labels\":[],\"last\":102,\"metadata\":{},\"participants\":[\"$A\"],\"row\":1,\"status\":1,\"title\":\"One\"}",
    "{\"actors\":[\"$A\"],\"author\":\"$A\",\"comments\":1,\"create\":1,\"edit\":3,\"first\":102,\"head\":\"$I\",\"id\":\"$C\",\"labels\":[],\"last\":106,\"metadata\":{},\"participants\":[\"$A\"],\"row\":1,\"status\":2,\"title\":\"Other\"}",
    "{\"actors\":[\"$A\"],\"author\":\"$A\",\"comments\":1,\"create\":1,\"edit\":3,\"first\":102,\"head\":\"$J\",\"id\":\"$B\",\"labels\":[],\"last\":106,\"metadata\":{},\"participants\":[\"$A\"],\"row\":2,\"status\":2,\"title\":\"Other\"}",
    "{\"actors\":[\"$A\"],\"author\":\"$A\",\"comments\":1,\"create\":1,\"edit\":3,\"first\":102,\"head\":\"$J\",\"id\":\"$B\",\"labels\":[],\"last\":106,\"metadata\":{},\"participants\":[\"$A\"],\"row\":1,\"row\":1,\"status\":2,\"title\":\"Other\"}",
    "{\"actors\":[\"$A\"],\"author\":\"$A\",\"comments\":1,\"create\":1,\"edit\":3,\"first\":102,\"head\":\"$J\",\"id\":\"$B\",\"labels\":[],\"last\":106,\"metadata\":{},\"participants\":[\"$A\"],\"row\":1,\"title\":\"Other\"}",
    "{\"actors\":[\"$A\"],\"author\":\"$A\",\"comments\":1,\"create\":1,\"edit\":3,\"first\":102,\"head\":\"$J\",\"id\":\"$B\",\"labels\":[\"b\",\"a\"],\"last\":106,\"metadata\":{},\"participants\":[\"$A\"],\"row\":1,\"status\":2,\"title\":\"Other\"}",
];

const AGAIN: &[Step] = &[
    Does(
        &["f", "ls"],
        7,
        "$c\topen\tTwo\tAna\t1\n$b\topen\tUno\tAna\t1\n",
    ),
    Wrote(1),
    Has("f/git-bug/cache/bugs/$B", ROW),
];

// A title that is in a pack as escapes; and one of two operations that comes first by its pack id.
const HOSTILE: &[Step] = &[
    Does(&["f", "user-new", "Ana", "ana@x"], 1, "$A\n"),
    Does(&["f", "new", "One", "m"], 2, "$B\n"),
    Shortens('b', 'B'),
    Has("f/refs/bugs/$B", "$H\n"),
    Commits(
        'J',
        &['H'],
        &["edit-clock-2", "ops", "version-4"],
        &[
            "{\"type\":2,\"timestamp\":7,\"nonce\":\"AAAAAAAAAAAAAAAAAAAAAAAAAAAAAAAAAAAAAAAAAAA=\",\"title\":\"a\\u003cb\",\"was\":\"One\"}",
        ],
    ),
    Puts("f/refs/bugs/$B", "$J\n"),
    Does(&["f", "ls"], 3, "$b\topen\ta<b\tAna\t1\n"),
    Wrote(1),
    Does(&["f", "ls"], 3, "$b\topen\ta<b\tAna\t1\n"),
    Wrote(0),
];

#[test]
fn rows_are_stored_once(rt: HostRuntime) -> Result<(), Fail> {
    let mut script = Script::new(rt.alloc(), "f")?;
    script.play(BEGIN)?;
    script.play(STALE)
}

#[test]
fn texts_that_are_no_row_do_not_matter(rt: HostRuntime) -> Result<(), Fail> {
    let mut script = Script::new(rt.alloc(), "f")?;
    script.play(BEGIN)?;
    script.play(STALE)?;
    for text in OTHERS {
        script.play(&[Puts("f/git-bug/cache/bugs/$B", text)])?;
        script.play(AGAIN)?;
    }
    Ok(())
}

#[test]
fn rows_of_other_commits_are_read(rt: HostRuntime) -> Result<(), Fail> {
    Script::new(rt.alloc(), "f")?.play(HOSTILE)
}
