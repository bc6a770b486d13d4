//! Refs of one folder that are packed, as `git pack-refs` packs them.
use run_fixtures::Step::{Does, Has, Lacks, Puts, Removes, Shortens, Wrote};
use run_fixtures::{Script, Step};
use std::test::Fail;

const BEGIN: &[Step] = &[
    Does(&["f", "user-new", "Ana", "ana@x"], 1, "$A\n"),
    Does(&["f", "new", "One", "m"], 2, "$B\n"),
    Does(&["f", "new", "Two", "m"], 3, "$C\n"),
    Shortens('b', 'B'),
    Shortens('c', 'C'),
    Has("f/refs/identities/$A", "$P\n"),
    Has("f/refs/bugs/$B", "$H\n"),
    Has("f/refs/bugs/$C", "$I\n"),
];

// All refs move into the packed file. Each command reads them there, and an edit makes a loose ref, which
// wins over the packed one.
const PACKED: &[Step] = &[
    Puts(
        "f/packed-refs",
        "# pack-refs with: peeled fully-peeled sorted \n$H refs/bugs/$B\n$I refs/bugs/$C\n^$I\n$P refs/identities/$A\n",
    ),
    Removes("f/refs/bugs/$B"),
    Removes("f/refs/bugs/$C"),
    Removes("f/refs/identities/$A"),
    Does(
        &["f", "ls"],
        4,
        "$c\topen\tTwo\tAna\t1\n$b\topen\tOne\tAna\t1\n",
    ),
    Does(&["f", "users"], 4, "$A\tAna\tana@x\t*\n"),
    Does(&["f", "comment", "$b", "hi"], 5, "$D\n"),
    Has("f/refs/bugs/$B", "$J\n"),
    Lacks("f/refs/bugs/$C"),
    Does(
        &["f", "ls"],
        6,
        "$c\topen\tTwo\tAna\t1\n$b\topen\tOne\tAna\t2\n",
    ),
    Wrote(1),
    Does(&["f", "close", "$C"], 7, "$E\n"),
    Does(
        &["f", "ls", "status:closed"],
        8,
        "$c\tclosed\tTwo\tAna\t1\n",
    ),
];

// The last line of a name counts; a name of another dir, and one that is no id, are no bug. The last line
// feed is optional.
const LINES: &[Step] = &[
    Puts(
        "f/packed-refs",
        "$I refs/bugs/$B\n$P refs/identities/$A\n$H refs/heads/main\n$H refs/bugs/main\n$H refs/bugs/$B/x\n$H refs/bugs/$B",
    ),
    Removes("f/refs/bugs/$B"),
    Removes("f/refs/bugs/$C"),
    Removes("f/refs/identities/$A"),
    Does(&["f", "ls"], 4, "$b\topen\tOne\tAna\t1\n"),
    Does(&["f", "ls", "title:two"], 4, ""),
];

#[test]
fn packed_refs_are_read(rt: HostRuntime) -> Result<(), Fail> {
    let mut script = Script::new(rt.alloc(), "f")?;
    script.play(BEGIN)?;
    script.play(PACKED)
}

#[test]
fn the_last_line_of_a_name_counts(rt: HostRuntime) -> Result<(), Fail> {
    let mut script = Script::new(rt.alloc(), "f")?;
    script.play(BEGIN)?;
    script.play(LINES)
}
