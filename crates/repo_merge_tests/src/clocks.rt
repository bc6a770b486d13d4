//! Clocks of what is merged.
use run_fixtures::Step::{Commits, Does, Has, Lacks, Puts, Refuses, Wrote};
use run_fixtures::{Script, Step};
use std::test::Fail;

const FOLDER: &[Step] = &[
    Does(&["p", "user-new", "Ann", "ann@x"], 1, "$A\n"),
    Does(&["b", "user-new", "Bo", "bo@x"], 2, "$C\n"),
    Does(&["c", "user-new", "Cy", "cy@x"], 3, "$D\n"),
];

const GOOD: &str =
    "fetch identity $A fetched\nfetch bug $B fetched\nmerge identity $A new\nmerge bug $B new\n";

// The folder `p` has a bug with the clock 5.
const JUMPS: &[Step] = &[
    Puts("p/git-bug/clocks/bugs-edit", "4"),
    Does(&["p", "new", "title", "message"], 4, "$B\n"),
    Does(&["p", "log", "$B"], 4, "5 $R\n"),
    Commits(
        'F',
        &['R'],
        &["edit-clock-1000005", "ops", "version-4"],
        &[],
    ),
    Puts("p/refs/bugs/$B", "$F\n"),
    Does(&["b", "pull", "o", "p"], 5, GOOD),
    Has("b/git-bug/clocks/bugs-edit", "1000005"),
    Commits(
        'J',
        &['R'],
        &["edit-clock-1000006", "ops", "version-4"],
        &[],
    ),
    Puts("p/refs/bugs/$B", "$J\n"),
    Refuses(
        &["c", "pull", "o", "p"],
        6,
        "fetch identity $A fetched\nfetch bug $B fetched\n\
         merge identity $A new\nmerge bug $B invalid E12 $J $R\n",
    ),
    Lacks("c/refs/bugs/$B"),
    Lacks("c/git-bug/clocks/bugs-edit"),
    Has("c/refs/remotes/o/bugs/$B", "$J\n"),
    Refuses(
        &["c", "merge", "o"],
        7,
        "merge identity $A nothing\nmerge bug $B invalid E12 $J $R\n",
    ),
    Wrote(0),
    Commits('K', &['R'], &["edit-clock-6", "ops", "version-4"], &[]),
    Commits('L', &['R'], &["edit-clock-7", "ops", "version-4"], &[]),
    Commits(
        'M',
        &['K', 'L'],
        &["edit-clock-1000008", "ops", "version-4"],
        &[],
    ),
    Puts("p/refs/bugs/$B", "$M\n"),
    Does(
        &["c", "pull", "o", "p"],
        8,
        "fetch identity $A same\nfetch bug $B fetched\n\
         merge identity $A nothing\nmerge bug $B new\n",
    ),
    Has("c/refs/bugs/$B", "$M\n"),
    Has("c/git-bug/clocks/bugs-edit", "1000008"),
];

#[test]
fn only_a_merge_commit_may_jump(rt: HostRuntime) -> Result<(), Fail> {
    let mut script = Script::new(rt.alloc(), "p")?;
    script.play(FOLDER)?;
    script.play(JUMPS)
}

const CREATE: &str =
    "{\"files\":[],\"message\":\"\",\"nonce\":\"AAAAAAAAAAAAAAAAAAAAAAAAAAA=\",\"timestamp\":0,\"title\":\"a\",\"type\":1}";

// The SHA-256 of that operation is the bug's id.
const HOSTILE: &[Step] = &[
    Commits(
        'H',
        &[],
        &[
            "create-clock-1",
            "edit-clock-9223372036854775807",
            "ops",
            "version-4",
        ],
        &[CREATE],
    ),
    Puts(
        "p/refs/bugs/3912f32747d1e7d315d89cd550e61a80638342c85e80fec8f844c37035613dc8",
        "$H\n",
    ),
    Puts("b/git-bug/clocks/bugs-edit", "4"),
    Does(&["b", "new", "title", "message"], 4, "$B\n"),
    Does(&["b", "log", "$B"], 4, "5 $R\n"),
    Does(
        &["b", "pull", "o", "p"],
        5,
        "fetch identity $A fetched\n\
         fetch bug 3912f32747d1e7d315d89cd550e61a80638342c85e80fec8f844c37035613dc8 fetched\n\
         merge identity $A new\n\
         merge bug 3912f32747d1e7d315d89cd550e61a80638342c85e80fec8f844c37035613dc8 new\n",
    ),
    Has("b/git-bug/clocks/bugs-edit", "4611686018427387904"),
    Does(&["b", "new", "other", "message"], 6, "$E\n"),
    Does(&["b", "log", "$E"], 6, "4611686018427387904 $S\n"),
    Does(&["b", "comment", "$B", "far"], 7, "$F\n"),
    Does(&["b", "log", "$B"], 7, "5 $R\n1000005 $T\n"),
    Refuses(
        &["b", "comment", "3912", "full"],
        8,
        "refused 7 clock full $H\n",
    ),
    Wrote(0),
];

#[test]
fn a_root_with_the_greatest_clock_leaves_room(rt: HostRuntime) -> Result<(), Fail> {
    let mut script = Script::new(rt.alloc(), "p")?;
    script.play(FOLDER)?;
    script.play(HOSTILE)
}

// A bug with lower clocks than those of the folder, and then one with a higher one.
const LOWER: &[Step] = &[
    Does(&["p", "new", "title", "message"], 4, "$B\n"),
    Has("p/refs/bugs/$B", "$R\n"),
    Puts("b/git-bug/clocks/bugs-create", "7"),
    Puts("b/git-bug/clocks/bugs-edit", "8"),
    Does(
        &["b", "fetch", "o", "p"],
        5,
        "fetch identity $A fetched\nfetch bug $B fetched\n",
    ),
    Does(
        &["b", "merge", "o"],
        6,
        "merge identity $A new\nmerge bug $B new\n",
    ),
    Wrote(2),
    Has("b/git-bug/clocks/bugs-create", "7"),
    Has("b/git-bug/clocks/bugs-edit", "8"),
    Does(&["b", "comment", "$B", "theirs"], 7, "$E\n"),
    Does(&["b", "log", "$B"], 7, "1 $R\n9 $S\n"),
    Does(&["p", "comment", "$B", "ours"], 8, "$F\n"),
    Does(
        &["b", "pull", "o", "p"],
        9,
        "fetch identity $A same\nfetch bug $B fetched\n\
         merge identity $A nothing\nmerge bug $B joined\n",
    ),
    Has("b/git-bug/clocks/bugs-create", "7"),
    Has("b/git-bug/clocks/bugs-edit", "10"),
];

#[test]
fn a_merge_writes_a_clock_that_grows(rt: HostRuntime) -> Result<(), Fail> {
    let mut script = Script::new(rt.alloc(), "p")?;
    script.play(FOLDER)?;
    script.play(LOWER)
}
