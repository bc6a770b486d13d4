//! Merges of bugs that are refused.
use run_fixtures::Step::{Commits, Cuts, Does, Has, Lacks, Puts, Refuses, Spoils, Wrote};
use run_fixtures::{Script, Step};
use std::test::Fail;

// The folder `a` with a bug, and `b`, which knows it. They know each other's people.
const SHARED: &[Step] = &[
    Does(&["a", "user-new", "Ann", "ann@x"], 1, "$A\n"),
    Does(&["a", "new", "title", "message"], 2, "$B\n"),
    Has("a/refs/bugs/$B", "$R\n"),
    Has("a/refs/identities/$A", "$P\n"),
    Does(&["b", "user-new", "Bo", "bo@x"], 3, "$C\n"),
    Does(
        &["b", "pull", "o", "a"],
        4,
        "fetch identity $A fetched\nfetch bug $B fetched\nmerge identity $A new\nmerge bug $B new\n",
    ),
];

const REPEATED: &[Step] = &[
    Does(&["b", "noop", "$B"], 6, "$N\n"),
    Does(&["a", "comment", "$B", "the same"], 7, "$O\n"),
    Does(&["b", "comment", "$B", "the same"], 7, "$O\n"),
    Does(&["a", "log", "$B"], 7, "1 $R\n2 $L\n"),
    Does(&["b", "log", "$B"], 7, "1 $R\n2 $K\n3 $M\n"),
    Does(
        &["b", "fetch", "o", "a"],
        8,
        "fetch identity $A same\nfetch bug $B fetched\n",
    ),
    Refuses(
        &["b", "merge", "o"],
        9,
        "merge identity $A nothing\nmerge bug $B invalid E15 $O\n",
    ),
    Wrote(0),
    Has("b/refs/bugs/$B", "$M\n"),
    Refuses(
        &["a", "pull", "o", "b"],
        10,
        "fetch identity $C fetched\nfetch identity $A fetched\nfetch bug $B fetched\n\
         merge identity $C new\nmerge identity $A nothing\nmerge bug $B invalid E15 $O\n",
    ),
    Has("a/refs/bugs/$B", "$L\n"),
    Has("a/git-bug/clocks/bugs-edit", "2"),
];

#[test]
fn an_operation_of_both_sides_is_invalid(rt: HostRuntime) -> Result<(), Fail> {
    let mut script = Script::new(rt.alloc(), "a")?;
    script.play(SHARED)?;
    script.play(REPEATED)
}

const CREATE: &str =
    "{\"files\":[],\"message\":\"\",\"nonce\":\"AAAAAAAAAAAAAAAAAAAAAAAAAAA=\",\"timestamp\":0,\"title\":\"a\",\"type\":1}";

const NO_TYPE: &str = "{\"nonce\":\"AAAAAAAAAAAAAAAAAAAAAAAAAAA=\",\"timestamp\":0}";

// Each head of the peer is a commit over the root with one fault.
const FAULTS: &[Step] = &[
    Commits('S', &['R'], &["edit-clock-1", "ops", "version-4"], &[]),
    Puts("a/refs/bugs/$B", "$S\n"),
    Refuses(
        &["b", "pull", "o", "a"],
        5,
        "fetch identity $A same\nfetch bug $B fetched\n\
         merge identity $A nothing\nmerge bug $B invalid E11 $S $R\n",
    ),
    Commits(
        'T',
        &['R'],
        &["edit-clock-2", "ops", "version-4"],
        &[CREATE],
    ),
    Puts("a/refs/bugs/$B", "$T\n"),
    Refuses(
        &["b", "pull", "o", "a"],
        6,
        "fetch identity $A same\nfetch bug $B fetched\n\
         merge identity $A nothing\n\
         merge bug $B invalid E18 3912f32747d1e7d315d89cd550e61a80638342c85e80fec8f844c37035613dc8\n",
    ),
    Commits('U', &['R'], &["edit-clock-2", "ops", "version-3"], &[]),
    Puts("a/refs/bugs/$B", "$U\n"),
    Refuses(
        &["b", "pull", "o", "a"],
        7,
        "fetch identity $A same\nfetch bug $B fetched\n\
         merge identity $A nothing\nmerge bug $B invalid E5 $U 3\n",
    ),
    Commits(
        'V',
        &['R'],
        &["edit-clock-2", "ops", "version-4"],
        &[NO_TYPE],
    ),
    Puts("a/refs/bugs/$B", "$V\n"),
    Refuses(
        &["b", "pull", "o", "a"],
        8,
        "fetch identity $A same\nfetch bug $B fetched\n\
         merge identity $A nothing\nmerge bug $B invalid E9 $V 0 no-type\n",
    ),
    Has("b/refs/bugs/$B", "$R\n"),
    Has("b/git-bug/clocks/bugs-edit", "1"),
];

#[test]
fn a_fault_of_the_peer_has_its_line(rt: HostRuntime) -> Result<(), Fail> {
    let mut script = Script::new(rt.alloc(), "a")?;
    script.play(SHARED)?;
    script.play(FAULTS)
}

const UNKNOWN: &[Step] = &[
    Does(&["a", "user-new", "Ann", "ann@x"], 1, "$A\n"),
    Does(&["a", "new", "title", "message"], 2, "$B\n"),
    Has("a/refs/identities/$A", "$P\n"),
    Puts("a/refs/identities/$A", "no ref"),
    Does(&["b", "user-new", "Bo", "bo@x"], 3, "$C\n"),
    Refuses(
        &["b", "pull", "o", "a"],
        4,
        "fetch identity $A damaged ref\nfetch bug $B fetched\nmerge bug $B invalid E19 $A\n",
    ),
    Lacks("b/refs/bugs/$B"),
    Puts("a/refs/identities/$A", "$P\n"),
    Does(
        &["b", "pull", "o", "a"],
        5,
        "fetch identity $A fetched\nfetch bug $B same\nmerge identity $A new\nmerge bug $B new\n",
    ),
];

#[test]
fn a_bug_of_an_unknown_author_is_invalid(rt: HostRuntime) -> Result<(), Fail> {
    Script::new(rt.alloc(), "a")?.play(UNKNOWN)
}

// The parent of the head of one of two bugs lacks its last byte.
const CUT: &[Step] = &[
    Does(&["hub", "user-new", "Ann", "ann@x"], 1, "$A\n"),
    Does(&["hub", "new", "title", "message"], 2, "$X\n"),
    Has("hub/refs/bugs/$X", "$P\n"),
    Does(&["hub", "comment", "$X", "more"], 3, "$D\n"),
    Does(&["hub", "new", "other", "message"], 4, "$Y\n"),
    Cuts('P'),
    Does(&["f", "user-new", "Bo", "bo@x"], 5, "$C\n"),
    Refuses(
        &["f", "pull", "origin", "hub"],
        6,
        "fetch identity $A fetched\nfetch bug $X damaged bytes $P\nfetch bug $Y fetched\n\
         merge identity $A new\nmerge bug $Y new\n",
    ),
    Lacks("f/refs/remotes/origin/bugs/$X"),
    Lacks("f/refs/bugs/$X"),
    Has("f/git-bug/clocks/bugs-edit", "3"),
];

#[test]
fn a_damaged_bug_of_a_peer_has_no_merge_line(rt: HostRuntime) -> Result<(), Fail> {
    Script::new(rt.alloc(), "hub")?.play(CUT)
}

// A damaged ref ends the call, and the lines before it were carried out.
const REFS: &[Step] = &[
    Does(&["a", "user-new", "Ann", "ann@x"], 1, "$A\n"),
    Does(&["a", "new", "title", "message"], 2, "$B\n"),
    Has("a/refs/bugs/$B", "$R\n"),
    Has("a/refs/identities/$A", "$P\n"),
    Does(&["b", "user-new", "Bo", "bo@x"], 3, "$C\n"),
    Does(
        &["b", "fetch", "o", "a"],
        4,
        "fetch identity $A fetched\nfetch bug $B fetched\n",
    ),
    Puts("b/refs/bugs/$B", "no ref"),
    Refuses(
        &["b", "merge", "o"],
        5,
        "refused 14 damaged b/refs/bugs/$B\n",
    ),
    Has("b/refs/identities/$A", "$P\n"),
    Wrote(1),
    Puts("b/refs/remotes/o/bugs/$B", "no ref"),
    Refuses(
        &["b", "merge", "o"],
        6,
        "refused 14 damaged b/refs/remotes/o/bugs/$B\n",
    ),
    Wrote(0),
    Puts("b/git-bug/user", "no id"),
    Refuses(
        &["b", "merge", "o"],
        7,
        "refused 14 damaged b/git-bug/user\n",
    ),
    Refuses(
        &["b", "pull", "o", "a"],
        8,
        "refused 14 damaged b/git-bug/user\n",
    ),
    Wrote(0),
];

#[test]
fn a_bad_own_ref_ends_the_merge(rt: HostRuntime) -> Result<(), Fail> {
    Script::new(rt.alloc(), "a")?.play(REFS)
}

const APART: &[Step] = &[
    Does(&["a", "comment", "$B", "ours"], 5, "$D\n"),
    Does(&["b", "comment", "$B", "theirs"], 6, "$E\n"),
    Does(
        &["a", "fetch", "o", "b"],
        7,
        "fetch identity $C fetched\nfetch identity $A fetched\nfetch bug $B fetched\n",
    ),
];

const JOINED: &[Step] = &[
    Does(
        &["a", "merge", "o"],
        8,
        "merge identity $C new\nmerge identity $A nothing\nmerge bug $B joined\n",
    ),
    Has("a/refs/bugs/$B", "$J\n"),
];

const TAKEN: &[Step] = &[
    Spoils('J'),
    Refuses(&["a", "merge", "o"], 8, "refused 10 name taken $J\n"),
    Wrote(1),
];

#[test]
fn other_bytes_under_the_name_of_a_merge_commit_are_kept(rt: HostRuntime) -> Result<(), Fail> {
    let mut script = Script::new(rt.alloc(), "a")?;
    script.play(SHARED)?;
    script.play(APART)?;
    let writes = script.disk.store.writes();
    script.play(JOINED)?;
    script.disk.store.cut(rt.alloc(), writes)?;
    script.play(TAKEN)
}
