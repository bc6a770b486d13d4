//! Merges of which both sides have something new, or none.
use run_fixtures::Row::{self, Done, Refused, Usage};
use run_fixtures::Step::{Does, Has, Mixes, Read, Refuses, Wrote};
use run_fixtures::{Script, Step, hold};
use std::test::Fail;

const ROWS: &[Row] = &[
    Usage(&["a", "merge"], 0),
    Usage(&["a", "merge", "o", "b"], 0),
    Usage(&["a", "pull", "o"], 0),
    Refused(&["a/..", "merge", "o/r"], 0, "17 bad folder", 0),
    Refused(&["a", "pull", "o/r", "b/.."], 0, "17 bad folder", 0),
    Refused(&["f", "merge", "o/r"], 0, "12 bad remote name", 0),
    Refused(&["a", "pull", "o/r", "a/b"], 0, "11 same folder", 0),
    Refused(&["a", "pull", "o/r", "b"], 0, "12 bad remote name", 0),
    Refused(&["b", "merge", "o"], 0, "1 no user", 0),
    Refused(&["b", "pull", "o", "a"], 0, "1 no user", 0),
];

#[test]
fn arguments_of_merges_are_read(rt: HostRuntime) -> Result<(), Fail> {
    let mut script = Script::new(rt.alloc(), "a")?;
    hold(&mut script.disk, ROWS)
}

const PULLS: &[Step] = &[
    Does(&["a", "user-new", "Ann", "ann@x"], 1, "$A\n"),
    Does(&["a", "new", "title", "message"], 2, "$B\n"),
    Refuses(&["b", "pull", "origin", "a"], 3, "refused 1 no user\n"),
    Wrote(0),
    Does(&["b", "user-new", "Bo", "bo@x"], 3, "$C\n"),
    Does(&["b", "merge", "origin"], 4, ""),
    Wrote(0),
    Does(
        &["b", "pull", "origin", "a"],
        4,
        "fetch identity $A fetched\nfetch bug $B fetched\nmerge identity $A new\nmerge bug $B new\n",
    ),
    Does(
        &["b", "pull", "origin", "a"],
        5,
        "fetch identity $A same\nfetch bug $B same\nmerge identity $A nothing\nmerge bug $B nothing\n",
    ),
    Wrote(0),
    Does(
        &["b", "pull", "origin", "a"],
        6,
        "fetch identity $A same\nfetch bug $B same\nmerge identity $A nothing\nmerge bug $B nothing\n",
    ),
    Wrote(0),
    Read(0),
];

#[test]
fn a_pull_that_finds_nothing_new_writes_nothing(rt: HostRuntime) -> Result<(), Fail> {
    Script::new(rt.alloc(), "a")?.play(PULLS)
}

// Folders `a` and `b` that know each other's people and share a bug.
const SHARED: &[Step] = &[
    Does(&["a", "user-new", "Ann", "ann@x"], 1, "$A\n"),
    Does(&["a", "new", "title", "message"], 2, "$B\n"),
    Does(&["b", "user-new", "Bo", "bo@x"], 3, "$C\n"),
    Does(
        &["b", "pull", "o", "a"],
        4,
        "fetch identity $A fetched\nfetch bug $B fetched\nmerge identity $A new\nmerge bug $B new\n",
    ),
    Does(
        &["a", "pull", "o", "b"],
        5,
        "fetch identity $C fetched\nfetch identity $A fetched\nfetch bug $B fetched\n\
         merge identity $C new\nmerge identity $A nothing\nmerge bug $B nothing\n",
    ),
];

const FETCHED: &str = "fetch identity $C same\nfetch identity $A same\nfetch bug $B fetched\n";

const JOINED: &str = "merge identity $C nothing\nmerge identity $A nothing\nmerge bug $B joined\n";

const BOTH: &[Step] = &[
    Does(&["a", "label-add", "$B", "x"], 7, "$X\n"),
    Does(&["b", "label-add", "$B", "y"], 7, "$Y\n"),
    Does(&["a", "fetch", "o", "b"], 8, FETCHED),
    Does(
        &["b", "fetch", "o", "a"],
        9,
        "fetch identity $C fetched\nfetch identity $A same\nfetch bug $B fetched\n",
    ),
    Does(&["a", "merge", "o"], 10, JOINED),
    Does(&["b", "merge", "o"], 11, JOINED),
    Has("a/refs/bugs/$B", "$H\n"),
    Has("b/refs/bugs/$B", "$G\n"),
    Has("a/git-bug/clocks/bugs-edit", "3"),
    Has("b/git-bug/clocks/bugs-edit", "3"),
    Mixes('M', 'B', 'B'),
];

const LABELS: &str = "bug $B
title title
status open
label x
label y
author Ann
created 1 102
edited 2 107
actor Ann
actor Bo
participant Ann
comment $M Ann 102
    message
";

const AGAIN: &[Step] = &[
    Does(&["a", "show", "$B"], 12, LABELS),
    Does(&["b", "show", "$B"], 12, LABELS),
    Does(&["a", "fetch", "o", "b"], 13, FETCHED),
    Does(&["b", "fetch", "o", "a"], 14, FETCHED),
    Does(&["a", "merge", "o"], 15, JOINED),
    Has("a/git-bug/clocks/bugs-edit", "4"),
    Has("a/refs/bugs/$B", "$J\n"),
    Does(
        &["a", "log", "$B"],
        15,
        "1 $R\n2 $P\n2 $Q\n3 $G\n3 $H\n4 $J\n",
    ),
    Does(&["a", "show", "$B"], 16, LABELS),
    Does(&["b", "show", "$B"], 16, LABELS),
];

#[test]
fn both_sides_join_to_the_same_text(rt: HostRuntime) -> Result<(), Fail> {
    let mut script = Script::new(rt.alloc(), "a")?;
    for steps in [SHARED, BOTH, AGAIN] {
        script.play(steps)?;
    }
    Ok(())
}
