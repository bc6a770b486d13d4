//! What comes into a folder, and goes out of it.
use run_fixtures::Step::{Does, Has, Lacks, Read, Refuses, Wrote};
use run_fixtures::{Script, Step};
use std::test::Fail;

// The folder `a`, with a person and a bug of one commit.
const BEGIN: &[Step] = &[
    Does(&["a", "user-new", "Ann", "ann@x"], 1, "$A\n"),
    Does(&["a", "new", "title", "message"], 2, "$B\n"),
    Has("a/refs/identities/$A", "$P\n"),
    Has("a/refs/bugs/$B", "$R\n"),
];

const PUSHED: &[Step] = &[
    Does(
        &["a", "push", "hub"],
        3,
        "push identity $A pushed\npush bug $B pushed\n",
    ),
    Has("hub/refs/identities/$A", "$P\n"),
    Has("hub/refs/bugs/$B", "$R\n"),
    Does(
        &["a", "push", "hub"],
        4,
        "push identity $A same\npush bug $B same\n",
    ),
    Wrote(0),
    Read(0),
];

const FETCHED: &[Step] = &[
    Does(
        &["b", "fetch", "o", "hub"],
        5,
        "fetch identity $A fetched\nfetch bug $B fetched\n",
    ),
    Has("b/refs/remotes/o/identities/$A", "$P\n"),
    Has("b/refs/remotes/o/bugs/$B", "$R\n"),
    Lacks("b/refs/identities/$A"),
    Lacks("b/refs/bugs/$B"),
    Does(
        &["b", "fetch", "o", "hub"],
        6,
        "fetch identity $A same\nfetch bug $B same\n",
    ),
    Wrote(0),
    Read(0),
    Does(&["b", "users"], 7, ""),
];

#[test]
fn what_is_pushed_is_fetched(rt: HostRuntime) -> Result<(), Fail> {
    let mut script = Script::new(rt.alloc(), "a")?;
    for steps in [BEGIN, PUSHED, FETCHED] {
        script.play(steps)?;
    }
    Ok(())
}

// A push sets no tracking ref, so that what was pushed is fetched.
const FORWARD: &[Step] = &[
    Does(&["a", "comment", "$B", "more"], 5, "$D\n"),
    Has("a/refs/bugs/$B", "$S\n"),
    Does(
        &["a", "push", "hub"],
        6,
        "push identity $A same\npush bug $B pushed\n",
    ),
    Has("hub/refs/bugs/$B", "$S\n"),
    Does(
        &["a", "fetch", "o", "hub"],
        6,
        "fetch identity $A fetched\nfetch bug $B fetched\n",
    ),
    Does(&["hub", "user-set", "$A"], 7, "$A\n"),
    Does(&["hub", "comment", "$B", "theirs"], 8, "$E\n"),
    Has("hub/refs/bugs/$B", "$T\n"),
    Refuses(
        &["a", "push", "hub"],
        9,
        "push identity $A same\npush bug $B not-forward $T\n",
    ),
    Wrote(0),
    Has("hub/refs/bugs/$B", "$T\n"),
];

#[test]
fn what_is_new_goes_forward(rt: HostRuntime) -> Result<(), Fail> {
    let mut script = Script::new(rt.alloc(), "a")?;
    for steps in [BEGIN, PUSHED, FORWARD] {
        script.play(steps)?;
    }
    Ok(())
}

const NOTHING: &[Step] = &[
    Does(&["a", "fetch", "o", "hub"], 3, ""),
    Wrote(0),
    Does(&["b", "push", "a"], 4, ""),
    Wrote(0),
    Does(&["b", "push", "c"], 5, ""),
    Wrote(0),
];

#[test]
fn a_folder_with_nothing_has_no_lines(rt: HostRuntime) -> Result<(), Fail> {
    let mut script = Script::new(rt.alloc(), "a")?;
    script.play(BEGIN)?;
    script.play(NOTHING)
}
