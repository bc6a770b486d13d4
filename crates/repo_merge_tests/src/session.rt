//! Two people who share a bug by a hub.
use run_fixtures::Step::{Does, Has, Mixes};
use run_fixtures::{Script, Step};
use std::test::Fail;

const BEGIN: &[Step] = &[
    Does(&["a", "user-new", "Ana", "ana@x"], 1, "$A\n"),
    Does(&["a", "new", "Login fails", "Since monday"], 2, "$B\n"),
    Has("a/git-bug/clocks/bugs-create", "1"),
    Has("a/git-bug/clocks/bugs-edit", "1"),
    Does(
        &["a", "push", "hub"],
        3,
        "push identity $A pushed\npush bug $B pushed\n",
    ),
    Does(&["b", "user-new", "Bo", "bo@x"], 4, "$C\n"),
    Does(
        &["b", "pull", "origin", "hub"],
        5,
        "fetch identity $A fetched\nfetch bug $B fetched\nmerge identity $A new\nmerge bug $B new\n",
    ),
    Has("b/git-bug/clocks/bugs-create", "1"),
    Has("b/git-bug/clocks/bugs-edit", "1"),
];

const EDITS: &[Step] = &[
    Does(&["b", "title", "$B", "Login fails on phones"], 6, "$T\n"),
    Does(&["b", "log", "$B"], 6, "1 $R\n2 $U\n"),
    Does(&["a", "label-add", "$B", "needs info"], 7, "$L\n"),
    Does(&["a", "log", "$B"], 7, "1 $R\n2 $M\n"),
    Does(&["b", "close", "$B"], 8, "$S\n"),
    Does(&["b", "log", "$B"], 8, "1 $R\n2 $U\n3 $V\n"),
    Has("a/git-bug/clocks/bugs-edit", "2"),
    Has("b/git-bug/clocks/bugs-edit", "3"),
];

const EXCHANGE: &[Step] = &[
    Does(
        &["b", "push", "hub"],
        9,
        "push identity $C pushed\npush identity $A same\npush bug $B pushed\n",
    ),
    Does(
        &["a", "pull", "origin", "hub"],
        10,
        "fetch identity $C fetched\nfetch identity $A fetched\nfetch bug $B fetched\n\
         merge identity $C new\nmerge identity $A nothing\nmerge bug $B joined\n",
    ),
    Has("a/refs/bugs/$B", "$J\n"),
    Does(&["a", "log", "$B"], 10, "1 $R\n2 $U\n2 $M\n3 $V\n4 $J\n"),
    Has("a/git-bug/clocks/bugs-create", "1"),
    Has("a/git-bug/clocks/bugs-edit", "4"),
    Does(&["a", "comment", "$B", "Fixed in 1.2"], 11, "$D\n"),
    Has("a/git-bug/clocks/bugs-edit", "5"),
    Has("a/refs/bugs/$B", "$H\n"),
    Mixes('X', 'B', 'B'),
    Mixes('Y', 'B', 'D'),
];

const SHOWN: &str = "bug $B
title Login fails on phones
status closed
label needs info
author Ana
created 1 102
edited 5 111
actor Ana
actor Bo
participant Ana
comment $X Ana 102
    Since monday
comment $Y Ana 111
    Fixed in 1.2
";

const END: &[Step] = &[
    Does(&["a", "show", "$B"], 14, SHOWN),
    Does(
        &["a", "push", "hub"],
        15,
        "push identity $C same\npush identity $A same\npush bug $B pushed\n",
    ),
    Does(
        &["b", "pull", "origin", "hub"],
        15,
        "fetch identity $C fetched\nfetch identity $A same\nfetch bug $B fetched\n\
         merge identity $C nothing\nmerge identity $A nothing\nmerge bug $B forward\n",
    ),
    Has("b/refs/bugs/$B", "$H\n"),
    Has("b/git-bug/clocks/bugs-edit", "5"),
    Does(&["b", "show", "$B"], 15, SHOWN),
];

#[test]
fn two_people_share_a_bug_by_a_hub(rt: HostRuntime) -> Result<(), Fail> {
    let mut script = Script::new(rt.alloc(), "a")?;
    for steps in [BEGIN, EDITS, EXCHANGE, END] {
        script.play(steps)?;
    }
    Ok(())
}
