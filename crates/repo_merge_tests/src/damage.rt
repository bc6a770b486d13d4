//! Merges that find nothing new, over local entities that are damaged.
use run_fixtures::Step::{Cuts, Does, Has, Loses, Refuses, Wrote};
use run_fixtures::{Script, Step};
use std::test::Fail;

const NOTHING: &str = "merge identity $A nothing\nmerge bug $B nothing\n";

const KNOWN: &[Step] = &[
    Does(&["a", "user-new", "Ann", "ann@x"], 1, "$A\n"),
    Does(&["a", "new", "title", "message"], 2, "$B\n"),
    Does(&["b", "user-new", "Bo", "bo@x"], 3, "$C\n"),
    Does(
        &["b", "pull", "o", "a"],
        4,
        "fetch identity $A fetched\nfetch bug $B fetched\nmerge identity $A new\nmerge bug $B new\n",
    ),
    Has("b/refs/bugs/$B", "$R\n"),
    Has("b/refs/identities/$A", "$P\n"),
];

// The tracked heads are the local ones.
const SAME: &[Step] = &[
    Cuts('R'),
    Cuts('P'),
    Does(&["b", "merge", "o"], 5, NOTHING),
    Wrote(0),
    Loses('R'),
    Loses('P'),
    Does(&["b", "merge", "o"], 6, NOTHING),
    Wrote(0),
    Refuses(
        &["b", "show", "$B"],
        7,
        "refused 14 damaged b/refs/bugs/$B\n",
    ),
];

// The tracked heads are below the local ones.
const BELOW: &[Step] = &[
    Does(&["b", "user-set", "$A"], 5, "$A\n"),
    Does(&["b", "comment", "$B", "more"], 6, "$D\n"),
    Does(&["b", "user-edit", "Ann", "new@x"], 7, "$A\n"),
    Cuts('R'),
    Cuts('P'),
    Does(&["b", "merge", "o"], 8, NOTHING),
    Wrote(0),
    Loses('R'),
    Loses('P'),
    Does(&["b", "merge", "o"], 9, NOTHING),
    Wrote(0),
    Refuses(
        &["b", "show", "$B"],
        10,
        "refused 14 damaged b/refs/bugs/$B\n",
    ),
];

#[test]
fn what_is_known_is_known_whatever_is_damaged(rt: HostRuntime) -> Result<(), Fail> {
    for steps in [SAME, BELOW] {
        let mut script = Script::new(rt.alloc(), "b")?;
        script.play(KNOWN)?;
        script.play(steps)?;
    }
    Ok(())
}
