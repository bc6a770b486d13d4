//! Merges of the versions of people.
use run_fixtures::Step::{Does, Has, Lacks, Puts, Refuses, Versions, Wrote};
use run_fixtures::{Script, Step};
use std::test::Fail;

const PARTED: &[Step] = &[
    Does(&["a", "user-new", "Ann", "ann@x"], 1, "$A\n"),
    Does(&["a", "push", "b"], 2, "push identity $A pushed\n"),
    Does(&["b", "user-set", "$A"], 3, "$A\n"),
    Does(&["a", "user-edit", "Ann", "one@x"], 4, "$A\n"),
    Does(&["b", "user-edit", "Ann", "two@x"], 5, "$A\n"),
    Has("a/refs/identities/$A", "$G\n"),
    Has("b/refs/identities/$A", "$H\n"),
    Refuses(
        &["b", "pull", "o", "a"],
        6,
        "fetch identity $A fetched\nmerge identity $A not-forward $G\n",
    ),
    Has("b/refs/identities/$A", "$H\n"),
    Refuses(
        &["a", "pull", "o", "b"],
        7,
        "fetch identity $A fetched\nmerge identity $A not-forward $H\n",
    ),
    Has("a/refs/identities/$A", "$G\n"),
    Refuses(&["a", "push", "b"], 8, "push identity $A not-forward $H\n"),
    Wrote(0),
];

#[test]
fn a_person_that_parts_is_not_forward(rt: HostRuntime) -> Result<(), Fail> {
    Script::new(rt.alloc(), "a")?.play(PARTED)
}

const VERSION: &str =
    "{\"name\":\"Ann\",\"nonce\":\"AAAAAAAAAAAAAAAAAAAAAAAAAAA=\",\"unix_time\":1,\"version\":2}";

const WITH_KEYS: &str =
    "{\"name\":\"Ann\",\"nonce\":\"AAAAAAAAAAAAAAAAAAAAAAAAAAA=\",\"pub_keys\":[\"k\"],\"unix_time\":1,\"version\":2}";

const KNOWN: &[Step] = &[
    Does(&["p", "user-new", "Ann", "ann@x"], 1, "$A\n"),
    Has("p/refs/identities/$A", "$H\n"),
    Does(&["b", "user-new", "Bo", "bo@x"], 2, "$C\n"),
    Does(&["b", "fetch", "o", "p"], 3, "fetch identity $A fetched\n"),
    Does(&["b", "merge", "o"], 4, "merge identity $A new\n"),
    Wrote(1),
    Has("b/refs/identities/$A", "$H\n"),
];

const FORWARD: &[Step] = &[
    Versions('G', &['H'], VERSION),
    Puts("p/refs/identities/$A", "$G\n"),
    Does(
        &["b", "pull", "o", "p"],
        5,
        "fetch identity $A fetched\nmerge identity $A forward\n",
    ),
    Has("b/refs/identities/$A", "$G\n"),
    Puts("p/refs/identities/$A", "$H\n"),
    Does(
        &["b", "pull", "o", "p"],
        6,
        "fetch identity $A fetched\nmerge identity $A nothing\n",
    ),
    Has("b/refs/identities/$A", "$G\n"),
];

const KEYS: &[Step] = &[
    Versions('K', &['H'], WITH_KEYS),
    Puts("p/refs/identities/$A", "$K\n"),
    Refuses(
        &["b", "pull", "o", "p"],
        5,
        "fetch identity $A fetched\nmerge identity $A invalid I5 $K\n",
    ),
    Has("b/refs/identities/$A", "$H\n"),
];

const PARENTS: &[Step] = &[
    Versions('G', &['H'], VERSION),
    Versions('K', &['H', 'G'], VERSION),
    Puts("p/refs/identities/$A", "$K\n"),
    Refuses(
        &["b", "pull", "o", "p"],
        5,
        "fetch identity $A fetched\nmerge identity $A invalid I6 $K\n",
    ),
    Has("b/refs/identities/$A", "$H\n"),
];

const NO_VERSION: &[Step] = &[
    Versions('K', &['H'], "{\"version\":1}"),
    Puts("p/refs/identities/$A", "$K\n"),
    Refuses(
        &["b", "pull", "o", "p"],
        5,
        "fetch identity $A fetched\nmerge identity $A invalid I4 $K\n",
    ),
    Has("b/refs/identities/$A", "$H\n"),
];

const OTHER: &[Step] = &[
    Puts(
        "p/refs/identities/00000000000000000000000000000000000000000000000000000000000000ff",
        "$H\n",
    ),
    Refuses(
        &["b", "pull", "o", "p"],
        5,
        "fetch identity 00000000000000000000000000000000000000000000000000000000000000ff fetched\n\
         fetch identity $A same\n\
         merge identity 00000000000000000000000000000000000000000000000000000000000000ff invalid I7 $A\n\
         merge identity $A nothing\n",
    ),
    Lacks("b/refs/identities/00000000000000000000000000000000000000000000000000000000000000ff"),
];

#[test]
fn versions_are_merged(rt: HostRuntime) -> Result<(), Fail> {
    for steps in [FORWARD, KEYS, PARENTS, NO_VERSION, OTHER] {
        let mut script = Script::new(rt.alloc(), "p")?;
        script.play(KNOWN)?;
        script.play(steps)?;
    }
    Ok(())
}
