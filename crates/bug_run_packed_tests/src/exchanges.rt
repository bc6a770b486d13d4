//! Exchanges with a peer whose refs are packed, or whose packed refs do not read.
use run_fixtures::Step::{Does, Has, Lacks, Puts, Refuses, Removes, Wrote};
use run_fixtures::{Script, Step};
use std::test::Fail;

const BEGIN: &[Step] = &[
    Does(&["f", "user-new", "Ana", "ana@x"], 1, "$A\n"),
    Does(&["f", "new", "One", "m"], 2, "$B\n"),
    Has("f/refs/identities/$A", "$P\n"),
    Has("f/refs/bugs/$B", "$H\n"),
    Puts("f/packed-refs", "$H refs/bugs/$B\n$P refs/identities/$A\n"),
    Removes("f/refs/bugs/$B"),
    Removes("f/refs/identities/$A"),
];

// The peer's refs are fetched from its packed file. What is fetched packed stays the same.
const FETCHED: &[Step] = &[
    Does(
        &["g", "fetch", "p", "f"],
        3,
        "fetch identity $A fetched\nfetch bug $B fetched\n",
    ),
    Has("g/refs/remotes/p/bugs/$B", "$H\n"),
    Puts(
        "g/packed-refs",
        "$P refs/remotes/p/identities/$A\n$H refs/remotes/p/bugs/$B\n",
    ),
    Removes("g/refs/remotes/p/bugs/$B"),
    Removes("g/refs/remotes/p/identities/$A"),
    Does(
        &["g", "fetch", "p", "f"],
        4,
        "fetch identity $A same\nfetch bug $B same\n",
    ),
    Wrote(0),
    Lacks("g/refs/remotes/p/bugs/$B"),
    Does(
        &["f", "push", "g"],
        5,
        "push identity $A pushed\npush bug $B pushed\n",
    ),
    Has("g/refs/bugs/$B", "$H\n"),
    Lacks("f/refs/bugs/$B"),
    Does(
        &["f", "push", "g"],
        6,
        "push identity $A same\npush bug $B same\n",
    ),
    Wrote(0),
];

// The peer's packed refs are looked at before any write; a pull asks for the user before.
const DAMAGED: &[Step] = &[
    Puts("f/packed-refs", "x\n"),
    Refuses(
        &["g", "fetch", "p", "f"],
        3,
        "refused 14 damaged f/packed-refs\n",
    ),
    Wrote(0),
    Refuses(&["g", "push", "f"], 3, "refused 14 damaged f/packed-refs\n"),
    Wrote(0),
    Refuses(&["g", "pull", "p", "f"], 3, "refused 1 no user\n"),
    Does(&["g", "user-new", "Bo", "bo@x"], 4, "$C\n"),
    Refuses(
        &["g", "pull", "p", "f"],
        5,
        "refused 14 damaged f/packed-refs\n",
    ),
    Wrote(0),
    Puts("g/packed-refs", "y\n"),
    Refuses(
        &["g", "pull", "p", "f"],
        5,
        "refused 14 damaged g/packed-refs\n",
    ),
];

#[test]
fn packed_refs_are_exchanged(rt: HostRuntime) -> Result<(), Fail> {
    let mut script = Script::new(rt.alloc(), "f")?;
    script.play(BEGIN)?;
    script.play(FETCHED)
}

#[test]
fn damage_of_a_peer_refuses_an_exchange(rt: HostRuntime) -> Result<(), Fail> {
    let mut script = Script::new(rt.alloc(), "f")?;
    script.play(BEGIN)?;
    script.play(DAMAGED)
}
