//! Refs and objects that are damaged.
use run_fixtures::Step::{Cuts, Does, Has, Lacks, Loses, Puts, Read, Refuses, Spoils, Wrote};
use run_fixtures::{Script, Step};
use std::alloc::Global;
use std::test::Fail;

// The folder `a`, with a person and a bug of one commit.
const BEGIN: &[Step] = &[
    Does(&["a", "user-new", "Ann", "ann@x"], 1, "$A\n"),
    Does(&["a", "new", "title", "message"], 2, "$B\n"),
    Has("a/refs/identities/$A", "$P\n"),
    Has("a/refs/bugs/$B", "$R\n"),
];

// Plays the steps, which damage the folder with this word.
fn play(alloc: Global, folder: &str, steps: &[Step]) -> Result<(), Fail> {
    let mut script = Script::new(alloc, folder)?;
    script.play(BEGIN)?;
    script.play(steps)
}

const BAD_PEER: &[Step] = &[
    Puts("hub/refs/bugs/$B", "no ref"),
    Refuses(
        &["a", "push", "hub"],
        3,
        "push identity $A pushed\npush bug $B damaged ref\n",
    ),
    Has("hub/refs/bugs/$B", "no ref"),
    Refuses(
        &["b", "fetch", "o", "hub"],
        4,
        "fetch identity $A fetched\nfetch bug $B damaged ref\n",
    ),
    Puts("b/refs/remotes/o/identities/x", "no id"),
    Refuses(
        &["b", "fetch", "o", "hub"],
        5,
        "fetch identity $A same\nfetch bug $B damaged ref\n",
    ),
    Wrote(0),
    Read(0),
];

#[test]
fn a_bad_ref_of_a_peer_has_its_line(rt: HostRuntime) -> Result<(), Fail> {
    play(rt.alloc(), "a", BAD_PEER)
}

const HELD: &[Step] = &[
    Puts("hub/refs/identities/$A", "no ref"),
    Refuses(
        &["a", "push", "hub"],
        3,
        "push identity $A damaged ref\npush bug $B held\n",
    ),
    Wrote(0),
    Lacks("hub/refs/bugs/$B"),
];

#[test]
fn bugs_are_held_where_an_identity_is_damaged(rt: HostRuntime) -> Result<(), Fail> {
    play(rt.alloc(), "a", HELD)
}

const TAKEN: &[Step] = &[
    Spoils('P'),
    Refuses(
        &["a", "push", "hub"],
        3,
        "push identity $A damaged taken $P\npush bug $B held\n",
    ),
    Lacks("hub/refs/identities/$A"),
    Lacks("hub/refs/bugs/$B"),
];

#[test]
fn other_bytes_in_the_target_are_kept(rt: HostRuntime) -> Result<(), Fail> {
    play(rt.alloc(), "hub", TAKEN)
}

const MISSING: &[Step] = &[
    Cuts('R'),
    Refuses(
        &["b", "fetch", "o", "a"],
        3,
        "fetch identity $A fetched\nfetch bug $B damaged bytes $R\n",
    ),
    Loses('R'),
    Refuses(
        &["b", "fetch", "o", "a"],
        4,
        "fetch identity $A same\nfetch bug $B damaged missing $R\n",
    ),
    Lacks("b/refs/remotes/o/bugs/$B"),
];

#[test]
fn a_damaged_object_of_a_peer_has_its_line(rt: HostRuntime) -> Result<(), Fail> {
    play(rt.alloc(), "a", MISSING)
}

const OWN: &[Step] = &[
    Puts("a/refs/bugs/$B", "no ref"),
    Refuses(
        &["a", "push", "hub"],
        3,
        "refused 14 damaged a/refs/bugs/$B\n",
    ),
    Has("hub/refs/identities/$A", "$P\n"),
];

#[test]
fn a_bad_own_ref_ends_the_call(rt: HostRuntime) -> Result<(), Fail> {
    play(rt.alloc(), "a", OWN)
}
