//! People of a peer with one fault.
use crate::objects::{Body, Change, Commit};
use crate::pulls::{Case, Entity, refuse_each};
use std::test::Fail;

/// The person whose first version is that of Eve.
const EVE: Entity = (
    "identities",
    "e7269f42dad87f2e279cf2eeaeaf827fd08f0ea40097458a4c0485d5c5cd1b5c",
);

const FIRST: Commit = Commit(
    &[],
    &[],
    Body::Version(
        "{\"name\":\"Eve\",\"nonce\":\"AAAAAAAAAAAAAAAAAAAAAAAAAAA=\",\
\"unix_time\":1,\"version\":2}",
    ),
);

const SECOND: Commit = Commit(
    &["c0"],
    &[],
    Body::Version(
        "{\"name\":\"Eva\",\"nonce\":\"AAAAAAAAAAAAAAAAAAAAAAAAAAA=\",\
\"unix_time\":2,\"version\":2}",
    ),
);

const OTHER: &str = "{\"name\":\"Zoe\",\"nonce\":\"AAAAAAAAAAAAAAAAAAAAAAAAAAA=\",\
\"unix_time\":1,\"version\":2}";

const WITH_KEYS: &str = "{\"name\":\"Eve\",\"nonce\":\"AAAAAAAAAAAAAAAAAAAAAAAAAAA=\",\
\"pub_keys\":[\"k\"],\"unix_time\":1,\"version\":2}";

const BOTH: &[Commit] = &[FIRST, SECOND];

// What a fetch and a merge refuse of a person.
const PEOPLE: &[Case] = &[
    Case(
        BOTH,
        "no ref",
        Change::Nothing,
        &["fetch identity $X damaged ref"],
    ),
    Case(
        BOTH,
        "c1",
        Change::Gone("p0"),
        &["fetch identity $X damaged missing $p0"],
    ),
    Case(
        BOTH,
        "c1",
        Change::Other("t1"),
        &["fetch identity $X damaged bytes $t1"],
    ),
    Case(
        BOTH,
        "c1",
        Change::Cut("c0"),
        &["fetch identity $X damaged bytes $c0"],
    ),
    Case(
        BOTH,
        "p0",
        Change::Nothing,
        &["fetch identity $X damaged kind $p0"],
    ),
    Case(
        &[FIRST, Commit(&["c0"], &[], Body::Tree("p0"))],
        "c1",
        Change::Nothing,
        &["fetch identity $X damaged kind $p0"],
    ),
    Case(
        &[FIRST, Commit(&["c0"], &[], Body::Version("{}"))],
        "c1",
        Change::Nothing,
        &["merge identity $X invalid I4 $c1"],
    ),
    Case(
        &[FIRST, Commit(&["c0"], &["ops"], Body::Ops(&[]))],
        "c1",
        Change::Nothing,
        &["merge identity $X invalid I4 $c1"],
    ),
    Case(
        &[FIRST, Commit(&["c0"], &[], Body::Version(WITH_KEYS))],
        "c1",
        Change::Nothing,
        &["merge identity $X invalid I5 $c1"],
    ),
    Case(
        &[
            FIRST,
            SECOND,
            Commit(&["c0", "c1"], &[], Body::Version(OTHER)),
        ],
        "c2",
        Change::Nothing,
        &["merge identity $X invalid I6 $c2"],
    ),
    Case(
        &[Commit(&[], &[], Body::Version(OTHER)), SECOND],
        "c1",
        Change::Nothing,
        &[
            "merge identity $X invalid I7 \
45a4cd640f9cd9a850127ca1b52e2ac55485f86955ca8238b357a0b2f1ee3e3a",
        ],
    ),
];

#[test]
fn a_person_with_a_fault_does_not_come(rt: HostRuntime) -> Result<(), Fail> {
    refuse_each(rt.alloc(), EVE, "", PEOPLE)
}

// What a merge refuses of a person whose second version `f` knows.
const PARTED: &[Case] = &[
    Case(
        &[FIRST, SECOND, Commit(&["c1"], &[], Body::Version("{}"))],
        "c2",
        Change::Nothing,
        &["merge identity $X invalid I4 $c2"],
    ),
    Case(
        &[FIRST, SECOND, Commit(&["c0"], &[], Body::Version(OTHER))],
        "c2",
        Change::Nothing,
        &["merge identity $X not-forward $c2"],
    ),
];

#[test]
fn a_person_that_is_known_stays(rt: HostRuntime) -> Result<(), Fail> {
    refuse_each(rt.alloc(), EVE, "c1", PARTED)
}
