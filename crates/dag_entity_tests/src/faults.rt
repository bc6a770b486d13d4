//! Bugs with one thing wrong, and how many objects are read until that is told.
use crate::bugs::{BOB, ONE, ONE_ID, OTHER_ID, THREE, TWO};
use crate::cases::{
    ABSENT, Answer, Body, C0, C1, C2, C3, C4, Case, Change, Commit, Heads, P0, P1, T0, T1,
    first_other, first_other_above, first_other_change,
};
use dag_entity::EntityFault;
use fixtures::{CREATE, OTHER_CREATE};
use op_kind::OpFault;
use std::test::Fail;

const FIRST: &[&str] = &["create-clock-1", "edit-clock-1", "ops", "version-4"];

const FIFTH: &[&str] = &["create-clock-1", "edit-clock-5", "ops", "version-4"];

const SECOND: &[&str] = &["edit-clock-2", "ops", "version-4"];

const THIRD: &[&str] = &["edit-clock-3", "ops", "version-4"];

const SIXTH: &[&str] = &["edit-clock-6", "ops", "version-4"];

const LAST: &[&str] = &["edit-clock-9223372036854775807", "ops", "version-4"];

const LAST_BUT_ONE: &[&str] = &["edit-clock-9223372036854775806", "ops", "version-4"];

const NONE: Body = Body::Ops(&[]);

const ROOT: Commit = Commit(&[], FIRST, Body::Ops(&[CREATE]));

const ROOT_AT_FIVE: Commit = Commit(&[], FIFTH, Body::Ops(&[CREATE]));

const LEFT: Commit = Commit(&[C0], SECOND, Body::Ops(&[ONE]));

const RIGHT: Commit = Commit(&[C0], SECOND, Body::Ops(&[TWO]));

const CLOCKS: &[(Commit, EntityFault, u64)] = &[
    (
        Commit(&[C0], &["edit-clock-4", "ops", "version-4"], NONE),
        EntityFault::ClockOrder(C1, C0),
        6,
    ),
    (
        Commit(&[C0], &["edit-clock-5", "ops", "version-4"], NONE),
        EntityFault::ClockOrder(C1, C0),
        6,
    ),
    (
        Commit(&[C0], &["edit-clock-1000006", "ops", "version-4"], NONE),
        EntityFault::ClockJump(C1, C0),
        6,
    ),
    (Commit(&[C0], LAST, NONE), EntityFault::ClockJump(C1, C0), 6),
];

const GOOD_CLOCKS: &[Case] = &[
    Case(
        &[ROOT_AT_FIVE, Commit(&[C0], SIXTH, NONE)],
        Heads::One(C1),
        Answer::Entity(&[C0, C1], 6, 1),
        6,
    ),
    Case(
        &[
            ROOT_AT_FIVE,
            Commit(&[C0], &["edit-clock-1000005", "ops", "version-4"], NONE),
        ],
        Heads::One(C1),
        Answer::Entity(&[C0, C1], 1_000_005, 1),
        6,
    ),
    Case(
        &[
            ROOT_AT_FIVE,
            Commit(&[C0], SIXTH, Body::Ops(&[ONE])),
            Commit(&[C0], SIXTH, Body::Ops(&[TWO])),
            Commit(&[C1, C2], &["edit-clock-1000007", "ops", "version-4"], NONE),
        ],
        Heads::One(C3),
        Answer::Entity(&[C0, C1, C2, C3], 1_000_007, 1),
        12,
    ),
    Case(
        &[ROOT, LEFT, RIGHT, Commit(&[C1, C2], LAST, NONE)],
        Heads::One(C3),
        Answer::Entity(&[C0, C1, C2, C3], 9_223_372_036_854_775_807, 1),
        12,
    ),
];

#[test]
fn a_clock_rises_by_a_million_at_most_but_in_merges(rt: HostRuntime) -> Result<(), Fail> {
    assert_eq!(rt; first_other_above(rt.alloc(), ROOT_AT_FIVE, CLOCKS)?, None);
    assert_eq!(rt; first_other(rt.alloc(), GOOD_CLOCKS)?, None);
    Ok(())
}

// `P1` and `T1` stand for what C1 names, absent too.
const TREES: &[(Commit, EntityFault, u64)] = &[
    (
        Commit(&[C0], &["edit-clock-2", "version-4"], NONE),
        EntityFault::NoOps(C1),
        3,
    ),
    (
        Commit(&[C0], SECOND, Body::Names(T0)),
        EntityFault::NoOps(C1),
        4,
    ),
    (
        Commit(&[C0], SECOND, Body::Names(C0)),
        EntityFault::NoOps(C1),
        4,
    ),
    (
        Commit(&[C0], SECOND, Body::Names(ABSENT)),
        EntityFault::Missing(P1),
        4,
    ),
    (
        Commit(&[C0], SECOND, Body::Tree(ABSENT)),
        EntityFault::Missing(T1),
        3,
    ),
    (
        Commit(&[C0], SECOND, Body::Tree(P0)),
        EntityFault::BadTree(C1),
        3,
    ),
    (
        Commit(&[C0], SECOND, Body::Tree(C0)),
        EntityFault::BadTree(C1),
        3,
    ),
    (
        Commit(&[C0], &["edit-clock-2", "ops"], NONE),
        EntityFault::UnknownVersion(C1, 0),
        3,
    ),
    (
        Commit(
            &[C0],
            &["edit-clock-2", "ops", "version-4", "version-5"],
            NONE,
        ),
        EntityFault::UnknownVersion(C1, 4),
        3,
    ),
    (
        Commit(&[C0], &["edit-clock-2", "ops", "version-5"], NONE),
        EntityFault::UnknownVersion(C1, 5),
        3,
    ),
    (
        Commit(&[C0], &["edit-clock-2", "ops", "version-04"], NONE),
        EntityFault::UnknownVersion(C1, 0),
        3,
    ),
];

const BAD_CLOCKS: &[(Commit, EntityFault, u64)] = &[
    (
        Commit(&[C0], &["ops", "version-4"], NONE),
        EntityFault::BadClock(C1),
        3,
    ),
    (
        Commit(
            &[C0],
            &["edit-clock-2", "edit-clock-3", "ops", "version-4"],
            NONE,
        ),
        EntityFault::BadClock(C1),
        3,
    ),
    (
        Commit(&[C0], &["edit-clock-0", "ops", "version-4"], NONE),
        EntityFault::BadClock(C1),
        3,
    ),
    (
        Commit(&[C0], &["edit-clock-02", "ops", "version-4"], NONE),
        EntityFault::BadClock(C1),
        3,
    ),
    (
        Commit(
            &[C0],
            &["edit-clock-9223372036854775808", "ops", "version-4"],
            NONE,
        ),
        EntityFault::BadClock(C1),
        3,
    ),
    (
        Commit(
            &[C0],
            &[
                "create-clock-1",
                "create-clock-2",
                "edit-clock-2",
                "ops",
                "version-4",
            ],
            NONE,
        ),
        EntityFault::BadClock(C1),
        3,
    ),
    (
        Commit(
            &[C0],
            &["create-clock-0", "edit-clock-2", "ops", "version-4"],
            NONE,
        ),
        EntityFault::BadClock(C1),
        3,
    ),
];

#[test]
fn a_tree_has_one_version_one_clock_and_ops(rt: HostRuntime) -> Result<(), Fail> {
    assert_eq!(rt; first_other_above(rt.alloc(), ROOT, TREES)?, None);
    assert_eq!(rt; first_other_above(rt.alloc(), ROOT, BAD_CLOCKS)?, None);
    Ok(())
}

const PACKS: &[(Commit, EntityFault, u64)] = &[
    (
        Commit(&[C0], SECOND, Body::Text(b"")),
        EntityFault::BadPack(C1),
        4,
    ),
    (
        Commit(&[C0], SECOND, Body::Text(b"[]")),
        EntityFault::BadPack(C1),
        4,
    ),
    (
        Commit(&[C0], SECOND, Body::Text(b"{\"ops\":[]}")),
        EntityFault::BadPack(C1),
        4,
    ),
    (
        Commit(&[C0], SECOND, Body::Ops(&[b"1"])),
        EntityFault::BadOperation(C1, 0, OpFault::NotObject),
        4,
    ),
    (
        Commit(&[C0], SECOND, Body::Ops(&[ONE, b"{}"])),
        EntityFault::BadOperation(C1, 1, OpFault::NoType),
        4,
    ),
    (
        Commit(&[C0], SECOND, Body::Ops(&[ONE, ONE])),
        EntityFault::RepeatedOperation(ONE_ID),
        6,
    ),
    (
        Commit(&[C0], SECOND, Body::Ops(&[ONE, TWO, OTHER_CREATE])),
        EntityFault::SecondCreate(OTHER_ID),
        6,
    ),
    (
        Commit(&[C0], SECOND, Body::Unknown(&[ONE])),
        EntityFault::AuthorUnknown(BOB),
        6,
    ),
    (
        Commit(&[C0], SECOND, Body::Unknown(&[])),
        EntityFault::AuthorUnknown(BOB),
        6,
    ),
    (
        Commit(&[ABSENT], SECOND, NONE),
        EntityFault::Missing(ABSENT),
        2,
    ),
    (Commit(&[P0], SECOND, NONE), EntityFault::NotCommit(P0), 2),
    (
        Commit(&[C0, T0], SECOND, NONE),
        EntityFault::NotCommit(T0),
        3,
    ),
];

#[test]
fn a_pack_and_its_parents_are_judged(rt: HostRuntime) -> Result<(), Fail> {
    assert_eq!(rt; first_other_above(rt.alloc(), ROOT, PACKS)?, None);
    Ok(())
}

const FILES: &[(Change, EntityFault, u64)] = &[
    (Change::Gone(C1), EntityFault::Missing(C1), 1),
    (Change::Gone(C0), EntityFault::Missing(C0), 2),
    (Change::Gone(T1), EntityFault::Missing(T1), 3),
    (Change::Gone(P1), EntityFault::Missing(P1), 4),
    (Change::Gone(T0), EntityFault::Missing(T0), 5),
    (Change::Gone(P0), EntityFault::Missing(P0), 6),
    (Change::Damaged(C1), EntityFault::Damaged(C1), 1),
    (Change::Damaged(C0), EntityFault::Damaged(C0), 2),
    (Change::Damaged(T1), EntityFault::Damaged(T1), 3),
    (Change::Damaged(P1), EntityFault::Damaged(P1), 4),
    (Change::Damaged(T0), EntityFault::Damaged(T0), 5),
    (Change::Damaged(P0), EntityFault::Damaged(P0), 6),
];

#[test]
fn each_file_is_needed(rt: HostRuntime) -> Result<(), Fail> {
    assert_eq!(rt; first_other_change(rt.alloc(), &[ROOT, LEFT], FILES)?, None);
    Ok(())
}

const ROOTS: &[Case] = &[
    Case(
        &[Commit(&[], SECOND, Body::Ops(&[CREATE]))],
        Heads::One(C0),
        Answer::Fault(EntityFault::NoCreateClock(C0)),
        3,
    ),
    Case(
        &[Commit(&[], FIRST, Body::Ops(&[OTHER_CREATE]))],
        Heads::One(C0),
        Answer::Fault(EntityFault::WrongId(OTHER_ID)),
        3,
    ),
    Case(
        &[Commit(&[], FIRST, Body::Ops(&[ONE, CREATE]))],
        Heads::One(C0),
        Answer::Fault(EntityFault::FirstNotCreate),
        3,
    ),
    Case(
        &[Commit(&[], FIRST, NONE)],
        Heads::One(C0),
        Answer::Fault(EntityFault::FirstNotCreate),
        3,
    ),
    Case(
        &[Commit(&[], FIRST, Body::Ops(&[CREATE, OTHER_CREATE]))],
        Heads::One(C0),
        Answer::Fault(EntityFault::SecondCreate(OTHER_ID)),
        3,
    ),
    Case(
        &[Commit(&[], FIRST, Body::Unknown(&[CREATE]))],
        Heads::One(C0),
        Answer::Fault(EntityFault::AuthorUnknown(BOB)),
        3,
    ),
    Case(
        &[
            ROOT,
            Commit(&[], SECOND, Body::Ops(&[ONE])),
            Commit(&[C0, C1], THIRD, NONE),
        ],
        Heads::One(C2),
        Answer::Fault(EntityFault::SecondRoot(C1)),
        9,
    ),
    Case(
        &[ROOT, Commit(&[], SECOND, Body::Ops(&[ONE]))],
        Heads::Two(C1, C0),
        Answer::Fault(EntityFault::SecondRoot(C1)),
        6,
    ),
    Case(
        &[ROOT],
        Heads::One(P0),
        Answer::Fault(EntityFault::NotCommit(P0)),
        1,
    ),
    Case(
        &[ROOT],
        Heads::Two(C0, T0),
        Answer::Fault(EntityFault::NotCommit(T0)),
        2,
    ),
];

#[test]
fn one_root_begins_the_entity(rt: HostRuntime) -> Result<(), Fail> {
    assert_eq!(rt; first_other(rt.alloc(), ROOTS)?, None);
    Ok(())
}

const FORKS: &[Case] = &[
    Case(
        &[
            ROOT,
            LEFT,
            RIGHT,
            Commit(&[C1, C2], THIRD, Body::Ops(&[THREE])),
        ],
        Heads::One(C3),
        Answer::Fault(EntityFault::MergeHasOperations(C3)),
        12,
    ),
    Case(
        &[ROOT, LEFT, RIGHT, Commit(&[C1, C2], SECOND, NONE)],
        Heads::One(C3),
        Answer::Fault(EntityFault::ClockOrder(C3, C1)),
        12,
    ),
    Case(
        &[
            ROOT,
            LEFT,
            RIGHT,
            Commit(&[C1, C2], THIRD, Body::Unknown(&[])),
        ],
        Heads::One(C3),
        Answer::Fault(EntityFault::AuthorUnknown(BOB)),
        12,
    ),
    Case(
        &[ROOT, LEFT, Commit(&[C1], THIRD, Body::Ops(&[TWO, ONE]))],
        Heads::One(C2),
        Answer::Fault(EntityFault::RepeatedOperation(ONE_ID)),
        9,
    ),
    Case(
        &[ROOT, LEFT, Commit(&[C0], THIRD, Body::Ops(&[ONE]))],
        Heads::Two(C1, C2),
        Answer::Fault(EntityFault::RepeatedOperation(ONE_ID)),
        9,
    ),
    Case(
        &[
            ROOT,
            LEFT,
            RIGHT,
            Commit(&[C1, C2], LAST, NONE),
            Commit(&[C1], THIRD, NONE),
        ],
        Heads::Two(C3, C4),
        Answer::Fault(EntityFault::ClockFull(C3)),
        15,
    ),
    Case(
        &[
            ROOT,
            LEFT,
            RIGHT,
            Commit(&[C1, C2], LAST, NONE),
            Commit(&[C1], THIRD, NONE),
        ],
        Heads::Two(C4, C3),
        Answer::Fault(EntityFault::ClockFull(C3)),
        15,
    ),
    Case(
        &[
            ROOT,
            LEFT,
            RIGHT,
            Commit(&[C1, C2], LAST_BUT_ONE, NONE),
            Commit(&[C1], THIRD, NONE),
        ],
        Heads::Two(C3, C4),
        Answer::Entity(&[C0, C1, C2, C4, C3], 9_223_372_036_854_775_806, 1),
        15,
    ),
    Case(
        &[ROOT, LEFT, RIGHT, Commit(&[C1, C2], LAST, NONE)],
        Heads::Two(C1, C3),
        Answer::Entity(&[C0, C1, C2, C3], 9_223_372_036_854_775_807, 1),
        12,
    ),
    Case(
        &[ROOT, LEFT, RIGHT, Commit(&[C1, C2], LAST, NONE)],
        Heads::Two(C3, C1),
        Answer::Entity(&[C0, C1, C2, C3], 9_223_372_036_854_775_807, 1),
        12,
    ),
    Case(
        &[ROOT, LEFT, RIGHT, Commit(&[C1, C2], LAST, NONE)],
        Heads::Two(C3, C3),
        Answer::Entity(&[C0, C1, C2, C3], 9_223_372_036_854_775_807, 1),
        12,
    ),
];

#[test]
fn merges_and_forks_are_judged(rt: HostRuntime) -> Result<(), Fail> {
    assert_eq!(rt; first_other(rt.alloc(), FORKS)?, None);
    Ok(())
}
