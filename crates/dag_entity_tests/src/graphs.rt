//! Bugs of valid graphs, and the order of their commits.
use crate::bugs::{EIGHT, FIVE, FOUR, ONE, SEVEN, SIX, THREE, TWO, read_one, told_of};
use crate::cases::{
    Answer, Body, C0, C1, C2, C3, C4, C5, C6, C7, C8, C9, Case, Commit, Heads, first_other,
    put_commits,
};
use bug_ops::BugOp;
use fixtures::{CREATE, Disk, name};
use gb_text::Name;
use std::test::Fail;

const FIRST: &[&str] = &["create-clock-7", "edit-clock-1", "ops", "version-4"];

const SECOND: &[&str] = &["edit-clock-2", "ops", "version-4"];

const THIRD: &[&str] = &["edit-clock-3", "ops", "version-4"];

const NONE: Body = Body::Ops(&[]);

const ROOT: Commit = Commit(&[], FIRST, Body::Ops(&[CREATE]));

const ONE_ABOVE: Commit = Commit(&[C0], SECOND, Body::Ops(&[ONE]));

const TWO_ABOVE: Commit = Commit(&[C0], SECOND, Body::Ops(&[TWO]));

const THREE_ABOVE: Commit = Commit(&[C0], SECOND, Body::Ops(&[THREE]));

const FOUR_ABOVE: Commit = Commit(&[C0], SECOND, Body::Ops(&[FOUR]));

const FIVE_ABOVE: Commit = Commit(&[C0], SECOND, Body::Ops(&[FIVE]));

const SIX_ABOVE: Commit = Commit(&[C0], SECOND, Body::Ops(&[SIX]));

const SEVEN_ABOVE: Commit = Commit(&[C0], SECOND, Body::Ops(&[SEVEN]));

const EIGHT_ABOVE: Commit = Commit(&[C0], SECOND, Body::Ops(&[EIGHT]));

// The SHA-256 of the packs order `ONE`, `TWO` and `FOUR` so.
const GRAPHS: &[Case] = &[
    Case(&[ROOT], Heads::One(C0), Answer::Entity(&[C0], 1, 7), 3),
    Case(
        &[ROOT, ONE_ABOVE, Commit(&[C1], THIRD, Body::Ops(&[TWO]))],
        Heads::One(C2),
        Answer::Entity(&[C0, C1, C2], 3, 7),
        9,
    ),
    Case(
        &[ROOT, ONE_ABOVE, TWO_ABOVE, Commit(&[C1, C2], THIRD, NONE)],
        Heads::One(C3),
        Answer::Entity(&[C0, C1, C2, C3], 3, 7),
        12,
    ),
    Case(
        &[ROOT, TWO_ABOVE, ONE_ABOVE, Commit(&[C1, C2], THIRD, NONE)],
        Heads::One(C3),
        Answer::Entity(&[C0, C2, C1, C3], 3, 7),
        12,
    ),
    Case(
        &[ROOT, FOUR_ABOVE, TWO_ABOVE, Commit(&[C1, C2], THIRD, NONE)],
        Heads::One(C3),
        Answer::Entity(&[C0, C2, C1, C3], 3, 7),
        12,
    ),
    Case(
        &[
            ROOT,
            Commit(&[C0], &["edit-clock-2", "ops", "version-4", "x"], NONE),
            Commit(&[C0], SECOND, NONE),
            Commit(&[C1, C2], THIRD, NONE),
        ],
        Heads::One(C3),
        Answer::Entity(&[C0, C2, C1, C3], 3, 7),
        12,
    ),
    Case(
        &[ROOT, Commit(&[C0, C0], SECOND, NONE)],
        Heads::One(C1),
        Answer::Entity(&[C0, C1], 2, 7),
        6,
    ),
    Case(
        &[
            ROOT,
            Commit(
                &[C0],
                &["create-clock-9", "edit-clock-2", "ops", "version-4", "x"],
                Body::Text(
                    b"{ \"ops\" : null , \"author\":{\"id\":\"0a0a0a0a0a0a0a0a0a0a0a0a0a0a0a0a0a0a0a0a0a0a0a0a0a0a0a0a0a0a0a0a\"} }",
                ),
            ),
        ],
        Heads::One(C1),
        Answer::Entity(&[C0, C1], 2, 7),
        6,
    ),
    Case(
        &[
            ROOT,
            ONE_ABOVE,
            TWO_ABOVE,
            THREE_ABOVE,
            FOUR_ABOVE,
            FIVE_ABOVE,
            SIX_ABOVE,
            SEVEN_ABOVE,
            EIGHT_ABOVE,
            Commit(&[C1, C2, C3, C4, C5, C6, C7, C8], THIRD, NONE),
        ],
        Heads::One(C9),
        Answer::Entity(&[C0, C3, C1, C7, C6, C5, C2, C8, C4, C9], 3, 7),
        30,
    ),
];

#[test]
fn graphs_are_in_order_of_clock_pack_and_name(rt: HostRuntime) -> Result<(), Fail> {
    assert_eq!(rt; first_other(rt.alloc(), GRAPHS)?, None);
    Ok(())
}

// A fork, with a third commit above its left side.
const FORK: &[Commit] = &[
    ROOT,
    ONE_ABOVE,
    TWO_ABOVE,
    Commit(&[C1], THIRD, Body::Ops(&[FIVE])),
];

const HEADS: &[Case] = &[
    Case(FORK, Heads::One(C3), Answer::Entity(&[C0, C1, C3], 3, 7), 9),
    Case(FORK, Heads::One(C2), Answer::Entity(&[C0, C2], 2, 7), 6),
    Case(FORK, Heads::Two(C1, C1), Answer::Entity(&[C0, C1], 2, 7), 6),
    Case(
        FORK,
        Heads::Two(C0, C3),
        Answer::Entity(&[C0, C1, C3], 3, 7),
        9,
    ),
    Case(
        FORK,
        Heads::Two(C3, C1),
        Answer::Entity(&[C0, C1, C3], 3, 7),
        9,
    ),
    Case(
        FORK,
        Heads::Two(C1, C2),
        Answer::Entity(&[C0, C1, C2], 2, 7),
        9,
    ),
    Case(
        FORK,
        Heads::Two(C2, C1),
        Answer::Entity(&[C0, C1, C2], 2, 7),
        9,
    ),
    Case(
        FORK,
        Heads::Two(C2, C3),
        Answer::Entity(&[C0, C1, C2, C3], 3, 7),
        12,
    ),
];

#[test]
fn two_heads_are_one_entity(rt: HostRuntime) -> Result<(), Fail> {
    assert_eq!(rt; first_other(rt.alloc(), HEADS)?, None);
    Ok(())
}

const CHAIN: &[Commit] = &[ROOT, ONE_ABOVE, Commit(&[C1], THIRD, Body::Ops(&[TWO]))];

// Whether these digits are the names in order.
fn are_named(order: &[Name], digits: &[&str]) -> Result<bool, Fail> {
    for (found, wanted) in order.iter().zip(digits) {
        if *found != name(wanted)? {
            return Ok(false);
        }
    }
    Ok(order.len() == digits.len())
}

// The names were computed outside.
const CHAIN_NAMES: &[&str] = &[
    "096fc8eed65884f9bf25c2a143f3fe90029d7d49",
    "5e20646f5d0340281ecb42541607fdd50f21a2ff",
    "97200f8a124cf23722607d17a2616e535db7012e",
];

#[test]
fn a_chain_has_the_names_of_git(rt: HostRuntime) -> Result<(), Fail> {
    let mut disk = Disk::new(rt.alloc())?;
    put_commits(&mut disk, CHAIN)?;
    let read = read_one::<BugOp>(
        &mut disk,
        &name("97200f8a124cf23722607d17a2616e535db7012e")?,
    );
    let told = told_of(&disk, read)??;
    assert!(rt; are_named(&told.order, CHAIN_NAMES)?);
    assert_eq!(rt; told.commits, 3);
    Ok(())
}
