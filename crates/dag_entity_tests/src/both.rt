//! Two heads that are read together.
use crate::bugs::{ANA, BOB, BUG, ONE, ONE_ID, TWO};
use crate::cases::{
    Body, C0, C1, C2, C3, C4, Change, Commit, P1, P2, make, marked, name_of, put_all,
};
use bug_ops::BugOp;
use dag_entity::{EntityFault, ReadBoth, read_both};
use fixtures::{CREATE, Disk};
use gb_text::Name;
use op_kind::OpKind;
use std::alloc::Global;
use std::test::Fail;

const FIRST: &[&str] = &["create-clock-1", "edit-clock-1", "ops", "version-4"];

const SECOND: &[&str] = &["edit-clock-2", "ops", "version-4"];

const THIRD: &[&str] = &["edit-clock-3", "ops", "version-4"];

const LAST: &[&str] = &["edit-clock-9223372036854775807", "ops", "version-4"];

const NONE: Body = Body::Ops(&[]);

const ROOT: Commit = Commit(&[], FIRST, Body::Ops(&[CREATE]));

const LEFT: Commit = Commit(&[C0], SECOND, Body::Ops(&[ONE]));

const RIGHT: Commit = Commit(&[C0], SECOND, Body::Ops(&[TWO]));

const SAME: Commit = Commit(&[C0], THIRD, Body::Ops(&[ONE]));

const STRANGE: Commit = Commit(&[C0], SECOND, Body::Unknown(&[TWO]));

const FULL: &[Commit] = &[
    ROOT,
    LEFT,
    RIGHT,
    Commit(&[C1, C2], LAST, NONE),
    Commit(&[C1], THIRD, NONE),
];

// How two heads lie to each other: with how many commits below both where the second is not known.
#[derive(Clone, Copy, Debug, PartialEq, Eq)]
enum Lie {
    Equal,
    Below,
    Above(u64),
    Apart(u64),
    Fault(EntityFault),
}

// A graph, what happens to its files, two heads, and how they lie, by how many object reads.
#[derive(Clone, Copy)]
struct Pair(&'static [Commit], Change, (Name, Name), Lie, u64);

const FORK: &[Commit] = &[ROOT, LEFT, RIGHT];

const NOTHING: Change = Change::Nothing;

const PAIRS: &[Pair] = &[
    Pair(FORK, NOTHING, (C1, C1), Lie::Equal, 0),
    Pair(FORK, NOTHING, (C1, C0), Lie::Below, 1),
    Pair(FORK, NOTHING, (C0, C1), Lie::Above(2), 6),
    Pair(FORK, NOTHING, (C1, C2), Lie::Apart(3), 9),
    Pair(FORK, Change::Gone(C0), (C1, C0), Lie::Below, 1),
    Pair(
        FORK,
        Change::Gone(C0),
        (C1, C2),
        Lie::Fault(EntityFault::Missing(C0)),
        3,
    ),
    Pair(
        FORK,
        Change::Damaged(P1),
        (C1, C2),
        Lie::Fault(EntityFault::Damaged(P1)),
        5,
    ),
    Pair(
        FORK,
        Change::Damaged(P2),
        (C1, C2),
        Lie::Fault(EntityFault::Damaged(P2)),
        9,
    ),
    Pair(
        &[ROOT, LEFT, STRANGE],
        NOTHING,
        (C1, C2),
        Lie::Fault(EntityFault::AuthorUnknown(BOB)),
        9,
    ),
    Pair(
        &[ROOT, LEFT, SAME],
        NOTHING,
        (C1, C2),
        Lie::Fault(EntityFault::RepeatedOperation(ONE_ID)),
        9,
    ),
    Pair(FULL, NOTHING, (C1, C3), Lie::Above(4), 12),
    Pair(FULL, NOTHING, (C3, C1), Lie::Below, 1),
    Pair(
        FULL,
        NOTHING,
        (C4, C3),
        Lie::Fault(EntityFault::ClockFull(C3)),
        15,
    ),
];

// How two heads of the bug lie to each other. It is generic over the kind, as the other readings are.
fn heads_lie<K: OpKind>(disk: &mut Disk, one: &Name, two: &Name) -> Lie {
    let found: Result<ReadBoth<K>, EntityFault> = read_both(
        disk.alloc,
        &mut disk.store,
        &disk.folder,
        &BUG,
        one,
        two,
        &[ANA],
    );
    match found {
        Ok(ReadBoth::Equal) => Lie::Equal,
        Ok(ReadBoth::Below) => Lie::Below,
        Ok(ReadBoth::Above(entity)) => Lie::Above(entity.commits),
        Ok(ReadBoth::Apart(entity)) => Lie::Apart(entity.commits),
        Err(fault) => Lie::Fault(fault),
    }
}

// Whether two heads lie so, by so many object reads.
fn is_lie(alloc: Global, pair: Pair) -> Result<bool, Fail> {
    let Pair(commits, change, (one, two), wanted, reads) = pair;
    let mut disk = Disk::new(alloc)?;
    let marks = put_all(&mut disk, commits)?;
    make(&mut disk, &marks, change)?;
    let found = heads_lie::<BugOp>(&mut disk, &name_of(&marks, &one), &name_of(&marks, &two));
    let found = match found {
        Lie::Fault(fault) => Lie::Fault(marked(&marks, fault)),
        found => found,
    };
    Ok(found == wanted && disk.store.reads() == reads)
}

#[test]
fn two_heads_are_read_together(rt: HostRuntime) -> Result<(), Fail> {
    for (place, pair) in PAIRS.iter().enumerate() {
        assert!(rt; is_lie(rt.alloc(), *pair)?, "{place}");
    }
    Ok(())
}
