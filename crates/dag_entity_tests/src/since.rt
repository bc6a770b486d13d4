//! What a bug has since a known head.
use crate::bugs::{ANA, BUG, ONE, TWO};
use crate::cases::{
    ABSENT, Body, C0, C1, C2, C3, C4, Change, Commit, Mark, P1, make, marked, name_of, put_all,
};
use bug_ops::BugOp;
use dag_entity::{EntityFault, Placed, Since, read_since};
use fixtures::{CREATE, Disk};
use gb_text::Name;
use op_kind::OpKind;
use std::alloc::Global;
use std::test::Fail;

const FIRST: &[&str] = &["create-clock-1", "edit-clock-1", "ops", "version-4"];

const SECOND: &[&str] = &["edit-clock-2", "ops", "version-4"];

const THIRD: &[&str] = &["edit-clock-3", "ops", "version-4"];

const FOURTH: &[&str] = &["edit-clock-4", "ops", "version-4"];

const NONE: Body = Body::Ops(&[]);

const ROOT: Commit = Commit(&[], FIRST, Body::Ops(&[CREATE]));

const ABOVE: Commit = Commit(&[C0], SECOND, Body::Ops(&[ONE]));

const CHAIN: &[Commit] = &[ROOT, ABOVE, Commit(&[C1], THIRD, Body::Ops(&[TWO]))];

const MERGE: &[Commit] = &[
    ROOT,
    ABOVE,
    Commit(&[C0], SECOND, Body::Ops(&[TWO])),
    Commit(&[C1, C2], THIRD, NONE),
    Commit(&[C3], FOURTH, NONE),
];

const NOTHING: Change = Change::Nothing;

// What there is since the known head: the commits above it, or so many commits in all.
#[derive(Clone, Copy)]
enum News {
    Same,
    Chain(&'static [Name]),
    Whole(u64),
    Fault(EntityFault),
}

// A graph, what happens to its files, a head and a known one, and what there is since then, by how many
// object reads.
#[derive(Clone, Copy)]
struct Case(&'static [Commit], Change, (Name, Name), News, u64);

const CASES: &[Case] = &[
    Case(CHAIN, NOTHING, (C2, C2), News::Same, 0),
    Case(CHAIN, NOTHING, (C2, C1), News::Chain(&[C2]), 3),
    Case(CHAIN, NOTHING, (C2, C0), News::Chain(&[C1, C2]), 6),
    Case(CHAIN, Change::Gone(C0), (C2, C0), News::Chain(&[C1, C2]), 6),
    Case(CHAIN, NOTHING, (C1, C2), News::Whole(2), 6),
    Case(CHAIN, NOTHING, (C2, ABSENT), News::Whole(3), 9),
    Case(
        CHAIN,
        Change::Gone(C1),
        (C2, C0),
        News::Fault(EntityFault::Missing(C1)),
        2,
    ),
    Case(
        CHAIN,
        Change::Damaged(P1),
        (C2, C0),
        News::Fault(EntityFault::Damaged(P1)),
        4,
    ),
    Case(MERGE, NOTHING, (C3, C1), News::Whole(4), 12),
    Case(MERGE, NOTHING, (C4, C3), News::Chain(&[C4]), 3),
    Case(MERGE, NOTHING, (C4, C1), News::Whole(5), 15),
];

// Whether these packs are those of the commits for which these names stand.
fn are_of<K>(marks: &[Mark], packs: &[Placed<K>], wanted: &[Name]) -> bool {
    packs.len() == wanted.len()
        && packs
            .iter()
            .zip(wanted.iter())
            .all(|(placed, name)| placed.commit == name_of(marks, name))
}

// Whether there is this since the known head. It is generic over the kind, as the other readings are.
fn are_news<K: OpKind>(
    disk: &mut Disk,
    marks: &[Mark],
    head: &Name,
    known: &Name,
    wanted: News,
) -> bool {
    let found: Result<Since<K>, EntityFault> = read_since(
        disk.alloc,
        &mut disk.store,
        &disk.folder,
        &BUG,
        head,
        known,
        &[ANA],
    );
    match (found, wanted) {
        (Ok(Since::Same), News::Same) => true,
        (Ok(Since::Chain(packs)), News::Chain(names)) => are_of(marks, packs.as_slice(), names),
        (Ok(Since::Whole(entity)), News::Whole(count)) => entity.commits == count,
        (Err(fault), News::Fault(wanted)) => marked(marks, fault) == wanted,
        _ => false,
    }
}

// Whether that is so of a case, by so many object reads.
fn is_read(alloc: Global, case: Case) -> Result<bool, Fail> {
    let Case(commits, change, (head, known), wanted, reads) = case;
    let mut disk = Disk::new(alloc)?;
    let marks = put_all(&mut disk, commits)?;
    make(&mut disk, &marks, change)?;
    let head = name_of(&marks, &head);
    let known = name_of(&marks, &known);
    let are = are_news::<BugOp>(&mut disk, &marks, &head, &known, wanted);
    Ok(are && disk.store.reads() == reads)
}

#[test]
fn new_commits_of_a_chain_are_read_alone(rt: HostRuntime) -> Result<(), Fail> {
    for (place, case) in CASES.iter().enumerate() {
        assert!(rt; is_read(rt.alloc(), *case)?, "{place}");
    }
    Ok(())
}
