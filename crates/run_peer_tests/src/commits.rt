//! Bugs with one fault.
use crate::cases::{CHILD, FIRST, NO_OP_1, NO_OP_2, NO_OP_3, ROOT, SECOND, THIRD, X};
use crate::objects::{Body, Change, Commit};
use crate::pulls::{Case, Last, refuse_each, refuse_last};
use fixtures::{CREATE, OTHER_CREATE};
use std::test::Fail;

const BOTH: &[Commit] = &[ROOT, CHILD];

// What a fetch refuses: a ref that does not read, files that are missing or damaged, and names of
// another kind.
const DAMAGED: &[Case] = &[
    Case(
        BOTH,
        "no ref",
        Change::Nothing,
        &["fetch bug $X damaged ref"],
    ),
    Case(
        BOTH,
        "c1",
        Change::Gone("p1"),
        &["fetch bug $X damaged missing $p1"],
    ),
    Case(
        BOTH,
        "c1",
        Change::Gone("t0"),
        &["fetch bug $X damaged missing $t0"],
    ),
    Case(
        BOTH,
        "c1",
        Change::Gone("c0"),
        &["fetch bug $X damaged missing $c0"],
    ),
    Case(
        BOTH,
        "c1",
        Change::Gone("c1"),
        &["fetch bug $X damaged missing $c1"],
    ),
    Case(
        BOTH,
        "c1",
        Change::Other("t1"),
        &["fetch bug $X damaged bytes $t1"],
    ),
    Case(
        BOTH,
        "c1",
        Change::Other("p0"),
        &["fetch bug $X damaged bytes $p0"],
    ),
    Case(
        BOTH,
        "c1",
        Change::Cut("c0"),
        &["fetch bug $X damaged bytes $c0"],
    ),
    Case(
        BOTH,
        "p0",
        Change::Nothing,
        &["fetch bug $X damaged kind $p0"],
    ),
    Case(
        BOTH,
        "t0",
        Change::Nothing,
        &["fetch bug $X damaged kind $t0"],
    ),
    Case(
        &[ROOT, Commit(&["p0"], SECOND, Body::Ops(&[NO_OP_1]))],
        "c1",
        Change::Nothing,
        &["fetch bug $X damaged kind $p0"],
    ),
    Case(
        &[ROOT, Commit(&["c0"], SECOND, Body::Tree("p0"))],
        "c1",
        Change::Nothing,
        &["fetch bug $X damaged kind $p0"],
    ),
    Case(
        &[ROOT, Commit(&["c0"], SECOND, Body::Names("t0"))],
        "c1",
        Change::Nothing,
        &["fetch bug $X damaged kind $t0"],
    ),
    Case(
        &[ROOT, Commit(&["c0"], SECOND, Body::Long(4_194_292))],
        "c1",
        Change::Nothing,
        &["fetch bug $X damaged large 4194305"],
    ),
];

#[test]
fn a_damaged_bug_is_not_fetched(rt: HostRuntime) -> Result<(), Fail> {
    refuse_each(rt.alloc(), X, "", DAMAGED)
}

// What a merge refuses of a root.
const ROOTS: &[Last] = &[
    Last(
        Commit(
            &[],
            &["create-clock-1", "edit-clock-1", "ops", "version-3"],
            Body::Ops(&[CREATE]),
        ),
        "merge bug $X invalid E5 $c0 3",
    ),
    Last(
        Commit(
            &[],
            &["create-clock-1", "edit-clock-1", "ops"],
            Body::Ops(&[CREATE]),
        ),
        "merge bug $X invalid E5 $c0 0",
    ),
    Last(
        Commit(
            &[],
            &["create-clock-1", "edit-clock-1", "version-4"],
            Body::Ops(&[CREATE]),
        ),
        "merge bug $X invalid E6 $c0",
    ),
    Last(
        Commit(
            &[],
            &["create-clock-0", "edit-clock-1", "ops", "version-4"],
            Body::Ops(&[CREATE]),
        ),
        "merge bug $X invalid E7 $c0",
    ),
    Last(
        Commit(
            &[],
            &["edit-clock-1", "ops", "version-4"],
            Body::Ops(&[CREATE]),
        ),
        "merge bug $X invalid E14 $c0",
    ),
    Last(
        Commit(&[], FIRST, Body::Ops(&[CREATE, NO_OP_1, NO_OP_1])),
        "merge bug $X invalid E15 $N",
    ),
    Last(
        Commit(&[], FIRST, Body::Ops(&[OTHER_CREATE])),
        "merge bug $X invalid E16 $Z",
    ),
    Last(
        Commit(&[], FIRST, Body::Ops(&[])),
        "merge bug $X invalid E17",
    ),
    Last(
        Commit(&[], FIRST, Body::Stranger(&[CREATE])),
        "merge bug $X invalid E19 $S",
    ),
];

#[test]
fn a_root_with_a_fault_is_not_merged(rt: HostRuntime) -> Result<(), Fail> {
    refuse_last(rt.alloc(), X, "", &[], "c0", ROOTS)
}

const BLANK_TITLE: &[u8] =
    b"{\"nonce\":\"AAAAAAAAAAAAAAAAAAAAAAAAAAA=\",\"timestamp\":1,\"title\":\" \",\"type\":2}";

const TYPE_9: &[u8] = b"{\"nonce\":\"AAAAAAAAAAAAAAAAAAAAAAAAAAA=\",\"timestamp\":1,\"type\":9}";

const NO_TYPE: &[u8] = b"{\"nonce\":\"AAAAAAAAAAAAAAAAAAAAAAAAAAA=\",\"timestamp\":1}";

const LATE: &[u8] =
    b"{\"nonce\":\"AAAAAAAAAAAAAAAAAAAAAAAAAAA=\",\"timestamp\":9223372036854775808,\"type\":7}";

const SHORT_NONCE: &[u8] = b"{\"nonce\":\"AAAA\",\"timestamp\":1,\"type\":7}";

const NO_MESSAGE: &[u8] =
    b"{\"nonce\":\"AAAAAAAAAAAAAAAAAAAAAAAAAAA=\",\"timestamp\":1,\"type\":3}";

// What a merge refuses of a commit over the root.
const CHILDREN: &[Last] = &[
    Last(
        Commit(
            &["c0"],
            &["edit-clock-0", "ops", "version-4"],
            Body::Ops(&[NO_OP_1]),
        ),
        "merge bug $X invalid E7 $c1",
    ),
    Last(
        Commit(&["c0"], &["ops", "version-4"], Body::Ops(&[NO_OP_1])),
        "merge bug $X invalid E7 $c1",
    ),
    Last(
        Commit(
            &["c0"],
            &["edit-clock-9223372036854775808", "ops", "version-4"],
            Body::Ops(&[NO_OP_1]),
        ),
        "merge bug $X invalid E7 $c1",
    ),
    Last(
        Commit(&["c0"], SECOND, Body::Text("{}")),
        "merge bug $X invalid E8 $c1",
    ),
    Last(
        Commit(&["c0"], SECOND, Body::Text("")),
        "merge bug $X invalid E8 $c1",
    ),
    Last(
        Commit(&["c0"], SECOND, Body::Ops(&[BLANK_TITLE])),
        "merge bug $X invalid E9 $c1 0 bad-text 5",
    ),
    Last(
        Commit(&["c0"], SECOND, Body::Ops(&[NO_OP_1, b"[]"])),
        "merge bug $X invalid E9 $c1 1 not-object",
    ),
    Last(
        Commit(&["c0"], SECOND, Body::Ops(&[NO_TYPE])),
        "merge bug $X invalid E9 $c1 0 no-type",
    ),
    Last(
        Commit(&["c0"], SECOND, Body::Ops(&[TYPE_9])),
        "merge bug $X invalid E9 $c1 0 unknown-type 9",
    ),
    Last(
        Commit(&["c0"], SECOND, Body::Ops(&[LATE])),
        "merge bug $X invalid E9 $c1 0 bad-time",
    ),
    Last(
        Commit(&["c0"], SECOND, Body::Ops(&[SHORT_NONCE])),
        "merge bug $X invalid E9 $c1 0 bad-nonce",
    ),
    Last(
        Commit(&["c0"], SECOND, Body::Ops(&[NO_MESSAGE])),
        "merge bug $X invalid E9 $c1 0 bad-member 7",
    ),
    Last(
        Commit(
            &["c0"],
            &["edit-clock-1", "ops", "version-4"],
            Body::Ops(&[NO_OP_1]),
        ),
        "merge bug $X invalid E11 $c1 $c0",
    ),
    Last(
        Commit(
            &["c0"],
            &["edit-clock-1000002", "ops", "version-4"],
            Body::Ops(&[NO_OP_1]),
        ),
        "merge bug $X invalid E12 $c1 $c0",
    ),
    Last(
        Commit(&["c0"], SECOND, Body::Ops(&[NO_OP_1, NO_OP_1])),
        "merge bug $X invalid E15 $N",
    ),
    Last(
        Commit(&["c0"], SECOND, Body::Ops(&[OTHER_CREATE])),
        "merge bug $X invalid E18 $Z",
    ),
    Last(
        Commit(&["c0"], SECOND, Body::Stranger(&[NO_OP_1])),
        "merge bug $X invalid E19 $S",
    ),
    Last(
        Commit(&["c0"], SECOND, Body::Many(4_097)),
        "merge bug $X invalid E20 4097",
    ),
];

#[test]
fn a_commit_with_a_fault_is_not_merged(rt: HostRuntime) -> Result<(), Fail> {
    for known in ["", "c0"] {
        refuse_last(rt.alloc(), X, known, &[ROOT], "c1", CHILDREN)?;
    }
    Ok(())
}

const OTHER_CHILD: Commit = Commit(&["c0"], SECOND, Body::Ops(&[NO_OP_2]));

// What a merge refuses of a commit that joins two: a second root, a clock that does not rise, and
// an operation.
const MERGES: &[Case] = &[
    Case(
        &[
            ROOT,
            Commit(&[], FIRST, Body::Ops(&[OTHER_CREATE])),
            Commit(&["c0", "c1"], SECOND, Body::Ops(&[])),
        ],
        "c2",
        Change::Nothing,
        &[
            "merge bug $X invalid E10 $c0",
            "merge bug $X invalid E10 $c1",
            "merge bug $X invalid E16 $Z",
        ],
    ),
    Case(
        &[
            ROOT,
            CHILD,
            OTHER_CHILD,
            Commit(&["c1", "c2"], SECOND, Body::Ops(&[])),
        ],
        "c3",
        Change::Nothing,
        &[
            "merge bug $X invalid E11 $c3 $c1",
            "merge bug $X invalid E11 $c3 $c2",
        ],
    ),
    Case(
        &[
            ROOT,
            CHILD,
            OTHER_CHILD,
            Commit(&["c1", "c2"], THIRD, Body::Ops(&[NO_OP_3])),
        ],
        "c3",
        Change::Nothing,
        &["merge bug $X invalid E13 $c3"],
    ),
];

#[test]
fn a_merge_commit_with_a_fault_is_not_merged(rt: HostRuntime) -> Result<(), Fail> {
    refuse_each(rt.alloc(), X, "", MERGES)
}

const FULL: &[&str] = &["edit-clock-9223372036854775807", "ops", "version-4"];

// What a merge refuses of a head that does not fit the local one, which is the second commit: an
// operation of both, and clocks that leave no room for the commit that would join them.
const JOINS: &[Case] = &[
    Case(
        &[ROOT, CHILD, Commit(&["c0"], THIRD, Body::Ops(&[NO_OP_1]))],
        "c2",
        Change::Nothing,
        &["merge bug $X invalid E15 $N"],
    ),
    Case(
        &[
            Commit(
                &[],
                &[
                    "create-clock-1",
                    "edit-clock-9223372036854775806",
                    "ops",
                    "version-4",
                ],
                Body::Ops(&[CREATE]),
            ),
            Commit(&["c0"], FULL, Body::Ops(&[NO_OP_1])),
            Commit(&["c0"], FULL, Body::Ops(&[NO_OP_2])),
        ],
        "c2",
        Change::Nothing,
        &[
            "merge bug $X invalid E21 $c1",
            "merge bug $X invalid E21 $c2",
        ],
    ),
];

#[test]
fn a_head_that_does_not_fit_the_local_one_is_not_merged(rt: HostRuntime) -> Result<(), Fail> {
    refuse_each(rt.alloc(), X, "c1", JOINS)
}
