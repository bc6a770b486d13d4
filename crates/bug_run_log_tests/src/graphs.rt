//! What is told of bugs with merge commits, of those whose commits don't fit together, and of long
//! ones.
use crate::bug::Commit::{Above, Other, Root};
use crate::bug::{
    AUTHOR, BUG, Commit, DAMAGED, PACK, ROOT_PACK, ZEROS, put_above, put_blobs, put_graph, put_ref,
};
use fixtures::{CREATE, Disk, OTHER_CREATE, name};
use gb_text::Name;
use run_fixtures::{DONE, REFUSED, expect, run_into, run_words, sink};
use std::alloc::Global;
use std::test::Fail;

const NO_OP_1: &[u8] = b"{\"nonce\":\"AAAAAAAAAAAAAAAAAAAAAAAAAAA=\",\"timestamp\":1,\"type\":7}";

const NO_OP_2: &[u8] = b"{\"nonce\":\"AAAAAAAAAAAAAAAAAAAAAAAAAAA=\",\"timestamp\":2,\"type\":7}";

const NO_OP_4: &[u8] = b"{\"nonce\":\"AAAAAAAAAAAAAAAAAAAAAAAAAAA=\",\"timestamp\":4,\"type\":7}";

const NO_OP_8: &[u8] = b"{\"nonce\":\"AAAAAAAAAAAAAAAAAAAAAAAAAAA=\",\"timestamp\":8,\"type\":7}";

const NO_OP_30: &[u8] = b"{\"nonce\":\"AAAAAAAAAAAAAAAAAAAAAAAAAAA=\",\"timestamp\":30,\"type\":7}";

// The SHA-256 of the first of these.
const NO_OP_ID: &str = "1312d866e02ab8088770e18dd14bddc4baec4e35b2745823cbd86ea87814f60d";

// The SHA-256 of another operation that begins a bug.
const OTHER_ID: &str = "f6b27d2d8ad5bc2d80e62c152d8229c209a3f5e8c9ab50075ff4fe6938e19d39";

// No ref of this person stands.
const STRANGER: &str = "000000000000000000000000000000000000000000000000000000000000000b";

// The greatest clock.
const FULL: &str = "9223372036854775807";

// The good root, two commits above it, and a merge.
const FIRST: Commit = Root("1", &[CREATE]);

const X: Commit = Above(&[0], "2", &[NO_OP_1]);

const Y: Commit = Above(&[0], "2", &[NO_OP_4]);

const M: Commit = Above(&[1, 2], "3", &[]);

// Graphs, and their logs.
const GRAPHS: &[(&[Commit], &str)] = &[
    // One commit, with one operation and with two, and with the greatest clocks.
    (&[FIRST], "1 e98e6f5dba7ee4b2aec269fbd2bc45cd0d3e9832\n"),
    (
        &[Root("1", &[CREATE, NO_OP_1])],
        "1 cb28c230b909bf87be5dea0dd6a414b406f3524a\n",
    ),
    (
        &[Root(FULL, &[CREATE])],
        "9223372036854775807 d9aa2beb1b0a09eb7170aaa2c807638d00258378\n",
    ),
    // Two commits of one clock, both below a merge. The pack ids order them, as the names do or
    // not.
    (
        &[FIRST, X, Y, M],
        "1 e98e6f5dba7ee4b2aec269fbd2bc45cd0d3e9832\n2 a05fa7f4c80b64784355f15545068316ba789120\n2 bfbc213d47fcd4e4be97fe8f4c29e5b6d683fcfb\n3 4fb03e84a3ede64ddc17ffb79a8634ce7af60fd2\n",
    ),
    (
        &[FIRST, X, Above(&[0], "2", &[NO_OP_2]), M],
        "1 e98e6f5dba7ee4b2aec269fbd2bc45cd0d3e9832\n2 a05fa7f4c80b64784355f15545068316ba789120\n2 2f33cb81cc9c478ad7a720ab7fd341d3e0cdc4ee\n3 bc234d7915d1acf96223ac0718e18ce355901d23\n",
    ),
    (
        &[FIRST, X, Above(&[0], "2", &[NO_OP_8]), M],
        "1 e98e6f5dba7ee4b2aec269fbd2bc45cd0d3e9832\n2 c14efd460d2c757d7d24ef761ea6ec2bc0034327\n2 a05fa7f4c80b64784355f15545068316ba789120\n3 9113b0d99c850ab644efc33dd99cc2cf655de7bc\n",
    ),
    (
        &[FIRST, X, Above(&[0], "2", &[NO_OP_30]), M],
        "1 e98e6f5dba7ee4b2aec269fbd2bc45cd0d3e9832\n2 2d4444dbf32b4ec8fc2b832eebba8ce39c6e5e89\n2 a05fa7f4c80b64784355f15545068316ba789120\n3 4395ef989675faee9fe0c544f5b8329f29ccd90b\n",
    ),
    // The order of the parents is another one.
    (
        &[FIRST, X, Y, Above(&[2, 1], "3", &[])],
        "1 e98e6f5dba7ee4b2aec269fbd2bc45cd0d3e9832\n2 a05fa7f4c80b64784355f15545068316ba789120\n2 bfbc213d47fcd4e4be97fe8f4c29e5b6d683fcfb\n3 2a94cfd212b3bdac76271212bf5d50295a1db3c8\n",
    ),
    // Packs and clocks are equal, and so names order.
    (
        &[
            FIRST,
            Above(&[0], "2", &[]),
            Other(
                &["edit-clock-2", "ops", "version-4", "x"],
                &[0],
                AUTHOR,
                &[],
            ),
            M,
        ],
        "1 e98e6f5dba7ee4b2aec269fbd2bc45cd0d3e9832\n2 d28821101adadf9d4b6837892954299975a69ec4\n2 eec993d9dc0777f79a1b327261fbd07dd8ea2cf2\n3 ff46ac07dbab7f793eea98d49aab6d0c29a0e1bd\n",
    ),
    (
        &[
            FIRST,
            Above(&[0], "2", &[]),
            Other(
                &["edit-clock-2", "ops", "version-4", "y"],
                &[0],
                AUTHOR,
                &[],
            ),
            M,
        ],
        "1 e98e6f5dba7ee4b2aec269fbd2bc45cd0d3e9832\n2 147bf335f2e4ab4b811cb42b1b0497b1f12dc0e1\n2 eec993d9dc0777f79a1b327261fbd07dd8ea2cf2\n3 bb5f83f4973cb9bed8e8dd570b649d370855bf8a\n",
    ),
    // One parent lies below the other.
    (
        &[FIRST, X, Above(&[0, 1], "3", &[])],
        "1 e98e6f5dba7ee4b2aec269fbd2bc45cd0d3e9832\n2 a05fa7f4c80b64784355f15545068316ba789120\n3 e97f0f4f875b95f263a07d2c783d7a7ab94c4cb0\n",
    ),
    // Three parents.
    (
        &[
            FIRST,
            X,
            Y,
            Above(&[0], "2", &[NO_OP_2]),
            Above(&[1, 2, 3], "3", &[]),
        ],
        "1 e98e6f5dba7ee4b2aec269fbd2bc45cd0d3e9832\n2 a05fa7f4c80b64784355f15545068316ba789120\n2 2f33cb81cc9c478ad7a720ab7fd341d3e0cdc4ee\n2 bfbc213d47fcd4e4be97fe8f4c29e5b6d683fcfb\n3 925eee1c8a6e858bc620418431f8e44df5092d4f\n",
    ),
    // Merges that cross, below another one, and a commit above it.
    (
        &[
            FIRST,
            X,
            Y,
            M,
            Above(&[2, 1], "3", &[]),
            Above(&[3, 4], "4", &[]),
            Above(&[5], "9", &[NO_OP_8]),
        ],
        "1 e98e6f5dba7ee4b2aec269fbd2bc45cd0d3e9832\n2 a05fa7f4c80b64784355f15545068316ba789120\n2 bfbc213d47fcd4e4be97fe8f4c29e5b6d683fcfb\n3 2a94cfd212b3bdac76271212bf5d50295a1db3c8\n3 4fb03e84a3ede64ddc17ffb79a8634ce7af60fd2\n4 5bd05fc2216ac26cbf41909e2545ec341af96655\n9 03178a4f1e854e5690ac700fe5eb9ba51023b646\n",
    ),
    // A commit of the other side has the greater clock.
    (
        &[
            FIRST,
            X,
            Above(&[0], "7", &[NO_OP_2]),
            Above(&[1], "5", &[NO_OP_4]),
            Above(&[3, 2], "8", &[]),
        ],
        "1 e98e6f5dba7ee4b2aec269fbd2bc45cd0d3e9832\n2 a05fa7f4c80b64784355f15545068316ba789120\n5 bf44933ed46b7b9d5febb93d58c03cfd71c31b84\n7 0ed257418c78711a84199ac2f55acfaa961bd40b\n8 c805af3cff8646b5e11937e944454b72385b464c\n",
    ),
    // The clock of a commit with one parent rises by 1,000,000, and that of a merge by more.
    (
        &[FIRST, Above(&[0], "1000001", &[NO_OP_1])],
        "1 e98e6f5dba7ee4b2aec269fbd2bc45cd0d3e9832\n1000001 4ff76d1cd0cacc0af4e2d68b6de922b3d6f3a438\n",
    ),
    (
        &[FIRST, X, Y, Above(&[1, 2], "1000003", &[])],
        "1 e98e6f5dba7ee4b2aec269fbd2bc45cd0d3e9832\n2 a05fa7f4c80b64784355f15545068316ba789120\n2 bfbc213d47fcd4e4be97fe8f4c29e5b6d683fcfb\n1000003 043b3c443cc5f7681cea7f5ab76cdeb6630e6370\n",
    ),
    (
        &[FIRST, X, Y, Above(&[1, 2], FULL, &[])],
        "1 e98e6f5dba7ee4b2aec269fbd2bc45cd0d3e9832\n2 a05fa7f4c80b64784355f15545068316ba789120\n2 bfbc213d47fcd4e4be97fe8f4c29e5b6d683fcfb\n9223372036854775807 2b36dad432966430da420aad0d536d322f093cc3\n",
    ),
    // A create clock stands above the root too.
    (
        &[
            FIRST,
            X,
            Y,
            Other(
                &["create-clock-1", "edit-clock-3", "ops", "version-4"],
                &[1, 2],
                AUTHOR,
                &[],
            ),
        ],
        "1 e98e6f5dba7ee4b2aec269fbd2bc45cd0d3e9832\n2 a05fa7f4c80b64784355f15545068316ba789120\n2 bfbc213d47fcd4e4be97fe8f4c29e5b6d683fcfb\n3 a30017155c2ac0c69f428b0447015e1a299dc9e7\n",
    ),
    // A chain of commits, of which only the root has an operation.
    (
        CHAIN,
        "1 e98e6f5dba7ee4b2aec269fbd2bc45cd0d3e9832\n2 eec993d9dc0777f79a1b327261fbd07dd8ea2cf2\n9 78978c462c5d6eaad71f26ad54d4fd710b1ff24c\n",
    ),
];

const CHAIN: &[Commit] = &[FIRST, Above(&[0], "2", &[]), Above(&[1], "9", &[])];

const MERGED: &[Commit] = &[FIRST, X, Y, M];

// Bugs, by their ids and their commits, that are damaged.
const SPOILED_GRAPHS: &[(&str, &[Commit])] = &[
    // A merge with an operation.
    (BUG, &[FIRST, X, Y, Above(&[1, 2], "3", &[NO_OP_2])]),
    (
        BUG,
        &[
            FIRST,
            X,
            Y,
            Above(&[1, 2], "3", &[NO_OP_2]),
            Above(&[3], "9", &[]),
        ],
    ),
    // A clock of a commit with one parent that rises by 1,000,001.
    (BUG, &[FIRST, Above(&[0], "1000002", &[NO_OP_1])]),
    (BUG, &[FIRST, X, Y, M, Above(&[3], "1000004", &[])]),
    // Clocks that do not rise.
    (BUG, &[FIRST, X, Y, Above(&[1, 2], "2", &[])]),
    (BUG, &[FIRST, X, Above(&[0], "3", &[NO_OP_4]), M]),
    (BUG, &[FIRST, Above(&[0], "3", &[NO_OP_1]), Y, M]),
    (BUG, &[FIRST, Above(&[0], "1", &[NO_OP_1])]),
    // A clock above the greatest.
    (
        BUG,
        &[FIRST, X, Y, Above(&[1, 2], "9223372036854775808", &[])],
    ),
    // Two roots.
    (
        BUG,
        &[
            FIRST,
            Other(
                &["create-clock-1", "edit-clock-2", "ops", "version-4"],
                &[],
                AUTHOR,
                &[],
            ),
            Above(&[0, 1], "3", &[]),
        ],
    ),
    (
        BUG,
        &[FIRST, Above(&[], "2", &[NO_OP_1]), Above(&[1, 0], "3", &[])],
    ),
    // A root without a create clock.
    (BUG, &[Above(&[], "1", &[CREATE])]),
    (
        BUG,
        &[
            Above(&[], "1", &[CREATE]),
            Other(
                &["create-clock-1", "edit-clock-2", "ops", "version-4"],
                &[0],
                AUTHOR,
                &[NO_OP_1],
            ),
        ],
    ),
    // A root whose first operation does not create, or that has none.
    (NO_OP_ID, &[Root("1", &[NO_OP_1])]),
    (NO_OP_ID, &[Root("1", &[NO_OP_1, CREATE])]),
    (BUG, &[Root("1", &[])]),
    (BUG, &[Root("1", &[]), Above(&[0], "2", &[CREATE])]),
    // A second operation that creates.
    (BUG, &[Root("1", &[CREATE, OTHER_CREATE])]),
    (BUG, &[FIRST, Above(&[0], "2", &[OTHER_CREATE])]),
    (
        BUG,
        &[FIRST, X, Above(&[0], "2", &[NO_OP_2, OTHER_CREATE]), M],
    ),
    // An operation that comes twice.
    (BUG, &[Root("1", &[CREATE, CREATE])]),
    (
        BUG,
        &[FIRST, Above(&[0], "2", &[NO_OP_1, NO_OP_2, NO_OP_1])],
    ),
    (BUG, &[FIRST, X, Above(&[1], "3", &[NO_OP_1])]),
    (BUG, &[FIRST, X, Above(&[0], "2", &[NO_OP_2, NO_OP_1]), M]),
    // Another id than that of the first operation.
    (OTHER_ID, &[FIRST]),
    (NO_OP_ID, &[Root("1", &[CREATE, NO_OP_1])]),
    (ZEROS, &[FIRST, X, Y, M]),
    // An author of whom no ref stands.
    (
        BUG,
        &[Other(
            &["create-clock-1", "edit-clock-1", "ops", "version-4"],
            &[],
            STRANGER,
            &[CREATE],
        )],
    ),
    (
        BUG,
        &[
            Other(
                &["create-clock-1", "edit-clock-1", "ops", "version-4"],
                &[],
                STRANGER,
                &[CREATE],
            ),
            X,
        ],
    ),
    (
        BUG,
        &[
            FIRST,
            Other(
                &["edit-clock-2", "ops", "version-4"],
                &[0],
                STRANGER,
                &[NO_OP_1],
            ),
            Y,
            M,
        ],
    ),
    (
        BUG,
        &[
            FIRST,
            Other(&["edit-clock-2", "ops", "version-4"], &[0], STRANGER, &[]),
        ],
    ),
    (
        BUG,
        &[
            FIRST,
            X,
            Y,
            Other(
                &["edit-clock-3", "ops", "version-4"],
                &[1, 2],
                STRANGER,
                &[],
            ),
        ],
    ),
];

// Sees that the log of the bug of this id with these commits ends so and prints this.
fn expect_log(
    disk: &mut Disk,
    row: usize,
    bug: &str,
    graph: &[Commit],
    wanted: (u8, &str),
) -> Result<(), Fail> {
    put_graph(disk, bug, graph)?;
    expect(disk, row, &["f", "log", bug], wanted.0, wanted.1)
}

fn expect_logs(alloc: Global, rows: &[(&[Commit], &str)]) -> Result<(), Fail> {
    for (row, (graph, log)) in rows.iter().enumerate() {
        let mut disk = Disk::new(alloc)?;
        expect_log(&mut disk, row, BUG, graph, (DONE, log))?;
    }
    Ok(())
}

#[test]
fn graphs_are_logged(rt: HostRuntime) -> Result<(), Fail> {
    expect_logs(rt.alloc(), GRAPHS)
}

// Sees that the bug of each id with these commits is damaged.
fn expect_damage(alloc: Global, rows: &[(&str, &[Commit])]) -> Result<(), Fail> {
    for (row, (bug, graph)) in rows.iter().enumerate() {
        let line = format!(in alloc; "refused 14 damaged f/refs/bugs/{bug}\n")?;
        let mut disk = Disk::new(alloc)?;
        expect_log(&mut disk, row, bug, graph, (REFUSED, line.as_str()))?;
    }
    Ok(())
}

#[test]
fn faults_of_a_graph_are_told(rt: HostRuntime) -> Result<(), Fail> {
    expect_damage(rt.alloc(), SPOILED_GRAPHS)
}

// Graphs, and how many objects the log reads: for each commit itself, its tree and its pack.
const COUNTED: &[(&[Commit], u64)] = &[(CHAIN, 9), (MERGED, 12)];

// Whether the log of these commits reads so many objects and writes nothing.
fn graph_reads(disk: &mut Disk, graph: &[Commit], count: u64) -> Result<bool, Fail> {
    put_graph(disk, BUG, graph)?;
    let reads = disk.store.reads().saturating_add(count);
    let writes = disk.store.writes();
    let status = run_words(disk, &["f", "log", BUG], 0)?;
    let is_same = disk.store.reads() == reads && disk.store.writes() == writes;
    Ok(status == DONE && is_same)
}

#[test]
fn each_object_is_read_once(rt: HostRuntime) -> Result<(), Fail> {
    for (row, (graph, count)) in COUNTED.iter().enumerate() {
        let mut disk = Disk::new(rt.alloc())?;
        assert!(rt; graph_reads(&mut disk, graph, *count)?, "row {row}");
    }
    Ok(())
}

// Puts a commit without operations.
fn put_clock(disk: &mut Disk, clock: u64, pack: &Name, below: Name) -> Result<Name, Fail> {
    let entry = format!(in disk.alloc; "edit-clock-{clock}")?;
    put_above(disk, &[entry.as_str(), "ops", "version-4"], pack, &[below])
}

// Puts a chain of so many commits, with the clocks 1, 2, 3 and so on, and answers the last two.
fn put_long(disk: &mut Disk, count: u64) -> Result<(Name, Name), Fail> {
    put_blobs(disk)?;
    let pack = name(PACK)?;
    let entries = ["create-clock-1", "edit-clock-1", "ops", "version-4"];
    let mut head = put_above(disk, &entries, &name(ROOT_PACK)?, &[])?;
    let mut below = head;
    for clock in 2..=count {
        below = head;
        head = put_clock(disk, clock, &pack, below)?;
    }
    Ok((below, head))
}

// Whether the log of the bug with this head has so many lines.
fn has_lines(disk: &mut Disk, head: &Name, count: usize) -> Result<bool, Fail> {
    put_ref(disk, BUG, &head.text())?;
    let mut sink = sink(disk.alloc);
    let status = run_into(disk, &mut sink, &["f", "log", BUG], 0)?;
    let lines = sink.bytes().iter().filter(|b| **b == b'\n').count();
    Ok(status == DONE && lines == count)
}

// Makes the person the user.
fn put_user(disk: &mut Disk) -> Result<(), Fail> {
    disk.put("f/git-bug/user", AUTHOR.as_bytes())
}

// What a command on the bug is refused by.
type Refusal = (&'static [&'static str], &'static str);

// By 65,536 commits, and before them by what the bug says.
const LONG: &[Refusal] = &[
    (&["f", "noop", BUG], "refused 13 too large 65537\n"),
    (&["f", "close", BUG], "refused 13 too large 65537\n"),
    (&["f", "open", BUG], "refused 6 same status\n"),
];

const CLOCK_FULL: &str = "refused 7 clock full d9aa2beb1b0a09eb7170aaa2c807638d00258378\n";

// By the greatest clock, and before it by what the bug says.
const LATE: &[Refusal] = &[
    (&["f", "comment", BUG, "hi"], CLOCK_FULL),
    (&["f", "title", BUG, "t"], CLOCK_FULL),
    (&["f", "close", BUG], CLOCK_FULL),
    (&["f", "open", BUG], "refused 6 same status\n"),
    (&["f", "label-add", BUG, "x"], CLOCK_FULL),
    (&["f", "label-rm", BUG, "x"], "refused 5 no label change\n"),
    (&["f", "meta", BUG, "k", "v"], CLOCK_FULL),
];

// Sees that each is refused so, and that nothing is written.
fn are_refused(disk: &mut Disk, rows: &[Refusal]) -> Result<(), Fail> {
    let writes = disk.store.writes();
    for (place, &(words, line)) in rows.iter().enumerate() {
        expect(disk, place, words, REFUSED, line)?;
    }
    if disk.store.writes() != writes {
        return Err(Fail::from("a refused command wrote"));
    }
    Ok(())
}

#[test]
fn no_more_than_65536_commits_are_logged(rt: HostRuntime) -> Result<(), Fail> {
    let mut disk = Disk::new(rt.alloc())?;
    let (below, head) = put_long(&mut disk, 65_537)?;
    assert!(rt; has_lines(&mut disk, &below, 65_536)?);
    put_user(&mut disk)?;
    are_refused(&mut disk, LONG)?;
    put_ref(&mut disk, BUG, &head.text())?;
    expect(&mut disk, 0, &["f", "log", BUG], REFUSED, DAMAGED)
}

#[test]
fn a_full_clock_takes_no_operation(rt: HostRuntime) -> Result<(), Fail> {
    let mut disk = Disk::new(rt.alloc())?;
    put_graph(&mut disk, BUG, &[Root(FULL, &[CREATE])])?;
    put_user(&mut disk)?;
    are_refused(&mut disk, LATE)
}
