//! What is told of good bugs, and of bugs in which one thing is wrong.
use crate::bug::{
    BUG, Case, DAMAGED, EMPTY, HEAD, PACK, ROOT, ROOT_PACK, ROOT_TREE, TREE, ZEROS, put_bug,
};
use fixtures::Disk;
use gb_store::MemSink;
use gb_text::List;
use run_fixtures::Row::{Done, Refused, Usage};
use run_fixtures::{DISK_FAULT, DONE, OUT_FAULT, REFUSED, Row, expect, hold, run_into};
use std::alloc::Global;
use std::test::Fail;

const GOOD_LOG: &str =
    "2 f3f9abbaf8d4952b1fa36776fc04587c25db8557\n3 da112c73eb36436fbf3fbfcfe0347d16340d355a\n";

// Sees that the log of the bug of a row ends so and prints this.
fn expect_log(alloc: Global, row: usize, case: Case, status: u8, text: &str) -> Result<(), Fail> {
    let mut disk = Disk::new(alloc)?;
    put_bug(&mut disk, case)?;
    expect(&mut disk, row, &["f", "log", BUG], status, text)
}

// Bugs with a log.
const LOGGED: &[(Case, &str)] = &[
    (Case::Good, GOOD_LOG),
    (
        Case::Ref(b"da112c73eb36436fbf3fbfcfe0347d16340d355a\n"),
        GOOD_LOG,
    ),
    (Case::Header(b"commit 196\0"), GOOD_LOG),
    (
        Case::LongHead(4_194_289),
        "2 f3f9abbaf8d4952b1fa36776fc04587c25db8557\n3 23274565da4fc446553a3b53f08e9a01bd27751f\n",
    ),
    (
        Case::LongTree(4_194_291),
        "2 f3f9abbaf8d4952b1fa36776fc04587c25db8557\n3 c21d581bc470fdbb29b6b36ce982f9a9e06f9f9c\n",
    ),
    (
        Case::LongPack(4_194_291),
        "2 f3f9abbaf8d4952b1fa36776fc04587c25db8557\n3 a97a1c27016174328d991a4d70bf515d83ad8767\n",
    ),
    (
        Case::Operations(4_096),
        "2 f3f9abbaf8d4952b1fa36776fc04587c25db8557\n3 4091cf2aca391ed5880f53606df568918373ffb5\n",
    ),
    (
        Case::Pack(
            b"{ \"ops\" : null , \"x\":[1.5,{\"y\":null}], \"author\":{\"name\":\"n\",\"id\":\"000000000000000000000000000000000000000000000000000000000000000a\"} }",
        ),
        "2 f3f9abbaf8d4952b1fa36776fc04587c25db8557\n3 5c9ce1e271de9720d6d15eabda6086b024329b5e\n",
    ),
    (
        Case::Entries(&["create-clock-7", "edit-clock-3", "ops", "version-4", "x"]),
        "2 f3f9abbaf8d4952b1fa36776fc04587c25db8557\n3 71e8be72bc0f8d52111189bbed9c083dc6427899\n",
    ),
];

// Bugs that are damaged.
const SPOILED: &[Case] = &[
    Case::Ref(b"DA112C73EB36436FBF3FBFCFE0347D16340D355A"),
    Case::Ref(b"da112c73eb36436fbf3fbfcfe0347d16340d355a\n\n"),
    Case::Ref(b""),
    Case::Ref(&[b'\n'; 4_097]),
    Case::Gone(HEAD),
    Case::Gone(ROOT),
    Case::Gone(TREE),
    Case::Gone(ROOT_TREE),
    Case::Ends(HEAD, b"x"),
    Case::Ends(HEAD, b""),
    Case::Ends(ROOT, b"x"),
    Case::Ends(ROOT, b""),
    Case::Ends(TREE, b"x"),
    Case::Ends(TREE, b""),
    Case::Ends(ROOT_TREE, b"x"),
    Case::Ends(ROOT_TREE, b""),
    Case::Header(b"commit 0196\0"),
    Case::Header(b"commit 195\0"),
    Case::Header(b"commit 197\0"),
    Case::Header(b"commit 18446744073709551812\0"),
    Case::Header(b"commit 196"),
    Case::LongHead(4_194_290),
    Case::LongTree(4_194_292),
    Case::Head(EMPTY),
    Case::Head(TREE),
    Case::Parent(EMPTY),
    Case::Parent(ROOT_TREE),
    Case::Tree(EMPTY),
    Case::Tree(ROOT),
    Case::Entries(&["ops", "version-4"]),
    Case::Entries(&["edit-clock-3", "edit-clock-4", "ops", "version-4"]),
    Case::Entries(&["edit-clock-3", "edit-clock-x", "ops", "version-4"]),
    Case::Entries(&["edit-clock-", "ops", "version-4"]),
    Case::Entries(&["edit-clock-03", "ops", "version-4"]),
    Case::Entries(&["edit-clock-3", "ops", "ops", "version-4"]),
    Case::Entries(&["edit-clock-2", "ops", "version-4"]),
    Case::Entries(&["edit-clock-1", "ops", "version-4"]),
    Case::RootEntries(&["create-clock-1", "edit-clock-", "ops", "version-4"]),
    Case::RootEntries(&["create-clock-1", "edit-clock-0", "ops", "version-4"]),
    Case::RootEntries(&["create-clock-1", "edit-clock-01", "ops", "version-4"]),
    Case::RootEntries(&["create-clock-0", "edit-clock-2", "ops", "version-4"]),
    Case::RootEntries(&["create-clock-1", "edit-clock-2", "ops"]),
    Case::Entries(&["create-clock-x", "edit-clock-3", "ops", "version-4"]),
    Case::Entries(&[
        "create-clock-1",
        "create-clock-2",
        "edit-clock-3",
        "ops",
        "version-4",
    ]),
    Case::Entries(&["edit-clock-3", "ops"]),
    Case::Entries(&["edit-clock-3", "ops", "version-"]),
    Case::Entries(&["edit-clock-3", "ops", "version-5"]),
    Case::Entries(&["edit-clock-3", "ops", "version-04"]),
    Case::Entries(&["edit-clock-3", "ops", "version-4", "version-5"]),
    Case::Entries(&["edit-clock-3", "version-4"]),
    Case::Ops("40000", ROOT_TREE),
    Case::Ops("120000", PACK),
    Case::Ops("100644", ROOT_TREE),
    Case::Ops("100644", ABSENT),
    Case::Gone(PACK),
    Case::Gone(ROOT_PACK),
    Case::Ends(ROOT_PACK, b"x"),
    Case::Ends(PACK, b"x"),
    Case::Ends(PACK, b""),
    Case::LongPack(4_194_292),
    Case::Pack(b""),
    Case::Pack(b"{}"),
    Case::Pack(b"[]"),
    Case::Pack(b"{\"author\":null}"),
    Case::Pack(b"{\"author\":{\"id\":\"a\"}}"),
    Case::Pack(TWO_AUTHORS),
    Case::Pack(TWO_IDS),
    Case::Pack(TWO_OPS),
    Case::Pack(NOT_UTF8),
    Case::Pack(NO_LIST),
    Case::Pack(BAD_OPERATION),
    Case::Operations(4_097),
];

// The name of no object.
const ABSENT: &str = "0707070707070707070707070707070707070707";

const TWO_AUTHORS: &[u8] =
    b"{\"author\":{\"id\":\"000000000000000000000000000000000000000000000000000000000000000a\"},\"author\":{\"id\":\"000000000000000000000000000000000000000000000000000000000000000a\"}}";

const TWO_IDS: &[u8] =
    b"{\"author\":{\"id\":\"000000000000000000000000000000000000000000000000000000000000000a\",\"id\":\"000000000000000000000000000000000000000000000000000000000000000a\"}}";

const TWO_OPS: &[u8] =
    b"{\"author\":{\"id\":\"000000000000000000000000000000000000000000000000000000000000000a\"},\"ops\":[],\"\\u006fps\":[]}";

const NOT_UTF8: &[u8] =
    b"{\"author\":{\"id\":\"000000000000000000000000000000000000000000000000000000000000000a\"},\"x\":\"\xff\"}";

const NO_LIST: &[u8] =
    b"{\"author\":{\"id\":\"000000000000000000000000000000000000000000000000000000000000000a\"},\"ops\":{}}";

const BAD_OPERATION: &[u8] =
    b"{\"author\":{\"id\":\"000000000000000000000000000000000000000000000000000000000000000a\"},\"ops\":[{\"type\":1}]}";

fn expect_logs(alloc: Global, rows: &[(Case, &str)]) -> Result<(), Fail> {
    for (row, (case, log)) in rows.iter().enumerate() {
        expect_log(alloc, row, *case, DONE, log)?;
    }
    Ok(())
}

#[test]
fn good_bugs_are_logged(rt: HostRuntime) -> Result<(), Fail> {
    expect_logs(rt.alloc(), LOGGED)
}

fn expect_damage(alloc: Global, cases: &[Case]) -> Result<(), Fail> {
    for (row, case) in cases.iter().enumerate() {
        expect_log(alloc, row, *case, REFUSED, DAMAGED)?;
    }
    Ok(())
}

#[test]
fn each_cause_of_damage_is_told(rt: HostRuntime) -> Result<(), Fail> {
    expect_damage(rt.alloc(), SPOILED)
}

const BAD_FOLDER: &str = "17 bad folder";

const NOT_FOUND: &str = "2 not found";

// The id of the bug with a digit less, and in capitals.
const SHORT: &str = "3912f32747d1e7d315d89cd550e61a80638342c85e80fec8f844c37035613dc";

const CAPITALS: &str = "3912F32747D1E7D315D89CD550E61A80638342C85E80FEC8F844C37035613DC8";

// Over the good bug, which is ten files.
const WORDS: &[Row] = &[
    Usage(&[], 10),
    Usage(&["f"], 10),
    Usage(&["f", "log"], 10),
    Usage(&["f", "log", BUG, BUG], 10),
    Usage(&["f", "lag", BUG], 10),
    Usage(&["a/..", "lag", BUG], 10),
    Refused(&["", "log", BUG], 0, BAD_FOLDER, 10),
    Refused(&["a/..", "log", BUG], 0, BAD_FOLDER, 10),
    Refused(&["f\u{1}", "log", BUG], 0, BAD_FOLDER, 10),
    Refused(&["", "log", "x"], 0, BAD_FOLDER, 10),
    Refused(&["f", "log", ZEROS], 0, NOT_FOUND, 10),
    Usage(&["f", "log", "--"], 10),
    Refused(&["f", "log", "--", "--"], 0, NOT_FOUND, 10),
    Refused(&["f", "log", "x/../3912"], 0, NOT_FOUND, 10),
    Refused(&["g", "log", BUG], 0, NOT_FOUND, 10),
    Refused(&["f", "log", CAPITALS], 0, NOT_FOUND, 10),
    Done(&["./f/", "log", BUG], 0, GOOD_LOG, 10),
    Done(&["f", "log", SHORT], 0, GOOD_LOG, 10),
];

#[test]
fn words_are_told_what_they_ask(rt: HostRuntime) -> Result<(), Fail> {
    let mut disk = Disk::new(rt.alloc())?;
    put_bug(&mut disk, Case::Good)?;
    hold(&mut disk, WORDS)
}

#[test]
fn an_empty_folder_has_no_bug(rt: HostRuntime) -> Result<(), Fail> {
    let mut disk = Disk::new(rt.alloc())?;
    hold(&mut disk, &[Refused(&["f", "log", ZEROS], 0, NOT_FOUND, 0)])
}

// The number of the write that a sink of five bytes a write refuses, how the log of the good bug
// then ends, and what the sink holds.
const FRONTS: &[(u64, u8, &str)] = &[
    (0, OUT_FAULT, ""),
    (1, OUT_FAULT, "2 f3f"),
    (
        17,
        OUT_FAULT,
        "2 f3f9abbaf8d4952b1fa36776fc04587c25db8557\n3 da112c73eb36436fbf3fbfcfe0347d16340d355a",
    ),
    (18, DONE, GOOD_LOG),
];

// Whether with such a sink the log ends so, and the sink holds this.
fn sink_holds(disk: &mut Disk, call: u64, status: u8, text: &str) -> Result<bool, Fail> {
    let mut fails = List::new(disk.alloc);
    fails.push(call)?;
    let mut sink = MemSink::new(disk.alloc, fails, 5);
    let ended = run_into(disk, &mut sink, &["f", "log", BUG], 0)?;
    Ok(ended == status && sink.bytes() == text.as_bytes())
}

#[test]
fn a_sink_that_fails_holds_a_front_of_the_text(rt: HostRuntime) -> Result<(), Fail> {
    let mut disk = Disk::new(rt.alloc())?;
    put_bug(&mut disk, Case::Good)?;
    for (call, status, text) in FRONTS {
        assert!(rt;
            sink_holds(&mut disk, *call, *status, text)?,
            "write {call}"
        );
    }
    Ok(())
}

// Sees that a run over a store whose call of this number fails ends so and prints this. The good bug
// is put first.
fn expect_failing(alloc: Global, call: u64, status: u8, text: &str) -> Result<(), Fail> {
    let mut disk = Disk::failing(alloc, &[(call, false)])?;
    put_bug(&mut disk, Case::Good)?;
    expect(&mut disk, 0, &["f", "log", BUG], status, text)
}

#[test]
fn a_store_that_fails_prints_nothing(rt: HostRuntime) -> Result<(), Fail> {
    // Ten files are put. Then the packed refs are looked at, the refs of persons are listed, in their
    // folder and in the packed refs, and the ref of the bug, that of the person and six objects are
    // read.
    for call in 10..21 {
        expect_failing(rt.alloc(), call, DISK_FAULT, "")?;
    }
    expect_failing(rt.alloc(), 21, DONE, GOOD_LOG)
}

#[test]
fn the_first_call_of_a_store_may_fail(rt: HostRuntime) -> Result<(), Fail> {
    let mut disk = Disk::failing(rt.alloc(), &[(0, false)])?;
    expect(&mut disk, 0, &["f", "log", BUG], DISK_FAULT, "")
}
