//! What no clause says: worked texts, that calls succeed, and that long folds are no strain.
mod folds;
mod snapshots;

use Members::{Edit, Metadata, Of};
use bug_ops::{BugOp, BugStatus, Excerpt, Fold, Snapshot};
use fixtures::{CREATE, joined};
use gb_text::Id;
use op_kind::OpFault::{BadMember, BadText, UnknownType};
use op_kind::{OpFault, OpKind, Place, read_common};
use std::alloc::Global;
use std::test::Fail;

/// One operation of each type, as it is written, with a byte of its id. The first and the third make
/// comments.
const WRITTEN: [(u8, &[u8]); 8] = [
    (
        1,
        b"{\"files\":[\"0101010101010101010101010101010101010101\"],\"message\":\"m\\n\",\
      \"metadata\":{\"a\":\"1\",\"b\":\"2\"},\"nonce\":\"AAAAAAAAAAAAAAAAAAAAAAAAAAA=\",\
      \"timestamp\":1,\"title\":\"a<b\",\"type\":1}",
    ),
    (
        2,
        b"{\"nonce\":\"AAAAAAAAAAAAAAAAAAAAAAAAAAA=\",\"timestamp\":2,\"title\":\"t\",\
      \"type\":2,\"was\":\"\\u0001\"}",
    ),
    (
        3,
        b"{\"files\":[],\"message\":\"c\",\"nonce\":\"AAAAAAAAAAAAAAAAAAAAAAAAAAA=\",\
      \"timestamp\":3,\"type\":3}",
    ),
    (
        4,
        b"{\"nonce\":\"AAAAAAAAAAAAAAAAAAAAAAAAAAA=\",\"status\":2,\"timestamp\":4,\"type\":4}",
    ),
    (
        5,
        b"{\"added\":[\"y\",\"x\",\"y\"],\"nonce\":\"AAAAAAAAAAAAAAAAAAAAAAAAAAA=\",\
      \"removed\":[\"x\"],\"timestamp\":5,\"type\":5}",
    ),
    (
        6,
        b"{\"files\":[],\"message\":\"e\",\"nonce\":\"AAAAAAAAAAAAAAAAAAAAAAAAAAA=\",\
      \"target\":\"0101010101010101010101010101010101010101010101010101010101010101\",\
      \"timestamp\":6,\"type\":6}",
    ),
    (
        7,
        b"{\"nonce\":\"AAAAAAAAAAAAAAAAAAAAAAAAAAA=\",\"timestamp\":7,\"type\":7}",
    ),
    (
        8,
        b"{\"new_metadata\":{\"k\":\"v\"},\"nonce\":\"AAAAAAAAAAAAAAAAAAAAAAAAAAA=\",\
      \"target\":\"0101010101010101010101010101010101010101010101010101010101010101\",\
      \"timestamp\":8,\"type\":8}",
    ),
];

/// Members behind those that every operation has.
#[derive(Clone, Copy)]
enum Members {
    Of(&'static str),
    /// Behind those of an edit of the operation of 32 ones.
    Edit(&'static str),
    /// Behind those of further metadata of this operation.
    Metadata(&'static str),
}

const EDIT: &[u8] = b"\"type\":6,\
    \"target\":\"0101010101010101010101010101010101010101010101010101010101010101\"";

const METADATA: &[u8] = b"\"type\":8,\
    \"target\":\"0101010101010101010101010101010101010101010101010101010101010101\"";

/// Members, and the fault of the operation that has them.
type Row = (Members, OpFault);

/// Faults of types, titles and titles before.
const TITLES: &[Row] = &[
    (Of(r#""type":77"#), UnknownType(77)),
    (Of(r#""type":0"#), UnknownType(0)),
    (Of(r#""type":9"#), UnknownType(9)),
    (Of(r#""type":1,"message":"""#), BadMember(5)),
    (Of(r#""type":2"#), BadMember(5)),
    (Of(r#""type":2,"title":7"#), BadMember(5)),
    (Of(r#""type":2,"title":null"#), BadMember(5)),
    (Of(r#""type":2,"title":" ""#), BadText(5)),
    (Of(r#""type":2,"title":"a","t\u0069tle":"a""#), BadMember(5)),
    (Of(r#""type":2,"title":"a","was":null"#), BadMember(6)),
    (Of(r#""type":2,"title":"a","was":1"#), BadMember(6)),
    (
        Of(r#""type":2,"title":"a","was":"","was":"""#),
        BadMember(6),
    ),
];

/// Faults of messages and files.
const MESSAGES: &[Row] = &[
    (Of(r#""type":3"#), BadMember(7)),
    (Of(r#""type":3,"message":null"#), BadMember(7)),
    (Of(r#""type":3,"message":[]"#), BadMember(7)),
    (Of(r#""type":3,"message":"\u0000""#), BadText(7)),
    (Of(r#""type":3,"message":"","message":"""#), BadMember(7)),
    (Of(r#""type":3,"message":"","files":"a""#), BadMember(8)),
    (Of(r#""type":3,"message":"","files":[1]"#), BadMember(8)),
    (
        Of(r#""type":3,"message":"","files":["01010101010101010101010101010101010101011"]"#),
        BadMember(8),
    ),
    (
        Of(r#""type":3,"message":"","files":["0A01010101010101010101010101010101010101"]"#),
        BadMember(8),
    ),
    (
        Of(r#""type":3,"message":"","files":null,"files":null"#),
        BadMember(8),
    ),
    (Edit(""), BadMember(7)),
];

/// Faults of statuses and labels.
const LABELS: &[Row] = &[
    (Of(r#""type":4"#), BadMember(9)),
    (Of(r#""type":4,"status":0"#), BadMember(9)),
    (Of(r#""type":4,"status":3"#), BadMember(9)),
    (Of(r#""type":4,"status":"1""#), BadMember(9)),
    (Of(r#""type":4,"status":1.0"#), BadMember(9)),
    (Of(r#""type":4,"status":1,"status":1"#), BadMember(9)),
    (Of(r#""type":5,"added":[" "]"#), BadText(10)),
    (Of(r#""type":5,"added":[1]"#), BadMember(10)),
    (Of(r#""type":5,"added":{}"#), BadMember(10)),
    (Of(r#""type":5,"added":[],"added":[]"#), BadMember(10)),
    (Of(r#""type":5,"removed":["a",""]"#), BadText(11)),
    (Of(r#""type":5,"removed":"a""#), BadMember(11)),
    (Of(r#""type":5,"removed":[null]"#), BadMember(11)),
    (Of(r#""type":5,"removed":[],"removed":[]"#), BadMember(11)),
];

/// Faults of targets and metadata.
const TARGETS: &[Row] = &[
    (Of(r#""type":6,"message":"""#), BadMember(12)),
    (Of(r#""type":8,"new_metadata":{}"#), BadMember(12)),
    (
        Of(r#""type":8,"target":null,"new_metadata":{}"#),
        BadMember(12),
    ),
    (
        Of(
            r#""type":8,"target":"010101010101010101010101010101010101010101010101010101010101010","new_metadata":{}"#,
        ),
        BadMember(12),
    ),
    (
        Of(
            r#""type":8,"target":"0A0A0A0A0A0A0A0A0A0A0A0A0A0A0A0A0A0A0A0A0A0A0A0A0A0A0A0A0A0A0A0A","new_metadata":{}"#,
        ),
        BadMember(12),
    ),
    (Metadata(""), BadMember(13)),
    (Metadata(r#","new_metadata":null"#), BadMember(13)),
    (Metadata(r#","new_metadata":[]"#), BadMember(13)),
    (Metadata(r#","new_metadata":{"a":1}"#), BadMember(13)),
    (Metadata(r#","new_metadata":{"\ud800":""}"#), BadMember(13)),
    (
        Metadata(r#","new_metadata":{"a":"","a":""}"#),
        BadMember(13),
    ),
    (
        Metadata(r#","new_metadata":{"a":"","\u0061":""}"#),
        BadMember(13),
    ),
    (
        Metadata(r#","new_metadata":{},"new_metadata":{}"#),
        BadMember(13),
    ),
];

/// Members of operations.
const READ: &[Members] = &[
    Of(r#""type":1,"title":"a","message":"""#),
    Of(r#""type":1,"title":"a","message":"\n\t","files":null"#),
    Of(r#""type":2,"title":"a\u003cb","was":"\u0001""#),
    Of(r#""type":2,"title":"a","message":1,"message":2"#),
    Of(r#""type":3,"message":"","title":" ","x":[1.5],"\ud800":1"#),
    Of(r#""type":5"#),
    Of(r#""type":5,"added":null,"removed":null"#),
    Of(r#""type":5,"added":["a","a"],"removed":["a"]"#),
    Of(r#""type":7,"metadata":null"#),
    Edit(r#","message":"""#),
    Metadata(r#","new_metadata":{}"#),
    Metadata(r#","new_metadata":{"b":"","a":""}"#),
];

fn place(byte: u8) -> Place {
    Place {
        id: Id::from_bytes([byte; 32]),
        author: Id::from_bytes([2; 32]),
        edit: 5,
        create: Some(3),
    }
}

// What calls an operation of bugs is generic over the kind: it is proved from the kind's contract alone, in which the
// meaning of bugs, a large term, does not stand.

/// The operation of a text.
fn read<K: OpKind>(alloc: Global, byte: u8, text: &[u8]) -> Result<K, OpFault> {
    K::read_op(alloc, place(byte), text)
}

/// Whether an operation is written as this text.
fn is_written_as<K: OpKind>(alloc: Global, op: &K, text: &[u8]) -> Result<bool, OpFault> {
    Ok(op.write_op(alloc)?.as_slice() == text)
}

/// Whether an operation's text is written as it was read.
fn is_written_again<K: OpKind>(alloc: Global, text: &[u8]) -> Result<bool, OpFault> {
    is_written_as(alloc, &read::<K>(alloc, 1, text)?, text)
}

/// Whether what is written of an operation's text is written as it is read again.
fn is_stable<K: OpKind>(alloc: Global, text: &[u8]) -> Result<bool, OpFault> {
    let written = read::<K>(alloc, 1, text)?.write_op(alloc)?;
    is_written_again::<K>(alloc, written.as_slice())
}

/// The fault that is named of a text, if it is no operation.
fn fault_of(alloc: Global, text: &[u8]) -> Option<OpFault> {
    read::<BugOp>(alloc, 1, text).err()
}

const FRONT: &[u8] = b"{\"nonce\":\"AAAAAAAAAAAAAAAAAAAAAAAAAAA=\",\"timestamp\":0,";

/// The text of an operation with these members.
fn with_members(alloc: Global, members: Members) -> Result<Vec<u8>, Fail> {
    let (first, more) = match members {
        Members::Of(more) => (b"".as_slice(), more),
        Members::Edit(more) => (EDIT, more),
        Members::Metadata(more) => (METADATA, more),
    };
    joined(alloc, &[FRONT, first, more.as_bytes(), b"}"])
}

/// The row of a bug without an operation.
fn first_row(alloc: Global) -> Result<Excerpt, OpFault> {
    Ok(BugOp::row_of(alloc, &BugOp::start(alloc))?)
}

/// A state one operation further, whose text this is.
fn apply<K: OpKind>(
    alloc: Global,
    state: &mut K::State,
    byte: u8,
    text: &[u8],
) -> Result<(), OpFault> {
    let op = read::<K>(alloc, byte, text)?;
    Ok(K::apply(alloc, state, &op)?)
}

/// A row one operation further, whose text this is.
fn row_apply<K: OpKind>(
    alloc: Global,
    row: &mut K::Row,
    byte: u8,
    text: &[u8],
) -> Result<(), OpFault> {
    let op = read::<K>(alloc, byte, text)?;
    Ok(K::row_apply(alloc, row, &op)?)
}

/// The bug of some operations, each a byte of its id and its text.
fn bug(alloc: Global, ops: &[(u8, &[u8])]) -> Result<Snapshot, OpFault> {
    let mut fold = BugOp::start(alloc);
    for (byte, text) in ops {
        apply::<BugOp>(alloc, &mut fold, *byte, text)?;
    }
    Ok(fold.finish(alloc)?)
}

/// The first comment's message, or nothing.
fn first_message(bug: &Snapshot) -> &str {
    match bug.list.as_slice().first() {
        Some(comment) => comment.message.as_str(),
        None => "",
    }
}

#[test]
fn each_type_is_written_as_it_was_read(rt: HostRuntime) -> Result<(), Fail> {
    let alloc = rt.alloc();
    assert_eq!(rt; CREATE.len(), 99);
    assert!(rt; is_written_again::<BugOp>(alloc, CREATE)?);
    for (_, text) in WRITTEN {
        assert!(rt; is_written_again::<BugOp>(alloc, text)?);
    }
    Ok(())
}

/// The place of the first row whose fault is not named.
fn first_other(alloc: Global, rows: &[Row]) -> Result<Option<usize>, Fail> {
    for (place, (members, fault)) in rows.iter().enumerate() {
        let text = with_members(alloc, *members)?;
        if fault_of(alloc, &text) != Some(*fault) {
            return Ok(Some(place));
        }
    }
    Ok(None)
}

#[test]
fn each_fault_of_a_title_or_a_message_is_named(rt: HostRuntime) -> Result<(), Fail> {
    assert_eq!(rt; first_other(rt.alloc(), TITLES)?, None);
    assert_eq!(rt; first_other(rt.alloc(), MESSAGES)?, None);
    Ok(())
}

#[test]
fn each_fault_of_a_label_or_a_target_is_named(rt: HostRuntime) -> Result<(), Fail> {
    assert_eq!(rt; first_other(rt.alloc(), LABELS)?, None);
    assert_eq!(rt; first_other(rt.alloc(), TARGETS)?, None);
    Ok(())
}

#[test]
fn a_text_without_a_common_part_is_refused(rt: HostRuntime) -> Result<(), Fail> {
    let alloc = rt.alloc();
    assert_eq!(rt; fault_of(alloc, b"[]"), Some(OpFault::NotObject));
    let parts = [OpFault::NoType, OpFault::BadTime, OpFault::BadNonce];
    let fault = fault_of(alloc, b"{}").ok_or("a fault")?;
    assert!(rt; parts.contains(&fault));
    let parts = [
        OpFault::UnknownType(77),
        OpFault::BadTime,
        OpFault::BadNonce,
    ];
    let fault = fault_of(alloc, b"{\"type\":77}").ok_or("a fault")?;
    assert!(rt; parts.contains(&fault));
    Ok(())
}

#[test]
fn what_is_read_is_written_and_read_again(rt: HostRuntime) -> Result<(), Fail> {
    for (row, members) in READ.iter().enumerate() {
        let text = with_members(rt.alloc(), *members)?;
        assert!(rt; is_stable::<BugOp>(rt.alloc(), &text)?, "row {row}");
    }
    Ok(())
}

// What a test looks at of a bug stands in a function of its own, so that the bug is dropped at one
// place of the test.

fn adds_up(bug: &Snapshot) -> bool {
    let row = &bug.row;
    row.title.as_str() == "t"
        && (row.labels.len(), row.metadata.len()) == (1, 3)
        && (row.comments, row.last) == (2, 8)
        && first_message(bug) == "e"
}

#[test]
fn operations_add_up(rt: HostRuntime) -> Result<(), Fail> {
    let bug = bug(rt.alloc(), &WRITTEN)?;
    assert!(rt; adds_up(&bug));
    Ok(())
}

#[test]
fn the_least_creation_is_a_bug(rt: HostRuntime) -> Result<(), Fail> {
    let bug = bug(rt.alloc(), &[(1, CREATE)])?;
    assert_eq!(rt; bug.row.title.as_str(), "a");
    Ok(())
}

#[test]
fn the_least_creation_has_a_place(rt: HostRuntime) -> Result<(), Fail> {
    let common = read_common(rt.alloc(), place(1), CREATE)?;
    assert_eq!(rt; common.place, place(1));
    Ok(())
}

/// Whether the row is one of the least creation, once that is applied, and empty before.
fn row_is_created(alloc: Global, row: &mut Excerpt) -> Result<bool, OpFault> {
    let empty = row.title.as_str().is_empty() && row.comments == 0;
    row_apply::<BugOp>(alloc, row, 1, CREATE)?;
    Ok(empty && row.title.as_str() == "a" && row.status == BugStatus::Opened)
}

#[test]
fn the_least_creation_is_a_row(rt: HostRuntime) -> Result<(), Fail> {
    let mut row = first_row(rt.alloc())?;
    let is_created = row_is_created(rt.alloc(), &mut row);
    assert!(rt; is_created?);
    Ok(())
}

/// The comments of a row that had so many, once the least creation is applied.
fn comments_after(alloc: Global, row: &mut Excerpt, before: u64) -> Result<u64, OpFault> {
    row.comments = before;
    row_apply::<BugOp>(alloc, row, 1, CREATE)?;
    Ok(row.comments)
}

#[test]
fn comments_stand_still_at_the_greatest_number(rt: HostRuntime) -> Result<(), Fail> {
    let mut row = first_row(rt.alloc())?;
    let comments = comments_after(rt.alloc(), &mut row, u64::MAX);
    assert_eq!(rt; comments?, u64::MAX);
    Ok(())
}

fn is_not_edited(bug: &Snapshot) -> bool {
    let persons = (bug.row.actors.len(), bug.row.participants.len());
    first_message(bug) == "m\n" && persons == (1, 1)
}

#[test]
fn an_edit_before_its_target_changes_no_message(rt: HostRuntime) -> Result<(), Fail> {
    let ops = [WRITTEN[5], WRITTEN[0], WRITTEN[6]];
    let bug = bug(rt.alloc(), &ops)?;
    assert!(rt; is_not_edited(&bug));
    Ok(())
}
