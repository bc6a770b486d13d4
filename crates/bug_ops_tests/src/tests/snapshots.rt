//! A worked bug, by the last mention of each thing.
use super::Members::{self, Edit, Metadata, Of};
use super::{EDIT, METADATA};
use bug_ops::{BugOp, Excerpt, Snapshot};
use fixtures::joined;
use gb_text::Id;
use op_kind::{OpFault, OpKind, Pair, Place};
use snapshot::{compile, excerpt_of};
use std::alloc::Global;
use std::test::Fail;

/// The operations of a bug, each a byte of its place and its members: labels, edits before and behind
/// their comments and of no comment, metadata of the bug and of another, and one that changes nothing.
const ROWS: [(u8, Members); 11] = [
    (
        1,
        Of(r#""type":1,"title":"t","message":"m","metadata":{"b":"made"}"#),
    ),
    (2, Of(r#""type":5,"added":["y","x","z"],"removed":["z"]"#)),
    (
        3,
        Of(
            "\"type\":6,\"message\":\"early\",\
      \"target\":\"0505050505050505050505050505050505050505050505050505050505050505\"",
        ),
    ),
    (4, Edit(r#","message":"n""#)),
    (5, Of(r#""type":3,"message":"c""#)),
    (6, Of(r#""type":5,"removed":["y"]"#)),
    (7, Metadata(r#","new_metadata":{"k":"one"}"#)),
    (
        8,
        Metadata(r#","new_metadata":{"b":"two","j":"two","k":"two"}"#),
    ),
    (
        9,
        Of(
            "\"type\":8,\"new_metadata\":{\"a\":\"other\"},\
      \"target\":\"0202020202020202020202020202020202020202020202020202020202020202\"",
        ),
    ),
    (
        10,
        Of(
            "\"type\":6,\"message\":\"unknown\",\
      \"target\":\"ffffffffffffffffffffffffffffffffffffffffffffffffffffffffffffffff\"",
        ),
    ),
    (11, Of(r#""type":7"#)),
];

/// A place whose id, author and edit clock are those of a byte. The first has the create clock 40.
fn place(byte: u8) -> Place {
    Place {
        id: Id::from_bytes([byte; 32]),
        author: Id::from_bytes([byte; 32]),
        edit: u64::from(byte),
        create: Some(39 + u64::from(byte)),
    }
}

/// The text of an operation with these members, and the time 5 where it is the first.
fn text_of(alloc: Global, byte: u8, members: Members) -> Result<Vec<u8>, Fail> {
    let time = if byte == 1 { b"5," } else { b"0," };
    let (first, more) = match members {
        Of(more) => (b"".as_slice(), more),
        Edit(more) => (EDIT, more),
        Metadata(more) => (METADATA, more),
    };
    let front = b"{\"nonce\":\"AAAAAAAAAAAAAAAAAAAAAAAAAAA=\",\"timestamp\":";
    joined(alloc, &[front, time, first, more.as_bytes(), b"}"])
}

fn read<K: OpKind>(alloc: Global, byte: u8, members: Members) -> Result<K, Fail> {
    let text = text_of(alloc, byte, members)?;
    Ok(K::read_op(alloc, place(byte), &text)?)
}

fn read_all<K: OpKind>(alloc: Global, rows: &[(u8, Members)]) -> Result<Vec<K>, Fail> {
    let mut ops = Vec::new(alloc);
    for (byte, members) in rows {
        ops.push(read::<K>(alloc, *byte, *members)?)?;
    }
    Ok(ops)
}

fn bug(alloc: Global) -> Result<Snapshot, Fail> {
    let ops = read_all::<BugOp>(alloc, &ROWS)?;
    Ok(compile(alloc, &ops)?)
}

fn row(alloc: Global) -> Result<Excerpt, Fail> {
    Ok(excerpt_of(alloc, &bug(alloc)?)?)
}

/// The labels, with commas behind them.
fn label_line(alloc: Global, row: &Excerpt) -> Result<String, Fail> {
    let mut line = String::new(alloc);
    for label in row.labels.as_slice() {
        line.push_str(label.as_str())?;
        line.push(',')?;
    }
    Ok(line)
}

/// The messages, with commas behind them.
fn message_line(alloc: Global, bug: &Snapshot) -> Result<String, Fail> {
    let mut line = String::new(alloc);
    for comment in bug.list.as_slice() {
        line.push_str(comment.message.as_str())?;
        line.push(',')?;
    }
    Ok(line)
}

/// The metadata, each pair with an equals sign and a comma.
fn pair_line(alloc: Global, pairs: &[Pair]) -> Result<String, Fail> {
    let mut line = String::new(alloc);
    for pair in pairs {
        line.push_str(pair.key.as_str())?;
        line.push('=')?;
        line.push_str(pair.value.as_str())?;
        line.push(',')?;
    }
    Ok(line)
}

/// The first byte of each id.
fn first_bytes(alloc: Global, ids: &[Id]) -> Result<Vec<u8>, Fail> {
    let mut bytes = Vec::new(alloc);
    for id in ids {
        bytes.push(id.bytes[0])?;
    }
    Ok(bytes)
}

#[test]
fn a_label_that_is_added_and_removed_is_off(rt: HostRuntime) -> Result<(), Fail> {
    let line = label_line(rt.alloc(), &row(rt.alloc())?)?;
    assert_eq!(rt; line.as_str(), "x,");
    Ok(())
}

#[test]
fn edits_change_the_comments_before_them(rt: HostRuntime) -> Result<(), Fail> {
    let line = message_line(rt.alloc(), &bug(rt.alloc())?)?;
    assert_eq!(rt; line.as_str(), "n,c,");
    Ok(())
}

#[test]
fn the_first_value_of_a_key_stays(rt: HostRuntime) -> Result<(), Fail> {
    let row = row(rt.alloc())?;
    let line = pair_line(rt.alloc(), row.metadata.as_slice())?;
    assert_eq!(rt; line.as_str(), "b=made,j=two,k=one,");
    Ok(())
}

#[test]
fn times_and_clocks_are_those_of_the_first_and_the_last(rt: HostRuntime) -> Result<(), Fail> {
    let row = row(rt.alloc())?;
    assert_eq!(rt; (row.create, row.edit, row.first, row.last), (40, 11, 5, 0));
    Ok(())
}

#[test]
fn persons_are_those_of_the_operations(rt: HostRuntime) -> Result<(), Fail> {
    let row = row(rt.alloc())?;
    let actors = first_bytes(rt.alloc(), row.actors.as_slice())?;
    let participants = first_bytes(rt.alloc(), row.participants.as_slice())?;
    assert_eq!(rt;
        actors.as_slice(),
        [1, 2, 3, 4, 5, 6, 7, 8, 9, 10, 11].as_slice()
    );
    assert_eq!(rt;
        (row.comments, participants.as_slice()),
        (2, [1, 5].as_slice())
    );
    Ok(())
}
