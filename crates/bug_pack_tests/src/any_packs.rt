//! Packs of operations of any type: worked texts, and that calls succeed.
use fixtures::id;
use gb_text::{Bytes, Id, List, Memory, Name};
use lamport::Clock;
use op_kind::{AnyOp, OpKind, Place};
use op_pack::{Pack, PackFault, TreeHead};
use std::alloc::Global;
use std::test::Fail;

const OPS: Name = Name { bytes: [7; 20] };

/// A head with the edit clock 7 and the create clock 3.
fn head() -> TreeHead {
    TreeHead {
        version: 4,
        edit: Clock::read(b"6").root_time(),
        create: Some(Clock::read(b"2").root_time()),
        ops: OPS,
    }
}

const AUTHOR: Id = Id { bytes: [1; 32] };

/// The text before the operations of a pack of the author, and the text behind them.
const FRONT: &[u8] =
    b"{\"author\":{\"id\":\"0101010101010101010101010101010101010101010101010101010101010101\"},\"ops\":[";

const BACK: &[u8] = b"]}";

const OPERATION: &[u8] =
    b"{ \"nonce\":\"AAAAAAAAAAAAAAAAAAAAAAAAAAA=\",\"timestamp\":0,\"title\":\"a\\u003cb\",\"type\":1}";

/// The texts one after the other.
fn joined(alloc: Global, texts: &[&[u8]]) -> Result<Vec<u8>, Memory> {
    let mut all = Vec::new(alloc);
    for text in texts {
        all.extend_from_slice(text)?;
    }
    Ok(all)
}

// What reads and writes is generic over the kind, so that it is proved from the kind's contract alone.

fn read_as<K: OpKind>(alloc: Global, text: &[u8]) -> Result<Pack<K>, PackFault> {
    Pack::read(alloc, &head(), text)
}

fn read(alloc: Global, text: &[u8]) -> Result<Pack<AnyOp>, PackFault> {
    read_as(alloc, text)
}

fn written<K: OpKind>(alloc: Global, pack: &Pack<K>) -> Result<Bytes, Memory> {
    Ok(pack.write(alloc)?.text)
}

/// The place of the first operation of a pack.
fn first_place<K: OpKind>(pack: &Pack<K>) -> Option<Place> {
    pack.ops.as_slice().first().map(|op| op.common().place)
}

/// The text of a pack without operations.
fn empty_text(alloc: Global) -> Result<Bytes, Memory> {
    let pack: Pack<AnyOp> = Pack {
        id: AUTHOR,
        version: 4,
        edit: head().edit,
        create: None,
        author: AUTHOR,
        ops: List::new(alloc),
    };
    written(alloc, &pack)
}

#[test]
fn a_pack_without_operations_is_written(rt: HostRuntime) -> Result<(), Fail> {
    let wanted = joined(rt.alloc(), &[FRONT, BACK])?;
    let text = empty_text(rt.alloc())?;
    assert!(rt; text.as_slice() == wanted.as_slice());
    Ok(())
}

/// The author of a text's pack, how many operations it has, its id, and the place of its first operation.
fn numbers(alloc: Global, text: &[u8]) -> Result<(Id, usize, Id, Option<Place>), PackFault> {
    let pack = read(alloc, text)?;
    Ok((pack.author, pack.ops.len(), pack.id, first_place(&pack)))
}

#[test]
fn unknown_members_and_white_space_are_accepted(rt: HostRuntime) -> Result<(), Fail> {
    let text =
        b"{ \"ops\" : null , \"x\":[1.5,{\"y\":null}], \"author\":{\"name\":\"n\",\"id\":\"0101010101010101010101010101010101010101010101010101010101010101\"} }";
    let wanted = id("d7807d2f68bf4e484bbb556f83546789f1710953e4f097a3f053a1d034e354fb")?;
    assert_eq!(rt; numbers(rt.alloc(), text), Ok((AUTHOR, 0, wanted, None)));
    Ok(())
}

/// The place of the only operation of a pack, with white space beside it.
fn place_of(alloc: Global, operation: &[u8]) -> Result<Option<Place>, Fail> {
    let text = joined(alloc, &[FRONT, b" ", operation, b"\n", BACK])?;
    Ok(numbers(alloc, &text)?.3)
}

#[test]
fn an_operation_is_named_by_its_text_as_it_stands(rt: HostRuntime) -> Result<(), Fail> {
    let place = place_of(rt.alloc(), OPERATION)?;
    let wanted = Place {
        id: id("ab9a0be2162978b694c642ad66c46cc56bca4342943eefe0fa10a08ba54db890")?,
        author: AUTHOR,
        edit: 7,
        create: Some(3),
    };
    assert_eq!(rt; place, Some(wanted));
    Ok(())
}

/// The text of a pack of so many operations.
fn many(alloc: Global, count: usize) -> Result<Vec<u8>, Memory> {
    let mut text = joined(alloc, &[FRONT, OPERATION])?;
    for _ in 1..count {
        text.push(b',')?;
        text.extend_from_slice(OPERATION)?;
    }
    text.extend_from_slice(BACK)?;
    Ok(text)
}

/// How many operations such a text has, or its fault.
fn counted(alloc: Global, count: usize) -> Result<usize, PackFault> {
    let text = many(alloc, count)?;
    Ok(numbers(alloc, &text)?.1)
}

#[test]
fn a_pack_has_at_most_4096_operations(rt: HostRuntime) {
    assert_eq!(rt; counted(rt.alloc(), 4096), Ok(4096));
    assert_eq!(rt; counted(rt.alloc(), 4097), Err(PackFault::TooLarge(4097)));
}
