//! The common parts of operations, and their faults.
use fixtures::{CREATE, filled, joined};
use gb_text::{Id, Memory};
use op_kind::{Common, Nonce, OpFault, Pair, Place, read_common};
use std::alloc::Global;
use std::test::Fail;

/// Texts that are no nonce.
const NO_NONCES: &[&[u8]] = &[
    b"AAAA",
    b"AAAAAAAAAAAAAAAAAAAAAAAAAAA",
    b"AAAAAAAAAAAAAAAAAAAAAAAAAAB=",
    b"AAAAAAAAAAAAAAAAAAAAAAAAAA==",
    b"____________________________",
    b"AAAAAAAAAAAAAA AAAAAAAAAAAAA=",
];

/// Texts without a common part, each with the fault that is named.
const FAULTS: &[(&[u8], OpFault)] = &[
    (b"[]", OpFault::NotObject),
    (b"{\"type\":1", OpFault::NotObject),
    (b"{}", OpFault::NoType),
    (b"{\"type\":1.0}", OpFault::NoType),
    (b"{\"type\":\"1\"}", OpFault::NoType),
    (b"{\"type\":1,\"\\u0074ype\":1}", OpFault::BadMember(1)),
    (b"{\"type\":1,\"t\\u0079p\\ud800e\":1}", OpFault::BadTime),
    (b"{\"type\":77}", OpFault::BadTime),
    (
        b"{\"type\":1,\"timestamp\":9223372036854775808}",
        OpFault::BadTime,
    ),
    (b"{\"type\":1,\"timestamp\":-0}", OpFault::BadTime),
    (b"{\"type\":1,\"timestamp\":1e3}", OpFault::BadTime),
    (
        b"{\"type\":1,\"timestamp\":5,\"timestamp\":5}",
        OpFault::BadMember(2),
    ),
    (
        b"{\"type\":1,\"timestamp\":9223372036854775807}",
        OpFault::BadNonce,
    ),
    (
        b"{\"type\":1,\"timestamp\":0,\"nonce\":\"AAAA\"}",
        OpFault::BadNonce,
    ),
    (
        b"{\"type\":1,\"timestamp\":0,\"nonce\":7}",
        OpFault::BadNonce,
    ),
    (
        b"{\"type\":1,\"timestamp\":0,\"nonce\":\"\",\"nonce\":\"\"}",
        OpFault::BadMember(3),
    ),
];

/// Members that give no metadata.
const EMPTY: &[&[u8]] = &[b"", b",\"metadata\":null", b",\"metadata\":{}"];

/// Members whose metadata are refused.
const REFUSED: &[&[u8]] = &[
    b",\"metadata\":[]",
    b",\"metadata\":{\"a\":1}",
    b",\"metadata\":{\"a\":\"\",\"\\u0061\":\"\"}",
    b",\"metadata\":{\"\\ud800\":\"\"}",
    b",\"metadata\":{\"a\":\"\\ud800\"}",
    b",\"metadata\":null,\"metadata\":null",
];

/// The place of an operation with this edit clock.
pub fn place(edit: u64) -> Place {
    Place {
        id: Id::from_bytes([1; 32]),
        author: Id::from_bytes([2; 32]),
        edit,
        create: None,
    }
}

// Calls whose contracts say much stand in functions of their own: each is proved once here, and not
// again at each exit of a test.

fn common(alloc: Global, edit: u64, text: &[u8]) -> Result<Common, OpFault> {
    read_common(alloc, place(edit), text)
}

fn fault_of(alloc: Global, text: &[u8]) -> Option<OpFault> {
    common(alloc, 1, text).err()
}

fn nonce(alloc: Global, text: &[u8]) -> Result<Option<Nonce>, Memory> {
    Nonce::read(alloc, text)
}

fn zeros(alloc: Global) -> Result<Nonce, Memory> {
    Nonce::from_bytes(alloc, &[0; 20])
}

#[test]
fn nonces_are_base64_with_padding(rt: HostRuntime) -> Result<(), Fail> {
    let alloc = rt.alloc();
    let nonce_read = nonce(alloc, b"AAAAAAAAAAAAAAAAAAAAAAAAAAA=")?.ok_or("a nonce")?;
    assert_eq!(rt; nonce_read.as_slice(), [0; 20].as_slice());
    assert_eq!(rt; zeros(alloc)?.as_slice(), [0; 20].as_slice());
    for text in NO_NONCES {
        assert!(rt; nonce(alloc, text)?.is_none(), "{text:?}");
    }
    Ok(())
}

#[test]
fn the_least_operation_has_a_common_part(rt: HostRuntime) -> Result<(), Fail> {
    let common = common(rt.alloc(), 7, CREATE)?;
    assert_eq!(rt; (common.kind, common.time, common.place.edit), (1, 0, 7));
    assert_eq!(rt; common.nonce.as_slice(), [0; 20].as_slice());
    assert_eq!(rt; common.metadata.len(), 0);
    Ok(())
}

#[test]
fn each_fault_is_named(rt: HostRuntime) -> Result<(), Fail> {
    for (row, (text, fault)) in FAULTS.iter().enumerate() {
        assert_eq!(rt; fault_of(rt.alloc(), text), Some(*fault), "row {row}");
    }
    Ok(())
}

// The text of an operation with this behind its other members.
fn with_members(alloc: Global, members: &[u8]) -> Result<Vec<u8>, Fail> {
    let front = b"{\"type\":3,\"timestamp\":5,\"nonce\":\"AAAAAAAAAAAAAAAAAAAAAAAAAAA=\"";
    joined(alloc, &[front, members, b"}"])
}

/// The common part of an operation with these members.
fn common_with(alloc: Global, members: &[u8]) -> Result<Common, Fail> {
    Ok(common(alloc, 1, &with_members(alloc, members)?)?)
}

fn fault_with(alloc: Global, members: &[u8]) -> Result<Option<OpFault>, Fail> {
    Ok(fault_of(alloc, &with_members(alloc, members)?))
}

fn is_pair(pair: &Pair, key: &str, value: &str) -> bool {
    pair.key.as_str() == key && pair.value.as_str() == value
}

#[test]
fn metadata_is_kept_in_byte_order_of_keys(rt: HostRuntime) -> Result<(), Fail> {
    let members = b",\"metadata\":{\"b\":\"1\",\"\\u0061\":\"\\n\",\"B\":\"3\"}";
    let common = common_with(rt.alloc(), members)?;
    let [first, second, third] = common.metadata.as_slice() else {
        return Err("pairs")?;
    };
    assert!(rt; is_pair(first, "B", "3"));
    assert!(rt; is_pair(second, "a", "\n"));
    assert!(rt; is_pair(third, "b", "1"));
    Ok(())
}

#[test]
fn metadata_may_be_left_out(rt: HostRuntime) -> Result<(), Fail> {
    for members in EMPTY {
        assert_eq!(rt; common_with(rt.alloc(), members)?.metadata.len(), 0);
    }
    Ok(())
}

#[test]
fn metadata_of_another_form_are_refused(rt: HostRuntime) -> Result<(), Fail> {
    for (row, members) in REFUSED.iter().enumerate() {
        let fault = fault_with(rt.alloc(), members)?;
        assert_eq!(rt; fault, Some(OpFault::BadMember(4)), "row {row}");
    }
    Ok(())
}

// What is wrong with an operation with a member whose value has so many brackets open.
fn fault_nested(alloc: Global, depth: usize) -> Result<Option<OpFault>, Fail> {
    let (opening, closing) = (filled(alloc, b'[', depth)?, filled(alloc, b']', depth)?);
    fault_with(alloc, &joined(alloc, &[b",\"x\":", &opening, &closing])?)
}

#[test]
fn unknown_members_nest_to_a_hundred_brackets(rt: HostRuntime) -> Result<(), Fail> {
    assert_eq!(rt; fault_nested(rt.alloc(), 99)?, None);
    assert_eq!(rt; fault_nested(rt.alloc(), 100)?, None);
    assert_eq!(rt; fault_nested(rt.alloc(), 101)?, Some(OpFault::NotObject));
    Ok(())
}
