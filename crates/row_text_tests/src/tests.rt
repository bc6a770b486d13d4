//! Which texts are rows: worked texts, each member changed, missing and repeated, and the limits.
use bug_ops::BugStatus;
use row_text::{read_excerpt, write_excerpt};
use std::alloc::Global;
use std::test::Fail;

/// The members of a row, as they are written.
const MEMBERS: [&[u8]; 15] = [
    b"\"actors\":[\"0101010101010101010101010101010101010101010101010101010101010101\"]",
    b"\"author\":\"0101010101010101010101010101010101010101010101010101010101010101\"",
    b"\"comments\":1",
    b"\"create\":2",
    b"\"edit\":9223372036854775807",
    b"\"first\":4",
    b"\"head\":\"0202020202020202020202020202020202020202\"",
    b"\"id\":\"0303030303030303030303030303030303030303030303030303030303030303\"",
    b"\"labels\":[\"a\",\"b\"]",
    b"\"last\":5",
    b"\"metadata\":{\"k\":\"v\",\"l\":\"\\n\"}",
    b"\"participants\":[]",
    b"\"row\":1",
    b"\"status\":2",
    b"\"title\":\"a\\\"b\"",
];

/// Members that no row has, each in the place of one that a row has.
const BAD: [(usize, &[u8]); 30] = [
    (0, b"\"actors\":null"),
    (0, b"\"actors\":[\"01\"]"),
    (0, b"\"actors\":[1]"),
    (
        1,
        b"\"author\":\"0101010101010101010101010101010101010101010101010101010101010A0A\"",
    ),
    (1, b"\"author\":null"),
    (2, b"\"comments\":01"),
    (2, b"\"comments\":-1"),
    (3, b"\"create\":1.0"),
    (3, b"\"create\":1e0"),
    (4, b"\"edit\":9223372036854775808"),
    (5, b"\"first\":\"4\""),
    (6, b"\"head\":\"02020202020202020202020202020202020202\""),
    (
        6,
        b"\"head\":\"0303030303030303030303030303030303030303030303030303030303030303\"",
    ),
    (7, b"\"id\":\"0202020202020202020202020202020202020202\""),
    (8, b"\"labels\":[\"b\",\"a\"]"),
    (8, b"\"labels\":[\"a\",\"a\"]"),
    (8, b"\"labels\":[\" \"]"),
    (8, b"\"labels\":null"),
    (9, b"\"last\":null"),
    (10, b"\"metadata\":{\"l\":\"v\",\"k\":\"v\"}"),
    (10, b"\"metadata\":{\"k\":\"v\",\"k\":\"v\"}"),
    (10, b"\"metadata\":{\"k\":1}"),
    (10, b"\"metadata\":null"),
    (11, b"\"participants\":{}"),
    (12, b"\"row\":2"),
    (12, b"\"row\":\"1\""),
    (13, b"\"status\":3"),
    (13, b"\"status\":0"),
    (14, b"\"title\":\"\""),
    (14, b"\"titles\":\"a\""),
];

// Adds a member to an object, behind a comma if it is not the first.
fn push(text: &mut Vec<u8>, member: &[u8]) -> Result<(), Fail> {
    if text.len() > 1 {
        text.push(b',')?;
    }
    text.extend_from_slice(member)?;
    Ok(())
}

// The object of the members, with another one in the place of the one at an index, or with none there.
fn with(alloc: Global, at: usize, other: Option<&[u8]>) -> Result<Vec<u8>, Fail> {
    let mut text = Vec::new(alloc);
    text.push(b'{')?;
    for (i, member) in MEMBERS.iter().enumerate() {
        if i != at {
            push(&mut text, member)?;
        } else if let Some(other) = other {
            push(&mut text, other)?;
        }
    }
    text.push(b'}')?;
    Ok(text)
}

// The object of the members, in the opposite order and with white space.
fn spread(alloc: Global) -> Result<Vec<u8>, Fail> {
    let mut text = Vec::new(alloc);
    text.push(b'{')?;
    for member in MEMBERS.iter().rev() {
        push(&mut text, member)?;
        text.extend_from_slice(b" \r\n\t")?;
    }
    text.push(b'}')?;
    Ok(text)
}

fn is_row(alloc: Global, text: &[u8]) -> Result<bool, Fail> {
    Ok(read_excerpt(alloc, text)?.is_some())
}

// The text that is written of the row that a text is. Empty where it is none.
fn again(alloc: Global, text: &[u8]) -> Result<Vec<u8>, Fail> {
    match read_excerpt(alloc, text)? {
        Some(read) => {
            let written = write_excerpt(alloc, &read.head, &read.row)?;
            Ok(written.as_slice().to_vec(alloc)?)
        }
        None => Ok(Vec::new(alloc)),
    }
}

// Whether a text is a row with the numbers, the labels and the texts of the members above.
fn says_all(alloc: Global, text: &[u8]) -> Result<bool, Fail> {
    let Some(read) = read_excerpt(alloc, text)? else {
        return Ok(false);
    };
    let row = &read.row;
    let numbers = row.comments == 1 && row.create == 2 && row.edit == 9223372036854775807;
    let times = row.first == 4 && row.last == 5 && row.status == BugStatus::Closed;
    let lists = row.actors.len() == 1 && row.participants.len() == 0 && row.labels.len() == 2;
    let names = read.head.bytes == [2; 20]
        && row.id.bytes == [3; 32]
        && row.author.bytes == [1; 32];
    Ok(numbers && times && lists && names && row.title.as_str() == "a\"b")
}

#[test]
fn a_written_row_says_its_members(rt: HostRuntime) -> Result<(), Fail> {
    let alloc = rt.alloc();
    let text = with(alloc, 15, None)?;
    assert!(rt; says_all(alloc, &text)?);
    assert!(rt; again(alloc, &text)?.as_slice() == text.as_slice());
    Ok(())
}

#[test]
fn order_and_white_space_do_not_matter(rt: HostRuntime) -> Result<(), Fail> {
    let alloc = rt.alloc();
    let text = spread(alloc)?;
    assert!(rt; says_all(alloc, &text)?);
    let whole = with(alloc, 15, None)?;
    assert!(rt; again(alloc, &text)?.as_slice() == whole.as_slice());
    Ok(())
}

#[test]
fn names_and_texts_may_be_escaped(rt: HostRuntime) -> Result<(), Fail> {
    let alloc = rt.alloc();
    let text = with(alloc, 14, Some(b"\"t\\u0069tle\":\"\\u0061\\u0022b\""))?;
    assert!(rt; says_all(alloc, &text)?);
    let lone = with(alloc, 14, Some(b"\"title\":\"\\ud800\""))?;
    assert!(rt; !is_row(alloc, &lone)?);
    Ok(())
}

#[test]
fn each_member_must_be_there(rt: HostRuntime) -> Result<(), Fail> {
    let alloc = rt.alloc();
    for at in 0..15 {
        assert!(rt; !is_row(alloc, &with(alloc, at, None)?)?);
    }
    Ok(())
}

#[test]
fn no_member_may_be_there_twice(rt: HostRuntime) -> Result<(), Fail> {
    let alloc = rt.alloc();
    for (at, member) in MEMBERS.iter().enumerate() {
        let mut text = with(alloc, 15, None)?;
        text.pop();
        push(&mut text, member)?;
        text.push(b'}')?;
        assert!(rt; !is_row(alloc, &text)?);
        let other = if at == 0 { 1 } else { 0 };
        assert!(rt; !is_row(alloc, &with(alloc, other, Some(member))?)?);
    }
    Ok(())
}

#[test]
fn other_members_are_refused(rt: HostRuntime) -> Result<(), Fail> {
    let alloc = rt.alloc();
    let others: [&[u8]; 2] = [b"\"more\":1", b"\"\\ud800\":1"];
    for other in others {
        let mut text = with(alloc, 15, None)?;
        text.pop();
        push(&mut text, other)?;
        text.push(b'}')?;
        assert!(rt; !is_row(alloc, &text)?);
    }
    Ok(())
}

#[test]
fn bad_members_are_refused(rt: HostRuntime) -> Result<(), Fail> {
    let alloc = rt.alloc();
    for (at, member) in BAD {
        assert!(rt; !is_row(alloc, &with(alloc, at, Some(member))?)?);
    }
    Ok(())
}

#[test]
fn other_texts_are_refused(rt: HostRuntime) -> Result<(), Fail> {
    let alloc = rt.alloc();
    let others: [&[u8]; 5] = [b"", b"{}", b"[]", b"null", b"{\"row\":1}"];
    for other in others {
        assert!(rt; !is_row(alloc, other)?);
    }
    let mut text = with(alloc, 15, None)?;
    text.push(b'x')?;
    assert!(rt; !is_row(alloc, &text)?);
    Ok(())
}
