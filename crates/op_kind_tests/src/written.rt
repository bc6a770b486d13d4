//! Members that are written.
use gb_text::{Memory, Text};
use op_kind::{
    Nonce, Written, print_decimal, quote, quote_nonce, quote_pairs, quote_texts, read_pairs,
    write_members,
};
use std::alloc::Global;
use std::test::Fail;

fn quoted(alloc: Global, name: &'static str, text: &str) -> Result<Written<'static>, Memory> {
    let value = quote(alloc, text)?;
    Ok(Written { name, value })
}

fn quoted_nonce(alloc: Global) -> Result<Written<'static>, Memory> {
    let value = quote_nonce(alloc, &Nonce::from_bytes(alloc, &[0; 20])?)?;
    Ok(Written {
        name: "nonce",
        value,
    })
}

fn printed(alloc: Global, name: &'static str, number: u64) -> Result<Written<'static>, Memory> {
    let value = print_decimal(alloc, number)?;
    Ok(Written { name, value })
}

fn three_members(alloc: Global) -> Result<Vec<Written<'static>>, Memory> {
    let mut members = Vec::new(alloc);
    members.push(quoted(alloc, "message", "a\n\"\u{1}")?)?;
    members.push(quoted_nonce(alloc)?)?;
    members.push(printed(alloc, "type", 3)?)?;
    Ok(members)
}

fn are_written(alloc: Global, members: &[Written], wanted: &[u8]) -> Result<bool, Memory> {
    Ok(write_members(alloc, members)?.as_slice() == wanted)
}

#[test]
fn members_are_written_without_white_space(rt: HostRuntime) -> Result<(), Fail> {
    let alloc = rt.alloc();
    let wanted =
        b"{\"message\":\"a\\n\\\"\\u0001\",\"nonce\":\"AAAAAAAAAAAAAAAAAAAAAAAAAAA=\",\"type\":3}";
    assert!(rt; are_written(alloc, &three_members(alloc)?, wanted)?);
    assert!(rt; are_written(alloc, &[], b"{}")?);
    Ok(())
}

fn two_texts(alloc: Global) -> Result<Vec<Text>, Memory> {
    let mut texts = Vec::new(alloc);
    texts.push(Text::from_str(alloc, "x")?)?;
    texts.push(Text::from_str(alloc, "\"")?)?;
    Ok(texts)
}

fn are_quoted(alloc: Global, texts: &[Text], wanted: &str) -> Result<bool, Memory> {
    Ok(quote_texts(alloc, texts)?.as_str() == wanted)
}

/// Whether the pairs of an object are written so.
fn pairs_are_quoted(alloc: Global, text: &[u8], wanted: &str) -> Result<bool, Fail> {
    let pairs = read_pairs(alloc, text)?.ok_or("pairs")?;
    Ok(quote_pairs(alloc, pairs.as_slice())?.as_str() == wanted)
}

#[test]
fn pairs_and_lists_are_written_in_their_order(rt: HostRuntime) -> Result<(), Fail> {
    let alloc = rt.alloc();
    let text = b"{ \"b\": \"\\u000a\", \"\\u0061\": \"\" }";
    assert!(rt; pairs_are_quoted(alloc, text, "{\"a\":\"\",\"b\":\"\\n\"}")?);
    assert!(rt; pairs_are_quoted(alloc, b"{}", "{}")?);
    assert!(rt; are_quoted(alloc, &two_texts(alloc)?, "[\"x\",\"\\\"\"]")?);
    assert!(rt; are_quoted(alloc, &[], "[]")?);
    Ok(())
}
