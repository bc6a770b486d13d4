//! How members are written: an object's text without white space, each name in quotes.
ghost use Rattle.std.specs.Prelude.{◌≡◌, ◌≤◌, length, ◌∷◌, [], ◌++◌, map, decimal, string_bytes, IfOk, OnOk};
ghost use Rattle.json.specs.Print.{quoted};
ghost use Rattle.json_span.specs.Joined.{behind_commas, member_text};
ghost use Rattle.op_kind.specs.Pairs.{pairs_text};
ghost use Rattle.op_kind.specs.NameOrder.{place_among, with_written, metadata_members, common_members};
ghost use Rattle.op_kind.specs.Written.{fields_text, nonce_text, texts_text, named};
ghost use Rattle.op_kind.specs.FieldLists.{fields_for};

use crate::{Common, Nonce, Pair};
use base64::engine::general_purpose::STANDARD;
use gb_text::{Bytes, Memory, Text};
use serde_json::Value;
use std::alloc::Global;
use std::cmp::Ordering;

/// A member to be written: its name, and the JSON text of its value.
#[derive(Drop)]
pub struct Written<'a> {
    pub name: &'a str,
    pub value: Text,
}

/// The JSON string of a text (RFC 8259, section 7), with the shortest escapes.
pub fn quote(alloc: Global, text: &str) -> Result<Text, Memory>
    ensures { IfOk result (λ t. t ≡ quoted text.now) }
{
    Ok(Text::from_string(Value::try_from_str(alloc, text)?.to_string(alloc)?))
}

/// The plain decimal of a number.
pub fn print_decimal(alloc: Global, n: u64) -> Result<Text, Memory>
    ensures { IfOk result (λ t. t ≡ decimal n) }
{
    Ok(Text::from_string(format!(in alloc; "{n}")?))
}

/// The JSON string of a nonce's base64 with padding (RFC 4648, section 4).
pub fn quote_nonce(alloc: Global, nonce: &Nonce) -> Result<Text, Memory>
    ensures { IfOk result (λ t. t ≡ nonce_text nonce.now) }
{
    let text = STANDARD.encode(alloc, nonce.as_slice())?;
    quote(alloc, text.as_str())
}

// Puts a text in quotes behind another.
fn add_quoted(alloc: Global, out: &mut String, text: &str) -> Result<(), Memory>
    ensures { OnOk result (string_bytes out.new ≡ string_bytes out.old ++ quoted text.now) }
{
    let text = quote(alloc, text)?;
    out.push_str(text.as_str())?;
    Ok(())
}

// Puts further texts in quotes behind a text, a comma before each.
fn add_texts(alloc: Global, out: &mut String, texts: &[Text]) -> Result<(), Memory>
    ensures { OnOk result
        (string_bytes out.new ≡ string_bytes out.old ++ behind_commas (map quoted texts.now)) }
{
    for text in texts {
        out.push_str(",")?;
        add_quoted(alloc, out, text.as_str())?;
    }
    Ok(())
}

/// The JSON array of these texts, in their order and without white space.
pub fn quote_texts(alloc: Global, texts: &[Text]) -> Result<Text, Memory>
    ensures { IfOk result (λ t. t ≡ texts_text texts.now) }
{
    let mut out = String::from_str(alloc, "[")?;
    if let Some((first, rest)) = texts.split_first() {
        add_quoted(alloc, &mut out, first.as_str())?;
        add_texts(alloc, &mut out, rest)?;
    }
    out.push_str("]")?;
    Ok(Text::from_string(out))
}

// Puts a member behind a text.
fn add_member(alloc: Global, out: &mut String, member: &Written) -> Result<(), Memory>
    ensures { OnOk result (string_bytes out.new
        ≡ string_bytes out.old ++ member_text (named (member.now.name.now, member.now.value))) }
{
    add_quoted(alloc, out, member.name)?;
    out.push_str(":")?;
    out.push_str(member.value.as_str())?;
    Ok(())
}

// Puts further members behind a text, a comma before each.
fn add_rest(alloc: Global, out: &mut String, members: &[Written]) -> Result<(), Memory>
    ensures { OnOk result (string_bytes out.new ≡ string_bytes out.old
        ++ behind_commas (map member_text (map named (fields_for members.now)))) }
{
    for member in members {
        out.push_str(",")?;
        add_member(alloc, out, member)?;
    }
    Ok(())
}

// Where a name stands among members: behind the names that come before it in byte order.
fn place_among(members: &[Written], name: &str) -> usize
    ensures place { result ≡ place_among name.now (fields_for members.now) }
    ensures within { result ≤ length members.now }
{
    for (place, member) in members.iter().enumerate() {
        match member.name.cmp(name) {
            Ordering::Less => {}
            _ => return place,
        }
    }
    members.len()
}

/// Puts a member among others, behind those whose names come before its own in byte order.
pub fn put_member<'a>(
    members: &mut Vec<Written<'a>>,
    name: &'a str,
    value: Text,
) -> Result<(), Memory>
    ensures { OnOk result (fields_for members.new.items
        ≡ with_written (name.now, value) (fields_for members.old.items)) }
{
    let place = place_among(members, name);
    members.insert(place, Written { name, value })?;
    Ok(())
}

// Puts the metadata behind other members, where it is not empty.
fn add_metadata(alloc: Global, members: &mut Vec<Written>, metadata: &[Pair]) -> Result<(), Memory>
    ensures { OnOk result (fields_for members.new.items
        ≡ fields_for members.old.items ++ metadata_members metadata.now) }
{
    if metadata.is_empty() {
        return Ok(());
    }
    members.push(Written {
        name: "metadata",
        value: quote_pairs(alloc, metadata)?,
    })?;
    Ok(())
}

/// The members that every operation has, in byte order of their names: the metadata where it is not
/// empty, the nonce, the time and the number of the type.
pub fn common_members<'a>(alloc: Global, common: &Common) -> Result<Vec<Written<'a>>, Memory>
    ensures { IfOk result (λ v. fields_for v.items ≡ common_members common.now) }
{
    let mut members = Vec::new(alloc);
    add_metadata(alloc, &mut members, common.metadata.as_slice())?;
    let nonce = quote_nonce(alloc, &common.nonce)?;
    members.push(Written {
        name: "nonce",
        value: nonce,
    })?;
    let time = print_decimal(alloc, common.time)?;
    members.push(Written {
        name: "timestamp",
        value: time,
    })?;
    let kind = print_decimal(alloc, common.kind)?;
    members.push(Written {
        name: "type",
        value: kind,
    })?;
    Ok(members)
}

// The text of an object with these members, in their order and without white space.
fn join_members(alloc: Global, members: &[Written]) -> Result<String, Memory>
    ensures { IfOk result
        (λ s. string_bytes s ≡ fields_text (fields_for members.now)) }
{
    let mut out = String::from_str(alloc, "{")?;
    if let Some((first, rest)) = members.split_first() {
        add_member(alloc, &mut out, first)?;
        add_rest(alloc, &mut out, rest)?;
    }
    out.push_str("}")?;
    Ok(out)
}

/// The text of an object with these members, in their order and without white space.
pub fn write_members(alloc: Global, members: &[Written]) -> Result<Bytes, Memory>
    ensures { IfOk result (λ b. b ≡ fields_text (fields_for members.now)) }
{
    let text = join_members(alloc, members)?;
    Ok(Bytes::from_vec(text.into_bytes()))
}

/// The JSON object of these pairs, in their order and without white space: each key is a name, and its
/// value a string.
pub fn quote_pairs(alloc: Global, pairs: &[Pair]) -> Result<Text, Memory>
    ensures { IfOk result (λ t. t ≡ pairs_text pairs.now) }
{
    let mut members = Vec::new(alloc);
    for pair in pairs {
        members.push(Written {
            name: pair.key.as_str(),
            value: quote(alloc, pair.value.as_str())?,
        })?;
    }
    Ok(Text::from_string(join_members(alloc, &members)?))
}
