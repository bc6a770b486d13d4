//! The members of a kind of operations, by their forms: texts, ids, numbers, lists of texts, pairs.
ghost use Rattle.std.specs.Prelude.{◌≡◌, [], map, IfOk, codes};
ghost use Rattle.gb_text.specs.Decimal.{decimal_of};
ghost use Rattle.op_kind.specs.Answers.{Answers};
ghost use Rattle.op_kind.specs.Members.{text_at, values_of, only_value, value_or};
ghost use Rattle.op_kind.specs.Metadata.{pairs_at};
ghost use Rattle.op_kind.specs.Forms.{id_at, texts_from, elements_at, texts_at, FaultOfOne, FaultOfOptional};
ghost use Rattle.op_kind.specs.FieldLists.{fields_in};

use crate::{Field, OpFault, Pair, find, read_pairs, read_text};
use gb_text::{Id, List, Memory, Text, read_decimal};
use json_span::{SpanFault, elements};
use std::alloc::Global;

/// The text of a member that must stand, by its name. `BadMember` with the number that is given where
/// the member is repeated, absent, or no JSON string that reads as a text.
pub fn text_in(alloc: Global, fields: &[Field], name: &str, number: u8) -> Result<Text, OpFault>
    ensures { Answers
        (only_value text_at (values_of name.now (fields_in fields.now)))
        (FaultOfOne number text_at (values_of name.now (fields_in fields.now)))
        result }
{
    match find(fields, name) {
        None => Err(OpFault::BadMember(number)),
        Some(None) => Err(OpFault::BadMember(number)),
        Some(Some(value)) => read_text(alloc, value)?.ok_or(OpFault::BadMember(number)),
    }
}

/// The text of a member that may be absent, which counts as empty. `BadMember` with the number that is
/// given where the member is repeated, or no JSON string that reads as a text.
pub fn optional_text_in(
    alloc: Global,
    fields: &[Field],
    name: &str,
    number: u8,
) -> Result<Text, OpFault>
    ensures { Answers
        (value_or (codes "") text_at (values_of name.now (fields_in fields.now)))
        (FaultOfOptional number text_at (values_of name.now (fields_in fields.now)))
        result }
{
    match find(fields, name) {
        None => Err(OpFault::BadMember(number)),
        Some(None) => Ok(Text::from_str(alloc, "")?),
        Some(Some(value)) => read_text(alloc, value)?.ok_or(OpFault::BadMember(number)),
    }
}

/// The number of a member that must stand: a plain decimal below 2^64. `BadMember` with the number that
/// is given where the member is repeated, absent, or no such decimal.
pub fn decimal_in(fields: &[Field], name: &str, number: u8) -> Result<u64, OpFault>
    ensures { Answers
        (only_value decimal_of (values_of name.now (fields_in fields.now)))
        (FaultOfOne number decimal_of (values_of name.now (fields_in fields.now)))
        result }
{
    match find(fields, name) {
        None => Err(OpFault::BadMember(number)),
        Some(None) => Err(OpFault::BadMember(number)),
        Some(Some(value)) => read_decimal(value).ok_or(OpFault::BadMember(number)),
    }
}

// The id that a JSON string stands for.
fn read_id(alloc: Global, json: &[u8]) -> Result<Option<Id>, Memory>
    ensures { IfOk result (λ o. o ≡ id_at json.now) }
{
    match read_text(alloc, json)? {
        Some(text) => Ok(Id::read(text.as_str().as_bytes())),
        None => Ok(None),
    }
}

/// The id of a member that must stand: a text of 64 lower-case hexadecimal digits. `BadMember` with the
/// number that is given where the member is repeated, absent, or no such text.
pub fn id_in(alloc: Global, fields: &[Field], name: &str, number: u8) -> Result<Id, OpFault>
    ensures { Answers
        (only_value id_at (values_of name.now (fields_in fields.now)))
        (FaultOfOne number id_at (values_of name.now (fields_in fields.now)))
        result }
{
    match find(fields, name) {
        None => Err(OpFault::BadMember(number)),
        Some(None) => Err(OpFault::BadMember(number)),
        Some(Some(value)) => read_id(alloc, value)?.ok_or(OpFault::BadMember(number)),
    }
}

// The texts of an array. None where the bytes are no array, or an element is no text.
#[tactic(auto, unfolding(crate::specs::Forms::elements_at))]
fn read_elements(alloc: Global, json: &[u8]) -> Result<Option<List<Text>>, Memory>
    ensures { IfOk result (λ o. o ≡ elements_at json.now) }
{
    let parts = match elements(alloc, json) {
        Ok(parts) => parts,
        Err(SpanFault::Memory) => return Err(Memory),
        Err(SpanFault::NotSplit(_)) => return Ok(None),
    };
    let mut texts = Vec::new(alloc);
    for part in &parts {
        let Some(text) = read_text(alloc, part.cut(json))? else {
            return Ok(None);
        };
        texts.push(text)?;
    }
    Ok(Some(List::from_vec(texts)))
}

/// The texts of `null`, which has none, or of an array of JSON strings. None for any other bytes, or
/// where a string does not read as a text.
pub fn read_texts(alloc: Global, json: &[u8]) -> Result<Option<List<Text>>, Memory>
    ensures { IfOk result (λ o. o ≡ texts_at json.now) }
{
    if json == b"null".as_slice() {
        return Ok(Some(List::new(alloc)));
    }
    read_elements(alloc, json)
}

/// The texts of a member that may be absent or `null`, which count as empty. `BadMember` with the
/// number that is given where the member is repeated, or no array of JSON strings that read as texts.
pub fn texts_in(
    alloc: Global,
    fields: &[Field],
    name: &str,
    number: u8,
) -> Result<List<Text>, OpFault>
    ensures { Answers
        (value_or [] texts_at (values_of name.now (fields_in fields.now)))
        (FaultOfOptional number texts_at (values_of name.now (fields_in fields.now)))
        result }
{
    match find(fields, name) {
        None => Err(OpFault::BadMember(number)),
        Some(None) => Ok(List::new(alloc)),
        Some(Some(value)) => read_texts(alloc, value)?.ok_or(OpFault::BadMember(number)),
    }
}

/// The pairs of a member that must stand, in byte order of their keys. `BadMember` with the number that
/// is given where the member is repeated, absent, or no object of texts with distinct keys.
pub fn pairs_in(
    alloc: Global,
    fields: &[Field],
    name: &str,
    number: u8,
) -> Result<List<Pair>, OpFault>
    ensures { Answers
        (only_value pairs_at (values_of name.now (fields_in fields.now)))
        (FaultOfOne number pairs_at (values_of name.now (fields_in fields.now)))
        result }
{
    match find(fields, name) {
        None => Err(OpFault::BadMember(number)),
        Some(None) => Err(OpFault::BadMember(number)),
        Some(Some(value)) => read_pairs(alloc, value)?.ok_or(OpFault::BadMember(number)),
    }
}
