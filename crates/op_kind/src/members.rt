//! The members of an object text, by the texts of their names.
ghost use Rattle.std.specs.Prelude.{◌≡◌, ◌≤◌, ◌∷◌, ◌++◌, [], true, Some, length, map, string_bytes, IfOk, IfSome, IfNone, option_and_then};
ghost use Rattle.std.specs.Option.{option_map};
ghost use Rattle.serde_json.specs.Find.{as_str};
ghost use Rattle.serde_json.specs.Read.{read};
ghost use Rattle.std.specs.List.{list_all};
ghost use Rattle.op_kind.specs.Members.{is_plain, text_at, fields_at, values_of};
ghost use Rattle.op_kind.specs.FieldLists.{fields_in};

use gb_text::{Memory, Text};
use json_span::{SpanFault, members};
use serde_json::Value;
use std::alloc::Global;

/// A member whose name reads as a text, and the bytes of its value.
#[derive(Drop)]
pub struct Field<'a> {
    pub name: Text,
    pub value: &'a [u8],
}

// The text that a JSON string in UTF-8 reads as.
fn unquote(alloc: Global, json: &str) -> Result<Option<String>, Memory>
    ensures { IfOk result
        (λ o. option_map string_bytes o ≡ option_and_then as_str (read json.now)) }
{
    match Value::from_str(alloc, json) {
        Ok(Value::String(text)) => Ok(Some(text)),
        Ok(_) => Ok(None),
        Err(e) => { if e.is_memory() { Err(Memory) } else { Ok(None) } }
    }
}

/// The text that a JSON string (RFC 8259, section 7) stands for. None where the bytes are no JSON
/// string, or where an escape in it stands for no character, as a lone surrogate.
pub fn read_text(alloc: Global, json: &[u8]) -> Result<Option<Text>, Memory>
    ensures { IfOk result (λ o. o ≡ text_at json.now) }
{
    match plain_text(json) {
        Some(text) => Ok(Some(Text::from_str(alloc, text)?)),
        None => read_any_text(alloc, json),
    }
}

// The same, by the reader of JSON, which costs more than a string without escapes needs.
#[tactic(auto, using(crate::proofs::TextLemmas::utf8_true, crate::proofs::TextLemmas::utf8_false, crate::proofs::TextLemmas::string_utf8), unfolding(crate::specs::Members::text_at))]
fn read_any_text(alloc: Global, json: &[u8]) -> Result<Option<Text>, Memory>
    ensures { IfOk result (λ o. o ≡ text_at json.now) }
{
    match std::str::from_utf8(json) {
        Ok(text) => match unquote(alloc, text)? {
            Some(text) => Ok(Some(Text::from_string(text))),
            None => Ok(None),
        },
        Err(_) => Ok(None),
    }
}

// The text that stands as it is between the quotes of a JSON string. None where something is escaped,
// or the bytes are none.
#[tactic(auto, using(crate::proofs::PlainLemmas::plain_reads))]
fn plain_text(json: &[u8]) -> Option<&str>
    ensures { IfSome result (λ text. text_at json.now ≡ Some text.now) }
{
    let inner = plain_inner(json)?;
    match std::str::from_utf8(inner) {
        Ok(text) => Some(text),
        Err(_) => None,
    }
}

// What stands between two quotes, where each byte of it stands for itself.
fn plain_inner(json: &[u8]) -> Option<&[u8]>
    ensures quotes { IfSome result (λ inner. json.now ≡ 34 ∷ inner.now ++ 34 ∷ []) }
    ensures plain { IfSome result (λ inner. list_all is_plain inner.now ≡ true) }
{
    match json {
        [b'"', inner @ .., b'"'] if are_plain(inner) => Some(inner),
        _ => None,
    }
}

// Whether each byte stands for itself in a JSON string.
fn are_plain(bytes: &[u8]) -> bool
    ensures { result ≡ list_all is_plain bytes.now }
{
    bytes.iter().all(|byte| is_plain(*byte))
}

// Whether a byte stands for itself in a JSON string.
fn is_plain(byte: u8) -> bool
    ensures { result ≡ is_plain byte }
{
    byte >= 32 && byte != b'"' && byte != b'\\'
}

/// The members of an object text whose names read as texts, in their order. None where the text is no
/// object.
pub fn read_fields<'a>(alloc: Global, text: &'a [u8]) -> Result<Option<Vec<Field<'a>>>, Memory>
    ensures { IfOk result
        (λ o. option_map (λ v. fields_in v.items) o ≡ fields_at text.now) }
{
    let parts = match members(alloc, text) {
        Ok(parts) => parts,
        Err(SpanFault::Memory) => return Err(Memory),
        Err(SpanFault::NotSplit(_)) => return Ok(None),
    };
    let mut fields = Vec::new(alloc);
    for part in &parts {
        if let Some(name) = read_text(alloc, part.name.cut(text))? {
            let value = part.value.cut(text);
            fields.push(Field { name, value })?;
        }
    }
    Ok(Some(fields))
}

/// What stands under a name: its value, or nothing. None where the name is repeated.
pub fn find<'a>(fields: &[Field<'a>], name: &str) -> Option<Option<&'a [u8]>>
    ensures repeated { IfNone result
        (2 ≤ length (values_of name.now (fields_in fields.now))) }
    ensures absent { IfSome result (λ o. IfNone o
        (values_of name.now (fields_in fields.now) ≡ [])) }
    ensures once { IfSome result (λ o. IfSome o
        (λ v. values_of name.now (fields_in fields.now) ≡ v.now ∷ [])) }
{
    let mut value = None;
    for field in fields {
        if field.name.as_str() == name {
            if value.is_some() {
                return None;
            }
            value = Some(field.value);
        }
    }
    Some(value)
}
