//! The parts of a pack's text: its author, and the texts of its operations.
ghost use Rattle.std.specs.Prelude.{◌≡◌, map, IfOk};
ghost use Rattle.std.specs.Option.{option_map};
ghost use Rattle.json_span.specs.Parts.{elements_of};
ghost use Rattle.op_kind.specs.FieldLists.{fields_in};
ghost use Rattle.op_kind.specs.Forms.{id_at};
ghost use Rattle.op_pack.specs.Texts.{id_in, author_at, author_of, slices_at, slices_of, parts_of, parts_at};

use gb_text::{Id, Memory};
use json_span::{SpanFault, elements};
use op_kind::{Field, find, read_fields, read_text};
use std::alloc::Global;

/// The author of a pack, and the texts of its operations as they stand.
#[derive(Drop)]
pub(crate) struct Parts<'a> {
    pub author: Id,
    pub slices: Vec<&'a [u8]>,
}

// The id that a JSON string stands for.
fn read_id(alloc: Global, json: &[u8]) -> Result<Option<Id>, Memory>
    ensures { IfOk result (λ o. o ≡ id_at json.now) }
{
    match read_text(alloc, json)? {
        Some(text) => Ok(Id::read(text.as_str().as_bytes())),
        None => Ok(None),
    }
}

fn id_in(alloc: Global, fields: &[Field]) -> Result<Option<Id>, Memory>
    ensures { IfOk result (λ o. o ≡ id_in (fields_in fields.now)) }
{
    match find(fields, "id") {
        None => Ok(None),
        Some(None) => Ok(None),
        Some(Some(value)) => read_id(alloc, value),
    }
}

#[tactic(auto, unfolding(crate::specs::Texts::author_at))]
fn read_author(alloc: Global, json: &[u8]) -> Result<Option<Id>, Memory>
    ensures { IfOk result (λ o. o ≡ author_at json.now) }
{
    match read_fields(alloc, json)? {
        Some(fields) => id_in(alloc, &fields),
        None => Ok(None),
    }
}

fn author_in(alloc: Global, fields: &[Field]) -> Result<Option<Id>, Memory>
    ensures { IfOk result (λ o. o ≡ author_of (fields_in fields.now)) }
{
    match find(fields, "author") {
        None => Ok(None),
        Some(None) => Ok(None),
        Some(Some(value)) => read_author(alloc, value),
    }
}

// The elements of an array, as they stand.
fn cut_elements<'a>(alloc: Global, json: &'a [u8]) -> Result<Option<Vec<&'a [u8]>>, Memory>
    ensures { IfOk result
        (λ o. option_map (λ v. map (λ s. s.now) v.items) o ≡ elements_of json.now) }
{
    let spans = match elements(alloc, json) {
        Ok(spans) => spans,
        Err(SpanFault::Memory) => return Err(Memory),
        Err(SpanFault::NotSplit(_)) => return Ok(None),
    };
    let mut slices = Vec::new(alloc);
    for span in &spans {
        slices.push(span.cut(json))?;
    }
    Ok(Some(slices))
}

#[tactic(auto, unfolding(crate::specs::Texts::slices_at))]
fn read_slices<'a>(alloc: Global, json: &'a [u8]) -> Result<Option<Vec<&'a [u8]>>, Memory>
    ensures { IfOk result
        (λ o. option_map (λ v. map (λ s. s.now) v.items) o ≡ slices_at json.now) }
{
    if json == b"null".as_slice() {
        return Ok(Some(Vec::new(alloc)));
    }
    cut_elements(alloc, json)
}

fn slices_in<'a>(alloc: Global, fields: &[Field<'a>]) -> Result<Option<Vec<&'a [u8]>>, Memory>
    ensures { IfOk result
        (λ o. option_map (λ v. map (λ s. s.now) v.items) o
        ≡ slices_of (fields_in fields.now)) }
{
    match find(fields, "ops") {
        None => Ok(None),
        Some(None) => Ok(Some(Vec::new(alloc))),
        Some(Some(value)) => read_slices(alloc, value),
    }
}

fn parts_in<'a>(alloc: Global, fields: &[Field<'a>]) -> Result<Option<Parts<'a>>, Memory>
    ensures { IfOk result
        (λ o. option_map (λ x. (x.author, map (λ s. s.now) x.slices.items)) o
        ≡ parts_of (fields_in fields.now)) }
{
    let Some(author) = author_in(alloc, fields)? else {
        return Ok(None);
    };
    let Some(slices) = slices_in(alloc, fields)? else {
        return Ok(None);
    };
    Ok(Some(Parts { author, slices }))
}

/// The parts of a pack's text. None where the text is no pack text.
#[tactic(auto, using(op_kind::proofs::TextLemmas::utf8_true, op_kind::proofs::TextLemmas::utf8_false), unfolding(crate::specs::Texts::parts_at))]
pub(crate) fn read_parts<'a>(alloc: Global, text: &'a [u8]) -> Result<Option<Parts<'a>>, Memory>
    ensures { IfOk result
        (λ o. option_map (λ x. (x.author, map (λ s. s.now) x.slices.items)) o ≡ parts_at text.now) }
{
    if std::str::from_utf8(text).is_err() {
        return Ok(None);
    }
    match read_fields(alloc, text)? {
        Some(fields) => parts_in(alloc, &fields),
        None => Ok(None),
    }
}
