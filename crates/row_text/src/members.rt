//! The members of a row, by their forms.
ghost use Rattle.std.specs.Prelude.{◌≡◌, IfOk};
ghost use Rattle.op_kind.specs.FieldLists.{fields_in};
ghost use Rattle.op_kind.specs.Forms.{id_at};
ghost use Rattle.op_kind.specs.MemberForms.{value_in};
ghost use Rattle.op_kind.specs.Common.{time_at};
ghost use Rattle.bug_ops.specs.BugForms.{status_at, status_of};
ghost use Rattle.row_text.specs.RowForms.{head_at, head_form, id_form, ids_form, labels_form, metadata_form, number_form, status_form, title_form, version_form};

use crate::fields::only;
use crate::lists::{are_titles, ascend, keys_ascend, read_array, read_ids, read_pairs};
use bug_ops::BugStatus;
use gb_text::{GREATEST_TIME, Id, List, Memory, Name, Text, is_title, read_decimal};
use op_kind::{Field, Pair, read_text};
use std::alloc::Global;

// The id of a JSON string of its digits.
fn read_id(alloc: Global, json: &[u8]) -> Result<Option<Id>, Memory>
    ensures { IfOk result (λ o. o ≡ id_at json.now) }
{
    match read_text(alloc, json)? {
        Some(text) => Ok(Id::read(text.as_str().as_bytes())),
        None => Ok(None),
    }
}

// The object name of a JSON string of its digits.
fn read_head(alloc: Global, json: &[u8]) -> Result<Option<Name>, Memory>
    ensures { IfOk result (λ o. o ≡ head_at json.now) }
{
    match read_text(alloc, json)? {
        Some(text) => Ok(Name::read(text.as_str().as_bytes())),
        None => Ok(None),
    }
}

// A number of at most 2^63 - 1.
fn read_number(json: &[u8]) -> Option<u64>
    ensures { result ≡ time_at json.now }
{
    match read_decimal(json) {
        Some(number) if number <= GREATEST_TIME => Some(number),
        _ => None,
    }
}

// The status with a number.
fn status_of(number: u64) -> Option<BugStatus>
    ensures { result ≡ status_of number }
{
    match number {
        1 => Some(BugStatus::Opened),
        2 => Some(BugStatus::Closed),
        _ => None,
    }
}

fn read_status(json: &[u8]) -> Option<BugStatus>
    ensures { result ≡ status_at json.now }
{
    match read_decimal(json) {
        Some(number) => status_of(number),
        None => None,
    }
}

#[tactic(auto, using(crate::proofs::FieldLemmas::only_reads, crate::proofs::FieldLemmas::any_obeys))]
pub(crate) fn id_in(alloc: Global, fields: &[Field], name: &str) -> Result<Option<Id>, Memory>
    ensures { IfOk result (λ o. o ≡ value_in (id_form name.now) (fields_in fields.now)) }
{
    match only(fields, name) {
        Some(value) => read_id(alloc, value),
        None => Ok(None),
    }
}

#[tactic(auto, using(crate::proofs::FieldLemmas::only_reads, crate::proofs::FieldLemmas::any_obeys))]
pub(crate) fn ids_in(
    alloc: Global,
    fields: &[Field],
    name: &str,
) -> Result<Option<List<Id>>, Memory>
    ensures { IfOk result (λ o. o ≡ value_in (ids_form name.now) (fields_in fields.now)) }
{
    match only(fields, name) {
        Some(value) => read_ids(alloc, value),
        None => Ok(None),
    }
}

#[tactic(auto, using(crate::proofs::FieldLemmas::only_reads, crate::proofs::FieldLemmas::any_obeys))]
pub(crate) fn number_in(fields: &[Field], name: &str) -> Option<u64>
    ensures { result ≡ value_in (number_form name.now) (fields_in fields.now) }
{
    match only(fields, name) {
        Some(value) => read_number(value),
        None => None,
    }
}

#[tactic(auto, using(crate::proofs::FieldLemmas::only_reads, crate::proofs::FieldLemmas::any_obeys))]
pub(crate) fn head_in(alloc: Global, fields: &[Field]) -> Result<Option<Name>, Memory>
    ensures { IfOk result (λ o. o ≡ value_in head_form (fields_in fields.now)) }
{
    match only(fields, "head") {
        Some(value) => read_head(alloc, value),
        None => Ok(None),
    }
}

#[tactic(auto, using(crate::proofs::FieldLemmas::only_reads, crate::proofs::FieldLemmas::any_obeys))]
pub(crate) fn status_in(fields: &[Field]) -> Option<BugStatus>
    ensures { result ≡ value_in status_form (fields_in fields.now) }
{
    match only(fields, "status") {
        Some(value) => read_status(value),
        None => None,
    }
}

#[tactic(auto, using(crate::proofs::FieldLemmas::only_reads, crate::proofs::FieldLemmas::any_obeys))]
pub(crate) fn version_in(fields: &[Field]) -> Option<()>
    ensures { result ≡ value_in version_form (fields_in fields.now) }
{
    let number = read_decimal(only(fields, "row")?)?;
    if number == 1 { Some(()) } else { None }
}

#[tactic(auto, using(crate::proofs::FieldLemmas::only_reads))]
pub(crate) fn title_in(alloc: Global, fields: &[Field]) -> Result<Option<Text>, Memory>
    ensures { IfOk result (λ o. o ≡ value_in title_form (fields_in fields.now)) }
{
    let Some(value) = only(fields, "title") else {
        return Ok(None);
    };
    let Some(title) = read_text(alloc, value)? else {
        return Ok(None);
    };
    if is_title(title.as_str()) {
        Ok(Some(title))
    } else {
        Ok(None)
    }
}

#[tactic(auto, using(crate::proofs::FieldLemmas::only_reads))]
pub(crate) fn labels_in(alloc: Global, fields: &[Field]) -> Result<Option<List<Text>>, Memory>
    ensures { IfOk result (λ o. o ≡ value_in labels_form (fields_in fields.now)) }
{
    let Some(value) = only(fields, "labels") else {
        return Ok(None);
    };
    let Some(labels) = read_array(alloc, value)? else {
        return Ok(None);
    };
    if are_titles(labels.as_slice()) && ascend(labels.as_slice()) {
        Ok(Some(labels))
    } else {
        Ok(None)
    }
}

#[tactic(auto, using(crate::proofs::FieldLemmas::only_reads))]
pub(crate) fn metadata_in(alloc: Global, fields: &[Field]) -> Result<Option<List<Pair>>, Memory>
    ensures { IfOk result (λ o. o ≡ value_in metadata_form (fields_in fields.now)) }
{
    let Some(value) = only(fields, "metadata") else {
        return Ok(None);
    };
    let Some(pairs) = read_pairs(alloc, value)? else {
        return Ok(None);
    };
    if keys_ascend(pairs.as_slice()) {
        Ok(Some(pairs))
    } else {
        Ok(None)
    }
}
