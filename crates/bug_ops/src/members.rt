//! The members that operations of bugs have beside those that every operation has.
ghost use Rattle.std.specs.Prelude.{◌≡◌, codes, IfOk};
ghost use Rattle.std.specs.List.{list_all};
ghost use Rattle.gb_text.specs.Rules.{is_title_text};
ghost use Rattle.bug_ops.specs.BugForms.{status_of, status_at, names_of, names_at};
ghost use Rattle.bug_ops.specs.BugForms.{title_form, was_form, message_form, files_form};
ghost use Rattle.bug_ops.specs.BugForms.{status_form, labels_form, target_form, pairs_form};
ghost use Rattle.bug_ops.specs.Readers.{AnswersMember};

use crate::BugStatus;
use gb_text::{Id, List, Memory, Name, Text, is_message, is_title, read_decimal};
use op_kind::{
    Field, OpFault, Pair, find, id_in, optional_text_in, pairs_in, read_texts, text_in, texts_in,
};
use std::alloc::Global;

pub(crate) fn title_in(alloc: Global, fields: &[Field]) -> Result<Text, OpFault>
    ensures { AnswersMember title_form fields.now result }
{
    let title = text_in(alloc, fields, "title", 5)?;
    if is_title(title.as_str()) {
        Ok(title)
    } else {
        Err(OpFault::BadText(5))
    }
}

pub(crate) fn was_in(alloc: Global, fields: &[Field]) -> Result<Text, OpFault>
    ensures { AnswersMember was_form fields.now result }
{
    let was = optional_text_in(alloc, fields, "was", 6)?;
    Ok(was)
}

pub(crate) fn message_in(alloc: Global, fields: &[Field]) -> Result<Text, OpFault>
    ensures { AnswersMember message_form fields.now result }
{
    let message = text_in(alloc, fields, "message", 7)?;
    if is_message(message.as_str()) {
        Ok(message)
    } else {
        Err(OpFault::BadText(7))
    }
}

fn status_of(number: u64) -> Option<BugStatus>
    ensures { result ≡ status_of number }
{
    match number {
        1 => Some(BugStatus::Opened),
        2 => Some(BugStatus::Closed),
        _ => None,
    }
}

fn read_status(json: &[u8]) -> Option<BugStatus>
    ensures { result ≡ status_at json.now }
{
    match read_decimal(json) {
        Some(number) => status_of(number),
        None => None,
    }
}

pub(crate) fn status_in(fields: &[Field]) -> Result<BugStatus, OpFault>
    ensures { AnswersMember status_form fields.now result }
{
    match find(fields, "status") {
        None => Err(OpFault::BadMember(9)),
        Some(None) => Err(OpFault::BadMember(9)),
        Some(Some(value)) => read_status(value).ok_or(OpFault::BadMember(9)),
    }
}

// The object names whose digits the texts are. None where a text is that of none.
#[tactic(auto, using(crate::proofs::Names::one_more_name, crate::proofs::Names::no_more_names))]
fn names_of(alloc: Global, texts: &[Text]) -> Result<Option<List<Name>>, Memory>
    ensures { IfOk result (λ o. o ≡ names_of texts.now) }
{
    let mut names = Vec::new(alloc);
    for text in texts {
        let Some(name) = Name::read(text.as_str().as_bytes()) else {
            return Ok(None);
        };
        names.push(name)?;
    }
    Ok(Some(List::from_vec(names)))
}

fn read_names(alloc: Global, json: &[u8]) -> Result<Option<List<Name>>, Memory>
    ensures { IfOk result (λ o. o ≡ names_at json.now) }
{
    match read_texts(alloc, json)? {
        Some(texts) => names_of(alloc, texts.as_slice()),
        None => Ok(None),
    }
}

pub(crate) fn files_in(alloc: Global, fields: &[Field]) -> Result<List<Name>, OpFault>
    ensures { AnswersMember files_form fields.now result }
{
    match find(fields, "files") {
        None => Err(OpFault::BadMember(8)),
        Some(None) => Ok(List::new(alloc)),
        Some(Some(value)) => read_names(alloc, value)?.ok_or(OpFault::BadMember(8)),
    }
}

pub(crate) fn target_in(alloc: Global, fields: &[Field]) -> Result<Id, OpFault>
    ensures { AnswersMember target_form fields.now result }
{
    let target = id_in(alloc, fields, "target", 12)?;
    Ok(target)
}

pub(crate) fn pairs_given(alloc: Global, fields: &[Field]) -> Result<List<Pair>, OpFault>
    ensures { AnswersMember pairs_form fields.now result }
{
    let pairs = pairs_in(alloc, fields, "new_metadata", 13)?;
    Ok(pairs)
}

// Whether each text is a label.
fn are_labels(texts: &[Text]) -> bool
    ensures { result ≡ list_all is_title_text texts.now }
{
    texts.iter().all(|text| is_title(text.as_str()))
}

pub(crate) fn labels_in(
    alloc: Global,
    fields: &[Field],
    name: &str,
    number: u8,
) -> Result<List<Text>, OpFault>
    ensures { AnswersMember (labels_form name.now number) fields.now result }
{
    let labels = texts_in(alloc, fields, name, number)?;
    if are_labels(labels.as_slice()) {
        Ok(labels)
    } else {
        Err(OpFault::BadText(number))
    }
}
