//! Writing rows.
ghost use Rattle.std.specs.Prelude.{◌≡◌, ◌++◌, ◌∷◌, [], codes, decimal, map, string_bytes, IfOk, OnOk};
ghost use Rattle.json.specs.Print.{quoted};
ghost use Rattle.bug_ops.specs.BugForms.{id_text, status_number};
ghost use Rattle.op_kind.specs.FieldLists.{fields_for};
ghost use Rattle.op_kind.specs.Pairs.{pairs_text};
ghost use Rattle.op_kind.specs.Written.{texts_text};
ghost use Rattle.row_text.specs.Lists.{digits_of};
ghost use Rattle.row_text.specs.RowForms.{head_text, ids_text, version_text};
ghost use Rattle.row_text.specs.Rows.{row_text};
ghost use Rattle.row_text.specs.declared.row.HeadRow.{HeadRow as RowValue};

use bug_ops::{BugStatus, Excerpt};
use gb_text::{Bytes, Id, List, Memory, Name, Text, push_id, push_name};
use op_kind::{Pair, Written, print_decimal, quote, quote_pairs, quote_texts, write_members};
use std::alloc::Global;

// The digits of an id.
fn digits_of(alloc: Global, id: &Id) -> Result<Text, Memory>
    ensures { IfOk result (λ t. t ≡ digits_of id.now) }
{
    let mut digits = String::new(alloc);
    push_id(&mut digits, id)?;
    Ok(Text::from_string(digits))
}

fn quote_id(alloc: Global, id: &Id) -> Result<Text, Memory>
    ensures { IfOk result (λ t. t ≡ id_text id.now) }
{
    let digits = digits_of(alloc, id)?;
    quote(alloc, digits.as_str())
}

fn quote_head(alloc: Global, head: &Name) -> Result<Text, Memory>
    ensures { IfOk result (λ t. t ≡ head_text head.now) }
{
    let mut digits = String::new(alloc);
    push_name(&mut digits, head)?;
    quote(alloc, digits.as_str())
}

// The digits of ids.
fn all_digits(alloc: Global, ids: &[Id]) -> Result<Vec<Text>, Memory>
    ensures { IfOk result (λ v. v.items ≡ map digits_of ids.now) }
{
    let mut texts = Vec::new(alloc);
    for id in ids {
        texts.push(digits_of(alloc, id)?)?;
    }
    Ok(texts)
}

fn quote_ids(alloc: Global, ids: &[Id]) -> Result<Text, Memory>
    ensures { IfOk result (λ t. t ≡ ids_text ids.now) }
{
    let texts = all_digits(alloc, ids)?;
    quote_texts(alloc, &texts)
}

// The number of a status.
fn status_number(status: BugStatus) -> u64
    ensures { result ≡ status_number status }
{
    match status {
        BugStatus::Opened => 1,
        BugStatus::Closed => 2,
    }
}

// Puts a member behind others.
fn put<'a>(members: &mut Vec<Written<'a>>, name: &'a str, value: Text) -> Result<(), Memory>
    ensures { OnOk result (fields_for members.new.items
        ≡ fields_for members.old.items ++ (name.now, value) ∷ []) }
{
    members.push(Written { name, value })?;
    Ok(())
}

// A list of ids.
fn id_list(alloc: Global, ids: &List<Id>) -> Result<Text, Memory>
    ensures { IfOk result (λ text. text ≡ ids_text ids.now) }
{
    quote_ids(alloc, ids.as_slice())
}

// A list of texts.
fn text_list(alloc: Global, texts: &List<Text>) -> Result<Text, Memory>
    ensures { IfOk result (λ text. text ≡ texts_text texts.now) }
{
    quote_texts(alloc, texts.as_slice())
}

// An object of pairs.
fn pair_object(alloc: Global, pairs: &List<Pair>) -> Result<Text, Memory>
    ensures { IfOk result (λ text. text ≡ pairs_text pairs.now) }
{
    quote_pairs(alloc, pairs.as_slice())
}

// Puts the members `actors` and `author`.
fn put_people(alloc: Global, members: &mut Vec<Written>, row: &Excerpt) -> Result<(), Memory>
    ensures { OnOk result (fields_for members.new.items ≡ fields_for members.old.items
        ++ (codes "actors", ids_text row.now.actors) ∷ (codes "author", id_text row.now.author)
        ∷ []) }
{
    let actors = id_list(alloc, &row.actors)?;
    put(members, "actors", actors)?;
    let author = quote_id(alloc, &row.author)?;
    put(members, "author", author)
}

// Puts the members `comments` and `create`.
fn put_counts(alloc: Global, members: &mut Vec<Written>, row: &Excerpt) -> Result<(), Memory>
    ensures { OnOk result (fields_for members.new.items ≡ fields_for members.old.items
        ++ (codes "comments", decimal row.now.comments) ∷ (codes "create", decimal row.now.create)
        ∷ []) }
{
    let comments = print_decimal(alloc, row.comments)?;
    put(members, "comments", comments)?;
    let create = print_decimal(alloc, row.create)?;
    put(members, "create", create)
}

// Puts the members from `edit` to `id`.
fn put_bug(
    alloc: Global,
    members: &mut Vec<Written>,
    head: &Name,
    row: &Excerpt,
) -> Result<(), Memory>
    ensures { OnOk result (fields_for members.new.items ≡ fields_for members.old.items
        ++ (codes "edit", decimal row.now.edit) ∷ (codes "first", decimal row.now.first)
        ∷ (codes "head", head_text head.now) ∷ (codes "id", id_text row.now.id) ∷ []) }
{
    let edit = print_decimal(alloc, row.edit)?;
    put(members, "edit", edit)?;
    let first = print_decimal(alloc, row.first)?;
    put(members, "first", first)?;
    let head = quote_head(alloc, head)?;
    put(members, "head", head)?;
    let id = quote_id(alloc, &row.id)?;
    put(members, "id", id)
}

// Puts the members `labels` and `last`.
fn put_labels(alloc: Global, members: &mut Vec<Written>, row: &Excerpt) -> Result<(), Memory>
    ensures { OnOk result (fields_for members.new.items ≡ fields_for members.old.items
        ++ (codes "labels", texts_text row.now.labels) ∷ (codes "last", decimal row.now.last)
        ∷ []) }
{
    let labels = text_list(alloc, &row.labels)?;
    put(members, "labels", labels)?;
    let last = print_decimal(alloc, row.last)?;
    put(members, "last", last)
}

// Puts the members `metadata` and `participants`.
fn put_metadata(alloc: Global, members: &mut Vec<Written>, row: &Excerpt) -> Result<(), Memory>
    ensures { OnOk result (fields_for members.new.items ≡ fields_for members.old.items
        ++ (codes "metadata", pairs_text row.now.metadata)
        ∷ (codes "participants", ids_text row.now.participants) ∷ []) }
{
    let metadata = pair_object(alloc, &row.metadata)?;
    put(members, "metadata", metadata)?;
    let participants = id_list(alloc, &row.participants)?;
    put(members, "participants", participants)
}

// Puts the members from `row` to `title`.
fn put_title(alloc: Global, members: &mut Vec<Written>, row: &Excerpt) -> Result<(), Memory>
    ensures { OnOk result (fields_for members.new.items ≡ fields_for members.old.items
        ++ (codes "row", version_text)
        ∷ (codes "status", decimal (status_number row.now.status))
        ∷ (codes "title", quoted row.now.title) ∷ []) }
{
    let version = print_decimal(alloc, 1)?;
    put(members, "row", version)?;
    let status = print_decimal(alloc, status_number(row.status))?;
    put(members, "status", status)?;
    let title = quote(alloc, row.title.as_str())?;
    put(members, "title", title)
}

/// The text of a row with its head: an object of fifteen members in byte order of their names, without
/// white space.
#[tactic(auto, unfolding(crate::specs::Rows::row_text))]
pub fn write_excerpt(alloc: Global, head: &Name, row: &Excerpt) -> Result<Bytes, Memory>
    ensures { IfOk result (λ text. text ≡ row_text (record { head = head.now; row = row.now })) }
{
    let mut members = Vec::new(alloc);
    put_people(alloc, &mut members, row)?;
    put_counts(alloc, &mut members, row)?;
    put_bug(alloc, &mut members, head, row)?;
    put_labels(alloc, &mut members, row)?;
    put_metadata(alloc, &mut members, row)?;
    put_title(alloc, &mut members, row)?;
    write_members(alloc, &members)
}
