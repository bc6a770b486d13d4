//! Reading rows.
ghost use Rattle.std.specs.Prelude.{◌≡◌, IfOk};
ghost use Rattle.std.specs.Option.{option_map};
ghost use Rattle.op_kind.specs.FieldLists.{fields_in};
ghost use Rattle.op_kind.specs.Shapes.{values_in};
ghost use Rattle.row_text.specs.Parts.{bug_values, numbers_values, people_values, texts_values};
ghost use Rattle.row_text.specs.Rows.{bug_shape, numbers_shape, people_shape, row_in, row_of, row_with, texts_shape};

use crate::fields::row_fields;
use crate::members::{
    head_in, id_in, ids_in, labels_in, metadata_in, number_in, status_in, title_in, version_in,
};
use crate::row::HeadRow;
use bug_ops::{BugStatus, Excerpt};
use gb_text::{Id, List, Memory, Name, Text};
use op_kind::{Field, Pair};
use std::alloc::Global;

// Which bug a row is of, at which head.
#[derive(Drop)]
struct Bug {
    id: Id,
    head: Name,
}

// The persons of a row.
#[derive(Drop)]
struct People {
    author: Id,
    actors: List<Id>,
    participants: List<Id>,
}

// The clocks, the times and the count of comments.
#[derive(Drop)]
struct Numbers {
    create: u64,
    edit: u64,
    first: u64,
    last: u64,
    comments: u64,
}

// What the bug says.
#[derive(Drop)]
struct Texts {
    title: Text,
    status: BugStatus,
    labels: List<Text>,
    metadata: List<Pair>,
}

fn bug_in(alloc: Global, fields: &[Field]) -> Result<Option<Bug>, Memory>
    ensures { IfOk result
        (λ o. option_map bug_values o ≡ values_in bug_shape (fields_in fields.now)) }
{
    let Some(_version) = version_in(fields) else {
        return Ok(None);
    };
    let Some(id) = id_in(alloc, fields, "id")? else {
        return Ok(None);
    };
    let Some(head) = head_in(alloc, fields)? else {
        return Ok(None);
    };
    Ok(Some(Bug { id, head }))
}

fn people_in(alloc: Global, fields: &[Field]) -> Result<Option<People>, Memory>
    ensures { IfOk result
        (λ o. option_map people_values o ≡ values_in people_shape (fields_in fields.now)) }
{
    let Some(author) = id_in(alloc, fields, "author")? else {
        return Ok(None);
    };
    let Some(actors) = ids_in(alloc, fields, "actors")? else {
        return Ok(None);
    };
    let Some(participants) = ids_in(alloc, fields, "participants")? else {
        return Ok(None);
    };
    Ok(Some(People {
        author,
        actors,
        participants,
    }))
}

fn numbers_in(fields: &[Field]) -> Option<Numbers>
    ensures { option_map numbers_values result ≡ values_in numbers_shape (fields_in fields.now) }
{
    let create = number_in(fields, "create")?;
    let edit = number_in(fields, "edit")?;
    let first = number_in(fields, "first")?;
    let last = number_in(fields, "last")?;
    let comments = number_in(fields, "comments")?;
    Some(Numbers {
        create,
        edit,
        first,
        last,
        comments,
    })
}

fn texts_in(alloc: Global, fields: &[Field]) -> Result<Option<Texts>, Memory>
    ensures { IfOk result
        (λ o. option_map texts_values o ≡ values_in texts_shape (fields_in fields.now)) }
{
    let Some(title) = title_in(alloc, fields)? else {
        return Ok(None);
    };
    let Some(status) = status_in(fields) else {
        return Ok(None);
    };
    let Some(labels) = labels_in(alloc, fields)? else {
        return Ok(None);
    };
    let Some(metadata) = metadata_in(alloc, fields)? else {
        return Ok(None);
    };
    Ok(Some(Texts {
        title,
        status,
        labels,
        metadata,
    }))
}

// The row of these parts.
fn row_with(bug: Bug, people: People, numbers: Numbers, texts: Texts) -> HeadRow
    ensures { result ≡ row_with (
      bug_values bug,
      (
        people_values people,
        (numbers_values numbers, texts_values texts),
      ),
    ) }
{
    HeadRow {
        head: bug.head,
        row: Excerpt {
            id: bug.id,
            title: texts.title,
            status: texts.status,
            labels: texts.labels,
            author: people.author,
            actors: people.actors,
            participants: people.participants,
            create: numbers.create,
            edit: numbers.edit,
            first: numbers.first,
            last: numbers.last,
            comments: numbers.comments,
            metadata: texts.metadata,
        },
    }
}

// The row of fields.
fn row_in(alloc: Global, fields: &[Field]) -> Result<Option<HeadRow>, Memory>
    ensures { IfOk result (λ o. o ≡ row_in (fields_in fields.now)) }
{
    let Some(bug) = bug_in(alloc, fields)? else {
        return Ok(None);
    };
    let Some(people) = people_in(alloc, fields)? else {
        return Ok(None);
    };
    let Some(numbers) = numbers_in(fields) else {
        return Ok(None);
    };
    let Some(texts) = texts_in(alloc, fields)? else {
        return Ok(None);
    };
    Ok(Some(row_with(bug, people, numbers, texts)))
}

/// The row that a text is, with its head. None if and only if the text is not one. No tree of values
/// is made: the text is split into the spans of its members.
#[tactic(auto, unfolding(crate::specs::Rows::row_of))]
pub fn read_excerpt(alloc: Global, text: &[u8]) -> Result<Option<HeadRow>, Memory>
    ensures { IfOk result (λ o. o ≡ row_of text.now) }
{
    match row_fields(alloc, text)? {
        Some(fields) => row_in(alloc, &fields),
        None => Ok(None),
    }
}
