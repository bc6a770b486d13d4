//! A bug as text.
ghost use Rattle.std.specs.Prelude.{◌≡◌, IfOk, codes};
ghost use Rattle.std.specs.List.{flat_map};
ghost use Rattle.hex.specs.Hex.{encode_lower};
ghost use Rattle.person_names.specs.Adding.{Adds};
ghost use Rattle.render.specs.Lines.{told_line};
ghost use Rattle.render.specs.Show.{label_line, metadata_line, person_line, person_lines, show_text_of, status_word, title_lines};

use crate::comments::push_comments;
use crate::lines::{push_moment, push_person, push_told};
use bug_ops::{BugStatus, Excerpt, Snapshot};
use gb_text::{Id, Memory, Text, push_id, push_line_end};
use identity::Person;
use op_kind::{Pair, quote};
use std::alloc::{AllocError, Global};

/// The lines of a bug and of its comments. A person is named as in `names`, or by the first seven
/// digits of the id where none there has it.
pub fn show_text(alloc: Global, bug: &Snapshot, names: &[Person]) -> Result<Text, Memory>
    ensures { IfOk result (λ text. text ≡ show_text_of bug.now names.now) }
{
    let mut text = String::new(alloc);
    push_titles(&mut text, &bug.row)?;
    push_persons(&mut text, names, &bug.row)?;
    push_metadata(alloc, &mut text, bug.row.metadata.as_slice())?;
    push_comments(&mut text, names, &bug.row.id, bug.list.as_slice())?;
    Ok(Text::from_string(text))
}

// Adds the lines of the id, the title, the status and the labels.
fn push_titles(text: &mut String, row: &Excerpt) -> Result<(), AllocError>
    ensures { Adds result text.old text.new (title_lines row.now) }
{
    push_bug(text, &row.id)?;
    push_told(text, "title", row.title.as_str())?;
    push_status(text, row.status)?;
    push_labels(text, row.labels.as_slice())
}

// Adds the line of the id.
fn push_bug(text: &mut String, id: &Id) -> Result<(), AllocError>
    ensures { Adds result text.old text.new (told_line (codes "bug") (encode_lower id.now.bytes)) }
{
    text.push_str("bug ")?;
    push_id(text, id)?;
    push_line_end(text)
}

// Adds the line of the status.
fn push_status(text: &mut String, status: BugStatus) -> Result<(), AllocError>
    ensures { Adds result text.old text.new (told_line (codes "status") (status_word status)) }
{
    match status {
        BugStatus::Opened => push_told(text, "status", "open"),
        BugStatus::Closed => push_told(text, "status", "closed"),
    }
}

// Adds the lines of some labels.
fn push_labels(text: &mut String, labels: &[Text]) -> Result<(), AllocError>
    ensures { Adds result text.old text.new (flat_map label_line labels.now) }
{
    for label in labels {
        push_told(text, "label", label.as_str())?;
    }
    Ok(())
}

// Adds the lines of the author, the clocks, the actors and the participants.
fn push_persons(text: &mut String, names: &[Person], row: &Excerpt) -> Result<(), AllocError>
    ensures { Adds result text.old text.new (person_lines names.now row.now) }
{
    push_person(text, names, "author", &row.author)?;
    push_moment(text, "created", row.create, row.first)?;
    push_moment(text, "edited", row.edit, row.last)?;
    push_each(text, names, "actor", row.actors.as_slice())?;
    push_each(text, names, "participant", row.participants.as_slice())
}

// Adds a line for each of some persons.
fn push_each(text: &mut String, names: &[Person], word: &str, ids: &[Id]) -> Result<(), AllocError>
    ensures { Adds result text.old text.new (flat_map (person_line names.now word.now) ids.now) }
{
    for id in ids {
        push_person(text, names, word, id)?;
    }
    Ok(())
}

// Adds the lines of some pairs of metadata.
fn push_metadata(alloc: Global, text: &mut String, pairs: &[Pair]) -> Result<(), Memory>
    ensures { Adds result text.old text.new (flat_map metadata_line pairs.now) }
{
    for pair in pairs {
        push_pair(alloc, text, pair)?;
    }
    Ok(())
}

// Adds the line of a pair.
fn push_pair(alloc: Global, text: &mut String, pair: &Pair) -> Result<(), Memory>
    ensures { Adds result text.old text.new (metadata_line pair.now) }
{
    text.push_str("metadata ")?;
    text.push_str(quote(alloc, pair.key.as_str())?.as_str())?;
    text.push_str(" ")?;
    text.push_str(quote(alloc, pair.value.as_str())?.as_str())?;
    push_line_end(text)?;
    Ok(())
}
