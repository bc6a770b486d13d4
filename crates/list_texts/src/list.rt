//! A list of bugs, a line of parts for each.
ghost use Rattle.std.specs.Prelude.{◌≡◌, IfOk, slice_get};
ghost use Rattle.std.specs.List.{flat_map};
ghost use Rattle.person_names.specs.Adding.{Adds};
ghost use Rattle.list_texts.specs.Lists.{at_place, label_part, list_line, list_text_of, row_parts, status_word};

use bug_ops::{BugStatus, Excerpt};
use gb_text::{Memory, Text, push_line_end, push_number};
use identity::Person;
use person_names::{push_named, push_short};
use std::alloc::{AllocError, Global};

/// A line for each place of the order: the first digits of the id, the status, the title, the author,
/// the number of comments and the labels, with TABs between. A place without a row has no line.
pub fn list_text(
    alloc: Global,
    rows: &[Excerpt],
    order: &[usize],
    names: &[Person],
) -> Result<Text, Memory>
    ensures { IfOk result (λ text. text ≡ list_text_of names.now rows.now order.now) }
{
    let mut text = String::new(alloc);
    for place in order {
        push_at(&mut text, rows, *place, names)?;
    }
    Ok(Text::from_string(text))
}

// Adds the line of the row at a place, if there is one.
fn push_at(
    text: &mut String,
    rows: &[Excerpt],
    place: usize,
    names: &[Person],
) -> Result<(), AllocError>
    ensures { Adds result text.old text.new
        (at_place (list_line names.now) (slice_get rows.now place)) }
{
    match rows.get(place) {
        Some(row) => push_row(text, row, names),
        None => Ok(()),
    }
}

// Adds the line of a row.
fn push_row(text: &mut String, row: &Excerpt, names: &[Person]) -> Result<(), AllocError>
    ensures { Adds result text.old text.new (list_line names.now row.now) }
{
    push_parts(text, row, names)?;
    push_labels(text, row.labels.as_slice())?;
    push_line_end(text)
}

// Adds the parts of a row before its labels.
fn push_parts(text: &mut String, row: &Excerpt, names: &[Person]) -> Result<(), AllocError>
    ensures { Adds result text.old text.new (row_parts names.now row.now) }
{
    push_short(text, &row.id)?;
    text.push_str("\t")?;
    push_status(text, row.status)?;
    text.push_str("\t")?;
    text.push_str(row.title.as_str())?;
    text.push_str("\t")?;
    push_named(text, names, &row.author)?;
    text.push_str("\t")?;
    push_number(text, row.comments)
}

// Adds the word of a status.
fn push_status(text: &mut String, status: BugStatus) -> Result<(), AllocError>
    ensures { Adds result text.old text.new (status_word status) }
{
    match status {
        BugStatus::Opened => text.push_str("open"),
        BugStatus::Closed => text.push_str("closed"),
    }
}

// Adds a TAB and a label for each label.
fn push_labels(text: &mut String, labels: &[Text]) -> Result<(), AllocError>
    ensures { Adds result text.old text.new (flat_map label_part labels.now) }
{
    for label in labels {
        push_label(text, label.as_str())?;
    }
    Ok(())
}

// Adds a TAB and a label.
fn push_label(text: &mut String, label: &str) -> Result<(), AllocError>
    ensures { Adds result text.old text.new (label_part label.now) }
{
    text.push_str("\t")?;
    text.push_str(label)
}
