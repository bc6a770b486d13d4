//! A board of bugs, in columns.
ghost use Rattle.std.specs.Prelude.{◌≡◌, IfOk, slice_get};
ghost use Rattle.std.specs.List.{count_by};
ghost use Rattle.person_names.specs.Adding.{Adds};
ghost use Rattle.list_texts.specs.Lists.{at_place};
ghost use Rattle.list_texts.specs.Boards.{board_line, board_lines, board_text_of, header, last_line, number_cell, row_has, same_status, status_cell};

use bug_ops::{BugStatus, Excerpt};
use columns::{push_cell, push_spaces};
use gb_text::{Memory, Text, push_line_end, push_number};
use identity::Person;
use itoa::Buffer;
use person_names::{push_named, push_short};
use std::alloc::{AllocError, Global};

/// A header, a line for each place of the order, and how many of these bugs are open and closed. A
/// place without a row has no line.
pub fn board_text(
    alloc: Global,
    rows: &[Excerpt],
    order: &[usize],
    names: &[Person],
) -> Result<Text, Memory>
    ensures { IfOk result (λ text. text ≡ board_text_of names.now rows.now order.now) }
{
    let mut text = String::new(alloc);
    push_header(&mut text)?;
    push_lines(alloc, &mut text, rows, order, names)?;
    push_last(&mut text, rows, order)?;
    Ok(Text::from_string(text))
}

// Adds the header.
fn push_header(text: &mut String) -> Result<(), AllocError>
    ensures { Adds result text.old text.new header }
{
    text.push_str("ID      STATUS TITLE                                    AUTHOR          CMTS\n")
}

// Adds the lines of rows.
fn push_lines(
    alloc: Global,
    text: &mut String,
    rows: &[Excerpt],
    order: &[usize],
    names: &[Person],
) -> Result<(), AllocError>
    ensures { Adds result text.old text.new (board_lines names.now rows.now order.now) }
{
    for place in order {
        push_at(alloc, text, rows, *place, names)?;
    }
    Ok(())
}

// Adds the line of the row at a place, if there is one.
fn push_at(
    alloc: Global,
    text: &mut String,
    rows: &[Excerpt],
    place: usize,
    names: &[Person],
) -> Result<(), AllocError>
    ensures { Adds result text.old text.new
        (at_place (board_line names.now) (slice_get rows.now place)) }
{
    match rows.get(place) {
        Some(row) => push_row(alloc, text, row, names),
        None => Ok(()),
    }
}

// Adds the line of a row.
fn push_row(
    alloc: Global,
    text: &mut String,
    row: &Excerpt,
    names: &[Person],
) -> Result<(), AllocError>
    ensures { Adds result text.old text.new (board_line names.now row.now) }
{
    let mut name = String::new(alloc);
    push_named(&mut name, names, &row.author)?;
    push_short(text, &row.id)?;
    push_status(text, row.status)?;
    push_cell(text, row.title.as_str(), 40)?;
    text.push_str(" ")?;
    push_cell(text, name.as_str(), 15)?;
    text.push_str(" ")?;
    push_count(text, row.comments)?;
    push_line_end(text)
}

// Adds the cell of a status, between two spaces.
fn push_status(text: &mut String, status: BugStatus) -> Result<(), AllocError>
    ensures { Adds result text.old text.new (status_cell status) }
{
    match status {
        BugStatus::Opened => text.push_str(" open   "),
        BugStatus::Closed => text.push_str(" closed "),
    }
}

// Adds a number, at the right of four columns unless it is longer.
fn push_count(text: &mut String, number: u64) -> Result<(), AllocError>
    ensures { Adds result text.old text.new (number_cell number) }
{
    let mut buffer = Buffer::new();
    let digits = buffer.format(number);
    push_spaces(text, 4usize.saturating_sub(digits.len()))?;
    text.push_str(digits)
}

// Adds the last line.
fn push_last(text: &mut String, rows: &[Excerpt], order: &[usize]) -> Result<(), AllocError>
    ensures { Adds result text.old text.new (last_line rows.now order.now) }
{
    push_number(text, count(rows, order, BugStatus::Opened))?;
    text.push_str(" open, ")?;
    push_number(text, count(rows, order, BugStatus::Closed))?;
    text.push_str(" closed\n")
}

// How many places hold a row with this status.
fn count(rows: &[Excerpt], order: &[usize], status: BugStatus) -> u64
    ensures { result ≡ count_by (row_has rows.now status) order.now }
{
    let mut count = 0;
    for place in order {
        if has_status(rows, *place, status) {
            count += 1;
        }
    }
    count
}

// Whether a place holds a row with this status.
fn has_status(rows: &[Excerpt], place: usize, status: BugStatus) -> bool
    ensures { result ≡ row_has rows.now status place }
{
    match rows.get(place) {
        Some(row) => same_status(row.status, status),
        None => false,
    }
}

fn same_status(one: BugStatus, other: BugStatus) -> bool
    ensures { result ≡ same_status one other }
{
    match (one, other) {
        (BugStatus::Opened, BugStatus::Opened) => true,
        (BugStatus::Closed, BugStatus::Closed) => true,
        _ => false,
    }
}
