//! A text in a cell.
ghost use Rattle.std.specs.Prelude.{◌≡◌, ◌≤◌, ◌++◌, IfOk, OnOk, string_bytes};
ghost use Rattle.columns.specs.Cells.{cell_of, cut_cell, front_of, spaces};

use crate::front::front;
use gb_text::{Memory, Text};
use std::alloc::{AllocError, Global};
use unicode_width::UnicodeWidthStr;

/// The text in so many columns: padded with spaces, or cut between characters and ended by `~`.
pub fn cut_to_columns(alloc: Global, text: &str, columns: usize) -> Result<Text, Memory>
    requires low { 2 ≤ columns }
    requires high { columns ≤ 200 }
    ensures { IfOk result (λ cell. cell ≡ cell_of columns text.now) }
{
    let mut cell = String::new(alloc);
    push_cell(&mut cell, text, columns)?;
    Ok(Text::from_string(cell))
}

/// Adds the text in so many columns.
pub fn push_cell(cell: &mut String, text: &str, columns: usize) -> Result<(), AllocError>
    requires low { 2 ≤ columns }
    requires high { columns ≤ 200 }
    ensures { OnOk result
        (string_bytes cell.new ≡ string_bytes cell.old ++ cell_of columns text.now) }
{
    let width = text.width();
    if width > columns {
        return push_cut(cell, text, columns - 1);
    }
    cell.push_str(text)?;
    push_spaces(cell, columns - width)
}

// Adds the longest prefix that fits into so many columns, and `~`, and spaces.
fn push_cut(cell: &mut String, text: &str, most: usize) -> Result<(), AllocError>
    requires { most ≤ 200 }
    ensures { OnOk result
        (string_bytes cell.new ≡ string_bytes cell.old ++ cut_cell most (front_of most text.now)) }
{
    let front = front(text, most);
    cell.push_str(front)?;
    cell.push_str("~")?;
    push_spaces(cell, most - front.width())
}

/// Adds spaces.
pub fn push_spaces(text: &mut String, count: usize) -> Result<(), AllocError>
    ensures { OnOk result (string_bytes text.new ≡ string_bytes text.old ++ spaces count) }
{
    for _ in 0..count {
        text.push_str(" ")?;
    }
    Ok(())
}
