//! The comments of a bug.
ghost use Rattle.std.specs.List.{flat_map};
ghost use Rattle.person_names.specs.Adding.{Adds};
ghost use Rattle.render.specs.Show.{comment_line, comment_lines, message_line, message_lines};

use bug_ops::Comment;
use combined_id::combine;
use gb_text::{Id, push_id, push_line_end, push_number};
use identity::Person;
use person_names::push_named;
use std::alloc::AllocError;

/// Adds the comments of a bug.
pub(crate) fn push_comments(
    text: &mut String,
    names: &[Person],
    bug: &Id,
    list: &[Comment],
) -> Result<(), AllocError>
    ensures { Adds result text.old text.new (flat_map (comment_lines names.now bug.now) list.now) }
{
    for comment in list {
        push_head(text, names, bug, comment)?;
        push_message(text, comment.message.as_str())?;
    }
    Ok(())
}

// Adds the line of a comment.
fn push_head(
    text: &mut String,
    names: &[Person],
    bug: &Id,
    comment: &Comment,
) -> Result<(), AllocError>
    ensures { Adds result text.old text.new (comment_line names.now bug.now comment.now) }
{
    text.push_str("comment ")?;
    push_id(text, &combine(bug, &comment.id))?;
    text.push_str(" ")?;
    push_named(text, names, &comment.author)?;
    text.push_str(" ")?;
    push_number(text, comment.time)?;
    push_line_end(text)
}

// Adds the lines of a message.
fn push_message(text: &mut String, message: &str) -> Result<(), AllocError>
    ensures { Adds result text.old text.new (message_lines message.now) }
{
    for line in message.split('\n') {
        push_indented(text, line)?;
    }
    Ok(())
}

// Adds a line of a message.
fn push_indented(text: &mut String, line: &str) -> Result<(), AllocError>
    ensures { Adds result text.old text.new (message_line line.now) }
{
    text.push_str("    ")?;
    text.push_str(line)?;
    push_line_end(text)
}
