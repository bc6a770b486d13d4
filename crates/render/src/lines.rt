//! Lines.
ghost use Rattle.person_names.specs.Adding.{Adds};
ghost use Rattle.render.specs.Lines.{told_line};
ghost use Rattle.render.specs.Show.{moment_line, person_line};

use gb_text::{Id, push_line_end, push_number};
use identity::Person;
use person_names::push_named;
use std::alloc::AllocError;

/// Adds a line of a word and a text.
pub(crate) fn push_told(text: &mut String, word: &str, told: &str) -> Result<(), AllocError>
    ensures { Adds result text.old text.new (told_line word.now told.now) }
{
    text.push_str(word)?;
    text.push_str(" ")?;
    text.push_str(told)?;
    push_line_end(text)
}

/// Adds a line that names a person.
pub(crate) fn push_person(
    text: &mut String,
    names: &[Person],
    word: &str,
    id: &Id,
) -> Result<(), AllocError>
    ensures { Adds result text.old text.new (person_line names.now word.now id.now) }
{
    text.push_str(word)?;
    text.push_str(" ")?;
    push_named(text, names, id)?;
    push_line_end(text)
}

/// Adds a line of a clock and a time.
pub(crate) fn push_moment(
    text: &mut String,
    word: &str,
    clock: u64,
    time: u64,
) -> Result<(), AllocError>
    ensures { Adds result text.old text.new (moment_line word.now clock time) }
{
    text.push_str(word)?;
    text.push_str(" ")?;
    push_number(text, clock)?;
    text.push_str(" ")?;
    push_number(text, time)?;
    push_line_end(text)
}
