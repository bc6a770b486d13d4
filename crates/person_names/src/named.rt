//! The name of a person, added to a text.
ghost use Rattle.person_names.specs.Adding.{Adds};
ghost use Rattle.person_names.specs.Named.{name_among, short_of};

use gb_text::{Id, push_ascii};
use identity::Person;
use std::alloc::AllocError;

/// Adds the name of the first person with this id. If no person has it, adds the first seven digits
/// of the id.
pub fn push_named(text: &mut String, names: &[Person], id: &Id) -> Result<(), AllocError>
    ensures { Adds result text.old text.new (name_among names.now id.now) }
{
    for person in names {
        if person.id == *id {
            return text.push_str(person.name.as_str());
        }
    }
    push_short(text, id)
}

/// Adds the first seven digits of an id.
pub fn push_short(text: &mut String, id: &Id) -> Result<(), AllocError>
    ensures { Adds result text.old text.new (short_of id.now) }
{
    push_ascii(text, &id.text()[..7])
}
