//! The list of persons.
ghost use Rattle.std.specs.Prelude.{◌≡◌, ◌++◌, IfOk, codes};
ghost use Rattle.person_names.specs.Adding.{Adds};
ghost use Rattle.render.specs.Users.{is_user, star, user_line, users_text_of};

use gb_text::{Id, Memory, Text, push_id, push_line_end};
use identity::Person;
use std::alloc::{AllocError, Global};

/// The lines of these persons, in their order: of each the id, the name and the email, and a star for
/// the user.
pub fn users_text(alloc: Global, names: &[Person], user: Option<Id>) -> Result<Text, Memory>
    ensures { IfOk result (λ text. text ≡ users_text_of names.now user) }
{
    let mut text = String::new(alloc);
    for person in names {
        push_user(&mut text, person, user)?;
    }
    Ok(Text::from_string(text))
}

// Whether the id is the user's.
fn is_user(user: Option<Id>, id: Id) -> bool
    ensures { result ≡ is_user user id }
{
    match user {
        Some(user) => user == id,
        None => false,
    }
}

// Adds the line of a person.
fn push_user(text: &mut String, person: &Person, user: Option<Id>) -> Result<(), AllocError>
    ensures { Adds result text.old text.new (user_line user person.now) }
{
    push_id(text, &person.id)?;
    push_part(text, person.name.as_str())?;
    push_part(text, person.email.as_str())?;
    push_star(text, is_user(user, person.id))?;
    push_line_end(text)
}

// Adds a TAB and a part.
fn push_part(text: &mut String, part: &str) -> Result<(), AllocError>
    ensures { Adds result text.old text.new (codes "\t" ++ part.now) }
{
    text.push_str("\t")?;
    text.push_str(part)
}

// Adds the part of the user's line that others have not.
fn push_star(text: &mut String, is_user: bool) -> Result<(), AllocError>
    ensures { Adds result text.old text.new (star is_user) }
{
    if is_user {
        text.push_str("\t*")?;
    }
    Ok(())
}
