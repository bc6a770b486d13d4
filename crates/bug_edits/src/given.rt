//! The arguments of edits, each read into its type.
ghost use Rattle.std.specs.Prelude.{◌≡◌, ◌∷◌, IfOk, OnErr, IsSome, map};
ghost use Rattle.bug_edits.specs.Given.{given_by, titles_from, two_given};
ghost use Rattle.bug_edits.specs.declared.given.Form.TheVariants as form;

use gb_text::{List, Memory, Message, Title};
use std::alloc::Global;

/// The types of the arguments that an edit takes after the one that finds its bug.
#[derive(Clone, Copy, Debug, PartialEq, Eq)]
pub enum Form {
    Nothing,
    Title,
    Message,
    TitleAndMessage,
    /// One title or more.
    Titles,
}

/// Arguments of an edit.
#[derive(Drop)]
pub enum Given {
    Nothing,
    Title(Title),
    Message(Message),
    TitleAndMessage(Title, Message),
    Titles(List<Title>),
}

// Arguments; or the place of the first that breaks its rule; or none, where they are too few or too
// many.
type Reading = Result<Option<Result<Given, u64>>, Memory>;

/// Arguments of these types, of which the first is the second of a command.
pub(crate) fn read_given(alloc: Global, form: Form, arguments: &[&str]) -> Reading
    ensures read { IfOk result (λ read. read ≡ given_by form (map (λ s. s.now) arguments.now)) }
    ensures memory { OnErr result (IsSome (given_by form (map (λ s. s.now) arguments.now))) }
{
    match form {
        Form::Nothing => Ok(nothing(arguments)),
        Form::Title => title(alloc, arguments),
        Form::Message => message(alloc, arguments),
        Form::TitleAndMessage => title_and_message(alloc, arguments),
        Form::Titles => titles(alloc, arguments),
    }
}

// No argument.
fn nothing(arguments: &[&str]) -> Option<Result<Given, u64>>
    ensures { result ≡ given_by form.Nothing (map (λ s. s.now) arguments.now) }
{
    match arguments {
        [] => Some(Ok(Given::Nothing)),
        _ => None,
    }
}

// A title.
fn title(alloc: Global, arguments: &[&str]) -> Reading
    ensures read { IfOk result (λ read. read
        ≡ given_by form.Title (map (λ s. s.now) arguments.now)) }
    ensures memory { OnErr result (IsSome (given_by form.Title (map (λ s. s.now) arguments.now))) }
{
    let [title] = arguments else {
        return Ok(None);
    };
    match Title::read(alloc, title)? {
        Some(title) => Ok(Some(Ok(Given::Title(title)))),
        None => Ok(Some(Err(2))),
    }
}

// A message.
fn message(alloc: Global, arguments: &[&str]) -> Reading
    ensures read { IfOk result (λ read. read
        ≡ given_by form.Message (map (λ s. s.now) arguments.now)) }
    ensures memory { OnErr result
        (IsSome (given_by form.Message (map (λ s. s.now) arguments.now))) }
{
    let [message] = arguments else {
        return Ok(None);
    };
    match Message::read(alloc, message)? {
        Some(message) => Ok(Some(Ok(Given::Message(message)))),
        None => Ok(Some(Err(2))),
    }
}

// A title and a message.
fn title_and_message(alloc: Global, arguments: &[&str]) -> Reading
    ensures read { IfOk result (λ read. read
        ≡ given_by form.TitleAndMessage (map (λ s. s.now) arguments.now)) }
    ensures memory { OnErr result
        (IsSome (given_by form.TitleAndMessage (map (λ s. s.now) arguments.now))) }
{
    let [title, message] = arguments else {
        return Ok(None);
    };
    Ok(Some(two(alloc, title, message)?))
}

// A title and a message, or the place of the first of them that is not one.
fn two(alloc: Global, title: &str, message: &str) -> Result<Result<Given, u64>, Memory>
    ensures { IfOk result (λ read. read ≡ two_given title.now message.now) }
{
    let title = Title::read(alloc, title)?;
    let message = Message::read(alloc, message)?;
    Ok(match (title, message) {
        (Some(title), Some(message)) => Ok(Given::TitleAndMessage(title, message)),
        (None, _) => Err(2),
        (_, None) => Err(3),
    })
}

// One title or more.
fn titles(alloc: Global, arguments: &[&str]) -> Reading
    ensures read { IfOk result (λ read. read
        ≡ given_by form.Titles (map (λ s. s.now) arguments.now)) }
    ensures memory { OnErr result (IsSome (given_by form.Titles (map (λ s. s.now) arguments.now))) }
{
    let [first, others @ ..] = arguments else {
        return Ok(None);
    };
    match titles_from(alloc, first, others)? {
        Ok(titles) => Ok(Some(Ok(Given::Titles(titles)))),
        Err(place) => Ok(Some(Err(place))),
    }
}

// Titles, of which the first is the second argument; or the place of the first that is none.
fn titles_from(
    alloc: Global,
    first: &str,
    words: &[&str],
) -> Result<Result<List<Title>, u64>, Memory>
    ensures { IfOk result (λ read. read
        ≡ titles_from 2 (first.now ∷ map (λ s. s.now) words.now)) }
{
    let mut titles = Vec::new(alloc);
    let Some(title) = Title::read(alloc, first)? else {
        return Ok(Err(2));
    };
    titles.push(title)?;
    for (index, word) in words.iter().enumerate() {
        let Some(title) = Title::read(alloc, word)? else {
            return Ok(Err(index as u64 + 3));
        };
        titles.push(title)?;
    }
    Ok(Ok(List::from_vec(titles)))
}
