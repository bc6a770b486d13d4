//! The arguments of an event's command.
ghost use Rattle.std.specs.Prelude.{◌≡◌, IfOk, map, string_bytes};
ghost use Rattle.std.specs.Option.{option_map};
ghost use Rattle.hex.specs.Hex.{encode_lower};
ghost use Rattle.world_events.specs.Words.{alone, arguments_of, of_comment, of_bug, picked, verb_of, words_from, words_of, texts_of};

use crate::act::Act;
use crate::event::Event;
use crate::texts::{folder_word, label_text, mail_text, message_text, title_text, user_text};
use combined_id::combine;
use gb_text::{Id, Memory, push_id};
use std::alloc::Global;

// What a command takes after its name.
#[derive(Drop)]
enum Taken {
    Nothing,
    One(String),
    Two(String, String),
}

/// The arguments of an event, where its folder has these bugs, in order of their ids. None where it
/// needs a bug and there is none.
pub fn event_words(alloc: Global, event: &Event, bugs: &[Id]) -> Result<Option<Vec<String>>, Memory>
    ensures { IfOk result (λ words. option_map (λ all. map string_bytes all.items) words
        ≡ words_of event.entry.now bugs.now) }
{
    match arguments(alloc, event, bugs)? {
        Some(arguments) => Ok(Some(line(alloc, event, arguments)?)),
        None => Ok(None),
    }
}

// The folder, the command's name and what it takes.
fn line(alloc: Global, event: &Event, arguments: Taken) -> Result<Vec<String>, Memory>
    ensures { IfOk result (λ words. map string_bytes words.items
        ≡ words_from event.entry.now (texts_of arguments)) }
{
    let folder = folder_word(alloc, event.folder)?;
    let verb = String::from_str(alloc, verb_of(event.act))?;
    Ok(match arguments {
        Taken::Nothing => vec![in alloc; folder, verb]?,
        Taken::One(one) => vec![in alloc; folder, verb, one]?,
        Taken::Two(one, two) => vec![in alloc; folder, verb, one, two]?,
    })
}

// The name of a command.
fn verb_of(act: Act) -> &'static str
    ensures { result.now ≡ verb_of act }
{
    match act {
        Act::UserNew => "user-new",
        Act::NewBug => "new",
        Act::Comment { .. } => "comment",
        Act::Title { .. } => "title",
        Act::Edit { .. } => "edit",
        Act::Close { .. } => "close",
        Act::Reopen { .. } => "open",
        Act::LabelAdd { .. } => "label-add",
        Act::LabelRm { .. } => "label-rm",
        Act::Noop { .. } => "noop",
        Act::Pull { .. } => "pull",
        Act::Push { .. } => "push",
        Act::PackRefs => "pack-refs",
    }
}

// What the command takes after its name.
fn arguments(alloc: Global, event: &Event, bugs: &[Id]) -> Result<Option<Taken>, Memory>
    ensures { IfOk result (λ arguments. option_map texts_of arguments
        ≡ arguments_of event.entry.now bugs.now) }
{
    let number = event.number;
    match event.act {
        Act::UserNew => Ok(Some(Taken::Two(
            user_text(alloc, event.folder)?,
            mail_text(alloc, event.folder)?,
        ))),
        Act::NewBug => Ok(Some(Taken::Two(
            title_text(alloc, number)?,
            message_text(alloc, number)?,
        ))),
        Act::Comment { pick } => of_bug(alloc, picked(bugs, pick), message_text(alloc, number)?),
        Act::Title { pick } => of_bug(alloc, picked(bugs, pick), title_text(alloc, number)?),
        Act::Edit { pick } => of_comment(alloc, picked(bugs, pick), message_text(alloc, number)?),
        Act::Close { pick } | Act::Reopen { pick } | Act::Noop { pick } => {
            alone(alloc, picked(bugs, pick))
        }
        Act::LabelAdd { pick, label } | Act::LabelRm { pick, label } => {
            of_bug(alloc, picked(bugs, pick), label_text(alloc, label)?)
        }
        Act::Pull { peer } => Ok(Some(Taken::Two(
            folder_word(alloc, peer)?,
            folder_word(alloc, peer)?,
        ))),
        Act::Push { peer } => Ok(Some(Taken::One(folder_word(alloc, peer)?))),
        Act::PackRefs => Ok(Some(Taken::Nothing)),
    }
}

// The bug that a number picks, if there is any.
fn picked(bugs: &[Id], pick: u64) -> Option<Id>
    ensures { result ≡ picked bugs.now pick }
{
    if bugs.is_empty() {
        return None;
    }
    Some(bugs[(pick % bugs.len() as u64) as usize])
}

// The digits of an id.
fn digits(alloc: Global, id: &Id) -> Result<String, Memory>
    ensures { IfOk result (λ text. string_bytes text ≡ encode_lower id.now.bytes) }
{
    let mut digits = String::with_capacity(alloc, 64)?;
    push_id(&mut digits, id)?;
    Ok(digits)
}

// A bug alone.
fn alone(alloc: Global, bug: Option<Id>) -> Result<Option<Taken>, Memory>
    ensures { IfOk result (λ arguments. option_map texts_of arguments ≡ option_map alone bug) }
{
    match bug {
        Some(bug) => Ok(Some(Taken::One(digits(alloc, &bug)?))),
        None => Ok(None),
    }
}

// A bug, and a text.
fn of_bug(alloc: Global, bug: Option<Id>, text: String) -> Result<Option<Taken>, Memory>
    ensures { IfOk result (λ arguments. option_map texts_of arguments
        ≡ option_map (of_bug (string_bytes text)) bug) }
{
    match bug {
        Some(bug) => Ok(Some(Taken::Two(digits(alloc, &bug)?, text))),
        None => Ok(None),
    }
}

// The first comment of a bug, which has the bug's own id, and a text.
fn of_comment(alloc: Global, bug: Option<Id>, text: String) -> Result<Option<Taken>, Memory>
    ensures { IfOk result (λ arguments. option_map texts_of arguments
        ≡ option_map (of_comment (string_bytes text)) bug) }
{
    match bug {
        Some(bug) => {
            let comment = combine(&bug, &bug);
            Ok(Some(Taken::Two(digits(alloc, &comment)?, text)))
        }
        None => Ok(None),
    }
}
