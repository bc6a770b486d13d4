//! The lines that tell refusals.
ghost use Rattle.std.specs.Prelude.{◌≡◌, ◌++◌, IfOk, codes, decimal};
ghost use Rattle.hex.specs.Hex.{encode_lower};
ghost use Rattle.person_names.specs.Adding.{Adds};
ghost use Rattle.bug_run.specs.Refusals.{number_of, query_words, refusal_line, refusal_words, words_of};

use crate::status::Refused;
use gb_text::{Id, Memory, Name, Text, push_id, push_name, push_number};
use repo_steps::Refusal;
use std::alloc::{AllocError, Global};
use words::{BadQuery, BadWord};

/// The line of a refusal: `refused`, its number, and what it says.
pub fn refusal_line(alloc: Global, refused: &Refused) -> Result<Text, Memory>
    ensures { IfOk result (λ line. line ≡ refusal_line refused.now) }
{
    let mut line = String::new(alloc);
    line.push_str("refused ")?;
    push_number(&mut line, number(refused))?;
    line.push_str(" ")?;
    push_words(&mut line, refused)?;
    line.push_str("\n")?;
    Ok(Text::from_string(line))
}

// The number of a refusal.
fn number(refused: &Refused) -> u64
    ensures { result ≡ number_of refused.now }
{
    match refused {
        Refused::ByWords(BadWord::BadText(_)) => 4,
        Refused::ByWords(BadWord::SameFolder) => 11,
        Refused::ByWords(BadWord::BadRemoteName) => 12,
        Refused::ByCommand(refusal) => refusal.number(),
        Refused::SomeLines(_) => 15,
        Refused::ByWords(BadWord::BadQuery(_)) => 16,
        Refused::ByWords(BadWord::BadFolder) => 17,
    }
}

// Adds what a refusal says behind its number.
fn push_words(line: &mut String, refused: &Refused) -> Result<(), AllocError>
    ensures { Adds result line.old line.new (words_of refused.now) }
{
    match refused {
        Refused::ByWords(BadWord::BadFolder) => line.push_str("bad folder"),
        Refused::ByWords(BadWord::BadText(place)) => push_counted(line, "bad text ", *place),
        Refused::ByWords(BadWord::SameFolder) => line.push_str("same folder"),
        Refused::ByWords(BadWord::BadRemoteName) => line.push_str("bad remote name"),
        Refused::ByWords(BadWord::BadQuery(why)) => {
            line.push_str("bad query ")?;
            push_query(line, *why)
        }
        Refused::ByCommand(refusal) => push_refusal(line, refusal),
        Refused::SomeLines(count) => push_counted(line, "some refused ", *count),
    }
}

// Adds the kind of a query that is refused, and a place.
fn push_query(line: &mut String, why: BadQuery) -> Result<(), AllocError>
    ensures { Adds result line.old line.new (query_words why) }
{
    match why {
        BadQuery::UnknownField(place) => push_counted(line, "1 ", place),
        BadQuery::BadValue(place) => push_counted(line, "2 ", place),
        BadQuery::OpenQuote(place) => push_counted(line, "3 ", place),
    }
}

// Adds what the refusal of a command says.
fn push_refusal(line: &mut String, refusal: &Refusal) -> Result<(), AllocError>
    ensures { Adds result line.old line.new (refusal_words refusal.now) }
{
    match refusal {
        Refusal::NoUser => line.push_str("no user"),
        Refusal::NotFound => line.push_str("not found"),
        Refusal::Ambiguous(least, next) => push_with_ids(line, "ambiguous ", least, next),
        Refusal::NoLabelChange => line.push_str("no label change"),
        Refusal::SameStatus => line.push_str("same status"),
        Refusal::ClockFull(name) => push_with_name(line, "clock full ", name),
        Refusal::RepeatedOperation(id) => push_with_id(line, "repeated operation ", id),
        Refusal::EntityExists(id) => push_with_id(line, "entity exists ", id),
        Refusal::NameTaken(name) => push_with_name(line, "name taken ", name),
        Refusal::TooLarge(count) => push_counted(line, "too large ", *count),
        Refusal::Damaged(path) => {
            line.push_str("damaged ")?;
            line.push_str(path.as_str())
        }
    }
}

// Adds words and a number.
fn push_counted(line: &mut String, words: &str, number: u64) -> Result<(), AllocError>
    ensures { Adds result line.old line.new (words.now ++ decimal number) }
{
    line.push_str(words)?;
    push_number(line, number)
}

// Adds words and an id.
fn push_with_id(line: &mut String, words: &str, id: &Id) -> Result<(), AllocError>
    ensures { Adds result line.old line.new (words.now ++ encode_lower id.now.bytes) }
{
    line.push_str(words)?;
    push_id(line, id)
}

// Adds words and two ids.
fn push_with_ids(line: &mut String, words: &str, first: &Id, second: &Id) -> Result<(), AllocError>
    ensures { Adds result line.old line.new
        (words.now ++ encode_lower first.now.bytes ++ codes " " ++ encode_lower second.now.bytes) }
{
    push_with_id(line, words, first)?;
    push_with_id(line, " ", second)
}

// Adds words and a name.
fn push_with_name(line: &mut String, words: &str, name: &Name) -> Result<(), AllocError>
    ensures { Adds result line.old line.new (words.now ++ encode_lower name.now.bytes) }
{
    line.push_str(words)?;
    push_name(line, name)
}
