//! The text of the lines of an exchange.
ghost use Rattle.std.specs.Prelude.{◌≡◌, ◌++◌, ◌∷◌, [], IfOk, OnOk, codes, string_bytes};
ghost use Rattle.hex.specs.Hex.{encode_lower};
ghost use Rattle.sync_steps.specs.declared.line.CopyCause.TheVariants.{TooLarge};
ghost use Rattle.sync_steps.specs.Lines.{cause_text, line_text, lines_text_of, outcome_text, verb_text, word_text};

use crate::line::{CopyCause, EntityWord, Exchange, Line, Outcome};
use gb_text::{Memory, Name, Text, push_id, push_line_end, push_name, push_number};
use std::alloc::{AllocError, Global};

/// The lines, each ended by a line feed: what was done, the kind of the entity, its id, and what came of
/// it. Ids and names have all their digits.
pub fn lines_text(alloc: Global, lines: &[Line]) -> Result<Text, Memory>
    ensures { IfOk result (λ text. text ≡ lines_text_of lines.now) }
{
    let mut text = String::new(alloc);
    for line in lines {
        push_line(&mut text, line)?;
    }
    Ok(Text::from_string(text))
}

// Adds a line.
fn push_line(text: &mut String, line: &Line) -> Result<(), AllocError>
    ensures { OnOk result (string_bytes text.new ≡ string_bytes text.old ++ line_text line.now) }
{
    text.push_str(verb(line.verb))?;
    text.push_str(" ")?;
    text.push_str(word(line.word))?;
    text.push_str(" ")?;
    push_id(text, &line.id)?;
    text.push_str(" ")?;
    push_outcome(text, &line.outcome)?;
    push_line_end(text)
}

// What is done, as a word.
fn verb(verb: Exchange) -> &'static str
    ensures { result.now ≡ verb_text verb }
{
    match verb {
        Exchange::Fetch => "fetch",
        Exchange::Push => "push",
    }
}

// A kind of entities, as a word.
fn word(word: EntityWord) -> &'static str
    ensures { result.now ≡ word_text word }
{
    match word {
        EntityWord::Identity => "identity",
        EntityWord::Bug => "bug",
    }
}

// Adds what came of an entity.
fn push_outcome(text: &mut String, outcome: &Outcome) -> Result<(), AllocError>
    ensures { OnOk result (string_bytes text.new
        ≡ string_bytes text.old ++ outcome_text outcome.now) }
{
    match outcome {
        Outcome::Fetched => text.push_str("fetched"),
        Outcome::Pushed => text.push_str("pushed"),
        Outcome::Same => text.push_str("same"),
        Outcome::BadRef => text.push_str("damaged ref"),
        Outcome::DamagedCopy(why) => push_cause(text, why),
        Outcome::NotForward(name) => push_named(text, "not-forward ", name),
        Outcome::Held => text.push_str("held"),
    }
}

// Adds what kept a head from being copied.
fn push_cause(text: &mut String, why: &CopyCause) -> Result<(), AllocError>
    ensures { OnOk result (string_bytes text.new
        ≡ string_bytes text.old ++ (codes "damaged " ++ cause_text why.now)) }
{
    text.push_str("damaged ")?;
    match why {
        CopyCause::Missing(name) => push_named(text, "missing ", name),
        CopyCause::Damaged(name) => push_named(text, "bytes ", name),
        CopyCause::WrongKind(name) => push_named(text, "kind ", name),
        CopyCause::TooLarge(count) => push_large(text, *count),
        CopyCause::Ring(name) => push_named(text, "ring ", name),
        CopyCause::Taken(name) => push_named(text, "taken ", name),
    }
}

// Adds a limit plus one, behind its word.
fn push_large(text: &mut String, count: u64) -> Result<(), AllocError>
    ensures { OnOk result (string_bytes text.new
        ≡ string_bytes text.old ++ cause_text (TooLarge count)) }
{
    text.push_str("large ")?;
    push_number(text, count)
}

// Adds the digits of a name, behind a word.
fn push_named(text: &mut String, word: &str, name: &Name) -> Result<(), AllocError>
    ensures { OnOk result (string_bytes text.new
        ≡ string_bytes text.old ++ (word.now ++ encode_lower name.now.bytes)) }
{
    text.push_str(word)?;
    push_name(text, name)
}
