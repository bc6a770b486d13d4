//! How a query is written.
ghost use Rattle.std.specs.Prelude.{◌≡◌, ◌++◌, IfOk, OnOk, string_bytes};
ghost use Rattle.std.specs.List.{flat_map};
ghost use Rattle.query.specs.Printing.{first_words, in_quotes, last_words, no_word, pair_word, person_words, printed, sort_word, status_word, text_word};

use crate::{Query, SortKey};
use bug_ops::BugStatus;
use gb_text::{Memory, Text};
use op_kind::Pair;
use std::alloc::{AllocError, Global};

impl Query {
    /// The text of a query: each word, separated by one space, the fields in one order and within a
    /// field the words in theirs, and the order at the end, with its direction.
    pub fn print(&self, alloc: Global) -> Result<Text, Memory>
        ensures { IfOk result (λ text. text ≡ printed self.now) }
    {
        let mut text = String::new(alloc);
        push_first(&mut text, self)?;
        push_persons(&mut text, self)?;
        push_last(&mut text, self)?;
        push_sort(&mut text, self.key, self.down)?;
        Ok(Text::from_string(text))
    }
}

// Adds the words of statuses and of authors.
fn push_first(text: &mut String, query: &Query) -> Result<(), AllocError>
    ensures { OnOk result
        (string_bytes text.new ≡ string_bytes text.old ++ first_words query.now) }
{
    push_statuses(text, query.statuses.as_slice())?;
    push_texts(text, "author:", query.authors.as_slice())
}

// Adds the words of participants and of actors.
fn push_persons(text: &mut String, query: &Query) -> Result<(), AllocError>
    ensures { OnOk result
        (string_bytes text.new ≡ string_bytes text.old ++ person_words query.now) }
{
    push_texts(text, "participant:", query.participants.as_slice())?;
    push_texts(text, "actor:", query.actors.as_slice())
}

// Adds the words of metadata, labels and titles.
fn push_last(text: &mut String, query: &Query) -> Result<(), AllocError>
    ensures { OnOk result
        (string_bytes text.new ≡ string_bytes text.old ++ last_words query.now) }
{
    push_pairs(text, query.metadata.as_slice())?;
    push_texts(text, "label:", query.labels.as_slice())?;
    push_texts(text, "title:", query.titles.as_slice())?;
    push_no(text, query.no_label)
}

// Adds the words of some statuses.
fn push_statuses(text: &mut String, statuses: &[BugStatus]) -> Result<(), AllocError>
    ensures { OnOk result (string_bytes text.new
        ≡ string_bytes text.old ++ flat_map status_word statuses.now) }
{
    for status in statuses {
        push_status(text, *status)?;
    }
    Ok(())
}

// Adds the word of a status.
fn push_status(text: &mut String, status: BugStatus) -> Result<(), AllocError>
    ensures { OnOk result (string_bytes text.new ≡ string_bytes text.old ++ status_word status) }
{
    match status {
        BugStatus::Opened => text.push_str("status:open "),
        BugStatus::Closed => text.push_str("status:closed "),
    }
}

// Adds the words of some texts of a field.
fn push_texts(text: &mut String, field: &str, texts: &[Text]) -> Result<(), AllocError>
    ensures { OnOk result (string_bytes text.new
        ≡ string_bytes text.old ++ flat_map (text_word field.now) texts.now) }
{
    for told in texts {
        push_text(text, field, told.as_str())?;
    }
    Ok(())
}

// Adds the word of a text of a field.
fn push_text(text: &mut String, field: &str, told: &str) -> Result<(), AllocError>
    ensures { OnOk result
        (string_bytes text.new ≡ string_bytes text.old ++ text_word field.now told.now) }
{
    text.push_str(field)?;
    push_quoted(text, told)?;
    text.push_str(" ")
}

// Adds a text in quotes.
fn push_quoted(text: &mut String, told: &str) -> Result<(), AllocError>
    ensures { OnOk result
        (string_bytes text.new ≡ string_bytes text.old ++ in_quotes told.now) }
{
    text.push_str("\"")?;
    text.push_str(told)?;
    text.push_str("\"")
}

// Adds the words of some pairs of metadata.
fn push_pairs(text: &mut String, pairs: &[Pair]) -> Result<(), AllocError>
    ensures { OnOk result (string_bytes text.new
        ≡ string_bytes text.old ++ flat_map pair_word pairs.now) }
{
    for pair in pairs {
        push_pair(text, pair)?;
    }
    Ok(())
}

// Adds the word of a pair of metadata.
fn push_pair(text: &mut String, pair: &Pair) -> Result<(), AllocError>
    ensures { OnOk result (string_bytes text.new ≡ string_bytes text.old ++ pair_word pair.now) }
{
    text.push_str("metadata:")?;
    push_quoted(text, pair.key.as_str())?;
    text.push_str(":")?;
    push_quoted(text, pair.value.as_str())?;
    text.push_str(" ")
}

// Adds the word that no label is on, if it is said.
fn push_no(text: &mut String, no_label: bool) -> Result<(), AllocError>
    ensures { OnOk result (string_bytes text.new ≡ string_bytes text.old ++ no_word no_label) }
{
    if no_label {
        return text.push_str("no:label ");
    }
    Ok(())
}

// Adds the word of an order.
fn push_sort(text: &mut String, key: SortKey, down: bool) -> Result<(), AllocError>
    ensures { OnOk result (string_bytes text.new ≡ string_bytes text.old ++ sort_word key down) }
{
    text.push_str(match (key, down) {
        (SortKey::ById, true) => "sort:id-desc",
        (SortKey::ById, false) => "sort:id-asc",
        (SortKey::ByCreation, true) => "sort:creation-desc",
        (SortKey::ByCreation, false) => "sort:creation-asc",
        (SortKey::ByEdit, true) => "sort:edit-desc",
        (SortKey::ByEdit, false) => "sort:edit-asc",
    })
}
