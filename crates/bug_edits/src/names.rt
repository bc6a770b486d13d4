//! The names of edits: a table of the arguments that each takes, and of what is made of them.
ghost use Rattle.std.specs.Prelude.{◌≡◌, IfOk, OnErr, IsSome, map};
ghost use Rattle.bug_edits.specs.EditTable.{edit_from, edit_of, form_of, name_of, name_read};

use crate::edit::BugEdit;
use crate::given::{Form, Given, read_given};
use bug_ops::BugStatus;
use gb_text::Memory;
use std::alloc::Global;

/// An edit of a bug by its name.
#[derive(Clone, Copy, Debug, PartialEq, Eq)]
pub enum EditName {
    Comment,
    Title,
    Close,
    Open,
    LabelAdd,
    LabelRm,
    Meta,
    Noop,
}

/// All edits, in the order in which people are told of them.
pub const EDITS: [EditName; 8] = [
    EditName::Comment,
    EditName::Title,
    EditName::Close,
    EditName::Open,
    EditName::LabelAdd,
    EditName::LabelRm,
    EditName::Meta,
    EditName::Noop,
];

impl EditName {
    /// The edit of this name, if there is one.
    pub fn read(name: &str) -> Option<EditName>
        ensures { result ≡ name_read name.now }
    {
        EDITS.iter().find(|edit| edit.name() == name).copied()
    }

    /// Its name.
    pub fn name(self) -> &'static str
        ensures { result.now ≡ name_of self }
    {
        match self {
            EditName::Comment => "comment",
            EditName::Title => "title",
            EditName::Close => "close",
            EditName::Open => "open",
            EditName::LabelAdd => "label-add",
            EditName::LabelRm => "label-rm",
            EditName::Meta => "meta",
            EditName::Noop => "noop",
        }
    }

    /// The arguments after the name, for people. Two dots say that the last may be given several
    /// times.
    pub fn takes(self) -> &'static str {
        match self {
            EditName::Comment => "ID MESSAGE",
            EditName::Title => "ID TITLE",
            EditName::Close | EditName::Open | EditName::Noop => "ID",
            EditName::LabelAdd | EditName::LabelRm => "ID LABEL..",
            EditName::Meta => "ID KEY VALUE",
        }
    }

    // The types of the arguments that follow the bug's.
    fn form(self) -> Form
        ensures { result ≡ form_of self }
    {
        match self {
            EditName::Comment => Form::Message,
            EditName::Title => Form::Title,
            EditName::Close | EditName::Open | EditName::Noop => Form::Nothing,
            EditName::LabelAdd | EditName::LabelRm => Form::Titles,
            EditName::Meta => Form::TitleAndMessage,
        }
    }

    // The edit with these arguments, if they are of its types.
    fn with(self, given: Given) -> Option<BugEdit>
        ensures { result ≡ edit_of self given }
    {
        let edit = match (self, given) {
            (EditName::Comment, Given::Message(message)) => BugEdit::Comment { message },
            (EditName::Title, Given::Title(title)) => BugEdit::Title { title },
            (EditName::Close, Given::Nothing) => BugEdit::Status {
                status: BugStatus::Closed,
            },
            (EditName::Open, Given::Nothing) => BugEdit::Status {
                status: BugStatus::Opened,
            },
            (EditName::LabelAdd, Given::Titles(labels)) => BugEdit::AddLabels { labels },
            (EditName::LabelRm, Given::Titles(labels)) => BugEdit::RemoveLabels { labels },
            (EditName::Meta, Given::TitleAndMessage(key, value)) => {
                BugEdit::Metadata { key, value }
            }
            (EditName::Noop, Given::Nothing) => BugEdit::Noop,
            _ => return None,
        };
        Some(edit)
    }
}

/// The edit of this name with these arguments, which follow the bug's; or the place of the first
/// that breaks its rule, where the bug's is at 1. None where they are not as many as the edit takes.
#[tactic(auto, using(crate::proofs::ReadLemmas::some_if))]
pub fn read_edit(
    alloc: Global,
    name: EditName,
    arguments: &[&str],
) -> Result<Option<Result<BugEdit, u64>>, Memory>
    ensures read { IfOk result (λ read. read ≡ edit_from name (map (λ s. s.now) arguments.now)) }
    ensures memory { OnErr result (IsSome (edit_from name (map (λ s. s.now) arguments.now))) }
{
    match read_given(alloc, name.form(), arguments)? {
        Some(Ok(given)) => match name.with(given) {
            Some(edit) => Ok(Some(Ok(edit))),
            None => Ok(None),
        },
        Some(Err(place)) => Ok(Some(Err(place))),
        None => Ok(None),
    }
}
