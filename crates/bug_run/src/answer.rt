//! What a command answers where it is done.
ghost use Rattle.std.specs.Prelude.{◌≡◌, IfOk};
ghost use Rattle.gb_store.specs.Faults.{KeepsFaults};
ghost use Rattle.bug_run.specs.Exchanges.{answer_of, answer_of_merge, answer_of_pull};
ghost use Rattle.bug_run.specs.Printed.{Printed};
ghost use Rattle.bug_run.specs.Run.{packed_line, status_for};
ghost use Rattle.repo_state.specs.Users.{id_line};

use crate::print::print;
use crate::status::{Refused, Status};
use gb_store::Sink;
use gb_text::{Id, Memory, Text, push_line_end, push_number};
use merge_steps::{MergeLine, Pulled};
use std::alloc::Global;
use std::marker::Model;
use sync_steps::{Line, count_refused, lines_text};

/// What a command answers where it is done: the text that it prints, and how many of its lines are
/// refusals.
#[derive(Debug, Drop)]
pub struct Answer {
    source: Source,
    refused: u64,
}

impl Model for Answer {
    ghost use Rattle.bug_run.specs.Answer.{Answer as Answered, text_from};

    ghost Value = { Answered };

    ghost view = { λ a. record { text = text_from a.source; refused = a.refused } };
}

// Where a text comes from: it was made, or is the line of an id, which takes no memory.
#[derive(Debug, Drop)]
enum Source {
    Text(Text),
    Line(Id),
}

impl Answer {
    /// A text, none of whose lines is a refusal.
    pub fn text(text: Text) -> Answer
        ensures { result ≡ record { text = text; refused = 0 } }
    {
        Answer {
            source: Source::Text(text),
            refused: 0,
        }
    }

    /// The lines of an exchange, of which some may be refusals.
    pub fn lines(alloc: Global, lines: &[Line]) -> Result<Answer, Memory>
        ensures { IfOk result (λ answer. answer ≡ answer_of lines.now) }
    {
        Ok(Answer {
            source: Source::Text(lines_text(alloc, lines)?),
            refused: count_refused(lines),
        })
    }

    /// The lines of a merge, of which some may be refusals.
    pub fn merged(alloc: Global, lines: &[MergeLine]) -> Result<Answer, Memory>
        ensures { IfOk result (λ answer. answer ≡ answer_of_merge lines.now) }
    {
        Ok(Answer {
            source: Source::Text(merge_steps::lines_text(alloc, lines)?),
            refused: merge_steps::count_refused(lines),
        })
    }

    /// The lines of a pull: those of its fetch, and then those of its merge.
    pub fn pulled(alloc: Global, pulled: &Pulled) -> Result<Answer, Memory>
        ensures { IfOk result (λ answer. answer ≡ answer_of_pull pulled.now) }
    {
        let fetched = pulled.fetched.as_slice();
        let merged = pulled.merged.as_slice();
        let refused = count_refused(fetched)
            .checked_add(merge_steps::count_refused(merged))
            .ok_or(Memory)?;
        let mut text = String::new(alloc);
        text.push_str(lines_text(alloc, fetched)?.as_str())?;
        text.push_str(merge_steps::lines_text(alloc, merged)?.as_str())?;
        Ok(Answer {
            source: Source::Text(Text::from_string(text)),
            refused,
        })
    }

    /// The number of refs that were packed.
    pub fn packed(alloc: Global, count: u64) -> Result<Answer, Memory>
        ensures { IfOk result (λ answer. answer ≡ record { text = packed_line count; refused = 0 }) }
    {
        let mut line = String::from_str(alloc, "packed ")?;
        push_number(&mut line, count)?;
        push_line_end(&mut line)?;
        Ok(Answer::text(Text::from_string(line)))
    }

    /// The line of an id.
    pub fn line(id: Id) -> Answer
        ensures { result ≡ record { text = id_line id; refused = 0 } }
    {
        Answer {
            source: Source::Line(id),
            refused: 0,
        }
    }

    /// Prints the text, and answers the status of the command.
    pub fn print<K: Sink>(self, alloc: Global, out: &mut K) -> Status
        ensures answers { Printed K.tells K.takes_memory self.text (status_for self.refused)
            (K.written out.old) (K.written out.new) result }
        ensures disk { result ≡ Status.DiskFault → ⊥ }
        ensures caused { KeepsFaults K.never_fails K.faults (result ≡ Status.OutFault)
            out.old out.new }
    {
        let status = status_for(self.refused);
        match self.source {
            Source::Text(text) => print(alloc, out, text.as_str().as_bytes(), status),
            Source::Line(id) => print(alloc, out, &id_line(&id), status),
        }
    }
}

// The line of an id: its 64 digits and a line feed.
fn id_line(id: &Id) -> [u8; 65]
    ensures { result ≡ id_line id.now }
{
    let mut line = [b'\n'; 65];
    line[..64].copy_from_slice(&id.text());
    line
}

// The status of a command that was done, by the number of its lines that are refusals.
fn status_for(refused: u64) -> Status
    ensures { result ≡ status_for refused }
{
    if refused == 0 {
        Status::Done
    } else {
        Status::Refused(Refused::SomeLines(refused))
    }
}
