//! The edits of a bug, and the operation that each adds by what the bug says.
ghost use Rattle.snapshot.specs.LastMention.{snapshot_of};
ghost use Rattle.bug_edits.specs.Answers.{OpAnswers};
ghost use Rattle.bug_edits.specs.declared.edit.BugEdit.TheVariants as kind;
ghost use Rattle.std.specs.Prelude.{◌≡◌};

use crate::labels::{named_off, named_on};
use crate::moment::Moment;
use crate::new_op::NewOp;
use crate::operation::{comment_op, labels_op, metadata_op, noop_op, status_op, title_op};
use bug_ops::{BugOp, BugStatus};
use gb_text::{List, Memory, Message, Title};
use snapshot::{id_of, status_of, title_of};
use std::alloc::Global;

/// What an edit adds to a bug: one operation.
#[derive(Drop)]
pub enum BugEdit {
    /// A comment with this message.
    Comment { message: Message },
    /// An operation that changes nothing of what the bug says.
    Noop,
    /// This title, in place of the one that it has.
    Title { title: Title },
    /// This status, which it does not have yet.
    Status { status: BugStatus },
    /// The labels of these that are off are put on.
    AddLabels { labels: List<Title> },
    /// The labels of these that are on are taken off.
    RemoveLabels { labels: List<Title> },
    /// This value under this key, where none is set yet.
    Metadata { key: Title, value: Message },
}

/// Why an edit adds nothing, by what the bug says.
#[derive(Clone, Copy, Debug, PartialEq, Eq)]
pub enum NoChange {
    /// The bug has the status already.
    SameStatus,
    /// Each label that was named is on already, or none of those to be taken off is on.
    NoLabelChange,
}

/// Why no operation was made.
#[derive(Clone, Copy, Debug, PartialEq, Eq)]
pub enum EditStop {
    Memory,
    NoChange(NoChange),
}

impl From<Memory> for EditStop {
    ghost use Rattle.bug_edits.specs.declared.edit.EditStop.TheVariants as stop;

    ghost from_gives = { λ _ e. e ≡ stop.Memory };

    fn from(_: Memory) -> Self {
        EditStop::Memory
    }
}

/// The operation that an edit adds to a bug with these operations. `NoChange` if and only if what the
/// bug says would not change by a status or by labels.
pub fn edit_op(
    alloc: Global,
    moment: &Moment,
    edit: &BugEdit,
    ops: &[BugOp],
) -> Result<NewOp, EditStop>
    ensures { OpAnswers moment.entry.now edit.now (snapshot_of ops.now) result }
{
    match edit {
        BugEdit::Comment { message } => Ok(comment_op(alloc, moment, message)?),
        BugEdit::Noop => Ok(noop_op(alloc, moment)?),
        BugEdit::Title { title } => Ok(title_op(alloc, moment, title, title_of(ops))?),
        BugEdit::Status { status } => with_status(alloc, moment, *status, ops),
        BugEdit::AddLabels { labels } => with_labels(alloc, moment, labels, ops),
        BugEdit::RemoveLabels { labels } => without_labels(alloc, moment, labels, ops),
        BugEdit::Metadata { key, value } => {
            Ok(metadata_op(alloc, moment, id_of(ops), key, value)?)
        }
    }
}

// This status, where the bug has another.
fn with_status(
    alloc: Global,
    moment: &Moment,
    status: BugStatus,
    ops: &[BugOp],
) -> Result<NewOp, EditStop>
    ensures { OpAnswers moment.entry.now (kind.Status status) (snapshot_of ops.now) result }
{
    if status_of(ops) == status {
        return Err(EditStop::NoChange(NoChange::SameStatus));
    }
    Ok(status_op(alloc, moment, status)?)
}

// The named labels that are off, which are put on.
fn with_labels(
    alloc: Global,
    moment: &Moment,
    labels: &List<Title>,
    ops: &[BugOp],
) -> Result<NewOp, EditStop>
    ensures { OpAnswers moment.entry.now (kind.AddLabels labels.now) (snapshot_of ops.now) result }
{
    let off = named_off(alloc, labels.as_slice(), ops)?;
    if off.as_slice().is_empty() {
        return Err(EditStop::NoChange(NoChange::NoLabelChange));
    }
    Ok(labels_op(alloc, moment, off, List::new(alloc))?)
}

// The named labels that are on, which are taken off.
fn without_labels(
    alloc: Global,
    moment: &Moment,
    labels: &List<Title>,
    ops: &[BugOp],
) -> Result<NewOp, EditStop>
    ensures { OpAnswers moment.entry.now (kind.RemoveLabels labels.now) (snapshot_of ops.now) result }
{
    let on = named_on(alloc, labels.as_slice(), ops)?;
    if on.as_slice().is_empty() {
        return Err(EditStop::NoChange(NoChange::NoLabelChange));
    }
    Ok(labels_op(alloc, moment, List::new(alloc), on)?)
}
