//! The operations that commands make.
ghost use Rattle.std.specs.Prelude.{◌≡◌, IfOk};
ghost use Rattle.op_kind.specs.Bounds.{IsWithinBounds};
ghost use Rattle.bug_ops.specs.BugForms.{AreLabels};
ghost use Rattle.bug_edits.specs.NewOps.{comment_op, create_op, edited_comment_op, labels_op, metadata_op};
ghost use Rattle.bug_edits.specs.NewOps.{new_common, noop_op, nowhere, status_op, title_op};

use crate::moment::Moment;
use crate::new_op::NewOp;
use bug_ops::{BugOp, BugStatus};
use gb_text::{Id, List, Memory, Message, Text, Title};
use op_kind::{Common, Nonce, Pair, Place};
use std::alloc::Global;

/// The operation that begins a bug with a title and a message.
#[tactic(auto, using(crate::proofs::RuleLemmas::create_rules))]
pub fn create_op(
    alloc: Global,
    moment: &Moment,
    title: &Title,
    message: &Message,
) -> Result<NewOp, Memory>
    ensures { IfOk result (λ new. new.op ≡ create_op moment.entry.now title.now message.now) }
{
    let op = BugOp::Create {
        common: new_common(alloc, moment, 1)?,
        title: Text::from_str(alloc, title.as_str())?,
        message: Text::from_str(alloc, message.as_str())?,
        files: List::new(alloc),
    };
    Ok(NewOp { op })
}

/// A comment.
#[tactic(auto, using(crate::proofs::RowLemmas::comment_rules))]
pub(crate) fn comment_op(alloc: Global, moment: &Moment, message: &Message) -> Result<NewOp, Memory>
    ensures { IfOk result (λ new. new.op ≡ comment_op moment.entry.now message.now) }
{
    let op = BugOp::AddComment {
        common: new_common(alloc, moment, 3)?,
        message: Text::from_str(alloc, message.as_str())?,
        files: List::new(alloc),
    };
    Ok(NewOp { op })
}

/// Another message of the comment that the operation with this id made.
pub fn edited_comment_op(
    alloc: Global,
    moment: &Moment,
    comment: Id,
    message: &Message,
) -> Result<NewOp, Memory>
    ensures { IfOk result (λ new. new.op
        ≡ edited_comment_op moment.entry.now comment message.now) }
{
    // That an id is 32 bytes is known of one that is printed.
    let _digits = comment.text();
    let op = BugOp::EditComment {
        common: new_common(alloc, moment, 6)?,
        target: comment,
        message: Text::from_str(alloc, message.as_str())?,
        files: List::new(alloc),
    };
    Ok(NewOp { op })
}

/// An operation that changes nothing.
#[tactic(auto, using(crate::proofs::RowLemmas::noop_rules))]
pub(crate) fn noop_op(alloc: Global, moment: &Moment) -> Result<NewOp, Memory>
    ensures { IfOk result (λ new. new.op ≡ noop_op moment.entry.now) }
{
    let op = BugOp::NoOp {
        common: new_common(alloc, moment, 7)?,
    };
    Ok(NewOp { op })
}

/// Another title, and the one before.
#[tactic(auto, using(crate::proofs::RowLemmas::title_rules))]
pub(crate) fn title_op(
    alloc: Global,
    moment: &Moment,
    title: &Title,
    was: &str,
) -> Result<NewOp, Memory>
    ensures { IfOk result (λ new. new.op ≡ title_op moment.entry.now title.now was.now) }
{
    let op = BugOp::SetTitle {
        common: new_common(alloc, moment, 2)?,
        title: Text::from_str(alloc, title.as_str())?,
        was: Text::from_str(alloc, was)?,
    };
    Ok(NewOp { op })
}

/// Another status.
#[tactic(auto, using(crate::proofs::RowLemmas::status_rules))]
pub(crate) fn status_op(alloc: Global, moment: &Moment, status: BugStatus) -> Result<NewOp, Memory>
    ensures { IfOk result (λ new. new.op ≡ status_op moment.entry.now status) }
{
    let op = BugOp::SetStatus {
        common: new_common(alloc, moment, 4)?,
        status,
    };
    Ok(NewOp { op })
}

/// Labels that are put on, and labels that are taken off.
#[tactic(auto, using(crate::proofs::RowLemmas::labels_rules))]
pub(crate) fn labels_op(
    alloc: Global,
    moment: &Moment,
    added: List<Text>,
    removed: List<Text>,
) -> Result<NewOp, Memory>
    requires added { AreLabels added }
    requires removed { AreLabels removed }
    ensures { IfOk result (λ new. new.op ≡ labels_op moment.entry.now added removed) }
{
    let op = BugOp::LabelChange {
        common: new_common(alloc, moment, 5)?,
        added,
        removed,
    };
    Ok(NewOp { op })
}

/// A value under a key of the bug whose first operation has the id of the target.
pub(crate) fn metadata_op(
    alloc: Global,
    moment: &Moment,
    target: Id,
    key: &Title,
    value: &Message,
) -> Result<NewOp, Memory>
    ensures { IfOk result (λ new. new.op ≡ metadata_op moment.entry.now target key.now value.now) }
{
    // That an id is 32 bytes is known of one that is printed.
    let _digits = target.text();
    let mut pairs = Vec::new(alloc);
    pairs.push(Pair {
        key: Text::from_str(alloc, key.as_str())?,
        value: Text::from_str(alloc, value.as_str())?,
    })?;
    let op = BugOp::SetMetadata {
        common: new_common(alloc, moment, 8)?,
        target,
        pairs: List::from_vec(pairs),
    };
    Ok(NewOp { op })
}

// What an operation of a type has that a command makes.
fn new_common(alloc: Global, moment: &Moment, kind: u64) -> Result<Common, Memory>
    ensures common { IfOk result (λ common. common ≡ new_common moment.entry.now kind) }
    ensures within { IfOk result (λ common. IsWithinBounds common) }
{
    Ok(Common {
        place: nowhere(),
        kind,
        time: moment.now,
        nonce: Nonce::from_bytes(alloc, &moment.nonce())?,
        metadata: List::new(alloc),
    })
}

// The place of an operation that isn't written yet.
fn nowhere() -> Place
    ensures { result ≡ nowhere }
{
    let nobody = Id::from_bytes([0; 32]);
    Place {
        id: nobody,
        author: nobody,
        edit: 0,
        create: None,
    }
}
