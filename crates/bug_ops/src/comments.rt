//! The comments of a bug.
ghost use Rattle.std.specs.Prelude.{◌≡◌, ◌∷◌, [], ◌++◌, IfOk, OnOk};
ghost use Rattle.std.specs.BTreeMap.{get};
ghost use Rattle.bug_ops.specs.Folds.{ArePast, KeepsEdit, by_edit, comments_in};
ghost use Rattle.bug_ops.specs.Snapshots.{by_bytes, comment_of, list_after};

use crate::copies::copy_text;
use crate::op::BugOp;
use crate::snapshot::Comment;
use gb_text::{Id, List, Memory, Text};
use op_kind::Common;
use std::alloc::Global;
use std::collections::BTreeMap;

/// An edit of the comments that were there before it.
#[derive(Drop)]
pub(crate) struct Edit {
    pub(crate) message: Text,
    pub(crate) before: usize,
}

/// The last edit of each id, by its bytes. A comment has the message of its own until the snapshot
/// is made, so that an edit goes to no comment.
pub(crate) type Edits = BTreeMap<[u8; 32], Edit>;

fn comment_of(alloc: Global, common: &Common, message: &Text) -> Result<Comment, Memory>
    ensures { IfOk result (λ c. c ≡ comment_of common.now message.now) }
{
    Ok(Comment {
        id: common.place.id,
        author: common.place.author,
        time: common.time,
        message: copy_text(alloc, message)?,
    })
}

fn push_comment(list: &mut List<Comment>, comment: Comment) -> Result<(), Memory>
    ensures { OnOk result (list.new ≡ list.old ++ comment ∷ []) }
{
    match list.push(comment) {
        Ok(()) => Ok(()),
        Err(_) => Err(Memory),
    }
}

fn add_comment(
    alloc: Global,
    list: &mut List<Comment>,
    common: &Common,
    message: &Text,
) -> Result<(), Memory>
    ensures { OnOk result (list.new ≡ list.old ++ comment_of common.now message.now ∷ []) }
{
    push_comment(list, comment_of(alloc, common, message)?)
}

// Keeps an edit of the comments so far.
fn keep_edit(
    alloc: Global,
    edits: &mut Edits,
    before: usize,
    target: &Id,
    message: &Text,
) -> Result<(), Memory>
    ensures { OnOk result (KeepsEdit edits.old edits.new target.now message.now before) }
{
    let message = copy_text(alloc, message)?;
    edits.insert(target.bytes, Edit { message, before })?;
    Ok(())
}

/// The comments one operation further, of which the edits are kept beside them.
pub(crate) fn list_apply(
    alloc: Global,
    edits: &mut Edits,
    list: &mut List<Comment>,
    op: &BugOp,
) -> Result<(), Memory>
    requires { ArePast edits.old list.old }
    ensures list { OnOk result (comments_in edits.new list.new
        ≡ list_after (comments_in edits.old list.old) op.now) }
    ensures edits { OnOk result (ArePast edits.new list.new) }
{
    match op {
        BugOp::Create {
            common,
            message,
            ..
        } => add_comment(alloc, list, common, message),
        BugOp::AddComment {
            common,
            message,
            ..
        } => add_comment(alloc, list, common, message),
        BugOp::EditComment {
            target,
            message,
            ..
        } => keep_edit(alloc, edits, list.len(), target, message),
        _ => Ok(()),
    }
}

// A comment at a place, with the message of the last edit that it had.
fn edit_at(alloc: Global, edits: &Edits, place: usize, comment: Comment) -> Result<Comment, Memory>
    ensures { IfOk result (λ c. c
        ≡ by_edit (get by_bytes edits.now comment.id.bytes) place comment) }
{
    match edits.get(&comment.id.bytes) {
        Some(edit) if place < edit.before => Ok(Comment {
            id: comment.id,
            author: comment.author,
            time: comment.time,
            message: copy_text(alloc, &edit.message)?,
        }),
        _ => Ok(comment),
    }
}

/// The comments, each with the message of the last edit that it had.
pub(crate) fn edited(
    alloc: Global,
    edits: &Edits,
    list: List<Comment>,
) -> Result<List<Comment>, Memory>
    ensures { IfOk result (λ l. l ≡ comments_in edits.now list) }
{
    let mut comments = Vec::new(alloc);
    for comment in list.into_vec() {
        let comment = edit_at(alloc, edits, comments.len(), comment)?;
        comments.push(comment)?;
    }
    Ok(List::from_vec(comments))
}
