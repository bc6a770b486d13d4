//! The row of a bug, field by field.
ghost use Rattle.std.specs.Prelude.{◌≡◌, IfOk, OnOk};
ghost use Rattle.bug_ops.specs.Folds.{with_lists};
ghost use Rattle.bug_ops.specs.Snapshots.{id_after, title_after, status_after};
ghost use Rattle.bug_ops.specs.Snapshots.{labels_after, author_after, participants_after};
ghost use Rattle.bug_ops.specs.Snapshots.{create_after, first_after, comments_after};
ghost use Rattle.bug_ops.specs.Snapshots.{metadata_after, row_after, empty_row};

use crate::copies::{copy_ids, copy_pairs, copy_text, copy_texts};
use crate::labels::changed_list;
use crate::op::{BugOp, BugStatus, common_of};
use crate::pairs::join_pairs;
use crate::persons::{same_id, see_person};
use crate::snapshot::Excerpt;
use gb_text::{Id, List, Memory, Text};
use op_kind::Pair;
use std::alloc::Global;

fn id_after(id: Id, op: &BugOp) -> Id
    ensures { result ≡ id_after id op.now }
{
    match op {
        BugOp::Create { common, .. } => common.place.id,
        _ => id,
    }
}

fn title_apply(alloc: Global, title: &mut Text, op: &BugOp) -> Result<(), Memory>
    ensures { OnOk result (title.new ≡ title_after title.old op.now) }
{
    match op {
        BugOp::Create { title: new, .. } => {
            *title = copy_text(alloc, new)?;
            Ok(())
        }
        BugOp::SetTitle { title: new, .. } => {
            *title = copy_text(alloc, new)?;
            Ok(())
        }
        _ => Ok(()),
    }
}

fn status_after(status: BugStatus, op: &BugOp) -> BugStatus
    ensures { result ≡ status_after status op.now }
{
    match op {
        BugOp::SetStatus { status: new, .. } => *new,
        _ => status,
    }
}

fn labels_apply(alloc: Global, labels: &mut List<Text>, op: &BugOp) -> Result<(), Memory>
    ensures { OnOk result (labels.new ≡ labels_after labels.old op.now) }
{
    match op {
        BugOp::LabelChange { added, removed, .. } => {
            *labels = changed_list(
                alloc,
                labels.as_slice(),
                added.as_slice(),
                removed.as_slice(),
            )?;
            Ok(())
        }
        _ => Ok(()),
    }
}

fn author_after(author: Id, op: &BugOp) -> Id
    ensures { result ≡ author_after author op.now }
{
    match op {
        BugOp::Create { common, .. } => common.place.author,
        _ => author,
    }
}

fn see_participant(ids: &mut List<Id>, op: &BugOp) -> Result<(), Memory>
    ensures { OnOk result (ids.new ≡ participants_after ids.old op.now) }
{
    match op {
        BugOp::Create { common, .. } => see_person(ids, common.place.author),
        BugOp::AddComment { common, .. } => see_person(ids, common.place.author),
        _ => Ok(()),
    }
}

fn create_after(create: u64, op: &BugOp) -> u64
    ensures { result ≡ create_after create op.now }
{
    match op {
        BugOp::Create { common, .. } => match common.place.create {
            Some(clock) => clock,
            None => 0,
        },
        _ => create,
    }
}

fn first_after(first: u64, op: &BugOp) -> u64
    ensures { result ≡ first_after first op.now }
{
    match op {
        BugOp::Create { common, .. } => common.time,
        _ => first,
    }
}

fn comments_after(comments: u64, op: &BugOp) -> u64
    ensures { result ≡ comments_after comments op.now }
{
    match op {
        BugOp::Create { .. } => comments.saturating_add(1),
        BugOp::AddComment { .. } => comments.saturating_add(1),
        _ => comments,
    }
}

fn metadata_apply(
    alloc: Global,
    id: Id,
    metadata: &mut List<Pair>,
    op: &BugOp,
) -> Result<(), Memory>
    ensures { OnOk result (metadata.new ≡ metadata_after id metadata.old op.now) }
{
    match op {
        BugOp::Create { common, .. } => {
            *metadata = copy_pairs(alloc, common.metadata.as_slice())?;
            Ok(())
        }
        BugOp::SetMetadata { target, pairs, .. } => {
            if !same_id(target, &id) {
                return Ok(());
            }
            *metadata = join_pairs(alloc, metadata.as_slice(), pairs.as_slice())?;
            Ok(())
        }
        _ => Ok(()),
    }
}

/// All but the labels, the persons and the metadata.
#[tactic(auto, unfolding(crate::specs::Snapshots::row_after))]
pub(crate) fn fields_apply(alloc: Global, row: &mut Excerpt, op: &BugOp) -> Result<(), Memory>
    ensures { OnOk result (row.new ≡ with_lists row.old (row_after row.old op.now)) }
{
    let place = common_of(op).place;
    title_apply(alloc, &mut row.title, op)?;
    row.id = id_after(row.id, op);
    row.status = status_after(row.status, op);
    row.author = author_after(row.author, op);
    row.create = create_after(row.create, op);
    row.edit = place.edit;
    row.first = first_after(row.first, op);
    row.last = common_of(op).time;
    row.comments = comments_after(row.comments, op);
    Ok(())
}

/// The row one operation further, which is gone through: its labels and its metadata are put in
/// order anew, and its persons are searched for in their lists.
#[tactic(auto, unfolding(crate::specs::Snapshots::row_after))]
pub(crate) fn row_apply(alloc: Global, row: &mut Excerpt, op: &BugOp) -> Result<(), Memory>
    ensures { OnOk result (row.new ≡ row_after row.old op.now) }
{
    metadata_apply(alloc, row.id, &mut row.metadata, op)?;
    fields_apply(alloc, row, op)?;
    labels_apply(alloc, &mut row.labels, op)?;
    see_person(&mut row.actors, common_of(op).place.author)?;
    see_participant(&mut row.participants, op)
}

pub(crate) fn copy_row(alloc: Global, row: &Excerpt) -> Result<Excerpt, Memory>
    ensures { IfOk result (λ r. r ≡ row.now) }
{
    Ok(Excerpt {
        id: row.id,
        title: copy_text(alloc, &row.title)?,
        status: row.status,
        labels: copy_texts(alloc, row.labels.as_slice())?,
        author: row.author,
        actors: copy_ids(alloc, row.actors.as_slice())?,
        participants: copy_ids(alloc, row.participants.as_slice())?,
        create: row.create,
        edit: row.edit,
        first: row.first,
        last: row.last,
        comments: row.comments,
        metadata: copy_pairs(alloc, row.metadata.as_slice())?,
    })
}

pub(crate) fn empty_row(alloc: Global) -> Excerpt
    ensures { result ≡ empty_row }
{
    Excerpt {
        id: Id::from_bytes([0; 32]),
        title: Text::from_string(String::new(alloc)),
        status: BugStatus::Opened,
        labels: List::new(alloc),
        author: Id::from_bytes([0; 32]),
        actors: List::new(alloc),
        participants: List::new(alloc),
        create: 0,
        edit: 0,
        first: 0,
        last: 0,
        comments: 0,
        metadata: List::new(alloc),
    }
}
