//! A snapshot in the making.
ghost use Rattle.std.specs.Prelude.{◌≡◌, IfOk, OnOk};
ghost use Rattle.std.specs.BTreeSet.{IsOrdered};
ghost use Rattle.bug_ops.specs.Folds.{AreJoined, AreMet, row_in};
ghost use Rattle.bug_ops.specs.Snapshots.{by_bytes, labels_after, row_after};

use crate::comments::{Edits, edited, list_apply};
use crate::labels::{change, copy_labels, labels_of};
use crate::metadata::{Metadata, copy_metadata, into_pairs, metadata_apply};
use crate::op::{BugOp, common_of};
use crate::persons::{Met, meet_participant, meet_person};
use crate::row::{copy_row, empty_row, fields_apply};
use crate::snapshot::{Comment, Excerpt, Snapshot};
use gb_text::{List, Memory, Text};
use std::alloc::Global;
use std::collections::{BTreeMap, BTreeSet};
use std::marker::Model;

/// A snapshot in the making, which contracts see as that snapshot. The row leaves its labels and
/// its metadata to the index, and the comments their edits.
#[derive(Drop)]
pub struct Fold {
    row: Excerpt,
    list: List<Comment>,
    index: Index,
}

/// What no operation searches a list for: the labels, the metadata, the persons that were met, and
/// the last edit of each id.
#[derive(Drop)]
pub(crate) struct Index {
    pub(crate) labels: BTreeSet<Text>,
    pub(crate) metadata: Metadata,
    pub(crate) actors: Met,
    pub(crate) participants: Met,
    pub(crate) edits: Edits,
}

impl Model for Fold {
    ghost use Rattle.bug_ops.specs.declared.snapshot.Snapshot.{Snapshot as SnapshotValue};

    ghost Value = { SnapshotValue };

    ghost use Rattle.bug_ops.specs.Folds.{comments_in, row_in, IsIndexOf};

    ghost view = { λ f. record {
      row = row_in f.row f.index;
      list = comments_in f.index.edits f.list;
    } };

    ghost invariant = { λ f. IsIndexOf f.row f.list f.index };
}

fn labels_apply(alloc: Global, labels: &mut BTreeSet<Text>, op: &BugOp) -> Result<(), Memory>
    requires { IsOrdered by_bytes labels.old }
    ensures labels { OnOk result (labels.new.keys ≡ labels_after labels.old.keys op.now) }
    ensures ascend { OnOk result (IsOrdered by_bytes labels.new) }
{
    match op {
        BugOp::LabelChange { added, removed, .. } => {
            change(alloc, labels, added.as_slice(), removed.as_slice())
        }
        _ => Ok(()),
    }
}

// The row one operation further, and what the index has of it.
#[tactic(auto, unfolding(crate::specs::Snapshots::row_after))]
fn row_apply(alloc: Global, row: &mut Excerpt, index: &mut Index, op: &BugOp) -> Result<(), Memory>
    requires labels { IsOrdered by_bytes index.old.labels }
    requires actors { AreMet index.old.actors row.old.actors }
    requires participants { AreMet index.old.participants row.old.participants }
    requires metadata { AreJoined index.old.metadata }
    ensures row { OnOk result (row_in row.new index.new
        ≡ row_after (row_in row.old index.old) op.now) }
    ensures labels { OnOk result (IsOrdered by_bytes index.new.labels) }
    ensures actors { OnOk result (AreMet index.new.actors row.new.actors) }
    ensures participants { OnOk result (AreMet index.new.participants row.new.participants) }
    ensures metadata { OnOk result (AreJoined index.new.metadata) }
    ensures edits { index.new.edits ≡ index.old.edits }
{
    metadata_apply(alloc, row.id, &mut index.metadata, op)?;
    fields_apply(alloc, row, op)?;
    labels_apply(alloc, &mut index.labels, op)?;
    meet_person(
        &mut index.actors,
        &mut row.actors,
        common_of(op).place.author,
    )?;
    meet_participant(&mut index.participants, &mut row.participants, op)
}

impl Fold {
    ghost use Rattle.bug_ops.specs.Snapshots.{snapshot_after, empty_snapshot};

    /// The fold before any operation.
    pub(crate) fn new(alloc: Global) -> Self
        ensures { result ≡ empty_snapshot }
    {
        Fold {
            row: empty_row(alloc),
            list: List::new(alloc),
            index: Index {
                labels: BTreeSet::new(alloc),
                metadata: Metadata::Created(List::new(alloc)),
                actors: BTreeSet::new(alloc),
                participants: BTreeSet::new(alloc),
                edits: BTreeMap::new(alloc),
            },
        }
    }

    /// The fold one operation further.
    pub(crate) fn after(self, alloc: Global, op: &BugOp) -> Result<Self, Memory>
        ensures { IfOk result (λ s. s ≡ snapshot_after self op.now) }
    {
        let Fold {
            mut row,
            mut list,
            mut index,
        } = self;
        row_apply(alloc, &mut row, &mut index, op)?;
        list_apply(alloc, &mut index.edits, &mut list, op)?;
        Ok(Fold { row, list, index })
    }

    /// A copy of the row.
    pub(crate) fn row(&self, alloc: Global) -> Result<Excerpt, Memory>
        ensures { IfOk result (λ r. r ≡ self.now.row) }
    {
        let mut row = copy_row(alloc, &self.row)?;
        row.labels = copy_labels(alloc, &self.index.labels)?;
        row.metadata = copy_metadata(alloc, &self.index.metadata)?;
        Ok(row)
    }

    /// The snapshot that was made.
    pub fn finish(self, alloc: Global) -> Result<Snapshot, Memory>
        ensures { IfOk result (λ s. s ≡ self) }
    {
        let Fold {
            mut row,
            list,
            index,
        } = self;
        row.labels = labels_of(alloc, index.labels)?;
        row.metadata = into_pairs(alloc, index.metadata)?;
        let list = edited(alloc, &index.edits, list)?;
        Ok(Snapshot { row, list })
    }
}
