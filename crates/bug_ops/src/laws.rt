//! Laws of the definitions that the contracts cite. No call of them does anything.
ghost use Rattle.std.specs.Prelude.{◌≡◌, ◌||◌, ◌&&◌, not, ℕ, List};
ghost use Rattle.std.specs.List.{AllByRecursion};
ghost use Rattle.op_kind.specs.Fold.{state_from};
ghost use Rattle.op_kind.specs.NameOrder.{NamesAscend};
ghost use Rattle.op_kind.specs.Tables.{KeepsOp, members_of_op};
ghost use Rattle.op_kind.specs.declared.place.Common.{Common as CommonValue};
ghost use Rattle.bug_ops.specs.BugTable.{bug_table};
ghost use Rattle.bug_ops.specs.Kind.{bug_kind};
ghost use Rattle.bug_ops.specs.Mentions.{is_among, IsInOrder};
ghost use Rattle.bug_ops.specs.Snapshots.{labels_after, snapshot_after, empty_snapshot};
ghost use Rattle.bug_ops.specs.declared.op.BugOp.{BugOp as OpValue};
ghost use Rattle.bug_ops.specs.declared.op.BugOp.TheVariants.{LabelChange};
ghost use Rattle.bug_ops.specs.declared.snapshot.Snapshot.{Snapshot as SnapshotValue};

/// After a label change a label is on exactly when it is added or was on before, and is not
/// removed. So one that is both added and removed is off.
pub fn labels_go_by_mention()
    ensures { (common : CommonValue) (labels added removed : List (List ℕ)) (label : List ℕ)
        → is_among (labels_after labels (LabelChange common added removed)) label
        ≡ ((is_among added label || is_among labels label) && not (is_among removed label)) }
{}

/// Each snapshot that valid operations reach is in order: labels and metadata ascend in byte order,
/// nothing is listed twice, and the comments are counted.
pub fn reached_snapshots_are_in_order()
    ensures start { IsInOrder empty_snapshot }
    ensures step { (snapshot : SnapshotValue) (op : OpValue) → KeepsOp bug_table op
        → IsInOrder snapshot → IsInOrder (snapshot_after snapshot op) }
    ensures all { (ops : List OpValue) → AllByRecursion (KeepsOp bug_table) ops
        → IsInOrder (state_from bug_kind empty_snapshot ops) }
{}

/// An operation's members are written in byte order of their names, each once.
pub fn written_members_are_in_order()
    ensures { (op : OpValue) → NamesAscend (members_of_op bug_table op) }
{}
