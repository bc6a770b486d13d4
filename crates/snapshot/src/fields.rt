//! Fields of a bug, each found without the others.
ghost use Rattle.std.specs.Prelude.{◌≡◌};
ghost use Rattle.std.specs.Option.{unwrap_or};
ghost use Rattle.bug_ops.specs.Mentions.{is_among};
ghost use Rattle.snapshot.specs.LastMention.{mention_in, snapshot_of, status_in, title_in};

use bug_ops::{BugOp, BugStatus};
use gb_text::{Id, Text};
use op_kind::OpKind;

/// The id of a bug: that of its first operation.
pub fn id_of(ops: &[BugOp]) -> Id
    ensures { result ≡ (snapshot_of ops.now).row.id }
{
    match ops.first() {
        Some(op) => op.common().place.id,
        None => Id::from_bytes([0; 32]),
    }
}

/// The title of a bug. Goes over the operations once, and takes no memory.
pub fn title_of(ops: &[BugOp]) -> &str
    ensures { result.now ≡ (snapshot_of ops.now).row.title }
{
    let mut title = "";
    for op in ops {
        title = title_after(title, op);
    }
    title
}

// The title one operation further.
fn title_after<'a>(title: &'a str, op: &'a BugOp) -> &'a str
    ensures { result.now ≡ unwrap_or (title_in op.now) title.now }
{
    match op {
        BugOp::Create { title, .. } => title.as_str(),
        BugOp::SetTitle { title, .. } => title.as_str(),
        _ => title,
    }
}

/// The status of a bug. Goes over the operations once, and takes no memory.
pub fn status_of(ops: &[BugOp]) -> BugStatus
    ensures { result ≡ (snapshot_of ops.now).row.status }
{
    let mut status = BugStatus::Opened;
    for op in ops {
        status = status_after(status, op);
    }
    status
}

// The status one operation further.
fn status_after(status: BugStatus, op: &BugOp) -> BugStatus
    ensures { result ≡ unwrap_or (status_in op.now) status }
{
    match op {
        BugOp::SetStatus { status, .. } => *status,
        _ => status,
    }
}

/// Whether a bug has a label. Goes over the operations once, and takes no memory.
pub fn has_label(ops: &[BugOp], label: &Text) -> bool
    ensures { result ≡ is_among (snapshot_of ops.now).row.labels label.now }
{
    let mut on = false;
    for op in ops {
        on = on_after(on, label, op);
    }
    on
}

// Whether a label is on one operation further.
fn on_after(on: bool, label: &Text, op: &BugOp) -> bool
    ensures { result ≡ unwrap_or (mention_in label.now op.now) on }
{
    match op {
        BugOp::LabelChange { added, removed, .. } => {
            if removed.as_slice().contains(label) {
                return false;
            }
            on || added.as_slice().contains(label)
        }
        _ => on,
    }
}
