//! The operations of bugs.
ghost use Rattle.std.specs.Prelude.{◌≡◌};
ghost use Rattle.bug_ops.specs.BugTable.{type_of, common_of_op};
ghost use Rattle.bug_ops.specs.BugTable.{opens, type_of_op};

use gb_text::{Id, List, Name, Text};
use op_kind::{Common, Pair};

/// Whether a bug is open.
#[derive(Clone, Copy, Debug, PartialEq, Eq, Drop)]
pub enum BugStatus {
    Opened,
    Closed,
}

/// The types of operations.
#[derive(Clone, Copy, Debug, PartialEq, Eq)]
pub enum OpType {
    Creation,
    Title,
    Comment,
    Status,
    Labels,
    Edit,
    Nothing,
    Metadata,
}

/// An operation of a bug. `files` names blobs that belong to a message, and `was` the title before.
#[derive(Drop)]
pub enum BugOp {
    /// Begins a bug, whose first comment is the message.
    Create {
        common: Common,
        title: Text,
        message: Text,
        files: List<Name>,
    },
    SetTitle {
        common: Common,
        title: Text,
        was: Text,
    },
    AddComment {
        common: Common,
        message: Text,
        files: List<Name>,
    },
    SetStatus {
        common: Common,
        status: BugStatus,
    },
    /// Puts the labels of `added` on that are not in `removed`, and takes those of `removed` off.
    LabelChange {
        common: Common,
        added: List<Text>,
        removed: List<Text>,
    },
    /// Replaces the message of the comment that the operation `target` made.
    EditComment {
        common: Common,
        target: Id,
        message: Text,
        files: List<Name>,
    },
    NoOp {
        common: Common,
    },
    /// Sets keys that are not set yet, where `target` is the first operation.
    SetMetadata {
        common: Common,
        target: Id,
        pairs: List<Pair>,
    },
}

/// The type with a number. None where there is none.
pub fn type_of(kind: u64) -> Option<OpType>
    ensures { result ≡ type_of kind }
{
    match kind {
        1 => Some(OpType::Creation),
        2 => Some(OpType::Title),
        3 => Some(OpType::Comment),
        4 => Some(OpType::Status),
        5 => Some(OpType::Labels),
        6 => Some(OpType::Edit),
        7 => Some(OpType::Nothing),
        8 => Some(OpType::Metadata),
        _ => None,
    }
}

pub(crate) fn common_of(op: &BugOp) -> &Common
    ensures { result.now ≡ common_of_op op.now }
{
    match op {
        BugOp::Create { common, .. } => common,
        BugOp::SetTitle { common, .. } => common,
        BugOp::AddComment { common, .. } => common,
        BugOp::SetStatus { common, .. } => common,
        BugOp::LabelChange { common, .. } => common,
        BugOp::EditComment { common, .. } => common,
        BugOp::NoOp { common } => common,
        BugOp::SetMetadata { common, .. } => common,
    }
}

pub(crate) fn is_create(op: &BugOp) -> bool
    ensures { result ≡ opens (type_of_op op.now) }
{
    matches!(op, BugOp::Create { .. })
}
