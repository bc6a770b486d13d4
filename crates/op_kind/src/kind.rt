//! Kinds of operations.
ghost use Rattle.std.specs.Prelude.{◌≡◌, OnOk, IfOk};
ghost use Rattle.op_kind.specs.Meaning.{Meaning, KeepsLaws, version_of};
ghost use Rattle.op_kind.specs.Answers.{Answers};

use crate::{Common, OpFault, Place};
use gb_text::{Bytes, Memory};
use std::alloc::Global;

/// A kind of operations, which fold into a state. A row is the part of a state that lists show.
/// What is generic over a kind uses its meaning and its laws alone.
pub trait OpKind: Sized + Drop {
    /// What the operations of an entity add up to.
    type State: Drop;

    /// The part of a state that lists show.
    type Row: Drop;

    /// What its operations mean.
    ghost meaning: { Meaning Self Self.State Self.Row };

    /// The operation that a text is at a place. A fault that is named holds; want of memory is
    /// `Memory`.
    fn read_op(alloc: Global, place: Place, text: &[u8]) -> Result<Self, OpFault>
        ensures { Answers (meaning.read_at place text.now)
            (meaning.HasFault (version_of place) text.now) result };

    /// The operation's written form, which does not depend on its place.
    fn write_op(&self, alloc: Global) -> Result<Bytes, Memory>
        ensures { IfOk result (λ text. text ≡ meaning.written self.now) };

    /// The common part. Takes no memory.
    fn common(&self) -> &Common
        ensures { result.now ≡ meaning.common_of self.now };

    /// Whether an entity may begin with the operation. Takes no memory.
    fn may_be_first(&self) -> bool
        ensures { result ≡ meaning.is_opening self.now };

    /// Whether the operation may stand behind others. Takes no memory.
    fn may_follow(&self) -> bool
        ensures { result ≡ meaning.is_following self.now };

    /// The state before any operation. Takes no memory: the allocator is for later operations.
    fn start(alloc: Global) -> Self::State
        ensures { result ≡ meaning.initial };

    /// One operation further. After `Memory` nothing is said of the state, which is to be dropped.
    fn apply(alloc: Global, state: &mut Self::State, op: &Self) -> Result<(), Memory>
        ensures { OnOk result (state.new ≡ meaning.state_after state.old op.now) };

    /// The row of a state.
    fn row_of(alloc: Global, state: &Self::State) -> Result<Self::Row, Memory>
        ensures { IfOk result (λ row. row ≡ meaning.row_of state.now) };

    /// One operation further. After `Memory` nothing is said of the row, which is to be dropped.
    fn row_apply(alloc: Global, row: &mut Self::Row, op: &Self) -> Result<(), Memory>
        ensures { OnOk result (row.new ≡ meaning.row_after row.old op.now) };

    ghost laws: { KeepsLaws meaning };
}
