//! What a command is to write.
use bug_ops::BugOp;
use gb_store::Change;
use gb_text::{Id, List, Name};
use op_pack::Pack;

/// What a command writes, in this order, and the id that it tells.
#[derive(Drop)]
pub struct Plan {
    pub writes: List<Change>,
    pub id: Id,
}

/// A commit that is added to a bug: its parents in order, and its pack. Where there is no parent, it
/// begins the bug.
#[derive(Drop)]
pub struct Addition {
    pub bug: Id,
    pub parents: List<Name>,
    pub pack: Pack<BugOp>,
}
