//! The heads of a tracked entity.
ghost use Rattle.std.specs.Prelude.{IsErrOf};
ghost use Rattle.gb_store.specs.Files.{History, files_of};
ghost use Rattle.repo_merge.specs.Heads.{HeadsAnswers, IsLocal};
ghost use Rattle.repo_state.specs.declared.side.Side.{Side as SideValue};

use gb_text::{Folder, Id, Name};
use listed_refs::ListedSide;
use merge_steps::TurnStop;
use repo_state::{EntityRef, Side, whole};
use std::alloc::Global;

/// The heads of an entity: the tracked one, and the local one if there is one.
#[derive(Clone, Copy, Debug, PartialEq, Eq)]
pub struct Heads {
    pub id: Id,
    pub tracked: Name,
    pub local: Option<Name>,
}

/// The heads of an entity that was listed on a tracking side, or `Damaged` where one of its refs is no ref
/// text. Nothing is read of the disk.
pub fn heads_of(
    alloc: Global,
    folder: &Folder,
    tracked: &Side,
    locals: &ListedSide,
    entity: &EntityRef,
) -> Result<Heads, TurnStop>
    ensures answers { (local : SideValue) (old : History)
        → IsLocal (files_of old) folder.now local locals.now entity.now.id
        → HeadsAnswers folder.now tracked.now local entity.now old result }
    ensures no_disk { IsErrOf result TurnStop.Disk → ⊥ }
{
    let theirs = whole(alloc, folder, tracked, entity)?;
    let ours = locals.head(alloc, folder, &entity.id)?;
    Ok(Heads {
        id: entity.id,
        tracked: theirs.name,
        local: ours,
    })
}
