//! The writes that put objects and then set a head, or make the first user.
ghost use Rattle.std.specs.Prelude.{◌≡◌, ◌≤◌, ◌+◌, ◌++◌, [], ◌∷◌, length, IsTrue, IfOk, IsErrOf};
ghost use Rattle.gb_store.specs.Faults.{KeepsFaults};
ghost use Rattle.ref_store.specs.Setting.{ref_write};
ghost use Rattle.repo_state.specs.Sides.{ref_place};
ghost use Rattle.repo_edit.specs.Adding.{AddsHead, first_write};

use gb_store::{Change, Store};
use gb_text::{Folder, Id, List, Memory, Name};
use object_batch::plan_all;
use object_store::{ObjectText, PutFault};
use repo_state::{Side, head_change, user_change};
use std::alloc::Global;

/// The writes that add these objects and then set the head of an id: those of the objects that are
/// missing, in their order, and that of the head.
pub fn head_writes<S: Store>(
    alloc: Global,
    disk: &mut S,
    folder: &Folder,
    side: &Side,
    id: &Id,
    head: &Name,
    objects: &List<ObjectText>,
) -> Result<Vec<Change>, PutFault>
    ensures answers { IsTrue S.tells
        → AddsHead folder.now side.now id.now head.now objects.now (S.history disk.old) result }
    ensures unwritten { IsTrue S.tells → S.history disk.new ≡ S.history disk.old }
    ensures reads { S.object_reads disk.new ≤ S.object_reads disk.old + length objects.now }
    ensures caused { KeepsFaults S.never_fails S.faults (IsErrOf result PutFault.Disk)
        disk.old disk.new }
{
    let writes = plan_all(alloc, disk, folder, objects.as_slice())?.into_vec();
    Ok(with_head(alloc, folder, side, id, head, writes)?)
}

// These writes, and that of a head.
fn with_head(
    alloc: Global,
    folder: &Folder,
    side: &Side,
    id: &Id,
    head: &Name,
    writes: Vec<Change>,
) -> Result<Vec<Change>, Memory>
    ensures { IfOk result (λ all. all.items
        ≡ writes.items ++ ref_write folder.now (ref_place side.now id.now) head.now ∷ []) }
{
    let mut writes = writes;
    writes.push(head_change(alloc, folder, side, id, head)?)?;
    Ok(writes)
}

/// These writes, and that of the user where none was found.
pub fn with_first_user(
    alloc: Global,
    folder: &Folder,
    found: Option<Id>,
    id: &Id,
    writes: Vec<Change>,
) -> Result<Vec<Change>, Memory>
    ensures { IfOk result (λ all. all.items ≡ writes.items ++ first_write folder.now found id.now) }
{
    let mut writes = writes;
    if found.is_none() {
        writes.push(user_change(alloc, folder, id)?)?;
    }
    Ok(writes)
}
