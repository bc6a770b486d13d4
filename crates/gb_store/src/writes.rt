//! Several writes, made in order.
ghost use Rattle.std.specs.Prelude.{◌≡◌, IsTrue, IsErrOf};
ghost use Rattle.gb_store.specs.Faults.{KeepsFaults};
ghost use Rattle.gb_store.specs.Writing.{WriteAnswers, WritesAnswers};

use crate::{Change, Store, StoreFault};
use std::alloc::Global;

/// Makes these writes, in their order: each puts the new bytes of its path, or removes what stands
/// there. Where the store fails, or memory runs out, the first of them were made, and no other.
pub fn write_all<S: Store>(
    alloc: Global,
    disk: &mut S,
    changes: &[Change],
) -> Result<(), StoreFault>
    ensures answers { IsTrue S.tells
        → WritesAnswers changes.now (S.history disk.old) (S.history disk.new) result }
    ensures reads { S.object_reads disk.new ≡ S.object_reads disk.old }
    ensures caused { KeepsFaults S.never_fails S.faults (IsErrOf result StoreFault.Failed)
        disk.old disk.new }
{
    for change in changes {
        write(alloc, disk, change)?;
    }
    Ok(())
}

// Makes one write.
fn write<S: Store>(alloc: Global, disk: &mut S, change: &Change) -> Result<(), StoreFault>
    ensures answers { IsTrue S.tells
        → WriteAnswers change.now (S.history disk.old) (S.history disk.new) result }
    ensures reads { S.object_reads disk.new ≡ S.object_reads disk.old }
    ensures caused { KeepsFaults S.never_fails S.faults (IsErrOf result StoreFault.Failed)
        disk.old disk.new }
{
    match &change.bytes {
        Some(bytes) => disk.put(alloc, change.path.as_str(), bytes.as_slice()),
        None => disk.remove(alloc, change.path.as_str()),
    }
}
