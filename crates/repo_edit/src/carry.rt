//! Making what was planned.
ghost use Rattle.std.specs.Prelude.{◌≡◌, IsTrue, IsErrOf};
ghost use Rattle.gb_store.specs.Faults.{KeepsFaults};
ghost use Rattle.repo_edit.specs.Carrying.{Carries};

use gb_store::{Store, write_all};
use gb_text::Id;
use repo_steps::{Plan, Stop};
use std::alloc::Global;

/// Makes the writes of a plan, in their order, and tells its id. Where the store fails, or memory
/// runs out, the first of them were made.
pub fn carry_out<S: Store>(alloc: Global, disk: &mut S, plan: &Plan) -> Result<Id, Stop>
    ensures answers { IsTrue S.tells
        → Carries plan.now (S.history disk.old) (S.history disk.new) result }
    ensures reads { S.object_reads disk.new ≡ S.object_reads disk.old }
    ensures caused { KeepsFaults S.never_fails S.faults (IsErrOf result Stop.Disk)
        disk.old disk.new }
{
    write_all(alloc, disk, plan.writes.as_slice())?;
    Ok(plan.id)
}
