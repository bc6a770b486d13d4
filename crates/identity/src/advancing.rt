//! How a remote head of an identity is taken up beside the local one.
ghost use Rattle.std.specs.Prelude.{◌≡◌, ◌≤◌, ◌+◌, ◌*◌, ◌↔◌, IsTrue, IsErrOf, IfOk, List, None, Some, length};
ghost use Rattle.gb_store.specs.Faults.{KeepsFaults};
ghost use Rattle.gb_text.specs.declared.id.Name.{Name as NameValue};
ghost use Rattle.object_store.specs.Held.{objects_after};
ghost use Rattle.commit_walk.specs.Chain.{Passes, Walked};
ghost use Rattle.commit_walk.specs.Passing.{ReadsAbove};
ghost use Rattle.commit_walk.specs.declared.below.TheConstants.{MOST_COMMITS};
ghost use Rattle.commit_walk.specs.declared.chain.Link.{Link as LinkValue};
ghost use Rattle.identity.specs.Advancing.{AdvanceAnswers};

use crate::chain::read_whole;
use crate::fault::IdentityFault;
use commit_walk::{Link, passes};
use gb_store::{Store, StoreFault};
use gb_text::{Folder, Id, Name};
use std::alloc::Global;

/// How a remote head is taken up beside the local one.
#[derive(Clone, Copy, Debug, PartialEq, Eq)]
pub enum Step {
    /// There is no local head, so the remote one becomes it.
    New,
    /// The remote head is in the local chain, so the local one stays.
    Nothing,
    /// The local head is in the remote chain, so the remote one takes its place.
    Forward,
}

/// Why a remote head is not taken up.
#[derive(Clone, Copy, Debug, PartialEq, Eq)]
pub enum AdvanceFault {
    Memory,
    /// The store failed.
    Disk,
    /// This is wrong with the remote chain. It is never `Memory` or `Disk`.
    Invalid(IdentityFault),
    /// Neither the local head nor the remote one, in this order, is in the chain of the other.
    NotForward(Name, Name),
}

impl From<IdentityFault> for AdvanceFault {
    ghost use Rattle.std.specs.Prelude.{◌≡◌};
    ghost use Rattle.identity.specs.Advancing.{stop_of_fault};

    ghost from_gives = { λ fault e. e ≡ stop_of_fault fault };

    fn from(fault: IdentityFault) -> Self {
        match fault {
            IdentityFault::Memory => AdvanceFault::Memory,
            IdentityFault::Disk => AdvanceFault::Disk,
            fault => AdvanceFault::Invalid(fault),
        }
    }
}

impl From<StoreFault> for AdvanceFault {
    ghost use Rattle.std.specs.Prelude.{◌≡◌};
    ghost use Rattle.identity.specs.Advancing.{stop_of_store};

    ghost from_gives = { λ fault e. e ≡ stop_of_store fault };

    fn from(fault: StoreFault) -> Self {
        match fault {
            StoreFault::Memory => AdvanceFault::Memory,
            StoreFault::Failed => AdvanceFault::Disk,
        }
    }
}

/// How the remote head of the identity with this id is taken up beside the local one. Whether it is in
/// the local chain is found first, whatever is wrong with either. Then the remote chain is judged alone.
/// A command that merges will set the identity's ref to it.
pub fn advance<S: Store>(
    alloc: Global,
    disk: &mut S,
    folder: &Folder,
    id: &Id,
    local: Option<Name>,
    remote: &Name,
) -> Result<Step, AdvanceFault>
    ensures answers { IsTrue S.tells → AdvanceAnswers
        (objects_after (S.history disk.old) folder.now) id.now local remote.now result }
    ensures unwritten { IsTrue S.tells → S.history disk.new ≡ S.history disk.old }
    ensures reads { S.object_reads disk.new ≤ S.object_reads disk.old + 4 * MOST_COMMITS }
    ensures above { (head : NameValue) → IsTrue S.tells → local ≡ Some head
        → ReadsAbove (objects_after (S.history disk.old) folder.now) head remote.now
        (S.object_reads disk.old) (S.object_reads disk.new) }
    ensures begun { IsTrue S.tells → local ≡ None
        → IfOk result (λ _. (walk : List LinkValue)
        → Walked (objects_after (S.history disk.old) folder.now) remote.now walk
        → S.object_reads disk.new ≤ S.object_reads disk.old + 3 * length walk) }
    ensures caused { KeepsFaults S.never_fails S.faults (IsErrOf result AdvanceFault.Disk)
        disk.old disk.new }
{
    let Some(local) = local else {
        read_whole(alloc, disk, folder, id, remote)?;
        return Ok(Step::New);
    };
    if passes(alloc, disk, folder, &local, remote)? {
        return Ok(Step::Nothing);
    }
    let (walk, _) = read_whole(alloc, disk, folder, id, remote)?;
    if has_commit(&walk, &local) {
        return Ok(Step::Forward);
    }
    Err(AdvanceFault::NotForward(local, *remote))
}

// Whether one of these commits has this name.
fn has_commit(walk: &[Link], name: &Name) -> bool
    ensures { IsTrue result ↔ Passes walk.now name.now }
{
    walk.iter().any(|link| link.name == *name)
}
