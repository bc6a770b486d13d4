//! The bugs of a folder.
ghost use Rattle.std.specs.Prelude.{◌≡◌, ◌≤◌, ◌+◌, ◌*◌, length, IsTrue, IsErrOf, IfOk};
ghost use Rattle.commit_walk.specs.declared.below.TheConstants.{MOST_COMMITS};
ghost use Rattle.bug_ops.specs.Kind.{bug_kind};
ghost use Rattle.dag_entity.specs.Entities.{KeepsRules};
ghost use Rattle.gb_store.specs.Faults.{KeepsFaults};
ghost use Rattle.gb_store.specs.Files.{files_of};
ghost use Rattle.repo_state.specs.Bugs.{BugAnswers, BugSince, IfWhole, ReadsAbove, ReadsAtHead, ReadsBelow, ReadsBug, StopOf};
ghost use Rattle.repo_state.specs.Listed.{AreIdentityRefs};

use crate::listing::identity_refs;
use crate::refs::{damaged, head, ids_of};
use crate::side::{HeadEntry, Side};
use crate::stop::{FindStop, Missed, ReadStop};
use bug_ops::BugOp;
use dag_entity::{Entity, EntityFault, Since, read_entity, read_since};
use gb_store::Store;
use gb_text::{Folder, Id, Name};
use ref_store::RefEntry;
use std::alloc::Global;

/// The entity of the bug with this id, at its head. Its authors are to be local identities.
/// `NotFound` exactly where no ref of the id stands; `Damaged`, with the path of the ref, exactly
/// where that is no ref text, or something is wrong with the entity.
pub fn read_bug<S: Store>(
    alloc: Global,
    disk: &mut S,
    folder: &Folder,
    id: &Id,
) -> Result<Entity<BugOp>, FindStop>
    ensures answers { IsTrue S.tells
        → ReadsBug (files_of (S.history disk.old)) folder.now id.now result }
    ensures rules { IfOk result (λ entity. KeepsRules bug_kind entity.packs) }
    ensures unwritten { IsTrue S.tells → S.history disk.new ≡ S.history disk.old }
    ensures reads { IsTrue S.tells → ReadsAtHead (files_of (S.history disk.old)) folder.now id.now
        (S.object_reads disk.old) (S.object_reads disk.new) }
    ensures once { IfOk result (λ entity. S.object_reads disk.new
        ≤ S.object_reads disk.old + 3 * length entity.packs) }
    ensures most { S.object_reads disk.new ≤ S.object_reads disk.old + 3 * (MOST_COMMITS + 1) }
    ensures caused { KeepsFaults S.never_fails S.faults (IsErrOf result FindStop.Disk)
        disk.old disk.new }
{
    let Some(name) = head(alloc, disk, folder, &Side::Bugs, id)? else {
        return Err(FindStop::Missed(Missed::NotFound));
    };
    Ok(bug_at(alloc, disk, folder, &HeadEntry { id: *id, name })?)
}

/// The entity of a bug at this head. Its authors are to be local identities. `Damaged`, with the path
/// of the bug's ref, exactly where something is wrong with it.
pub fn bug_at<S: Store>(
    alloc: Global,
    disk: &mut S,
    folder: &Folder,
    bug: &HeadEntry,
) -> Result<Entity<BugOp>, ReadStop>
    ensures answers { IsTrue S.tells
        → BugAnswers (files_of (S.history disk.old)) folder.now bug.now result }
    ensures rules { IfOk result (λ entity. KeepsRules bug_kind entity.packs) }
    ensures unwritten { IsTrue S.tells → S.history disk.new ≡ S.history disk.old }
    ensures reads { IsTrue S.tells → ReadsBelow (files_of (S.history disk.old)) folder.now bug.now
        (S.object_reads disk.old) (S.object_reads disk.new) }
    ensures once { IfOk result (λ entity. S.object_reads disk.new
        ≤ S.object_reads disk.old + 3 * length entity.packs) }
    ensures most { S.object_reads disk.new ≤ S.object_reads disk.old + 3 * (MOST_COMMITS + 1) }
    ensures caused { KeepsFaults S.never_fails S.faults (IsErrOf result ReadStop.Disk)
        disk.old disk.new }
{
    let identities = identity_refs(alloc, disk, folder)?;
    bug_among(alloc, disk, folder, bug, identities.as_slice())
}

/// The entity of a bug at this head. Its authors are to be among these identities, which are all local
/// ones. `Damaged`, with the path of the bug's ref, exactly where something is wrong with it.
pub fn bug_among<S: Store>(
    alloc: Global,
    disk: &mut S,
    folder: &Folder,
    bug: &HeadEntry,
    identities: &[RefEntry],
) -> Result<Entity<BugOp>, ReadStop>
    ensures answers { IsTrue S.tells
        → AreIdentityRefs (files_of (S.history disk.old)) folder.now identities.now
        → BugAnswers (files_of (S.history disk.old)) folder.now bug.now result }
    ensures rules { IfOk result (λ entity. KeepsRules bug_kind entity.packs) }
    ensures unwritten { IsTrue S.tells → S.history disk.new ≡ S.history disk.old }
    ensures reads { IsTrue S.tells → ReadsBelow (files_of (S.history disk.old)) folder.now bug.now
        (S.object_reads disk.old) (S.object_reads disk.new) }
    ensures once { IfOk result (λ entity. S.object_reads disk.new
        ≤ S.object_reads disk.old + 3 * length entity.packs) }
    ensures most { S.object_reads disk.new ≤ S.object_reads disk.old + 3 * (MOST_COMMITS + 1) }
    ensures caused { KeepsFaults S.never_fails S.faults (IsErrOf result ReadStop.Disk)
        disk.old disk.new }
{
    let authors = ids_of(alloc, identities)?;
    let heads = [bug.name];
    match read_entity::<BugOp, S>(alloc, disk, folder, &bug.id, &heads, authors.as_slice()) {
        Ok(entity) => Ok(entity),
        Err(fault) => Err(stop_of(alloc, folder, bug, fault)),
    }
}

/// What a bug has at this head since a known commit. If steps from a commit to its only parent lead from the
/// head to that commit, these are the packs above it, of which nothing is judged; otherwise the entity at
/// the head, whose authors are to be among these identities, which are all local ones. `Damaged`, with
/// the path of the bug's ref, only if something is wrong with the entity.
pub fn bug_since<S: Store>(
    alloc: Global,
    disk: &mut S,
    folder: &Folder,
    bug: &HeadEntry,
    known: &Name,
    identities: &[RefEntry],
) -> Result<Since<BugOp>, ReadStop>
    ensures answers { IsTrue S.tells
        → AreIdentityRefs (files_of (S.history disk.old)) folder.now identities.now
        → BugSince (files_of (S.history disk.old)) folder.now bug.now known.now result }
    ensures rules { IfWhole result (KeepsRules bug_kind) }
    ensures unwritten { IsTrue S.tells → S.history disk.new ≡ S.history disk.old }
    ensures reads { IsTrue S.tells → ReadsBelow (files_of (S.history disk.old)) folder.now bug.now
        (S.object_reads disk.old) (S.object_reads disk.new) }
    ensures above { IsTrue S.tells → ReadsAbove (files_of (S.history disk.old)) folder.now bug.now
        known.now (S.object_reads disk.old) (S.object_reads disk.new) }
    ensures caused { KeepsFaults S.never_fails S.faults (IsErrOf result ReadStop.Disk)
        disk.old disk.new }
{
    let authors = ids_of(alloc, identities)?;
    let id = &bug.id;
    match read_since::<BugOp, S>(
        alloc,
        disk,
        folder,
        id,
        &bug.name,
        known,
        authors.as_slice(),
    ) {
        Ok(since) => Ok(since),
        Err(fault) => Err(stop_of(alloc, folder, bug, fault)),
    }
}

// What a fault of this bug's entity is to a command.
fn stop_of(alloc: Global, folder: &Folder, bug: &HeadEntry, fault: EntityFault) -> ReadStop
    ensures { StopOf folder.now bug.now.id fault result }
{
    match fault {
        EntityFault::Memory => ReadStop::Memory,
        EntityFault::Disk => ReadStop::Disk,
        _ => damaged(alloc, folder, &Side::Bugs, &bug.id),
    }
}
