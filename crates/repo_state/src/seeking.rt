//! The bugs that are read to find a comment.
ghost use Rattle.std.specs.Prelude.{◌≡◌, IfOk, IsTrue, IsErrOf};
ghost use Rattle.bug_ops.specs.Kind.{bug_kind};
ghost use Rattle.dag_entity.specs.Entities.{KeepsRules};
ghost use Rattle.gb_store.specs.Faults.{KeepsFaults};
ghost use Rattle.gb_store.specs.Files.{files_of};
ghost use Rattle.gb_text.specs.Digits.{IsId};
ghost use Rattle.gb_text.specs.Prefix.{digits_of};
ghost use Rattle.repo_state.specs.Bugs.{ReadsBelow};
ghost use Rattle.repo_state.specs.Comments.{bug_digits};
ghost use Rattle.repo_state.specs.Listed.{AreIdentityRefs};
ghost use Rattle.repo_state.specs.Seeking.{BugAdded, HasRules, IdAdded, ReadsAmong, ReadsIfSought, SeekAnswers, with_entity};
ghost use Rattle.repo_state.specs.Sides.{AreIds};
ghost use Rattle.repo_state.specs.declared.side.Side.TheVariants as side;

use crate::bugs::bug_among;
use crate::fitting::{Fitting, with_comments};
use crate::operations::comment_ids;
use crate::refs::head;
use crate::side::{HeadEntry, Side};
use crate::stop::ReadStop;
use bug_ops::BugOp;
use dag_entity::Entity;
use gb_store::Store;
use gb_text::{Folder, Id, Prefix};
use ref_store::RefEntry;
use std::alloc::Global;

/// What was found in the bugs so far: the comments that fit, and the entity of the bug of an only one.
#[derive(Drop)]
pub(crate) struct Sought {
    pub fitting: Fitting,
    pub entity: Option<Entity<BugOp>>,
}

// What is found in the bugs with these ids. Those are read that the digits at a bug's places fit.
pub(crate) fn seek<S: Store>(
    alloc: Global,
    disk: &mut S,
    folder: &Folder,
    prefix: &Prefix,
    of_bug: &Prefix,
    ids: &[Id],
    identities: &[RefEntry],
) -> Result<Sought, ReadStop>
    requires { digits_of of_bug.now ≡ bug_digits (digits_of prefix.now) }
    ensures answers { IsTrue S.tells
        → AreIds (files_of (S.history disk.old)) folder.now side.Bugs ids.now
        → AreIdentityRefs (files_of (S.history disk.old)) folder.now identities.now
        → SeekAnswers (files_of (S.history disk.old)) folder.now (digits_of prefix.now) ids.now
        result }
    ensures rules { IfOk result (λ sought. HasRules sought.entity) }
    ensures unwritten { IsTrue S.tells → S.history disk.new ≡ S.history disk.old }
    ensures reads { IsTrue S.tells
        → AreIds (files_of (S.history disk.old)) folder.now side.Bugs ids.now
        → ReadsAmong (files_of (S.history disk.old)) folder.now (digits_of prefix.now) ids.now
        (S.object_reads disk.old) (S.object_reads disk.new) }
    ensures caused { KeepsFaults S.never_fails S.faults (IsErrOf result ReadStop.Disk)
        disk.old disk.new }
{
    let mut sought = Sought {
        fitting: Fitting::Nothing,
        entity: None,
    };
    for id in ids {
        sought = with_id(alloc, disk, folder, prefix, of_bug, id, identities, sought)?;
    }
    Ok(sought)
}

// What is found once the bug with this id is read too, if it is to be read.
fn with_id<S: Store>(
    alloc: Global,
    disk: &mut S,
    folder: &Folder,
    prefix: &Prefix,
    of_bug: &Prefix,
    id: &Id,
    identities: &[RefEntry],
    before: Sought,
) -> Result<Sought, ReadStop>
    requires digits { digits_of of_bug.now ≡ bug_digits (digits_of prefix.now) }
    requires rules { HasRules before.entity }
    ensures answers { IsTrue S.tells → IsId id.now
        → AreIdentityRefs (files_of (S.history disk.old)) folder.now identities.now
        → IdAdded (files_of (S.history disk.old)) folder.now (digits_of prefix.now) id.now before
        result }
    ensures rules { IfOk result (λ sought. HasRules sought.entity) }
    ensures unwritten { IsTrue S.tells → S.history disk.new ≡ S.history disk.old }
    ensures reads { IsTrue S.tells → IsId id.now
        → ReadsIfSought (files_of (S.history disk.old)) folder.now (digits_of prefix.now) id.now
        (S.object_reads disk.old) (S.object_reads disk.new) }
    ensures caused { KeepsFaults S.never_fails S.faults (IsErrOf result ReadStop.Disk)
        disk.old disk.new }
{
    if !of_bug.fits(id) {
        return Ok(before);
    }
    let Some(name) = head(alloc, disk, folder, &Side::Bugs, id)? else {
        return Ok(before);
    };
    let bug = HeadEntry { id: *id, name };
    with_bug(alloc, disk, folder, prefix, &bug, identities, before)
}

// What is found once the bug at this head is read too.
fn with_bug<S: Store>(
    alloc: Global,
    disk: &mut S,
    folder: &Folder,
    prefix: &Prefix,
    bug: &HeadEntry,
    identities: &[RefEntry],
    before: Sought,
) -> Result<Sought, ReadStop>
    requires rules { HasRules before.entity }
    ensures answers { IsTrue S.tells
        → AreIdentityRefs (files_of (S.history disk.old)) folder.now identities.now
        → BugAdded (files_of (S.history disk.old)) folder.now (digits_of prefix.now) bug.now before
        result }
    ensures rules { IfOk result (λ sought. HasRules sought.entity) }
    ensures unwritten { IsTrue S.tells → S.history disk.new ≡ S.history disk.old }
    ensures reads { IsTrue S.tells → ReadsBelow (files_of (S.history disk.old)) folder.now bug.now
        (S.object_reads disk.old) (S.object_reads disk.new) }
    ensures caused { KeepsFaults S.never_fails S.faults (IsErrOf result ReadStop.Disk)
        disk.old disk.new }
{
    let entity = bug_among(alloc, disk, folder, bug, identities)?;
    let comments = comment_ids(alloc, entity.packs.as_slice())?;
    let fitting = with_comments(before.fitting, prefix, bug, comments.as_slice());
    Ok(with_entity(before, fitting, entity))
}

// What is found now, with the entity of the bug that was read last where no comment was found before.
fn with_entity(before: Sought, fitting: Fitting, entity: Entity<BugOp>) -> Sought
    ensures found { result ≡ with_entity before fitting entity }
    ensures rules { HasRules before.entity → KeepsRules bug_kind entity.packs
        → HasRules result.entity }
{
    let entity = match before.fitting {
        Fitting::Nothing => Some(entity),
        Fitting::One(..) | Fitting::Several(..) => before.entity,
    };
    Sought { fitting, entity }
}
