//! What an argument finds that is the first digits of a comment's id.
ghost use Rattle.std.specs.Prelude.{◌≡◌, IfOk, IsTrue, IsErrOf};
ghost use Rattle.bug_ops.specs.Kind.{bug_kind};
ghost use Rattle.dag_entity.specs.Entities.{KeepsRules};
ghost use Rattle.gb_store.specs.Faults.{KeepsFaults};
ghost use Rattle.gb_store.specs.Files.{files_of};
ghost use Rattle.gb_text.specs.Prefix.{digits_of};
ghost use Rattle.repo_state.specs.Comments.{ReadsSought, whole_comment_finder};
ghost use Rattle.repo_state.specs.Finds.{FinderAnswers};
ghost use Rattle.repo_state.specs.Seeking.{HasRules, answer_of};

use crate::fitting::Fitting;
use crate::listing::identity_refs;
use crate::refs::ids;
use crate::seeking::{Sought, seek};
use crate::side::{HeadEntry, Side};
use crate::stop::{FindStop, Missed};
use bug_ops::BugOp;
use combined_id::split_prefix;
use dag_entity::Entity;
use gb_store::Store;
use gb_text::{Folder, Id, Prefix};
use std::alloc::Global;

/// A comment of a bug: the bug, at its head, and the id of the operation that made the comment.
#[derive(Clone, Copy, Debug, PartialEq, Eq)]
pub struct CommentEntry {
    pub bug: HeadEntry,
    pub comment: Id,
}

/// A comment, with the entity of its bug.
#[derive(Drop)]
pub struct FoundComment {
    pub entry: CommentEntry,
    pub entity: Entity<BugOp>,
}

/// The only comment whose id begins with an argument of 1 to 64 lower-case digits, with the entity of its
/// bug. Of the bugs are read, once each and in the order of their ids, those whose ids begin with the
/// digits of the argument at a bug's places. Their authors are to be local identities. `Damaged`, with the
/// path of its ref, for the first of these that is damaged; else `Ambiguous` with the ids of the two least
/// where there are several comments, and `NotFound` where there is none. Memory is taken for the entities
/// of two bugs at a time.
pub fn find_comment<S: Store>(
    alloc: Global,
    disk: &mut S,
    folder: &Folder,
    word: &str,
) -> Result<FoundComment, FindStop>
    ensures answers { IsTrue S.tells → FinderAnswers
        (whole_comment_finder (files_of (S.history disk.old)) folder.now word.now) result }
    ensures rules { IfOk result (λ found. KeepsRules bug_kind found.entity.packs) }
    ensures unwritten { IsTrue S.tells → S.history disk.new ≡ S.history disk.old }
    ensures reads { IsTrue S.tells → ReadsSought (files_of (S.history disk.old)) folder.now word.now
        (S.object_reads disk.old) (S.object_reads disk.new) }
    ensures caused { KeepsFaults S.never_fails S.faults (IsErrOf result FindStop.Disk)
        disk.old disk.new }
{
    match Prefix::read(word.as_bytes()) {
        Some(prefix) => find_begun(alloc, disk, folder, &prefix),
        None => Err(FindStop::Missed(Missed::NotFound)),
    }
}

// The only comment whose id begins with these digits, as `find_comment`.
fn find_begun<S: Store>(
    alloc: Global,
    disk: &mut S,
    folder: &Folder,
    prefix: &Prefix,
) -> Result<FoundComment, FindStop>
    ensures answers { IsTrue S.tells → FinderAnswers
        (whole_comment_finder (files_of (S.history disk.old)) folder.now (digits_of prefix.now))
        result }
    ensures rules { IfOk result (λ found. KeepsRules bug_kind found.entity.packs) }
    ensures unwritten { IsTrue S.tells → S.history disk.new ≡ S.history disk.old }
    ensures reads { IsTrue S.tells
        → ReadsSought (files_of (S.history disk.old)) folder.now (digits_of prefix.now)
        (S.object_reads disk.old) (S.object_reads disk.new) }
    ensures caused { KeepsFaults S.never_fails S.faults (IsErrOf result FindStop.Disk)
        disk.old disk.new }
{
    let Some(of_bug) = split_prefix(prefix).first else {
        return Err(FindStop::Missed(Missed::NotFound));
    };
    let bugs = ids(alloc, disk, folder, &Side::Bugs)?;
    let identities = identity_refs(alloc, disk, folder)?;
    let (bugs, identities) = (bugs.as_slice(), identities.as_slice());
    answer(seek(alloc, disk, folder, prefix, &of_bug, bugs, identities)?)
}

// The comment that was found with its bug's entity, or why there is none.
fn answer(sought: Sought) -> Result<FoundComment, FindStop>
    ensures found { result ≡ answer_of sought.fitting sought.entity }
    ensures rules { HasRules sought.entity
        → IfOk result (λ found. KeepsRules bug_kind found.entity.packs) }
{
    match (sought.fitting, sought.entity) {
        (Fitting::One(entry, _), Some(entity)) => Ok(FoundComment { entry, entity }),
        (Fitting::Several(least, next), _) => {
            Err(FindStop::Missed(Missed::Ambiguous(least, next)))
        }
        _ => Err(FindStop::Missed(Missed::NotFound)),
    }
}
