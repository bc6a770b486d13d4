//! An object of a kind, read from the text that stands under its name.
ghost use Rattle.std.specs.Prelude.{◌≡◌, IsErrOf, Some};
ghost use Rattle.git_object.specs.Views.{commit_seen, object_seen, tree_seen};
ghost use Rattle.object_store.specs.Held.{Answers, Objects, text_at};
ghost use Rattle.object_store.specs.Named.{IsFor, IsNamedBy, IsObjectOf};
ghost use Rattle.object_store.specs.Typed.{AnswersAs, IsForAs, as_commit, as_tree, shown};

use crate::fault::{KindFault, ObjFault};
use gb_text::Name;
use git_object::{CommitView, Object, ObjectView, TreeView};
use std::alloc::Global;

/// The commit that a name holds in each folder where this text stands under it, as `get_text` gives
/// it. It borrows from the text. The fault is that of `get_commit`.
pub fn commit_in<'a>(
    alloc: Global,
    name: &Name,
    text: &'a [u8],
) -> Result<CommitView<'a>, KindFault>
    ensures answers { (objects : Objects) → text_at objects name.now ≡ Some text.now
        → AnswersAs as_commit objects name.now (shown commit_seen result) }
    ensures asked { IsNamedBy name.now text.now
        → IsForAs (λ commit. Object.Commit commit) name.now (shown commit_seen result) }
    ensures undisturbed { IsErrOf result KindFault.Disk → ⊥ }
{
    match object_in(alloc, name, text)? {
        ObjectView::Commit(commit) => Ok(commit),
        ObjectView::Blob(_) | ObjectView::Tree(_) => Err(KindFault::OtherKind(*name)),
    }
}

/// The tree that a name holds in each folder where this text stands under it, as `get_text` gives
/// it. It borrows from the text. The fault is that of `get_tree`.
pub fn tree_in<'a>(alloc: Global, name: &Name, text: &'a [u8]) -> Result<TreeView<'a>, KindFault>
    ensures answers { (objects : Objects) → text_at objects name.now ≡ Some text.now
        → AnswersAs as_tree objects name.now (shown tree_seen result) }
    ensures asked { IsNamedBy name.now text.now
        → IsForAs (λ tree. Object.Tree tree) name.now (shown tree_seen result) }
    ensures undisturbed { IsErrOf result KindFault.Disk → ⊥ }
{
    match object_in(alloc, name, text)? {
        ObjectView::Tree(tree) => Ok(tree),
        ObjectView::Blob(_) | ObjectView::Commit(_) => Err(KindFault::OtherKind(*name)),
    }
}

// The object that a name holds where this text stands under it.
fn object_in<'a>(alloc: Global, name: &Name, text: &'a [u8]) -> Result<ObjectView<'a>, ObjFault>
    ensures answers { (objects : Objects) → text_at objects name.now ≡ Some text.now
        → Answers objects name.now (shown object_seen result) }
    ensures asked { IsNamedBy name.now text.now
        → IsFor (IsObjectOf name.now) name.now (shown object_seen result) }
    ensures undisturbed { IsErrOf result ObjFault.Disk → ⊥ }
{
    match ObjectView::read(alloc, text)? {
        Some(object) => Ok(object),
        None => Err(ObjFault::Damaged(*name)),
    }
}
