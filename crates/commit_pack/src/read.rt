//! Reading the pack of a commit.
ghost use Rattle.std.specs.Prelude.{◌≡◌, ◌≤◌, ◌+◌, IsTrue, IfOk, IsErrOf};
ghost use Rattle.std.specs.List.{AllByRecursion};
ghost use Rattle.gb_store.specs.Faults.{KeepsFaults};
ghost use Rattle.object_store.specs.Held.{objects_after};
ghost use Rattle.commit_pack.specs.Answers.{HeadAnswers, PackAnswers};

use crate::fault::CommitPackFault;
use gb_store::Store;
use gb_text::{Folder, Name};
use object_store::{KindFault, get_blob, get_text, tree_in};
use op_kind::OpKind;
use op_pack::{Pack, TreeHead, read_head};
use std::alloc::Global;

/// The pack of a commit that names this tree: what the tree says, and the text of the blob that the
/// tree's file `ops` names (git-bug's data model, format 4). At most two object reads.
pub fn read_pack<K: OpKind, S: Store>(
    alloc: Global,
    disk: &mut S,
    folder: &Folder,
    tree: &Name,
) -> Result<Pack<K>, CommitPackFault>
    ensures answers { IsTrue S.tells → PackAnswers K.meaning
        (objects_after (S.history disk.old) folder.now) tree.now result }
    ensures rules { IfOk result (λ pack. AllByRecursion K.meaning.KeepsRules pack.ops) }
    ensures unwritten { IsTrue S.tells → S.history disk.new ≡ S.history disk.old }
    ensures reads { S.object_reads disk.new ≤ S.object_reads disk.old + 2 }
    ensures caused { KeepsFaults S.never_fails S.faults (IsErrOf result CommitPackFault.Disk)
        disk.old disk.new }
{
    let head = tree_head(alloc, disk, folder, tree)?;
    let text = match get_blob(alloc, disk, folder, &head.ops) {
        Ok(text) => text,
        Err(fault) => return Err(CommitPackFault::of_ops(fault)),
    };
    Ok(Pack::read(alloc, &head, text.as_slice())?)
}

// What the tree under a name says of a pack.
fn tree_head<S: Store>(
    alloc: Global,
    disk: &mut S,
    folder: &Folder,
    tree: &Name,
) -> Result<TreeHead, CommitPackFault>
    ensures answers { IsTrue S.tells
        → HeadAnswers (objects_after (S.history disk.old) folder.now) tree.now result }
    ensures unwritten { IsTrue S.tells → S.history disk.new ≡ S.history disk.old }
    ensures reads { S.object_reads disk.new ≤ S.object_reads disk.old + 1 }
    ensures caused { KeepsFaults S.never_fails S.faults (IsErrOf result CommitPackFault.Disk)
        disk.old disk.new }
{
    let text = match get_text(alloc, disk, folder, tree) {
        Ok(text) => text,
        Err(fault) => return Err(CommitPackFault::of_tree(KindFault::from(fault))),
    };
    match tree_in(alloc, tree, text.as_slice()) {
        Ok(tree) => Ok(read_head(&tree)?),
        Err(fault) => Err(CommitPackFault::of_tree(fault)),
    }
}
