//! Reading an object of a kind.
ghost use Rattle.std.specs.Prelude.{◌≡◌, IsTrue, IsErrOf};
ghost use Rattle.gb_store.specs.Faults.{KeepsFaults};
ghost use Rattle.object_store.specs.Held.{ReadsOne, objects_after};
ghost use Rattle.object_store.specs.Typed.{AnswersAs, IsForAs, as_blob, as_commit, as_tree};

use crate::fault::KindFault;
use crate::read::get;
use gb_store::Store;
use gb_text::{Bytes, Folder, Name};
use git_object::{Commit, Object, Tree};
use std::alloc::Global;

/// The commit that a name holds, read by `get`. A name that holds another object is `OtherKind`.
pub fn get_commit<S: Store>(
    alloc: Global,
    disk: &mut S,
    folder: &Folder,
    name: &Name,
) -> Result<Commit, KindFault>
    ensures answers { IsTrue S.tells
        → AnswersAs as_commit (objects_after (S.history disk.old) folder.now) name.now result }
    ensures asked { IsForAs (λ commit. Object.Commit commit) name.now result }
    ensures unwritten { IsTrue S.tells → S.history disk.new ≡ S.history disk.old }
    ensures reads { ReadsOne (IsErrOf result KindFault.Memory)
        (S.object_reads disk.old) (S.object_reads disk.new) }
    ensures caused { KeepsFaults S.never_fails S.faults (IsErrOf result KindFault.Disk)
        disk.old disk.new }
{
    match get(alloc, disk, folder, name)? {
        Object::Commit(commit) => Ok(commit),
        Object::Blob(_) | Object::Tree(_) => Err(KindFault::OtherKind(*name)),
    }
}

/// The tree that a name holds, read by `get`. A name that holds another object is `OtherKind`.
pub fn get_tree<S: Store>(
    alloc: Global,
    disk: &mut S,
    folder: &Folder,
    name: &Name,
) -> Result<Tree, KindFault>
    ensures answers { IsTrue S.tells
        → AnswersAs as_tree (objects_after (S.history disk.old) folder.now) name.now result }
    ensures asked { IsForAs (λ tree. Object.Tree tree) name.now result }
    ensures unwritten { IsTrue S.tells → S.history disk.new ≡ S.history disk.old }
    ensures reads { ReadsOne (IsErrOf result KindFault.Memory)
        (S.object_reads disk.old) (S.object_reads disk.new) }
    ensures caused { KeepsFaults S.never_fails S.faults (IsErrOf result KindFault.Disk)
        disk.old disk.new }
{
    match get(alloc, disk, folder, name)? {
        Object::Tree(tree) => Ok(tree),
        Object::Blob(_) | Object::Commit(_) => Err(KindFault::OtherKind(*name)),
    }
}

/// The blob that a name holds, read by `get`. A name that holds another object is `OtherKind`.
pub fn get_blob<S: Store>(
    alloc: Global,
    disk: &mut S,
    folder: &Folder,
    name: &Name,
) -> Result<Bytes, KindFault>
    ensures answers { IsTrue S.tells
        → AnswersAs as_blob (objects_after (S.history disk.old) folder.now) name.now result }
    ensures asked { IsForAs (λ blob. Object.Blob blob) name.now result }
    ensures unwritten { IsTrue S.tells → S.history disk.new ≡ S.history disk.old }
    ensures reads { ReadsOne (IsErrOf result KindFault.Memory)
        (S.object_reads disk.old) (S.object_reads disk.new) }
    ensures caused { KeepsFaults S.never_fails S.faults (IsErrOf result KindFault.Disk)
        disk.old disk.new }
{
    match get(alloc, disk, folder, name)? {
        Object::Blob(blob) => Ok(blob),
        Object::Tree(_) | Object::Commit(_) => Err(KindFault::OtherKind(*name)),
    }
}
