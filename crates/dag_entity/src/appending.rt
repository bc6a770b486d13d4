//! Adding a commit to an entity.
ghost use Rattle.std.specs.Prelude.{◌≡◌, ◌≤◌, ◌+◌, ◌∷◌, [], IsTrue, IfOk, IsErrOf};
ghost use Rattle.std.specs.Option.{ForSome};
ghost use Rattle.gb_store.specs.Faults.{KeepsFaults};
ghost use Rattle.git_object.specs.Grammar.{IsCommitText, IsTreeText};
ghost use Rattle.object_store.specs.Held.{Objects, objects_after};
ghost use Rattle.object_batch.specs.Batches.{AllStand};
ghost use Rattle.object_batch.specs.Commits.{written_commit};
ghost use Rattle.op_pack.specs.Heads.{IsClock};
ghost use Rattle.dag_entity.specs.Appending.{AppendAnswers, AppendPlanAnswers, CanBeRead, MayBeWritten, append_plan, appended_name, appended_node, appended_objects, appended_tree, commit_content, tree_content};
ghost use Rattle.dag_entity.specs.Nodes.{IsNode};

use gb_store::Store;
use gb_text::{Bytes, Folder, Id, List, Memory, Name};
use git_object::Kind;
use lamport::Time;
use object_batch::{check_sizes, commit_for, put_all};
use object_store::{ObjectText, PutFault};
use op_kind::OpKind;
use op_pack::{Pack, tree_for};
use std::alloc::Global;

/// A commit that is to be made: its name, the texts of its four objects, in the order in which they are
/// put, and the ids of its operations, in their order.
#[derive(Drop)]
pub struct CommitPlan {
    pub head: Name,
    pub objects: List<ObjectText>,
    pub ids: List<Id>,
}

/// Makes a commit of a pack behind these parents, in this order, and answers its name; `now` is in
/// seconds since 1970. Puts the empty blob, the pack's text as a blob, a tree whose file `ops` names it
/// and which says the version and the clocks, and the commit of that tree, in this order, each where it
/// doesn't stand yet, and no ref. Refuses as `put_all`, before the first write. The pack's id and the
/// places of its operations do not matter: they follow from what is written.
pub fn append<K: OpKind, S: Store>(
    alloc: Global,
    disk: &mut S,
    folder: &Folder,
    parents: &[Name],
    pack: &Pack<K>,
    now: u64,
) -> Result<Name, PutFault>
    requires { MayBeWritten K.meaning pack.now }
    ensures name { IfOk result (λ name. name ≡ appended_name K.meaning parents.now pack.now now) }
    ensures answers { IsTrue S.tells → AppendAnswers folder.now
        (appended_objects K.meaning parents.now pack.now now)
        (S.history disk.old) (S.history disk.new) result }
    ensures node { IsTrue S.tells → CanBeRead K.meaning pack.now
        → IfOk result (λ _. IsNode K.meaning (objects_after (S.history disk.new) folder.now)
        (appended_node K.meaning parents.now pack.now now)) }
    ensures reads { S.object_reads disk.new ≤ S.object_reads disk.old + 4 }
    ensures caused { KeepsFaults S.never_fails S.faults (IsErrOf result PutFault.Disk)
        disk.old disk.new }
{
    let plan = plan_append(alloc, parents, pack, now)?;
    let texts = plan.objects.as_slice();
    put_all(alloc, disk, folder, texts)?;
    Ok(plan.head)
}

/// What `append` makes of these, or its refusal by their sizes. Reads and writes nothing.
pub fn plan_append<K: OpKind>(
    alloc: Global,
    parents: &[Name],
    pack: &Pack<K>,
    now: u64,
) -> Result<CommitPlan, PutFault>
    requires { MayBeWritten K.meaning pack.now }
    ensures answer { AppendPlanAnswers K.meaning parents.now pack.now now result }
    ensures node { CanBeRead K.meaning pack.now → (objects : Objects)
        → AllStand objects (appended_objects K.meaning parents.now pack.now now)
        → IfOk result (λ _. IsNode K.meaning objects
        (appended_node K.meaning parents.now pack.now now)) }
{
    let plan = plan_of(alloc, parents, pack, now)?;
    check_sizes(plan.objects.as_slice())?;
    Ok(plan)
}

// The plan of a commit, whatever its sizes. Its objects are two blobs, the tree and the commit.
fn plan_of<K: OpKind>(
    alloc: Global,
    parents: &[Name],
    pack: &Pack<K>,
    now: u64,
) -> Result<CommitPlan, Memory>
    requires { MayBeWritten K.meaning pack.now }
    ensures plan { IfOk result (λ plan. plan ≡ append_plan K.meaning parents.now pack.now now) }
    ensures node { CanBeRead K.meaning pack.now → (objects : Objects)
        → AllStand objects (appended_objects K.meaning parents.now pack.now now)
        → IfOk result (λ _. IsNode K.meaning objects
        (appended_node K.meaning parents.now pack.now now)) }
{
    let empty = ObjectText::new(alloc, Kind::Blob, b"")?;
    let written = pack.write(alloc)?;
    let blob = ObjectText::new(alloc, Kind::Blob, written.text.as_slice())?;
    let content = tree_content(alloc, pack.edit, pack.create, blob.name())?;
    let tree = ObjectText::new(alloc, Kind::Tree, content.as_slice())?;
    let content = commit_content(alloc, tree.name(), parents, now)?;
    let commit = ObjectText::new(alloc, Kind::Commit, content.as_slice())?;
    let head = commit.name();
    let objects = four(alloc, empty, blob, tree, commit)?;
    Ok(CommitPlan {
        head,
        objects,
        ids: written.ids,
    })
}

// A list of four texts.
fn four(
    alloc: Global,
    empty: ObjectText,
    blob: ObjectText,
    tree: ObjectText,
    commit: ObjectText,
) -> Result<List<ObjectText>, Memory>
    ensures { IfOk result (λ objects. objects ≡ empty ∷ blob ∷ tree ∷ commit ∷ []) }
{
    let mut objects = Vec::new(alloc);
    objects.push(empty)?;
    objects.push(blob)?;
    objects.push(tree)?;
    objects.push(commit)?;
    Ok(List::from_vec(objects))
}

// The content of the tree that says these clocks and whose file `ops` names this object.
fn tree_content(alloc: Global, edit: Time, create: Option<Time>, ops: Name) -> Result<Bytes, Memory>
    ensures edit { IsClock edit }
    ensures create { ForSome create (λ clock. IsClock clock) }
    ensures text { IfOk result (λ text. text ≡ tree_content edit create ops) }
    ensures tree { IfOk result (λ text. IsTreeText text (appended_tree edit create ops)) }
{
    tree_for(alloc, edit, create, &ops)?.write(alloc)
}

// The content of the commit of a tree with these parents.
fn commit_content(alloc: Global, tree: Name, parents: &[Name], now: u64) -> Result<Bytes, Memory>
    ensures text { IfOk result (λ text. text ≡ commit_content tree parents.now now) }
    ensures commit { IfOk result
        (λ text. IsCommitText text (written_commit tree parents.now now)) }
{
    let parents = List::from_vec(Vec::from_slice(alloc, parents)?);
    commit_for(alloc, tree, parents, now)?.write(alloc)
}
