//! New versions of an identity, as they are written.
ghost use Rattle.std.specs.Prelude.{◌≡◌, ◌≤◌, ◌+◌, ◌∷◌, [], IsTrue, IfOk, IsErrOf};
ghost use Rattle.gb_store.specs.Faults.{KeepsFaults};
ghost use Rattle.git_object.specs.Grammar.{IsCommitText, IsTreeText};
ghost use Rattle.identity.specs.Version.{text_with};
ghost use Rattle.identity.specs.Making.{MakingAnswers, PlanAnswers, commit_content, made_of, tree_content, version_commit, version_plan, version_tree};

use crate::version::{id_of_version, version_text};
use gb_store::Store;
use gb_text::{Bytes, Folder, GREATEST_TIME, Id, Line, List, Memory, Name, Title};
use git_object::{Entry, Kind, Mode, Tree};
use object_batch::{check_sizes, commit_for, put_all};
use object_store::{ObjectText, PutFault};
use std::alloc::Global;

/// A version that was made: the SHA-256 of its text, which is the id of the identity that it begins,
/// and its commit.
#[derive(Clone, Copy, Debug, PartialEq, Eq)]
pub struct Made {
    pub id: Id,
    pub head: Name,
}

/// A version that is to be made: what is made of it, and the texts of its three objects, in the order
/// in which they are put.
#[derive(Drop)]
pub struct VersionPlan {
    pub made: Made,
    pub objects: List<ObjectText>,
}

/// Makes a version with this name, email, nonce and time, in seconds since 1970: its text as a blob, a
/// tree whose entry `version` names the blob, and a commit of that tree behind the parent, if there is
/// one. Puts these three in this order, each where it doesn't stand yet, and no ref. Refuses as
/// `put_all`, before the first write. Without a parent it begins the chain of a new identity; behind
/// the head of an identity's chain of fewer than 65,536 versions it goes on with that chain.
pub fn new_version<S: Store>(
    alloc: Global,
    disk: &mut S,
    folder: &Folder,
    parent: Option<Name>,
    name: &Title,
    email: &Line,
    nonce: &[u8; 32],
    now: u64,
) -> Result<Made, PutFault>
    requires moment { now ≤ GREATEST_TIME }
    ensures made { IfOk result
        (λ made. made ≡ made_of (text_with name.now email.now nonce.now now) parent now) }
    ensures answers { IsTrue S.tells
        → MakingAnswers folder.now (text_with name.now email.now nonce.now now) parent now
        (S.history disk.old) (S.history disk.new) result }
    ensures reads { S.object_reads disk.new ≤ S.object_reads disk.old + 3 }
    ensures caused { KeepsFaults S.never_fails S.faults (IsErrOf result PutFault.Disk)
        disk.old disk.new }
{
    let plan = plan_version(alloc, parent, name, email, nonce, now)?;
    put_all(alloc, disk, folder, plan.objects.as_slice())?;
    Ok(plan.made)
}

/// What `new_version` makes of these, or its refusal by their sizes. Reads and writes nothing.
pub fn plan_version(
    alloc: Global,
    parent: Option<Name>,
    name: &Title,
    email: &Line,
    nonce: &[u8; 32],
    now: u64,
) -> Result<VersionPlan, PutFault>
    requires moment { now ≤ GREATEST_TIME }
    ensures { PlanAnswers (text_with name.now email.now nonce.now now) parent now result }
{
    let version = version_text(alloc, name, email, nonce, now)?;
    let plan = plan_of(alloc, version.as_slice(), parent, now)?;
    check_sizes(plan.objects.as_slice())?;
    Ok(plan)
}

// The plan of a version with this text. Its objects are the blob, the tree and the commit.
fn plan_of(
    alloc: Global,
    version: &[u8],
    parent: Option<Name>,
    now: u64,
) -> Result<VersionPlan, Memory>
    ensures { IfOk result (λ plan. plan ≡ version_plan version.now parent now) }
{
    let blob = ObjectText::new(alloc, Kind::Blob, version)?;
    let tree = ObjectText::new(
        alloc,
        Kind::Tree,
        tree_content(alloc, blob.name())?.as_slice(),
    )?;
    let content = commit_content(alloc, tree.name(), parent, now)?;
    let commit = ObjectText::new(alloc, Kind::Commit, content.as_slice())?;
    let made = Made {
        id: id_of_version(version),
        head: commit.name(),
    };
    let objects = three(alloc, blob, tree, commit)?;
    Ok(VersionPlan { made, objects })
}

// A list of three texts.
fn three(
    alloc: Global,
    blob: ObjectText,
    tree: ObjectText,
    commit: ObjectText,
) -> Result<List<ObjectText>, Memory>
    ensures { IfOk result (λ objects. objects ≡ blob ∷ tree ∷ commit ∷ []) }
{
    let mut objects = Vec::new(alloc);
    objects.push(blob)?;
    objects.push(tree)?;
    objects.push(commit)?;
    Ok(List::from_vec(objects))
}

// The content of the tree whose entry `version` names the blob.
fn tree_content(alloc: Global, blob: Name) -> Result<Bytes, Memory>
    ensures text { IfOk result (λ text. text ≡ tree_content blob) }
    ensures tree { IfOk result (λ text. IsTreeText text (version_tree blob)) }
{
    version_tree(alloc, blob)?.write(alloc)
}

fn version_tree(alloc: Global, blob: Name) -> Result<Tree, Memory>
    ensures tree { IfOk result (λ tree. tree ≡ version_tree blob) }
{
    let mut entries = Vec::new(alloc);
    entries.push(Entry {
        mode: Mode::Plain,
        name: Bytes::from_slice(alloc, b"version")?,
        object: blob,
    })?;
    Ok(Tree {
        entries: List::from_vec(entries),
    })
}

// The content of the commit of a version's tree.
fn commit_content(
    alloc: Global,
    tree: Name,
    parent: Option<Name>,
    now: u64,
) -> Result<Bytes, Memory>
    ensures text { IfOk result (λ text. text ≡ commit_content tree parent now) }
    ensures commit { IfOk result (λ text. IsCommitText text (version_commit tree parent now)) }
{
    let mut parents = Vec::new(alloc);
    if let Some(parent) = parent {
        parents.push(parent)?;
    }
    commit_for(alloc, tree, List::from_vec(parents), now)?.write(alloc)
}
