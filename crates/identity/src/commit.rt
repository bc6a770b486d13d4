//! The version of a commit, by way of its tree.
ghost use Rattle.std.specs.Prelude.{◌≡◌, ◌≤◌, ◌+◌, IsTrue, IfOk, IsErrOf};
ghost use Rattle.gb_store.specs.Faults.{KeepsFaults};
ghost use Rattle.object_store.specs.Held.{objects_after};
ghost use Rattle.identity.specs.Commits.{NamesVersion, is_file, is_version_entry, version_object};
ghost use Rattle.identity.specs.Answers.{IsJudged, JudgedAnswers, NameAnswers, ReadingAnswers, RootAnswers, TextAnswers};
ghost use Rattle.identity.specs.Faults.{version_fault};

use crate::fault::IdentityFault;
use crate::version::{Version, id_of_version};
use commit_walk::Link;
use gb_store::Store;
use gb_text::{Bytes, Folder, Id, Name};
use git_object::{Entry, Mode, Tree};
use object_store::{KindFault, get_blob, get_tree};
use std::alloc::Global;

/// A version that was judged: the tree that names it, the object that it is, and what it says.
#[derive(Drop)]
pub struct Judged {
    pub tree: Name,
    pub object: Name,
    pub version: Version,
}

/// The version of a commit, which has no keys. At most two object reads.
pub fn version_of<S: Store>(
    alloc: Global,
    disk: &mut S,
    folder: &Folder,
    link: &Link,
) -> Result<Judged, IdentityFault>
    ensures answers { IsTrue S.tells
        → JudgedAnswers (objects_after (S.history disk.old) folder.now) link.now result }
    ensures unwritten { IsTrue S.tells → S.history disk.new ≡ S.history disk.old }
    ensures reads { S.object_reads disk.new ≤ S.object_reads disk.old + 2 }
    ensures caused { KeepsFaults S.never_fails S.faults (IsErrOf result IdentityFault.Disk)
        disk.old disk.new }
{
    let object = version_name(alloc, disk, folder, link)?;
    judge(alloc, disk, folder, link, object)
}

/// The same, next to a version that was judged before: where the commit has the same tree nothing is
/// read, and where its tree names the same object only the tree is.
pub fn next_version<S: Store>(
    alloc: Global,
    disk: &mut S,
    folder: &Folder,
    link: &Link,
    last: Judged,
) -> Result<Judged, IdentityFault>
    ensures answers { IsTrue S.tells
        → IsJudged (objects_after (S.history disk.old) folder.now) last
        → JudgedAnswers (objects_after (S.history disk.old) folder.now) link.now result }
    ensures unwritten { IsTrue S.tells → S.history disk.new ≡ S.history disk.old }
    ensures reads { S.object_reads disk.new ≤ S.object_reads disk.old + 2 }
    ensures same_tree { link.now.tree ≡ last.tree
        → S.object_reads disk.new ≡ S.object_reads disk.old }
    ensures same_object { IsTrue S.tells
        → NamesVersion (objects_after (S.history disk.old) folder.now) link.now.tree last.object
        → S.object_reads disk.new ≤ S.object_reads disk.old + 1 }
    ensures caused { KeepsFaults S.never_fails S.faults (IsErrOf result IdentityFault.Disk)
        disk.old disk.new }
{
    if link.tree == last.tree {
        return Ok(last);
    }
    let object = version_name(alloc, disk, folder, link)?;
    if object == last.object {
        return Ok(Judged {
            tree: link.tree,
            object,
            version: last.version,
        });
    }
    judge(alloc, disk, folder, link, object)
}

/// The version of the first commit, which has no keys and whose text has the id.
pub fn first_version<S: Store>(
    alloc: Global,
    disk: &mut S,
    folder: &Folder,
    id: &Id,
    root: &Link,
) -> Result<Judged, IdentityFault>
    ensures answers { IsTrue S.tells
        → RootAnswers (objects_after (S.history disk.old) folder.now) id.now root.now result }
    ensures tree { IfOk result (λ first. first.tree ≡ root.now.tree) }
    ensures unwritten { IsTrue S.tells → S.history disk.new ≡ S.history disk.old }
    ensures reads { S.object_reads disk.new ≤ S.object_reads disk.old + 2 }
    ensures caused { KeepsFaults S.never_fails S.faults (IsErrOf result IdentityFault.Disk)
        disk.old disk.new }
{
    let object = version_name(alloc, disk, folder, root)?;
    let text = version_bytes(alloc, disk, folder, root, &object)?;
    let version = read_version(alloc, &root.name, text.as_slice())?;
    let found = id_of_version(text.as_slice());
    if found == *id {
        Ok(Judged {
            tree: root.tree,
            object,
            version,
        })
    } else {
        Err(IdentityFault::WrongId(found))
    }
}

/// The version of a commit whose tree names this object as it. At most one object read.
pub fn judge<S: Store>(
    alloc: Global,
    disk: &mut S,
    folder: &Folder,
    link: &Link,
    object: Name,
) -> Result<Judged, IdentityFault>
    ensures answers { IsTrue S.tells
        → NamesVersion (objects_after (S.history disk.old) folder.now) link.now.tree object
        → JudgedAnswers (objects_after (S.history disk.old) folder.now) link.now result }
    ensures unwritten { IsTrue S.tells → S.history disk.new ≡ S.history disk.old }
    ensures reads { S.object_reads disk.new ≤ S.object_reads disk.old + 1 }
    ensures caused { KeepsFaults S.never_fails S.faults (IsErrOf result IdentityFault.Disk)
        disk.old disk.new }
{
    let text = version_bytes(alloc, disk, folder, link, &object)?;
    let version = read_version(alloc, &link.name, text.as_slice())?;
    Ok(Judged {
        tree: link.tree,
        object,
        version,
    })
}

// The version that the text of a commit is.
fn read_version(alloc: Global, name: &Name, text: &[u8]) -> Result<Version, IdentityFault>
    ensures { ReadingAnswers name.now text.now result }
{
    match Version::read(alloc, text)? {
        None => Err(IdentityFault::BadVersion(*name)),
        Some(version) if version.has_keys => Err(IdentityFault::KeysPresent(*name)),
        Some(version) => Ok(version),
    }
}

/// The object that the tree of a commit names as its version. At most one object read.
pub fn version_name<S: Store>(
    alloc: Global,
    disk: &mut S,
    folder: &Folder,
    link: &Link,
) -> Result<Name, IdentityFault>
    ensures answers { IsTrue S.tells
        → NameAnswers (objects_after (S.history disk.old) folder.now) link.now result }
    ensures unwritten { IsTrue S.tells → S.history disk.new ≡ S.history disk.old }
    ensures reads { S.object_reads disk.new ≤ S.object_reads disk.old + 1 }
    ensures caused { KeepsFaults S.never_fails S.faults (IsErrOf result IdentityFault.Disk)
        disk.old disk.new }
{
    let tree = match get_tree(alloc, disk, folder, &link.tree) {
        Ok(tree) => tree,
        Err(fault) => return Err(version_fault(&link.name, fault)),
    };
    match version_object(&tree) {
        Some(object) => Ok(object),
        None => Err(IdentityFault::BadVersion(link.name)),
    }
}

// The bytes of the blob that the tree of a commit names as its version.
fn version_bytes<S: Store>(
    alloc: Global,
    disk: &mut S,
    folder: &Folder,
    link: &Link,
    object: &Name,
) -> Result<Bytes, IdentityFault>
    ensures answers { IsTrue S.tells
        → NamesVersion (objects_after (S.history disk.old) folder.now) link.now.tree object.now
        → TextAnswers (objects_after (S.history disk.old) folder.now) link.now result }
    ensures unwritten { IsTrue S.tells → S.history disk.new ≡ S.history disk.old }
    ensures reads { S.object_reads disk.new ≤ S.object_reads disk.old + 1 }
    ensures caused { KeepsFaults S.never_fails S.faults (IsErrOf result IdentityFault.Disk)
        disk.old disk.new }
{
    match get_blob(alloc, disk, folder, object) {
        Ok(text) => Ok(text),
        Err(fault) => Err(version_fault(&link.name, fault)),
    }
}

// A fault of the tree or of the text of the version of this commit.
fn version_fault(of: &Name, fault: KindFault) -> IdentityFault
    ensures { result ≡ version_fault of.now fault }
{
    match fault {
        KindFault::OtherKind(_) => IdentityFault::BadVersion(*of),
        fault => IdentityFault::from(fault),
    }
}

// The object that a tree's file `version` is.
fn version_object(tree: &Tree) -> Option<Name>
    ensures { result ≡ version_object tree.now }
{
    let entries = tree.entries.as_slice();
    let entry = entries.iter().find(|entry| is_version_entry(entry))?;
    Some(entry.object)
}

fn is_version_entry(entry: &Entry) -> bool
    ensures { result ≡ is_version_entry entry.now }
{
    entry.name.as_slice() == b"version".as_slice() && is_file(entry.mode)
}

fn is_file(mode: Mode) -> bool
    ensures { result ≡ is_file mode }
{
    matches!(mode, Mode::Plain | Mode::Exec)
}
