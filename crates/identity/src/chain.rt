//! Persons, by the chains of their versions.
ghost use Rattle.std.specs.Prelude.{◌≡◌, ◌≤◌, ◌+◌, ◌*◌, IsTrue, IfOk, IsErrOf, OnOk, List, length};
ghost use Rattle.gb_store.specs.Faults.{KeepsFaults};
ghost use Rattle.object_store.specs.Held.{objects_after};
ghost use Rattle.commit_walk.specs.Chain.{Walked};
ghost use Rattle.commit_walk.specs.declared.chain.Link.{Link as LinkValue};
ghost use Rattle.commit_walk.specs.declared.below.TheConstants.{MOST_COMMITS};
ghost use Rattle.identity.specs.Version.{person_name};
ghost use Rattle.identity.specs.Answers.{ChainAnswers, CheckAnswers, CountAnswers, IsJudged, LastAnswers, LaterAnswers, WholeAnswers};
ghost use Rattle.identity.specs.Knowing.{ReadsDistinct, ReadsLater, ReadsWalk};

use crate::commit::{Judged, first_version, next_version, version_of};
use crate::fault::IdentityFault;
use crate::known::Known;
use crate::version::Version;
use commit_walk::{Link, walk_chain};
use gb_store::Store;
use gb_text::{Folder, Id, Memory, Name, Text};
use object_store::get_commit;
use std::alloc::Global;

/// Who an identity is by its last version: under which id, at which head, with which name and email.
#[derive(Drop)]
pub struct Person {
    pub id: Id,
    pub head: Name,
    pub name: Text,
    pub email: Text,
}

/// The person of the identity with this id and head. The whole chain is read: each commit, and each
/// tree and version once, however many commits share it.
pub fn read_chain<S: Store>(
    alloc: Global,
    disk: &mut S,
    folder: &Folder,
    id: &Id,
    head: &Name,
) -> Result<Person, IdentityFault>
    ensures answers { IsTrue S.tells
        → ChainAnswers (objects_after (S.history disk.old) folder.now) id.now head.now result }
    ensures unwritten { IsTrue S.tells → S.history disk.new ≡ S.history disk.old }
    ensures reads { S.object_reads disk.new ≤ S.object_reads disk.old + 3 * MOST_COMMITS }
    ensures once { IsTrue S.tells
        → IfOk result (λ _. (walk : List LinkValue)
        → Walked (objects_after (S.history disk.old) folder.now) head.now walk
        → S.object_reads disk.new ≤ S.object_reads disk.old + 3 * length walk) }
    ensures distinct { IsTrue S.tells
        → OnOk result (ReadsWalk (objects_after (S.history disk.old) folder.now) head.now
        (S.object_reads disk.old) (S.object_reads disk.new)) }
    ensures caused { KeepsFaults S.never_fails S.faults (IsErrOf result IdentityFault.Disk)
        disk.old disk.new }
{
    let (_, last) = read_whole(alloc, disk, folder, id, head)?;
    Ok(person_of(alloc, id, head, last)?)
}

/// How many versions the identity with this id and head has, with the refusals of `read_chain`.
pub fn versions<S: Store>(
    alloc: Global,
    disk: &mut S,
    folder: &Folder,
    id: &Id,
    head: &Name,
) -> Result<u64, IdentityFault>
    ensures answers { IsTrue S.tells
        → CountAnswers (objects_after (S.history disk.old) folder.now) id.now head.now result }
    ensures unwritten { IsTrue S.tells → S.history disk.new ≡ S.history disk.old }
    ensures reads { S.object_reads disk.new ≤ S.object_reads disk.old + 3 * MOST_COMMITS }
    ensures once { IfOk result
        (λ count. S.object_reads disk.new ≤ S.object_reads disk.old + 3 * count) }
    ensures distinct { IsTrue S.tells
        → OnOk result (ReadsWalk (objects_after (S.history disk.old) folder.now) head.now
        (S.object_reads disk.old) (S.object_reads disk.new)) }
    ensures caused { KeepsFaults S.never_fails S.faults (IsErrOf result IdentityFault.Disk)
        disk.old disk.new }
{
    let (walk, _) = read_whole(alloc, disk, folder, id, head)?;
    Ok(walk.len() as u64)
}

/// The person that the head alone shows, whatever stands below it. That is the person of a chain
/// that is valid; no other chain is found out.
pub fn read_last<S: Store>(
    alloc: Global,
    disk: &mut S,
    folder: &Folder,
    id: &Id,
    head: &Name,
) -> Result<Person, IdentityFault>
    ensures answers { IsTrue S.tells
        → LastAnswers (objects_after (S.history disk.old) folder.now) id.now head.now result }
    ensures unwritten { IsTrue S.tells → S.history disk.new ≡ S.history disk.old }
    ensures reads { S.object_reads disk.new ≤ S.object_reads disk.old + 3 }
    ensures caused { KeepsFaults S.never_fails S.faults (IsErrOf result IdentityFault.Disk)
        disk.old disk.new }
{
    let commit = get_commit(alloc, disk, folder, head)?;
    let link = Link {
        name: *head,
        tree: commit.tree,
    };
    let last = version_of(alloc, disk, folder, &link)?;
    Ok(person_of(alloc, id, head, last.version)?)
}

// The person that a version shows.
fn person_of(alloc: Global, id: &Id, head: &Name, last: Version) -> Result<Person, Memory>
    ensures { IfOk result
        (λ person. person
        ≡ record { id = id.now; head = head.now; name = person_name last; email = last.email }) }
{
    let name = Text::from_str(alloc, last.person_name())?;
    Ok(Person {
        id: *id,
        head: *head,
        name,
        email: last.email,
    })
}

// The commits of the chain, the root first, and the version of its head.
pub(crate) fn read_whole<S: Store>(
    alloc: Global,
    disk: &mut S,
    folder: &Folder,
    id: &Id,
    head: &Name,
) -> Result<(Vec<Link>, Version), IdentityFault>
    ensures answers { IsTrue S.tells
        → WholeAnswers (objects_after (S.history disk.old) folder.now) id.now head.now result }
    ensures unwritten { IsTrue S.tells → S.history disk.new ≡ S.history disk.old }
    ensures reads { S.object_reads disk.new ≤ S.object_reads disk.old + 3 * MOST_COMMITS }
    ensures once { IfOk result
        (λ whole. S.object_reads disk.new
        ≤ S.object_reads disk.old + 3 * length whole.0.items) }
    ensures distinct { IsTrue S.tells
        → OnOk result (ReadsWalk (objects_after (S.history disk.old) folder.now) head.now
        (S.object_reads disk.old) (S.object_reads disk.new)) }
    ensures caused { KeepsFaults S.never_fails S.faults (IsErrOf result IdentityFault.Disk)
        disk.old disk.new }
{
    let walk = walk_chain(alloc, disk, folder, head)?;
    match check_versions(alloc, disk, folder, id, &walk)? {
        Some(last) => Ok((walk, last)),
        // A walk has the commit of the head.
        None => Err(IdentityFault::NotCommit(*head)),
    }
}

// The last version of these commits, the first of which is to have the id. None where there are none.
fn check_versions<S: Store>(
    alloc: Global,
    disk: &mut S,
    folder: &Folder,
    id: &Id,
    walk: &[Link],
) -> Result<Option<Version>, IdentityFault>
    ensures answers { IsTrue S.tells
        → CheckAnswers (objects_after (S.history disk.old) folder.now) id.now walk.now result }
    ensures unwritten { IsTrue S.tells → S.history disk.new ≡ S.history disk.old }
    ensures reads { S.object_reads disk.new ≤ S.object_reads disk.old + 2 * length walk.now }
    ensures distinct { IsTrue S.tells
        → OnOk result (ReadsDistinct (objects_after (S.history disk.old) folder.now) walk.now
        (S.object_reads disk.old) (S.object_reads disk.new)) }
    ensures caused { KeepsFaults S.never_fails S.faults (IsErrOf result IdentityFault.Disk)
        disk.old disk.new }
{
    let [root, later @ ..] = walk else {
        return Ok(None);
    };
    let first = first_version(alloc, disk, folder, id, root)?;
    let last = last_version(alloc, disk, folder, first, later)?;
    Ok(Some(last))
}

// The last version of these commits, or the one before them where there are none.
fn last_version<S: Store>(
    alloc: Global,
    disk: &mut S,
    folder: &Folder,
    first: Judged,
    later: &[Link],
) -> Result<Version, IdentityFault>
    ensures answers { IsTrue S.tells
        → IsJudged (objects_after (S.history disk.old) folder.now) first
        → LaterAnswers (objects_after (S.history disk.old) folder.now) first.version
        later.now result }
    ensures unwritten { IsTrue S.tells → S.history disk.new ≡ S.history disk.old }
    ensures reads { S.object_reads disk.new ≤ S.object_reads disk.old + 2 * length later.now }
    ensures distinct { IsTrue S.tells
        → OnOk result (ReadsLater (objects_after (S.history disk.old) folder.now) first later.now
        (S.object_reads disk.old) (S.object_reads disk.new)) }
    ensures caused { KeepsFaults S.never_fails S.faults (IsErrOf result IdentityFault.Disk)
        disk.old disk.new }
{
    let Some((head, between)) = later.split_last() else {
        return Ok(first.version);
    };
    let mut known = Known::none(alloc);
    known.add(first.tree, first.object)?;
    let last = next_version(alloc, disk, folder, head, first)?;
    known.add(last.tree, last.object)?;
    known.judge_each(alloc, disk, folder, between)?;
    Ok(last.version)
}
