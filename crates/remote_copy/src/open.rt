//! Opening an object: reading it in the source, and looking whether it stands in the target.
ghost use Rattle.std.specs.Prelude.{◌≡◌, ◌≤◌, ◌+◌, IsTrue, IfOk, IsErrOf, slice_get};
ghost use Rattle.gb_store.specs.Faults.{KeepsFaults};
ghost use Rattle.gb_store.specs.Files.{TellsFile};
ghost use Rattle.git_object.specs.Grammar.{kind_of};
ghost use Rattle.object_store.specs.Held.{Objects, objects_after};
ghost use Rattle.object_store.specs.declared.read.TheConstants.{MOST_BYTES};
ghost use Rattle.remote_copy.specs.Opens.{BeginAnswers, BeginReads, LeftAnswers, OpenAnswers};

use crate::fault::CopyFault;
use crate::find::{find, read_file};
use crate::look::{holds_commit, stands};
use crate::need::{Need, needs_of};
use gb_store::{Content, Store};
use gb_text::{Bytes, Folder, Memory};
use git_object::{Kind, Object};
use std::alloc::Global;

/// The most trees that may lie below a commit's tree, one below the other.
pub const MOST_TREES: usize = 16;

/// An object whose needs are met one after the other.
#[derive(Drop)]
pub struct Open {
    pub need: Need,
    pub text: Bytes,
    /// Whether the text stands in the target.
    pub stands: bool,
    pub needs: Vec<Need>,
    /// So many of the needs are done.
    pub next: usize,
}

impl Open {
    /// The first of the needs that is not done, if there is one.
    pub fn upcoming(&self) -> Option<Need>
        ensures { result ≡ slice_get self.now.needs.items self.now.next }
    {
        self.needs.get(self.next).copied()
    }
}

/// Opens an object. None where it is a commit that is not followed.
pub fn begin<S: Store>(
    alloc: Global,
    disk: &mut S,
    source: &Folder,
    target: &Folder,
    closed: bool,
    need: Need,
) -> Result<Option<Open>, CopyFault>
    ensures answers { IsTrue S.tells
        → BeginAnswers closed (objects_after (S.history disk.old) source.now)
        (objects_after (S.history disk.old) target.now) need result }
    ensures unwritten { IsTrue S.tells → S.history disk.new ≡ S.history disk.old }
    ensures reads { IsTrue S.tells
        → BeginReads closed (objects_after (S.history disk.old) target.now) need
        (S.object_reads disk.old) (S.object_reads disk.new) }
    ensures caused { KeepsFaults S.never_fails S.faults (IsErrOf result CopyFault.Disk)
        disk.old disk.new }
{
    let there = read_file(alloc, disk, target, &need.name)?;
    if is_left(alloc, closed, need, &there)? {
        return Ok(None);
    }
    let found = open_found(alloc, disk, source, need, &there)?;
    Ok(Some(found))
}

// Whether an object is a commit that is not followed, where this was read in the target.
fn is_left(alloc: Global, closed: bool, need: Need, there: &Content) -> Result<bool, Memory>
    ensures { (target : Objects) → TellsFile (target need.name) MOST_BYTES there.now
        → IfOk result (LeftAnswers closed target need) }
{
    if !closed || need.kind != Kind::Commit {
        return Ok(false);
    }
    holds_commit(alloc, &need.name, there)
}

// Opens an object of the part, where this was read under its name in the target.
fn open_found<S: Store>(
    alloc: Global,
    disk: &mut S,
    source: &Folder,
    need: Need,
    there: &Content,
) -> Result<Open, CopyFault>
    ensures answers { IsTrue S.tells → (target : Objects)
        → TellsFile (target need.name) MOST_BYTES there.now
        → OpenAnswers (objects_after (S.history disk.old) source.now) target need result }
    ensures unwritten { IsTrue S.tells → S.history disk.new ≡ S.history disk.old }
    ensures reads { S.object_reads disk.new ≤ S.object_reads disk.old + 1 }
    ensures caused { KeepsFaults S.never_fails S.faults (IsErrOf result CopyFault.Disk)
        disk.old disk.new }
{
    let found = find(alloc, disk, source, &need.name)?;
    if kind_of(&found.object) != need.kind {
        return Err(CopyFault::WrongKind(need.name));
    }
    Ok(Open {
        need,
        stands: stands(&need.name, found.text.as_slice(), there)?,
        needs: needs_of(alloc, &found.object)?,
        text: found.text,
        next: 0,
    })
}

// The kind of an object.
fn kind_of(object: &Object) -> Kind
    ensures { result ≡ kind_of object.now }
{
    match object {
        Object::Blob(_) => Kind::Blob,
        Object::Tree(_) => Kind::Tree,
        Object::Commit(_) => Kind::Commit,
    }
}
