//! Two heads of an entity are read together.
ghost use Rattle.std.specs.Prelude.{◌≡◌, ◌∷◌, [], ◌↔◌, IsTrue, IfOk, IsErrOf, Contains};
ghost use Rattle.gb_store.specs.Faults.{KeepsFaults};
ghost use Rattle.object_store.specs.Held.{objects_after};
ghost use Rattle.commit_walk.specs.Searches.{ReadsUntil};
ghost use Rattle.dag_entity.specs.Entities.{KeepsRules, ReadsEach};
ghost use Rattle.dag_entity.specs.Joining.{BothAnswers, HasChild, IfEntity, IfLies, IsKnownEqual};

use crate::entity::Entity;
use crate::fault::EntityFault;
use crate::read::read_walked;
use commit_walk::{Both, Met, walk_both};
use gb_store::Store;
use gb_text::{Folder, Id, Name};
use op_kind::OpKind;
use std::alloc::Global;

/// How two heads lie to each other, and the entity of both where the second is not known below the first.
#[derive(Drop)]
pub enum ReadBoth<K> {
    /// The second head is the first.
    Equal,
    /// The second head is another, and lies below the first.
    Below,
    /// The first head lies below the second, and is not it: the entity of both.
    Above(Entity<K>),
    /// Neither lies below the other: the entity of both.
    Apart(Entity<K>),
}

/// How two heads lie to each other, and the entity of this id at both where the second isn't the first
/// and doesn't lie below it: whatever is wrong below the first, that is found before anything is judged.
/// Of each commit the commit, its tree and its pack are read once. Nothing is written.
pub fn read_both<K: OpKind, S: Store>(
    alloc: Global,
    disk: &mut S,
    folder: &Folder,
    id: &Id,
    first: &Name,
    second: &Name,
    authors: &[Id],
) -> Result<ReadBoth<K>, EntityFault>
    ensures answers { IsTrue S.tells → BothAnswers K.meaning
        (objects_after (S.history disk.old) folder.now) id.now first.now second.now
        authors.now result }
    ensures equal { first.now ≡ second.now
        → IsKnownEqual result (S.object_reads disk.old) (S.object_reads disk.new) }
    ensures rules { IfEntity result (λ entity. KeepsRules K.meaning entity.packs) }
    ensures unwritten { IsTrue S.tells → S.history disk.new ≡ S.history disk.old }
    ensures reads { IsTrue S.tells
        → ReadsEach (objects_after (S.history disk.old) folder.now)
        (first.now ∷ second.now ∷ []) 3 (S.object_reads disk.old) (S.object_reads disk.new) }
    ensures until { IsTrue S.tells → IfLies result
        (ReadsUntil (objects_after (S.history disk.old) folder.now) first.now second.now
        (S.object_reads disk.old) (S.object_reads disk.new)) }
    ensures caused { KeepsFaults S.never_fails S.faults (IsErrOf result EntityFault.Disk)
        disk.old disk.new }
{
    match walk_both(alloc, disk, folder, first, second)? {
        Both::Equal => Ok(ReadBoth::Equal),
        Both::Below => Ok(ReadBoth::Below),
        Both::Walk(walk) => {
            let above = has_child(&walk, first);
            let entity = read_walked(alloc, disk, folder, id, &[*first, *second], authors, walk)?;
            if above {
                return Ok(ReadBoth::Above(entity));
            }
            Ok(ReadBoth::Apart(entity))
        }
    }
}

// Whether a commit among these has the name among its parents.
fn has_child(walk: &[Met], name: &Name) -> bool
    ensures { IsTrue result ↔ HasChild walk.now name.now }
{
    for met in walk {
        if is_parent(name, met) {
            return true;
        }
    }
    false
}

// Whether a name is a parent of a commit.
fn is_parent(name: &Name, met: &Met) -> bool
    ensures { IsTrue result ↔ Contains met.now.parents name.now }
{
    met.parents.as_slice().contains(name)
}
