//! What an entity has since a known head.
ghost use Rattle.std.specs.Prelude.{◌≡◌, ◌∷◌, [], map, IsTrue, IfOk, IsErrOf};
ghost use Rattle.gb_store.specs.Faults.{KeepsFaults};
ghost use Rattle.object_store.specs.Held.{objects_after};
ghost use Rattle.dag_entity.specs.Entities.{KeepsRules, ReadsEach};
ghost use Rattle.dag_entity.specs.Loading.{placed_of};
ghost use Rattle.dag_entity.specs.Since.{IfPacks, IsKnownSame, ReadsChain, SinceAnswers};

use crate::entity::{Entity, Loaded, Placed};
use crate::fault::EntityFault;
use crate::load::load_all;
use crate::read::read_walked;
use commit_walk::{Above, walk_above};
use gb_store::Store;
use gb_text::{Folder, Id, List, Memory, Name};
use op_kind::OpKind;
use std::alloc::Global;

/// What an entity has at a head since a known name.
#[derive(Drop)]
pub enum Since<K> {
    /// The head is the known name.
    Same,
    /// Steps from a commit to its only parent lead from the head to the known name: the commits above
    /// it with their packs, at least one, the lowest first.
    Chain(List<Placed<K>>),
    /// No such steps lead there: the entity at the head.
    Whole(Entity<K>),
}

/// The packs above a known name, if steps from a commit to its only parent lead there from the head of
/// the entity of this id; and otherwise the entity at the head. Nothing is judged of a chain: where the
/// entity at the head is valid, it is that at the known name with these packs behind the others. Each
/// commit, its tree and its pack are read once, nothing below the known name is read where such steps
/// lead there, and nothing is written.
pub fn read_since<K: OpKind, S: Store>(
    alloc: Global,
    disk: &mut S,
    folder: &Folder,
    id: &Id,
    head: &Name,
    known: &Name,
    authors: &[Id],
) -> Result<Since<K>, EntityFault>
    ensures answers { IsTrue S.tells → SinceAnswers K.meaning
        (objects_after (S.history disk.old) folder.now) id.now head.now known.now authors.now
        result }
    ensures same { head.now ≡ known.now
        → IsKnownSame result (S.object_reads disk.old) (S.object_reads disk.new) }
    ensures rules { IfPacks result (λ packs. KeepsRules K.meaning packs) }
    ensures unwritten { IsTrue S.tells → S.history disk.new ≡ S.history disk.old }
    ensures reads { IsTrue S.tells
        → ReadsEach (objects_after (S.history disk.old) folder.now) (head.now ∷ []) 3
        (S.object_reads disk.old) (S.object_reads disk.new) }
    ensures above { IsTrue S.tells
        → ReadsChain K.meaning (objects_after (S.history disk.old) folder.now) head.now known.now
        (S.object_reads disk.old) (S.object_reads disk.new) }
    ensures caused { KeepsFaults S.never_fails S.faults (IsErrOf result EntityFault.Disk)
        disk.old disk.new }
{
    if *head == *known {
        return Ok(Since::Same);
    }
    match walk_above(alloc, disk, folder, head, known)? {
        Above::Chain(chain) => {
            let loaded = load_all(alloc, disk, folder, chain)?;
            let packs = packs_of(alloc, loaded)?;
            Ok(Since::Chain(List::from_vec(packs)))
        }
        Above::Whole(walk) => {
            let entity = read_walked(alloc, disk, folder, id, &[*head], authors, walk)?;
            Ok(Since::Whole(entity))
        }
    }
}

// The packs of these commits, in the same order.
fn packs_of<K: OpKind>(alloc: Global, loaded: Vec<Loaded<K>>) -> Result<Vec<Placed<K>>, Memory>
    ensures { IfOk result (λ packs. packs.items ≡ map placed_of loaded.items) }
{
    let mut packs = Vec::new(alloc);
    for one in loaded {
        packs.push(one.placed)?;
    }
    Ok(packs)
}
