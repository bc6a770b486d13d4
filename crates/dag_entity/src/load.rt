//! The commits of a walk with their packs.
ghost use Rattle.std.specs.Prelude.{◌≡◌, ◌≤◌, ◌+◌, ◌*◌, All, length, map, IsTrue, IfOk, IsErrOf};
ghost use Rattle.std.specs.List.{AllByRecursion};
ghost use Rattle.gb_store.specs.Faults.{KeepsFaults};
ghost use Rattle.object_store.specs.Held.{objects_after};
ghost use Rattle.dag_entity.specs.Loading.{AllLoadAnswers, LoadAnswers, lineage_of_loaded, lineage_of_met, node_of, placed_of};

use crate::entity::{Loaded, Placed};
use crate::fault::EntityFault;
use commit_pack::read_pack;
use commit_walk::Met;
use dag_graph::Node;
use gb_store::Store;
use gb_text::{Folder, List, Memory, Name};
use op_kind::OpKind;
use std::alloc::Global;

/// These commits with their packs, in the same order. At most two object reads each.
pub(crate) fn load_all<K: OpKind, S: Store>(
    alloc: Global,
    disk: &mut S,
    folder: &Folder,
    walk: Vec<Met>,
) -> Result<Vec<Loaded<K>>, EntityFault>
    ensures answers { IsTrue S.tells → AllLoadAnswers K.meaning
        (objects_after (S.history disk.old) folder.now) walk.items result }
    ensures lineages { IfOk result (λ loaded. map lineage_of_loaded loaded.items
        ≡ map lineage_of_met walk.items) }
    ensures rules { IfOk result (λ loaded. All
        (λ one. AllByRecursion K.meaning.KeepsRules one.placed.pack.ops) loaded.items) }
    ensures unwritten { IsTrue S.tells → S.history disk.new ≡ S.history disk.old }
    ensures reads { S.object_reads disk.new
        ≤ S.object_reads disk.old + 2 * length walk.items }
    ensures caused { KeepsFaults S.never_fails S.faults (IsErrOf result EntityFault.Disk)
        disk.old disk.new }
{
    let mut loaded = Vec::new(alloc);
    for met in walk {
        loaded.push(load(alloc, disk, folder, met)?)?;
    }
    Ok(loaded)
}

// A commit with its pack.
fn load<K: OpKind, S: Store>(
    alloc: Global,
    disk: &mut S,
    folder: &Folder,
    met: Met,
) -> Result<Loaded<K>, EntityFault>
    ensures answers { IsTrue S.tells → LoadAnswers K.meaning
        (objects_after (S.history disk.old) folder.now) met result }
    ensures lineage { IfOk result (λ loaded. lineage_of_loaded loaded ≡ lineage_of_met met) }
    ensures rules { IfOk result
        (λ loaded. AllByRecursion K.meaning.KeepsRules loaded.placed.pack.ops) }
    ensures unwritten { IsTrue S.tells → S.history disk.new ≡ S.history disk.old }
    ensures reads { S.object_reads disk.new ≤ S.object_reads disk.old + 2 }
    ensures caused { KeepsFaults S.never_fails S.faults (IsErrOf result EntityFault.Disk)
        disk.old disk.new }
{
    let Met {
        name,
        tree,
        parents,
    } = met;
    match read_pack(alloc, disk, folder, &tree) {
        Ok(pack) => Ok(Loaded {
            parents,
            placed: Placed { commit: name, pack },
        }),
        Err(fault) => Err(EntityFault::of_pack(name, fault)),
    }
}

/// The nodes of a graph, and the packs, each at its commit's place.
#[derive(Drop)]
pub(crate) struct Parts<K> {
    pub(crate) nodes: Vec<Node>,
    pub(crate) packs: Vec<Placed<K>>,
}

/// The nodes of these commits, and their packs.
pub(crate) fn parts_of<K: OpKind>(alloc: Global, loaded: Vec<Loaded<K>>) -> Result<Parts<K>, Memory>
    ensures nodes { IfOk result (λ parts. parts.nodes.items ≡ map node_of loaded.items) }
    ensures packs { IfOk result (λ parts. parts.packs.items ≡ map placed_of loaded.items) }
{
    let mut nodes = Vec::new(alloc);
    let mut packs = Vec::new(alloc);
    for one in loaded {
        let Loaded { parents, placed } = one;
        nodes.push(node_of(parents, &placed))?;
        packs.push(placed)?;
    }
    Ok(Parts { nodes, packs })
}

// The node of a commit with these parents and this pack.
fn node_of<K: OpKind>(parents: List<Name>, placed: &Placed<K>) -> Node
    ensures { result ≡ node_of (record { parents = parents; placed = placed.now }) }
{
    Node {
        name: placed.commit,
        parents,
        edit: placed.pack.edit.number(),
        count: placed.pack.ops.len() as u64,
    }
}
