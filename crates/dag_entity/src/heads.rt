//! What is asked of the heads of a graph.
ghost use Rattle.std.specs.Prelude.{◌≡◌, ◌<◌, ◌↔◌, IsTrue, length, Contains};
ghost use Rattle.dag_graph.specs.Nodes.{AreNodes, names_of, node_at};
ghost use Rattle.dag_entity.specs.Entities.{AreOneOrTwo};
ghost use Rattle.dag_entity.specs.Heads.{HaveHeads, HeadsAnswers, LieApart, RoomAnswers};

use crate::fault::EntityFault;
use commit_walk::MOST_COMMITS;
use dag_graph::{Graph, Node};
use gb_text::{GREATEST_TIME, Name};

/// The greatest edit clock of the heads, if there is room for the merge commit that they may need.
pub(crate) fn greatest_edit(graph: &mut Graph, heads: &[Name]) -> Result<u64, EntityFault>
    requires nodes { AreNodes graph.old }
    requires heads { HaveHeads graph.old heads.now }
    requires count { AreOneOrTwo heads.now }
    ensures answers { HeadsAnswers graph.old heads.now result }
    ensures same { graph.new ≡ graph.old }
{
    let one = place_of(graph.nodes(), &heads[0]);
    let edit = graph.nodes()[one].edit;
    let Some(head) = heads.get(1) else {
        return Ok(edit);
    };
    let two = place_of(graph.nodes(), head);
    if are_apart(graph, one, two) {
        check_room(graph.nodes(), one, two)?;
    }
    Ok(edit.max(graph.nodes()[two].edit))
}

// The position of a node by its name.
fn place_of(nodes: &[Node], name: &Name) -> usize
    requires { Contains (names_of nodes.now) name.now }
    ensures within { result < length nodes.now }
    ensures named { (node_at nodes.now result).name ≡ name.now }
{
    for (place, node) in nodes.iter().enumerate() {
        if node.name == *name {
            return place;
        }
    }
    0
}

// Whether neither of the nodes at two positions lies below the other.
fn are_apart(graph: &mut Graph, one: usize, two: usize) -> bool
    requires one { one < length graph.old }
    requires two { two < length graph.old }
    ensures answer { IsTrue result
        ↔ LieApart graph.old (node_at graph.old one).name (node_at graph.old two).name }
    ensures same { graph.new ≡ graph.old }
{
    !graph.is_ancestor(one, two) && !graph.is_ancestor(two, one)
}

// Whether a merge commit can follow the nodes at two positions.
fn check_room(nodes: &[Node], one: usize, two: usize) -> Result<(), EntityFault>
    requires one { one < length nodes.now }
    requires two { two < length nodes.now }
    ensures { RoomAnswers nodes.now one two result }
{
    if nodes.len() >= MOST_COMMITS {
        return Err(EntityFault::TooLarge(MOST_COMMITS as u64 + 1));
    }
    if nodes[one].edit == GREATEST_TIME {
        return Err(EntityFault::ClockFull(nodes[one].name));
    }
    if nodes[two].edit == GREATEST_TIME {
        return Err(EntityFault::ClockFull(nodes[two].name));
    }
    Ok(())
}
