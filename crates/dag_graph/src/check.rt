//! What may be wrong with the roots, the clocks and the merges of commits.
ghost use Rattle.std.specs.Prelude.{◌≡◌, ◌≤◌, ◌<◌, length, Contains};
ghost use Rattle.dag_graph.specs.Faults.{CheckAnswers, NodeAnswers};
ghost use Rattle.dag_graph.specs.Index.{IsGraph};
ghost use Rattle.dag_graph.specs.Nodes.{node_at};

use crate::fault::GraphFault;
use crate::index::place_of;
use crate::node::Node;
use gb_text::Name;
use lamport::JUMP;
use std::collections::BTreeMap;

/// The position of the one root of a graph, if nothing is wrong with it. The node with the least
/// clock is looked at first: it has a parent only where a clock does not rise, so any other root is
/// a second one.
pub fn check_graph(nodes: &[Node], places: &BTreeMap<Name, usize>) -> Result<usize, GraphFault>
    requires { IsGraph nodes.now places.now }
    ensures { CheckAnswers nodes.now result }
{
    let least = least_of(nodes);
    check_node(nodes, places, &nodes[least])?;
    for (place, node) in nodes.iter().enumerate() {
        if place != least && node.parents.as_slice().is_empty() {
            return Err(GraphFault::SecondRoot(node.name));
        }
        check_node(nodes, places, node)?;
    }
    Ok(least)
}

// The position of a node with the least edit clock.
fn least_of(nodes: &[Node]) -> usize
    requires { 0 < length nodes.now }
    ensures within { result < length nodes.now }
    ensures least { (node : NodeValue) → Contains nodes.now node
        → (node_at nodes.now result).edit ≤ node.edit }
{
    let mut least = 0;
    for (place, node) in nodes.iter().enumerate() {
        if node.edit < nodes[least].edit {
            least = place;
        }
    }
    least
}

ghost use Rattle.dag_graph.specs.declared.node.Node.{Node as NodeValue};

// Whether the parents of a node allow its clock, and its operations.
fn check_node(nodes: &[Node], places: &BTreeMap<Name, usize>, node: &Node) -> Result<(), GraphFault>
    requires graph { IsGraph nodes.now places.now }
    requires has { Contains nodes.now node.now }
    ensures { NodeAnswers nodes.now node.now result }
{
    let parents = node.parents.as_slice();
    for parent in parents {
        if nodes[place_of(nodes, places, parent)].edit >= node.edit {
            return Err(GraphFault::ClockOrder(node.name, *parent));
        }
    }
    match parents {
        [] => Ok(()),
        [parent] => {
            let low = nodes[place_of(nodes, places, parent)].edit;
            if node.edit.saturating_sub(low) > JUMP {
                return Err(GraphFault::ClockJump(node.name, *parent));
            }
            Ok(())
        }
        _ => {
            if node.count > 0 {
                return Err(GraphFault::MergeHasOperations(node.name));
            }
            Ok(())
        }
    }
}
