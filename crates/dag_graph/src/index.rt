//! The positions of nodes by their names, in a map that is in order: names are chosen by peers, and
//! no choice makes its look-ups slow.
ghost use Rattle.std.specs.Prelude.{◌≡◌, ◌<◌, ◌≢◌, length, IfOk, Contains};
ghost use Rattle.std.specs.List.{AllPairs};
ghost use Rattle.dag_graph.specs.Index.{IsGraph, IsIndex};
ghost use Rattle.dag_graph.specs.Nodes.{names_of, node_at};

use crate::node::Node;
use gb_text::{Memory, Name};
use std::alloc::Global;
use std::collections::BTreeMap;

/// The positions of nodes with distinct names.
pub fn index(alloc: Global, nodes: &[Node]) -> Result<BTreeMap<Name, usize>, Memory>
    requires { AllPairs (λ one other. one ≢ other) (names_of nodes.now) }
    ensures { IfOk result (IsIndex nodes.now) }
{
    let mut places = BTreeMap::new(alloc);
    for (place, node) in nodes.iter().enumerate() {
        places.insert(node.name, place)?;
    }
    Ok(places)
}

/// The position of the node with a name.
pub fn place_of(nodes: &[Node], places: &BTreeMap<Name, usize>, name: &Name) -> usize
    requires graph { IsGraph nodes.now places.now }
    requires has { Contains (names_of nodes.now) name.now }
    ensures within { result < length nodes.now }
    ensures is { (node_at nodes.now result).name ≡ name.now }
{
    places[name]
}
