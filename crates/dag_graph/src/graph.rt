//! A graph of commits.
ghost use Rattle.std.specs.Prelude.{◌≡◌, ◌<◌, ◌↔◌, IfOk, IsTrue, length};
ghost use Rattle.dag_graph.specs.Below.{IsAncestor};
ghost use Rattle.dag_graph.specs.Faults.{CheckAnswers};
ghost use Rattle.dag_graph.specs.Nodes.{AreNodes, node_at};

use crate::check::check_graph;
use crate::fault::GraphFault;
use crate::index::index;
use crate::node::Node;
use crate::search::mark_below;
use gb_text::{List, Memory, Name};
use std::alloc::Global;
use std::collections::BTreeMap;
use std::marker::Model;

/// Commits that have all their parents among them, each at the position at which it was given.
#[derive(Drop)]
pub struct Graph {
    nodes: List<Node>,
    places: BTreeMap<Name, usize>,
    // the room of a search: a mark and a place in its queue for each node
    met: Vec<bool>,
    queue: Vec<usize>,
}

impl Model for Graph {
    ghost use Rattle.std.specs.Prelude.{◌≡◌, List, length};
    ghost use Rattle.dag_graph.specs.Index.{IsGraph};
    ghost use Rattle.dag_graph.specs.declared.node.Node.{Node};

    ghost Value = { List Node };

    ghost view = { λ g. g.nodes };

    ghost invariant = { λ g. IsGraph g.nodes g.places × (length g.met.items ≡ length g.nodes)
        × (length g.queue.items ≡ length g.nodes) };
}

impl Graph {
    /// The graph of some commits.
    pub fn from_nodes(alloc: Global, nodes: List<Node>) -> Result<Graph, Memory>
        requires { AreNodes nodes }
        ensures { IfOk result (λ graph. graph ≡ nodes) }
    {
        let places = index(alloc, nodes.as_slice())?;
        let met = Vec::from_elem(alloc, false, nodes.len())?;
        let queue = Vec::from_elem(alloc, 0, nodes.len())?;
        Ok(Graph {
            nodes,
            places,
            met,
            queue,
        })
    }

    /// The commits, each at its position.
    pub fn nodes(&self) -> &[Node]
        ensures { result.now ≡ self.now }
    {
        self.nodes.as_slice()
    }

    /// The position of the one root, if nothing is wrong with the graph. Takes no memory.
    pub fn check(&self) -> Result<usize, GraphFault>
        ensures { CheckAnswers self.now result }
    {
        check_graph(self.nodes.as_slice(), &self.places)
    }

    /// Whether the first commit is the second, or parents lead from the second to it. Follows each
    /// commit at most once, and takes no memory.
    pub fn is_ancestor(&mut self, low: usize, high: usize) -> bool
        requires low { low < length self.old }
        requires high { high < length self.old }
        ensures answer { IsTrue result
            ↔ IsAncestor self.old (node_at self.old low).name (node_at self.old high).name }
        ensures same { self.new ≡ self.old }
    {
        mark_below(
            self.nodes.as_slice(),
            &self.places,
            self.met.as_mut_slice(),
            self.queue.as_mut_slice(),
            high,
        );
        self.met[low]
    }
}
