//! Graphs of commits: a large one, and that calls succeed.
ghost use Rattle.std.specs.Prelude.{◌≡◌, IfOk, IfSome, IsSome, IsTrue, Contains};
ghost use Rattle.std.specs.BTreeMap.{get};
ghost use Rattle.gb_text.specs.declared.id.Name.{Name as NameValue};
ghost use Rattle.dag_graph.specs.Index.{IsIndex, name_cmp};
ghost use Rattle.dag_graph.specs.Nodes.{AreNodes};

use dag_graph::{Graph, Node};
use gb_text::{List, Name};
use std::alloc::Global;
use std::collections::BTreeMap;
use std::test::Fail;

// The index of nodes, if their names are distinct.
fn index_of(alloc: Global, nodes: &[Node]) -> Result<Option<BTreeMap<Name, usize>>, Fail>
    ensures { IfOk result (λ found. IfSome found (IsIndex nodes.now)) }
{
    let mut places = BTreeMap::new(alloc);
    for (place, node) in nodes.iter().enumerate() {
        if places.insert(node.name, place)?.is_some() {
            return Ok(None);
        }
    }
    Ok(Some(places))
}

// Whether each of these names is in an index.
fn has_all(places: &BTreeMap<Name, usize>, names: &[Name]) -> bool
    ensures { IsTrue result → (name : NameValue) → Contains names.now name
        → IsSome (get name_cmp places.now name) }
{
    for name in names {
        if !places.contains_key(name) {
            return false;
        }
    }
    true
}

// Whether these may be the nodes of a graph.
fn are_nodes(alloc: Global, nodes: &[Node]) -> Result<bool, Fail>
    ensures { IfOk result (λ yes. IsTrue yes → AreNodes nodes.now) }
{
    let Some(places) = index_of(alloc, nodes)? else {
        return Ok(false);
    };
    for node in nodes {
        if !has_all(&places, node.parents.as_slice()) {
            return Ok(false);
        }
    }
    Ok(!nodes.is_empty())
}

// The graph of some nodes.
fn graph_of(alloc: Global, nodes: List<Node>) -> Result<Graph, Fail>
    ensures { IfOk result (λ graph. graph ≡ nodes) }
{
    if !are_nodes(alloc, nodes.as_slice())? {
        return Err(Fail::from("nodes of a graph"));
    }
    Ok(Graph::from_nodes(alloc, nodes)?)
}

// Whether a commit is an ancestor of another one; none where they are not both in the graph.
fn is_ancestor(graph: &mut Graph, low: usize, high: usize) -> Option<bool>
    ensures { graph.new ≡ graph.old }
{
    let size = graph.nodes().len();
    if low < size && high < size {
        Some(graph.is_ancestor(low, high))
    } else {
        None
    }
}

// The name that begins with a number.
fn numbered(number: u64) -> Name {
    let mut bytes = [0; 20];
    bytes[..8].copy_from_slice(&number.to_be_bytes());
    Name { bytes }
}

// The names of the parents of a commit of a chain.
fn parents_of(alloc: Global, number: u64) -> Result<List<Name>, Fail> {
    let mut parents = Vec::new(alloc);
    if number > 0 {
        parents.push(numbered(number - 1))?;
    }
    Ok(List::from_vec(parents))
}

// So many commits, each above the one before it.
fn chain(alloc: Global, count: u64) -> Result<List<Node>, Fail> {
    let mut nodes = Vec::new(alloc);
    for number in 0..count {
        let parents = parents_of(alloc, number)?;
        nodes.push(Node {
            name: numbered(number),
            parents,
            edit: number,
            count: 1,
        })?;
    }
    Ok(List::from_vec(nodes))
}

#[test]
fn a_chain_of_65536_commits(rt: HostRuntime) -> Result<(), Fail> {
    let mut graph = graph_of(rt.alloc(), chain(rt.alloc(), 65_536)?)?;
    assert_eq!(rt; graph.check(), Ok(0));
    assert_eq!(rt; is_ancestor(&mut graph, 0, 65_535), Some(true));
    assert_eq!(rt; is_ancestor(&mut graph, 65_535, 0), Some(false));
    Ok(())
}
