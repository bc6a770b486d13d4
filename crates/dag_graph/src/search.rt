//! The search for all that lies below a node. It goes from node to node without recursion, in room
//! that was made before, and follows each node at most once, in rings too.
ghost use Rattle.std.specs.Prelude.{◌≡◌, ◌≤◌, ◌<◌, true, length, slice_set, take};
ghost use Rattle.dag_graph.specs.Index.{IsGraph};
ghost use Rattle.dag_graph.specs.Nodes.{node_at};
ghost use Rattle.dag_graph.specs.Search.{AreBelow, AreFound, Follows, found_with};

use crate::index::place_of;
use crate::node::Node;
use gb_text::Name;
use std::collections::BTreeMap;

/// Marks all that is below the node at a position, itself too, and nothing else. The queue keeps
/// the positions that were found, in the order of finding.
pub fn mark_below(
    nodes: &[Node],
    places: &BTreeMap<Name, usize>,
    met: &mut [bool],
    queue: &mut [usize],
    high: usize,
)
    requires graph { IsGraph nodes.now places.now }
    requires met { length met.old ≡ length nodes.now }
    requires queue { length queue.old ≡ length nodes.now }
    requires high { high < length nodes.now }
    ensures { AreBelow nodes.now high met.new }
{
    met.fill(false);
    let mut count = meet(met, queue, 0, high);
    let mut turn = 0;
    while turn < count {
        let place = queue[turn];
        count = meet_parents(nodes, places, met, queue, count, place);
        turn += 1;
    }
}

// Adds the parents of the node at a position to what was found, and gives the new count.
fn meet_parents(
    nodes: &[Node],
    places: &BTreeMap<Name, usize>,
    met: &mut [bool],
    queue: &mut [usize],
    count: usize,
    place: usize,
) -> usize
    requires graph { IsGraph nodes.now places.now }
    requires met { length met.old ≡ length nodes.now }
    requires queue { length queue.old ≡ length nodes.now }
    requires count { count ≤ length queue.old }
    requires place { place < length nodes.now }
    requires found { AreFound met.old (take count queue.old) }
    ensures count { result ≤ length queue.new }
    ensures found { AreFound met.new (take result queue.new) }
    ensures follows { Follows nodes.now (node_at nodes.now place).parents
        (take count queue.old) (take result queue.new) }
{
    let mut found = count;
    for parent in nodes[place].parents.as_slice() {
        found = meet(met, queue, found, place_of(nodes, places, parent));
    }
    found
}

// Adds a position to what was found, unless it is there, and gives the new count.
fn meet(met: &mut [bool], queue: &mut [usize], count: usize, place: usize) -> usize
    requires queue { length queue.old ≡ length met.old }
    requires count { count ≤ length queue.old }
    requires place { place < length met.old }
    requires found { AreFound met.old (take count queue.old) }
    ensures met { met.new ≡ slice_set met.old place true }
    ensures count { result ≤ length queue.new }
    ensures found { take result queue.new
        ≡ found_with met.old (take count queue.old) place }
{
    if met[place] {
        return count;
    }
    met[place] = true;
    queue[count] = place;
    count + 1
}
