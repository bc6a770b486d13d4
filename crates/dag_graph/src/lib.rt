//! Graphs of commits: what may be wrong with them, and ancestors.
#![tactic(auto)]

mod check;
mod fault;
mod graph;
mod index;
mod laws;
mod node;
mod search;

pub use fault::GraphFault;
pub use graph::Graph;
pub use laws::{
    a_graph_without_faults_has_one_root, a_ring_has_a_clock_fault, ancestors_have_lesser_clocks,
    below_is_transitive, below_is_what_adding_parents_gives, graph_faults_are_known,
    graph_faults_have_causes,
};
pub use node::Node;
