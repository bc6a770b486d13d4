//! Walks over commits: all below some heads, and along a chain by the single parent.
#![tactic(auto)]

mod above;
mod below;
mod both;
mod chain;
mod chain_laws;
mod fault;
mod laws;
mod passing;
mod queue;
mod reach;

pub use above::{Above, walk_above};
pub use below::{MOST_COMMITS, Met, walk};
pub use both::{Both, lies_below, walk_both};
pub use chain::{Link, walk_chain};
pub use chain_laws::{
    a_whole_chain_has_no_fault, a_whole_chain_passes_what_it_meets, chain_walks_are_determined,
    chain_walks_stay, passing_reads_the_commits_above, what_a_chain_meets_lies_below,
};
pub use fault::{ChainStop, WalkFault, WalkStop};
pub use laws::{
    a_walk_has_at_most_65536_commits, a_whole_walk_has_no_fault, below_is_transitive,
    parents_lie_below, walk_faults_are_exact, walks_have_the_same_commits,
    walks_read_each_commit_at_most_once, what_lies_below_stays, what_lies_below_two_lies_below_one,
};
pub use passing::passes;
