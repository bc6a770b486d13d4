//! Refs by a listing of their side: a call that goes through many ids reads the side once.
#![tactic(auto)]

mod listed;

pub use listed::ListedSide;
