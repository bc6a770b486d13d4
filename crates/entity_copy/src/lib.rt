//! Laws of entities and identities whose heads were copied whole.
#![tactic(auto)]

mod laws;

pub use laws::{whole_copies_have_the_same_chain, whole_copies_have_the_same_entity};
