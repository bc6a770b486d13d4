//! What is read of an entity.
use gb_text::{Id, List, Name};
use op_pack::Pack;

/// A commit and its pack.
#[derive(Drop)]
pub struct Placed<K> {
    pub commit: Name,
    pub pack: Pack<K>,
}

/// An entity: all commits below its heads, with their packs, each once, merge commits included, in
/// the order of edit clock, pack id and name.
#[derive(Drop)]
pub struct Entity<K> {
    pub id: Id,
    pub heads: List<Name>,
    /// The greatest edit clock of a head.
    pub edit: u64,
    /// The create clock of the root.
    pub create: u64,
    /// How many commits there are.
    pub commits: u64,
    pub packs: List<Placed<K>>,
}

/// A commit that was read: its parents in order, and its pack.
#[derive(Drop)]
pub struct Loaded<K> {
    pub parents: List<Name>,
    pub placed: Placed<K>,
}
