//! A world: folders in a store, and how its events ended.
use gb_store::MemStore;

/// Folders in a store, and how many of their events ended in which way.
#[derive(Drop)]
pub struct World {
    pub store: MemStore,
    pub folders: u32,
    pub events: u64,
    /// How many were done.
    pub done: u64,
    /// How many were refused.
    pub refused: u64,
    /// How many needed a bug in a folder without one.
    pub skipped: u64,
}

/// How an event ended.
#[derive(Clone, Copy, Debug, PartialEq, Eq)]
pub enum Ended {
    Done,
    Refused,
    Skipped,
}
