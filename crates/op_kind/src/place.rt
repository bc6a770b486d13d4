//! Where an operation stands, and what every operation has.
use crate::Nonce;
use gb_text::{Id, List, Text};

/// The version of the packs' format: the text of an operation is read by its types.
pub const VERSION: u64 = 4;

/// A key and its value in an operation's metadata.
#[derive(Debug, Drop)]
pub struct Pair {
    pub key: Text,
    pub value: Text,
}

/// Where an operation stands: its own id, and the author and the clocks of its pack. `create` is the
/// create clock of a pack that begins an entity.
#[derive(Clone, Copy, Debug, PartialEq, Eq)]
pub struct Place {
    pub id: Id,
    pub author: Id,
    pub edit: u64,
    pub create: Option<u64>,
}

/// The members that every operation has, and its place: the number of its type, its time in seconds
/// since 1970, its nonce, and its metadata in byte order of the keys.
#[derive(Drop)]
pub struct Common {
    pub place: Place,
    pub kind: u64,
    pub time: u64,
    pub nonce: Nonce,
    pub metadata: List<Pair>,
}
