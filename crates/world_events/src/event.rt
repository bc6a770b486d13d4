//! An event: a command, its folder, its time and its seed.
ghost use Rattle.std.specs.Prelude.{◌≡◌, ◌+◌};
ghost use Rattle.world_events.specs.Events.{event_at, seed_of};

use crate::act::Act;
use sha2::{Digest, Sha256};

/// One command in one folder.
#[derive(Clone, Copy, Debug, PartialEq, Eq)]
pub struct Event {
    pub folder: u32,
    pub act: Act,
    /// The number of the event, which its texts name.
    pub number: u64,
    /// Seconds since 1970.
    pub now: i64,
    pub seed: [u8; 32],
    /// After how many of its writes the store is cut, if it is.
    pub stop: Option<u64>,
}

/// A folder, and what is done there.
#[derive(Clone, Copy, Debug, PartialEq, Eq)]
pub struct Turn {
    pub folder: u32,
    pub act: Act,
}

// The time of the first event.
const FIRST_TIME: i64 = 1_000_000;

/// The event with this place among those that a number makes.
pub fn event_at(number: u64, place: u32, turn: Turn) -> Event
    ensures { result ≡ event_at number place turn }
{
    Event {
        folder: turn.folder,
        act: turn.act,
        number: u64::from(place),
        now: FIRST_TIME + i64::from(place),
        seed: seed_of(number, u64::from(place)),
        stop: None,
    }
}

// The SHA-256 of both numbers, each as 8 bytes, the most significant first.
fn seed_of(number: u64, place: u64) -> [u8; 32]
    ensures { result ≡ seed_of number place }
{
    let mut hasher = Sha256::new();
    hasher.update(number.to_be_bytes().as_slice());
    hasher.update(place.to_be_bytes().as_slice());
    hasher.finalize()
}
