//! Whether events are those of a world with so many folders.
ghost use Rattle.std.specs.Prelude.{◌↔◌, IsTrue, All};
ghost use Rattle.world_events.specs.Within.{HasPeerWithin, IsWithin};

use crate::act::Act;
use crate::event::Event;

/// Whether each event is in one of so many folders, and its peer, if it has one, is another one of
/// them.
pub fn are_within(folders: u32, events: &[Event]) -> bool
    ensures { IsTrue result ↔ All (IsWithin folders) events.now }
{
    for event in events {
        if !is_within(folders, event) {
            return false;
        }
    }
    true
}

fn is_within(folders: u32, event: &Event) -> bool
    ensures { IsTrue result ↔ IsWithin folders event.entry.now }
{
    event.folder < folders && has_peer_within(folders, event.folder, event.act)
}

fn has_peer_within(folders: u32, folder: u32, act: Act) -> bool
    ensures { IsTrue result ↔ HasPeerWithin folders folder act }
{
    match act {
        Act::Pull { peer } | Act::Push { peer } => peer < folders && peer != folder,
        _ => true,
    }
}
