//! Playing events.
ghost use Rattle.std.specs.Prelude.{◌≡◌, ◌≤◌, ◌++◌, All, IfOk, IsTrue, OnOk, length};
ghost use Rattle.gb_store.specs.MemStore.{has_no_fails};
ghost use Rattle.world.specs.Counts.{IsUnfilled, counted};
ghost use Rattle.world.specs.Worlds.{IsPlayed, told_of};
ghost use Rattle.world_events.specs.Within.{IsWithin};

use crate::runs::run_event;
use crate::watch::{Unwatched, Watch};
use crate::world::{Ended, World};
use gb_store::MemStore;
use gb_text::{List, Memory};
use std::alloc::Global;
use world_events::Event;

/// The world that these events leave, each run after the one before. An event that a stop cuts
/// counts as its whole run ended.
pub fn play(alloc: Global, folders: u32, events: &[Event]) -> Result<World, Memory>
    requires some { 2 ≤ folders }
    requires most { folders ≤ 16 }
    requires within { All (IsWithin folders) events.now }
    ensures plays { IfOk result (IsPlayed events.now) }
    ensures numbers { IfOk result (λ world. (world.folders ≡ folders)
        × (world.events ≡ length events.now)) }
    ensures calm { IfOk result (λ world. IsTrue (has_no_fails world.store)) }
{
    play_watched(alloc, folders, events, &mut Unwatched)
}

/// The same, where somebody is told after each event how far it has come.
pub fn play_watched<W: Watch>(
    alloc: Global,
    folders: u32,
    events: &[Event],
    watch: &mut W,
) -> Result<World, Memory>
    requires some { 2 ≤ folders }
    requires most { folders ≤ 16 }
    requires within { All (IsWithin folders) events.now }
    ensures plays { IfOk result (IsPlayed events.now) }
    ensures numbers { IfOk result (λ world. (world.folders ≡ folders)
        × (world.events ≡ length events.now)) }
    ensures told { IsTrue W.tells → OnOk result (W.told watch.new
        ≡ W.told watch.old ++ told_of (length events.now) (length events.now)) }
    ensures calm { IfOk result (λ world. IsTrue (has_no_fails world.store)) }
{
    let mut world = World {
        store: MemStore::new(alloc, List::new(alloc)),
        folders,
        events: events.len() as u64,
        done: 0,
        refused: 0,
        skipped: 0,
    };
    let mut played: u64 = 0;
    for event in events {
        let ended = run_event(alloc, &mut world.store, event)?;
        count(&mut world, ended);
        played = played.saturating_add(1);
        watch.played(played, world.events);
    }
    Ok(world)
}

// Counts how an event ended.
fn count(world: &mut World, ended: Ended)
    requires { IsUnfilled world.old }
    ensures { world.new ≡ counted world.old ended }
{
    match ended {
        Ended::Done => world.done += 1,
        Ended::Refused => world.refused += 1,
        Ended::Skipped => world.skipped += 1,
    }
}
