//! A full exchange between the folders of a world.
ghost use Rattle.std.specs.Prelude.{◌≡◌, ◌≤◌, OnOk, IsTrue, List};
ghost use Rattle.gb_store.specs.MemStore.{has_no_fails};
ghost use Rattle.world.specs.Plays.{ArePlayed};
ghost use Rattle.world.specs.declared.world.Ended.{Ended};
ghost use Rattle.world_events.specs.Exchange.{exchange_of};

use crate::runs::run_event;
use crate::world::World;
use gb_text::Memory;
use std::alloc::Global;
use world_events::exchange_events;

/// Folder 0 pulls from each other folder, 1 first, and then each other folder, 1 first, pulls from
/// folder 0. The runs are not counted.
pub fn exchange(alloc: Global, world: &mut World, now: i64) -> Result<(), Memory>
    requires some { 2 ≤ world.old.folders }
    requires calm { IsTrue (has_no_fails world.old.store) }
    ensures plays { OnOk result ((ends : List Ended) × ArePlayed (exchange_of world.old.folders now)
        ends world.old.store.history world.new.store.history) }
    ensures same { world.new ≡ record world.old { store = world.new.store } }
    ensures calm { IsTrue (has_no_fails world.new.store) }
{
    let events = exchange_events(alloc, world.folders, now)?;
    for event in events.as_slice() {
        let _ = run_event(alloc, &mut world.store, event)?;
    }
    Ok(())
}
