//! What is printed of a world.
ghost use Rattle.std.specs.Prelude.{◌≡◌, ◌≤◌, IfOk, IsTrue};
ghost use Rattle.gb_store.specs.MemStore.{has_no_fails};
ghost use Rattle.world.specs.Told.{AreDigests, IsSummary};

use crate::digest::digest_of;
use crate::world::World;
use gb_text::{List, Memory, Text};
use std::alloc::Global;
use world_texts::{Digest, Tally, summary_text};

/// The counts of events, a line for each folder with its digest, and whether all digests are the
/// same.
pub fn summary(alloc: Global, world: &mut World) -> Result<Text, Memory>
    requires most { world.old.folders ≤ 16 }
    requires calm { IsTrue (has_no_fails world.old.store) }
    ensures text { IfOk result (IsSummary world.old) }
    ensures same { world.new ≡ record world.old { store = world.new.store } }
    ensures unwritten { world.new.store.history ≡ world.old.store.history }
{
    let digests = digests(alloc, world)?;
    let tally = Tally {
        events: world.events,
        done: world.done,
        refused: world.refused,
        skipped: world.skipped,
    };
    summary_text(alloc, &tally, digests.as_slice())
}

// The digests of all folders, in their order.
fn digests(alloc: Global, world: &mut World) -> Result<List<Digest>, Memory>
    requires calm { IsTrue (has_no_fails world.old.store) }
    ensures are { IfOk result (AreDigests world.old.store.history world.old.folders) }
    ensures same { world.new ≡ record world.old { store = world.new.store } }
    ensures unwritten { world.new.store.history ≡ world.old.store.history }
{
    let mut digests = List::new(alloc);
    for folder in 0..world.folders {
        let digest = digest_of(alloc, &mut world.store, folder)?;
        let Ok(()) = digests.push(digest) else {
            return Err(Memory);
        };
    }
    Ok(digests)
}
