//! The events of a full exchange.
ghost use Rattle.std.specs.Prelude.{◌≡◌, ◌≤◌, ◌<◌, ◌-◌, ◌++◌, IfOk, OnOk, All, map};
ghost use Rattle.std.specs.List.{range_with_len};
ghost use Rattle.world_events.specs.Exchange.{exchange_of, pull_at};
ghost use Rattle.world_events.specs.Within.{IsWithin};

use crate::act::Act;
use crate::event::Event;
use gb_text::{List, Memory};
use std::alloc::Global;

/// The pulls of a full exchange at a time: folder 0 pulls from each other folder, 1 first, and then
/// each other folder, 1 first, pulls from folder 0. A pull makes no nonce, so their seeds may be
/// alike.
pub fn exchange_events(alloc: Global, folders: u32, now: i64) -> Result<List<Event>, Memory>
    requires { 2 ≤ folders }
    ensures exact { IfOk result (λ events. events ≡ exchange_of folders now) }
    ensures within { IfOk result (All (IsWithin folders)) }
{
    let mut events = List::new(alloc);
    push_gathering(&mut events, folders, now)?;
    push_spreading(&mut events, folders, now)?;
    Ok(events)
}

// Folder 0 pulls from each other folder.
fn push_gathering(events: &mut List<Event>, folders: u32, now: i64) -> Result<(), Memory>
    requires some { 2 ≤ folders }
    requires within { All (IsWithin folders) events.old }
    ensures exact { OnOk result (events.new
        ≡ events.old ++ map (λ peer. pull_at 0 peer now) (range_with_len 1 (folders - 1))) }
    ensures within { All (IsWithin folders) events.new }
{
    for peer in 1..folders {
        let Ok(()) = events.push(pull_at(0, peer, now)) else {
            return Err(Memory);
        };
    }
    Ok(())
}

// Each other folder pulls from folder 0.
fn push_spreading(events: &mut List<Event>, folders: u32, now: i64) -> Result<(), Memory>
    requires some { 2 ≤ folders }
    requires within { All (IsWithin folders) events.old }
    ensures exact { OnOk result (events.new
        ≡ events.old ++ map (λ folder. pull_at folder 0 now) (range_with_len 1 (folders - 1))) }
    ensures within { All (IsWithin folders) events.new }
{
    for folder in 1..folders {
        let Ok(()) = events.push(pull_at(folder, 0, now)) else {
            return Err(Memory);
        };
    }
    Ok(())
}

// A folder pulls from another.
fn pull_at(folder: u32, peer: u32, now: i64) -> Event
    ensures { result ≡ pull_at folder peer now }
{
    Event {
        folder,
        act: Act::Pull { peer },
        number: 0,
        now,
        seed: [0; 32],
        stop: None,
    }
}
