//! The events that a number makes.
ghost use Rattle.std.specs.Prelude.{◌≡◌, ◌≤◌, ◌<◌, ◌+◌, ℕ, IfOk, All};
ghost use Rattle.world_events.specs.Events.{act_of, events_of, peer_of, state_before, turn_from, turn_of};
ghost use Rattle.world_events.specs.Within.{HasPeerWithin, IsPeer, IsTurnWithin, IsWithin};

use crate::act::Act;
use crate::draws::{Draws, Lot};
use crate::event::{Event, Turn, event_at};
use gb_text::{List, Memory};
use std::alloc::Global;

/// The first `count` events that a number makes for so many folders: a person in each folder, and
/// then commands by the numbers drawn.
pub fn generate(alloc: Global, number: u64, folders: u32, count: u32) -> Result<List<Event>, Memory>
    requires some { 2 ≤ folders }
    requires most { folders ≤ 16 }
    requires enough { folders ≤ count }
    ensures exact { IfOk result (λ events. events ≡ events_of number folders count) }
    ensures within { IfOk result (All (IsWithin folders)) }
{
    let mut events = List::new(alloc);
    let mut draws = Draws { state: number };
    for place in 0..count {
        let turn = next_turn(&mut draws, folders, place);
        let Ok(()) = events.push(event_at(number, place, turn)) else {
            return Err(Memory);
        };
    }
    Ok(events)
}

// What is done at a place, by the next four numbers if each folder has its person.
#[tactic(auto, using(crate::proofs::DrawLemmas::state_after_lots_more))]
fn next_turn(draws: &mut Draws, folders: u32, place: u32) -> Turn
    requires { 2 ≤ folders }
    ensures state { (number : ℕ) → draws.old.state ≡ state_before number folders place
        → draws.new.state ≡ state_before number folders (place + 1) }
    ensures turn { (number : ℕ) → draws.old.state ≡ state_before number folders place
        → result ≡ turn_of number folders place }
    ensures within { IsTurnWithin folders result }
{
    if place < folders {
        return Turn {
            folder: place,
            act: Act::UserNew,
        };
    }
    turn_by(&draws.lot(), folders)
}

// What four numbers ask for.
fn turn_by(lot: &Lot, folders: u32) -> Turn
    requires { 2 ≤ folders }
    ensures turn { result ≡ turn_from folders lot.now }
    ensures within { IsTurnWithin folders result }
{
    let folder = (lot.folder % u64::from(folders)) as u32;
    Turn {
        folder,
        act: act_of(lot, folders, folder),
    }
}

// How many labels there are.
const LABELS: u64 = 5;

// The command that four numbers ask for in a folder.
#[tactic(auto, unfolding(crate::specs::Events::act_of))]
fn act_of(lot: &Lot, folders: u32, folder: u32) -> Act
    requires some { 2 ≤ folders }
    requires below { folder < folders }
    ensures act { result ≡ act_of folders folder lot.now }
    ensures within { HasPeerWithin folders folder result }
{
    let pick = lot.pick;
    match lot.act % 100 {
        0..=14 => Act::NewBug,
        15..=44 => Act::Comment { pick },
        45..=54 => Act::Title { pick },
        55..=59 => Act::Edit { pick },
        60..=66 => Act::Close { pick },
        67..=73 => Act::Reopen { pick },
        74..=80 => Act::LabelAdd {
            pick,
            label: lot.other % LABELS,
        },
        81..=86 => Act::LabelRm {
            pick,
            label: lot.other % LABELS,
        },
        87..=88 => Act::Noop { pick },
        89..=97 => Act::Pull {
            peer: peer_of(lot, folders, folder),
        },
        _ => Act::Push {
            peer: peer_of(lot, folders, folder),
        },
    }
}

// Another folder.
#[tactic(auto, using(crate::proofs::PeerLemmas::around_other))]
fn peer_of(lot: &Lot, folders: u32, folder: u32) -> u32
    requires some { 2 ≤ folders }
    requires below { folder < folders }
    ensures peer { result ≡ peer_of folders folder lot.now }
    ensures within { IsPeer folders folder result }
{
    let others = u64::from(folders - 1);
    ((u64::from(folder) + 1 + lot.other % others) % u64::from(folders)) as u32
}
