//! What the program does.
ghost use Rattle.std.specs.Prelude.{◌≡◌, ◌≢◌, ◌+◌, pos, Some, IfOk, map, string_bytes};
ghost use Rattle.gb_store.specs.Faults.{KeepsFaults};
ghost use Rattle.bug_run.specs.Printed.{Printed};
ghost use Rattle.world.specs.Told.{EndsFor, IsTold};
ghost use Rattle.world_texts.specs.Asked.{asked_of, IsInBounds};

use crate::exchanges::exchange;
use crate::plays::play_watched;
use crate::summaries::summary;
use crate::watch::Watch;
use bug_run::Status;
use gb_store::{Sink, SinkFault, write_whole};
use gb_text::{Memory, Text};
use std::alloc::Global;
use world_events::generate;
use world_texts::{Asked, USAGE, read_asked};

// The time of the first event.
const FIRST_TIME: i64 = 1_000_000;

/// Makes a world from a number, plays and exchanges it, and prints its summary. The arguments are
/// the number, how many folders there are, and how many events. Somebody is told after each event
/// how far it has come.
pub fn run_world<K: Sink, W: Watch>(
    alloc: Global,
    words: &[String],
    out: &mut K,
    watch: &mut W,
) -> Status
    ensures ends { EndsFor (asked_of (map string_bytes words.now)) K.tells K.takes_memory
        (K.written out.old) (K.written out.new) result }
    ensures caused { KeepsFaults K.never_fails K.faults (result ≡ Status.OutFault)
        out.old out.new }
{
    match read_asked(words) {
        Some(asked) => tell(alloc, out, asked, watch),
        None => print(alloc, out, USAGE.as_bytes(), Status::Usage),
    }
}

// Prints the summary of the world that a number makes.
fn tell<K: Sink, W: Watch>(alloc: Global, out: &mut K, asked: Asked, watch: &mut W) -> Status
    requires { IsInBounds asked }
    ensures ends { EndsFor (Some asked) K.tells K.takes_memory
        (K.written out.old) (K.written out.new) result }
    ensures caused { KeepsFaults K.never_fails K.faults (result ≡ Status.OutFault)
        out.old out.new }
{
    match text_of(alloc, asked, watch) {
        Ok(text) => print(alloc, out, text.as_str().as_bytes(), Status::Done),
        Err(_) => Status::Memory,
    }
}

// The summary of the world that a number makes.
fn text_of<W: Watch>(alloc: Global, asked: Asked, watch: &mut W) -> Result<Text, Memory>
    requires { IsInBounds asked }
    ensures { IfOk result (IsTold asked) }
{
    let events = generate(alloc, asked.number, asked.folders, asked.events)?;
    let mut world = play_watched(alloc, asked.folders, events.as_slice(), watch)?;
    exchange(alloc, &mut world, time_after(asked.events))?;
    summary(alloc, &mut world)
}

// The time of the exchange: as many seconds after the first event as there are events.
fn time_after(events: u32) -> i64
    ensures { result ≡ pos (1000000 + events) }
{
    FIRST_TIME + i64::from(events)
}

// Prints a text, and answers its status. Where the sink refuses, a prefix of the text was printed.
fn print<K: Sink>(alloc: Global, out: &mut K, text: &[u8], told: Status) -> Status
    requires { told ≢ Status.OutFault }
    ensures printed { Printed K.tells K.takes_memory text.now told
        (K.written out.old) (K.written out.new) result }
    ensures caused { KeepsFaults K.never_fails K.faults (result ≡ Status.OutFault)
        out.old out.new }
{
    match write_whole(alloc, out, text) {
        Ok(()) => told,
        Err(SinkFault::Memory) => Status::Memory,
        Err(SinkFault::Failed) => Status::OutFault,
    }
}
