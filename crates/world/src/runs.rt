//! Runs over the store of a world.
ghost use Rattle.std.specs.Prelude.{◌≡◌, ◌≢◌, [], IfOk, IsTrue, OnOk, length, map, string_bytes};
ghost use Rattle.gb_store.specs.Files.{History, files_of};
ghost use Rattle.gb_store.specs.MemSink.{empty_sink};
ghost use Rattle.gb_store.specs.MemStore.{has_no_fails};
ghost use Rattle.gb_store.specs.Moments.{WroteBy};
ghost use Rattle.bug_run.specs.Run.{RunWrites};
ghost use Rattle.world.specs.Plays.{EndsBy, HasBugs, IsAt, IsRun, MayEndAs, RunsEvent, RunsWhole, call_with, stopped_at};

use crate::world::Ended;
use bug_edits::Moment;
use bug_run::{Status, moment_of, run};
use gb_store::{MemSink, MemStore};
use gb_text::{Folder, Id, List, Memory};
use repo_state::{Side, ids};
use std::alloc::Global;
use words::read_words;
use world_events::{Event, event_words, folder_word};

/// A sink that takes any text in one write.
pub fn new_sink(alloc: Global) -> MemSink
    ensures { result ≡ empty_sink [] 18446744073709551615 }
{
    MemSink::new(alloc, List::new(alloc), usize::MAX)
}

/// Runs these arguments, and prints to an empty sink. Where memory ran out, some of the writes may
/// have been made.
pub fn run_over(
    alloc: Global,
    store: &mut MemStore,
    out: &mut MemSink,
    words: &[String],
    moment: Moment,
) -> Status
    requires calm { IsTrue (has_no_fails store.old) }
    requires empty { out.old ≡ empty_sink [] 18446744073709551615 }
    ensures runs { result ≢ Status.Memory → IsRun (map string_bytes words.now) moment
        store.old.history store.new.history out.new.written result }
    ensures wrote { WroteBy (RunWrites (call_with (map string_bytes words.now) moment))
        store.old.history store.new.history }
    ensures calm { IsTrue (has_no_fails store.new) }
{
    match read_words(alloc, words) {
        Ok(asked) => run(alloc, words, asked, store, out, moment),
        Err(_) => Status::Memory,
    }
}

/// The bugs of a folder, in order of their ids.
pub fn bugs_of(alloc: Global, store: &mut MemStore, folder: u32) -> Result<List<Id>, Memory>
    requires { IsTrue (has_no_fails store.old) }
    ensures has { IfOk result (HasBugs (files_of store.old.history) folder) }
    ensures unwritten { store.new.history ≡ store.old.history }
    ensures calm { IsTrue (has_no_fails store.new) }
{
    let word = folder_word(alloc, folder)?;
    let Ok(folder) = Folder::read(alloc, word.as_str()) else {
        return Err(Memory);
    };
    match ids(alloc, store, &folder, &Side::Bugs) {
        Ok(bugs) => Ok(bugs),
        Err(_) => Err(Memory),
    }
}

/// Runs an event, and says how it ended. Where it has a stop, the writes behind that are then gone.
pub fn run_event(alloc: Global, store: &mut MemStore, event: &Event) -> Result<Ended, Memory>
    requires { IsTrue (has_no_fails store.old) }
    ensures runs { IfOk result (λ ended. RunsEvent (event.entry.now, ended)
        store.old.history store.new.history) }
    ensures calm { IsTrue (has_no_fails store.new) }
{
    let before = store.writes();
    let ended = run_whole(alloc, store, event)?;
    stop_after(alloc, store, before, event.stop)?;
    Ok(ended)
}

// Keeps so many of the writes behind the first ones, or all of them.
fn stop_after(
    alloc: Global,
    store: &mut MemStore,
    before: u64,
    stop: Option<u64>,
) -> Result<(), Memory>
    ensures stopped { OnOk result ((old : History) → length old ≡ before
        → store.new.history ≡ stopped_at stop old store.old.history) }
    ensures calm { IsTrue (has_no_fails store.old) → IsTrue (has_no_fails store.new) }
{
    let written = store.writes().saturating_sub(before);
    match stop {
        Some(count) if count < written => store.cut(alloc, before + count),
        _ => Ok(()),
    }
}

// Runs an event to its end.
fn run_whole(alloc: Global, store: &mut MemStore, event: &Event) -> Result<Ended, Memory>
    requires { IsTrue (has_no_fails store.old) }
    ensures runs { IfOk result (λ ended. RunsWhole (event.entry.now, ended)
        store.old.history store.new.history) }
    ensures calm { IsTrue (has_no_fails store.new) }
{
    let bugs = bugs_of(alloc, store, event.folder)?;
    match event_words(alloc, event, bugs.as_slice())? {
        Some(words) => run_words(alloc, store, &words, moment_at(event)),
        None => Ok(Ended::Skipped),
    }
}

// When an event is run.
fn moment_at(event: &Event) -> Moment
    ensures { IsAt event.entry.now.now event.entry.now.seed result }
{
    moment_of(event.now, event.seed)
}

// Runs an event's arguments.
fn run_words(
    alloc: Global,
    store: &mut MemStore,
    words: &[String],
    moment: Moment,
) -> Result<Ended, Memory>
    requires { IsTrue (has_no_fails store.old) }
    ensures ends { IfOk result (EndsBy (map string_bytes words.now) moment
        store.old.history store.new.history) }
    ensures calm { IsTrue (has_no_fails store.new) }
{
    let mut out = new_sink(alloc);
    let status = run_over(alloc, store, &mut out, words, moment);
    ended_of(&status)
}

/// How an event ends whose run ends so. The store and the sink of a world never fail, and no
/// event's arguments print the usage line.
pub fn ended_of(status: &Status) -> Result<Ended, Memory>
    ensures { IfOk result (λ ended. MayEndAs ended status.now) }
{
    match status {
        Status::Done => Ok(Ended::Done),
        Status::Refused(_) | Status::Usage => Ok(Ended::Refused),
        Status::Memory | Status::DiskFault | Status::OutFault => Err(Memory),
    }
}
