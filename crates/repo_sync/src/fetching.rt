//! What a peer has comes into the own folder.
ghost use Rattle.std.specs.Prelude.{◌≡◌, IsTrue, IsErrOf, IfOk, OnOk, true};
ghost use Rattle.gb_store.specs.Faults.{KeepsFaults};
ghost use Rattle.gb_store.specs.Files.{files_of};
ghost use Rattle.listed_refs.specs.AsListed.{AreAsListed, IsAsListed};
ghost use Rattle.repo_sync.specs.Reading.{EachRead, FetchRead, ReadsFetch, ReadsFetching};
ghost use Rattle.sync_steps.specs.Fetching.{FetchAnswers, FetchStops, Fetches, OneFetched};
ghost use Rattle.sync_steps.specs.Lines.{are_quiet, is_quiet};
ghost use Rattle.sync_steps.specs.Turns.{AddsLines, EachAnswers, Turn};
ghost use Rattle.sync_steps.specs.declared.line.Exchange.TheVariants as verb;

use crate::carry::carry;
use crate::listing::list_refs;
use gb_store::Store;
use gb_text::List;
use listed_refs::ListedSide;
use remote_name::RemoteName;
use repo_state::{EntityRef, HeadEntry, ReadStop, Side};
use std::alloc::Global;
use sync_steps::{EntityWord, Exchange, Line, Outcome};
use words::FolderPair;

/// Sets the tracking refs of a remote to the heads that the peer's refs have, once the closure of each
/// head is copied. A line for each identity and then for each bug whose ref stands in the peer, in the
/// order of ids; a bad ref has one too. `Damaged` where a tracking ref is no ref text.
pub fn fetch<S: Store>(
    alloc: Global,
    disk: &mut S,
    pair: &FolderPair,
    remote: &RemoteName,
) -> Result<List<Line>, ReadStop>
    ensures answers { IsTrue S.tells → FetchAnswers pair.now.own pair.now.peer remote.now
        (S.history disk.old) (S.history disk.new) result }
    ensures unread { IfOk result (λ lines. are_quiet lines ≡ true
        → S.object_reads disk.new ≡ S.object_reads disk.old) }
    ensures reads { IsTrue S.tells → ReadsFetching pair.now.own pair.now.peer remote.now
        (S.history disk.old) (S.history disk.new)
        (S.object_reads disk.old) (S.object_reads disk.new) result }
    ensures caused { KeepsFaults S.never_fails S.faults (IsErrOf result ReadStop.Disk)
        disk.old disk.new }
{
    let people_side = Side::RemoteIdentities(remote.copied(alloc)?);
    let bugs_side = Side::RemoteBugs(remote.copied(alloc)?);
    let refs = list_refs(alloc, disk, &pair.peer, &pair.own, people_side, bugs_side)?;
    let mut lines = Vec::new(alloc);
    fetch_each(
        alloc,
        disk,
        pair,
        &refs.people_there,
        EntityWord::Identity,
        refs.people.as_slice(),
        &mut lines,
    )?;
    fetch_each(
        alloc,
        disk,
        pair,
        &refs.bugs_there,
        EntityWord::Bug,
        refs.bugs.as_slice(),
        &mut lines,
    )?;
    Ok(List::from_vec(lines))
}

// Fetches the entities of one kind, and adds a line for each. What the tracking refs have is taken from
// their listing: the turn of an entity sets the ref of no other.
fn fetch_each<S: Store>(
    alloc: Global,
    disk: &mut S,
    pair: &FolderPair,
    seen: &ListedSide,
    word: EntityWord,
    refs: &[EntityRef],
    lines: &mut Vec<Line>,
) -> Result<(), ReadStop>
    ensures answers { IsTrue S.tells
        → AreAsListed (files_of (S.history disk.old)) pair.now.own seen.now refs.now
        → EachAnswers verb.Fetch word (Fetches pair.now.own pair.now.peer seen.now.side)
        (FetchStops pair.now.own pair.now.peer seen.now.side) refs.now
        lines.old.items lines.new.items (S.history disk.old) (S.history disk.new) result }
    ensures unread { OnOk result (AddsLines lines.old.items lines.new.items
        (S.object_reads disk.old) (S.object_reads disk.new)) }
    ensures reads { IsTrue S.tells
        → AreAsListed (files_of (S.history disk.old)) pair.now.own seen.now refs.now
        → EachRead (λ (turn : Turn). turn.entity)
        (FetchRead pair.now.own pair.now.peer seen.now.side)
        (ReadsFetch pair.now.own pair.now.peer) refs.now
        (S.history disk.old) (S.history disk.new)
        (S.object_reads disk.old) (S.object_reads disk.new) result }
    ensures caused { KeepsFaults S.never_fails S.faults (IsErrOf result ReadStop.Disk)
        disk.old disk.new }
{
    for entity in refs {
        let outcome = fetch_one(alloc, disk, pair, seen, entity)?;
        lines.push(Line {
            verb: Exchange::Fetch,
            word,
            id: entity.id,
            outcome,
        })?;
    }
    Ok(())
}

// Fetches an entity.
fn fetch_one<S: Store>(
    alloc: Global,
    disk: &mut S,
    pair: &FolderPair,
    seen: &ListedSide,
    entity: &EntityRef,
) -> Result<Outcome, ReadStop>
    ensures answers { IsTrue S.tells
        → IsAsListed (files_of (S.history disk.old)) pair.now.own seen.now entity.now.id
        → OneFetched pair.now.own pair.now.peer seen.now.side entity.now
        (S.history disk.old) (S.history disk.new) result }
    ensures unread { IfOk result (λ outcome. is_quiet outcome ≡ true
        → S.object_reads disk.new ≡ S.object_reads disk.old) }
    ensures reads { IsTrue S.tells → ReadsFetch pair.now.own pair.now.peer entity.now
        (S.history disk.old) (S.object_reads disk.old) (S.object_reads disk.new) }
    ensures caused { KeepsFaults S.never_fails S.faults (IsErrOf result ReadStop.Disk)
        disk.old disk.new }
{
    let Some(name) = entity.head else {
        return Ok(Outcome::BadRef);
    };
    if seen.head(alloc, &pair.own, &entity.id)? == Some(name) {
        return Ok(Outcome::Same);
    }
    let entry = HeadEntry {
        id: entity.id,
        name,
    };
    match carry(alloc, disk, &pair.peer, &pair.own, true, &seen.side, &entry)? {
        None => Ok(Outcome::Fetched),
        Some(why) => Ok(Outcome::DamagedCopy(why)),
    }
}
