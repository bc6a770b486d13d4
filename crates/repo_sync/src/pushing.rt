//! What the own folder has goes into a peer.
ghost use Rattle.std.specs.Prelude.{◌≡◌, IsTrue, IsErrOf, IfOk, IfSome, OnOk, true};
ghost use Rattle.std.specs.List.{list_any};
ghost use Rattle.gb_store.specs.Faults.{KeepsFaults};
ghost use Rattle.gb_store.specs.Files.{files_of};
ghost use Rattle.listed_refs.specs.AsListed.{AreAsListed, IsAsListed};
ghost use Rattle.object_store.specs.Held.{objects_after};
ghost use Rattle.repo_state.specs.Sides.{head_at};
ghost use Rattle.sync_steps.specs.Lines.{are_quiet, is_quiet};
ghost use Rattle.sync_steps.specs.Pushing.{ForwardAnswers, HeadPushed, OnePushed, PushAnswers, PushStops, Pushes};
ghost use Rattle.sync_steps.specs.Turns.{AddsLines, EachAnswers, is_damage};
ghost use Rattle.sync_steps.specs.declared.line.Exchange.TheVariants as verb;

use crate::carry::carry;
use crate::listing::list_refs;
use commit_walk::lies_below;
use gb_store::{Store, StoreFault};
use gb_text::List;
use listed_refs::ListedSide;
use repo_state::{EntityRef, HeadEntry, ReadStop, Side, whole};
use std::alloc::Global;
use sync_steps::{EntityWord, Exchange, Line, Outcome};
use words::FolderPair;

/// Sets the refs of the peer to the heads of the local ones, once the closure of each head is copied whole.
/// A line for each local identity and then for each local bug, in the order of ids. Where an identity is
/// damaged, no bug is pushed: so no bug comes to a peer before its authors. `Damaged` where a local ref is
/// no ref text.
pub fn push<S: Store>(
    alloc: Global,
    disk: &mut S,
    pair: &FolderPair,
) -> Result<List<Line>, ReadStop>
    ensures answers { IsTrue S.tells → PushAnswers pair.now.own pair.now.peer
        (S.history disk.old) (S.history disk.new) result }
    ensures unread { IfOk result (λ lines. are_quiet lines ≡ true
        → S.object_reads disk.new ≡ S.object_reads disk.old) }
    ensures caused { KeepsFaults S.never_fails S.faults (IsErrOf result ReadStop.Disk)
        disk.old disk.new }
{
    let refs = list_refs(
        alloc,
        disk,
        &pair.own,
        &pair.peer,
        Side::Identities,
        Side::Bugs,
    )?;
    let mut lines = Vec::new(alloc);
    push_each(
        alloc,
        disk,
        pair,
        &refs.people_there,
        EntityWord::Identity,
        false,
        refs.people.as_slice(),
        &mut lines,
    )?;
    let held = are_damaged(lines.as_slice());
    push_each(
        alloc,
        disk,
        pair,
        &refs.bugs_there,
        EntityWord::Bug,
        held,
        refs.bugs.as_slice(),
        &mut lines,
    )?;
    Ok(List::from_vec(lines))
}

// Whether one of the lines is of a damaged entity.
fn are_damaged(lines: &[Line]) -> bool
    ensures { result ≡ list_any (λ line. is_damage line.outcome) lines.now }
{
    lines.iter().any(|line| is_damaged(line))
}

fn is_damaged(line: &Line) -> bool
    ensures { result ≡ is_damage line.now.outcome }
{
    match line.outcome {
        Outcome::BadRef | Outcome::DamagedCopy(_) => true,
        _ => false,
    }
}

// Pushes the entities of one kind, and adds a line for each. What the peer's refs have is taken from their
// listing: the turn of an entity sets the ref of no other.
fn push_each<S: Store>(
    alloc: Global,
    disk: &mut S,
    pair: &FolderPair,
    there: &ListedSide,
    word: EntityWord,
    held: bool,
    refs: &[EntityRef],
    lines: &mut Vec<Line>,
) -> Result<(), ReadStop>
    ensures answers { IsTrue S.tells
        → AreAsListed (files_of (S.history disk.old)) pair.now.peer there.now refs.now
        → EachAnswers verb.Push word (Pushes pair.now.own pair.now.peer there.now.side held)
        (PushStops pair.now.own pair.now.peer there.now.side held) refs.now
        lines.old.items lines.new.items (S.history disk.old) (S.history disk.new) result }
    ensures unread { OnOk result (AddsLines lines.old.items lines.new.items
        (S.object_reads disk.old) (S.object_reads disk.new)) }
    ensures caused { KeepsFaults S.never_fails S.faults (IsErrOf result ReadStop.Disk)
        disk.old disk.new }
{
    for entity in refs {
        let outcome = push_or_hold(alloc, disk, pair, there, held, entity)?;
        lines.push(Line {
            verb: Exchange::Push,
            word,
            id: entity.id,
            outcome,
        })?;
    }
    Ok(())
}

// Pushes an entity, unless it is held.
fn push_or_hold<S: Store>(
    alloc: Global,
    disk: &mut S,
    pair: &FolderPair,
    there: &ListedSide,
    held: bool,
    entity: &EntityRef,
) -> Result<Outcome, ReadStop>
    ensures answers { IsTrue S.tells
        → IsAsListed (files_of (S.history disk.old)) pair.now.peer there.now entity.now.id
        → OnePushed pair.now.own pair.now.peer there.now.side held entity.now
        (S.history disk.old) (S.history disk.new) result }
    ensures unread { IfOk result (λ outcome. is_quiet outcome ≡ true
        → S.object_reads disk.new ≡ S.object_reads disk.old) }
    ensures caused { KeepsFaults S.never_fails S.faults (IsErrOf result ReadStop.Disk)
        disk.old disk.new }
{
    if held {
        return Ok(Outcome::Held);
    }
    let head = whole(alloc, &pair.own, &there.side, entity)?;
    Ok(push_one(alloc, disk, pair, there, &head)?)
}

// Pushes a head.
fn push_one<S: Store>(
    alloc: Global,
    disk: &mut S,
    pair: &FolderPair,
    there: &ListedSide,
    head: &HeadEntry,
) -> Result<Outcome, StoreFault>
    ensures answers { IsTrue S.tells
        → IsAsListed (files_of (S.history disk.old)) pair.now.peer there.now head.now.id
        → HeadPushed pair.now.own pair.now.peer there.now.side head.now
        (S.history disk.old) (S.history disk.new) result }
    ensures unread { IfOk result (λ outcome. is_quiet outcome ≡ true
        → S.object_reads disk.new ≡ S.object_reads disk.old) }
    ensures caused { KeepsFaults S.never_fails S.faults (IsErrOf result StoreFault.Failed)
        disk.old disk.new }
{
    if let Some(outcome) = settled(alloc, disk, pair, there, head)? {
        return Ok(outcome);
    }
    match carry(alloc, disk, &pair.own, &pair.peer, false, &there.side, head)? {
        None => Ok(Outcome::Pushed),
        Some(why) => Ok(Outcome::DamagedCopy(why)),
    }
}

// What comes of a head by what the peer's ref has, unless it is to be carried there.
fn settled<S: Store>(
    alloc: Global,
    disk: &mut S,
    pair: &FolderPair,
    there: &ListedSide,
    head: &HeadEntry,
) -> Result<Option<Outcome>, StoreFault>
    ensures answers { IsTrue S.tells
        → IsAsListed (files_of (S.history disk.old)) pair.now.peer there.now head.now.id
        → ForwardAnswers (objects_after (S.history disk.old) pair.now.own)
        (head_at (files_of (S.history disk.old)) pair.now.peer there.now.side head.now.id)
        head.now.name result }
    ensures unwritten { IsTrue S.tells → S.history disk.new ≡ S.history disk.old }
    ensures unread { IfOk result (λ settled. IfSome settled (λ outcome. is_quiet outcome ≡ true
        → S.object_reads disk.new ≡ S.object_reads disk.old)) }
    ensures caused { KeepsFaults S.never_fails S.faults (IsErrOf result StoreFault.Failed)
        disk.old disk.new }
{
    let Some(theirs) = there.entity(&head.id) else {
        return Ok(None);
    };
    let Some(other) = theirs.head else {
        return Ok(Some(Outcome::BadRef));
    };
    if other == head.name {
        return Ok(Some(Outcome::Same));
    }
    if lies_below(alloc, disk, &pair.own, &head.name, &other)? {
        return Ok(None);
    }
    Ok(Some(Outcome::NotForward(other)))
}
