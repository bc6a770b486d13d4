//! Laws of files, of the writes of a call and of paths, each the contract of a function that does
//! nothing.
ghost use Rattle.std.specs.Prelude.{◌≡◌, ◌≢◌, ◌↔◌, ◌⊎◌, ◌<◌, ◌≤◌, ◌-◌, ◌^◌, ◌++◌, ◌∷◌, [], ℕ, List, length, reverse, Some, None, Err, Bool, true, false, IsTrue};
ghost use Rattle.gb_text.specs.Digits.{IsName};
ghost use Rattle.gb_text.specs.Folder.{joined};
ghost use Rattle.gb_text.specs.declared.id.Name.{Name};
ghost use Rattle.gb_store.specs.Counts.{HasRisen, raised};
ghost use Rattle.gb_store.specs.Faults.{KeepsFaults};
ghost use Rattle.gb_store.specs.Files.{Files, History, Put, Removed, TellsFile, file_at, files_of, written};
ghost use Rattle.gb_store.specs.MemStore.{MemState, WriteAnswers, after_call, after_read, fail_at, next_fail};
ghost use Rattle.gb_store.specs.Moments.{AllMoments, IsMoment, Wrote, WroteSome, first_writes};
ghost use Rattle.gb_store.specs.ObjectPath.{IsObjectPath, is_object_path, object_place};
ghost use Rattle.gb_store.specs.declared.fault.StoreFault.TheVariants as fault;
ghost use Rattle.gb_store.specs.declared.mem_store.Fail.{Fail as FailValue};
ghost use Rattle.gb_store.specs.declared.store.Change.{Change};
ghost use Rattle.gb_store.specs.declared.store.Content.{Content as ContentValue};
ghost use Rattle.gb_store.specs.declared.store.Content.TheVariants as content;

use crate::{Sink, Store};

/// A rule of writes, for the laws that hold of each.
pub trait Rule {
    ghost use Rattle.gb_store.specs.Files.{Files};
    ghost use Rattle.gb_store.specs.declared.store.Change.{Change};

    /// The writes that it allows, by the files at their moment.
    ghost allows: { Files → Change → Type 0 };
}

/// A property of files, for the laws that hold of each.
pub trait Property {
    ghost use Rattle.gb_store.specs.Files.{Files};

    /// The files that have it.
    ghost holds: { Files → Type 0 };
}

/// A write changes the file at its path, and no other.
pub fn writes_change_their_path()
    ensures put { (path bytes : List ℕ) (earlier : History)
        → file_at (Put path bytes ∷ earlier) path ≡ Some bytes }
    ensures removed { (path : List ℕ) (earlier : History)
        → file_at (Removed path ∷ earlier) path ≡ None }
    ensures other { (change : Change) (earlier : History) (path : List ℕ) → change.path ≢ path
        → file_at (change ∷ earlier) path ≡ file_at earlier path }
    ensures files { (change : Change) (earlier : History)
        → files_of (change ∷ earlier) ≡ written (files_of earlier) change }
{}

/// A count that rose in a part of a call, and fell in none, has risen in the whole.
pub fn counts_rise_in_part()
    ensures first { (before between after : ℕ) → HasRisen before between → between ≤ after
        → HasRisen before after }
    ensures second { (before between after : ℕ) → before ≤ between → HasRisen between after
        → HasRisen before after }
{}

/// A call that writes nothing writes by any rule.
pub fn wrote_nothing<R: Rule>()
    ensures { (old : History) → Wrote R.allows old old }
{}

/// A write that a rule allows is written by the rule.
pub fn wrote_one<R: Rule>()
    ensures { (change : Change) (old : History) → R.allows (files_of old) change
        → Wrote R.allows old (change ∷ old) }
{}

/// Two calls that write by a rule, one after the other, together write by it.
pub fn wrote_composes<R: Rule>()
    ensures { (old mid new : History) → Wrote R.allows old mid → Wrote R.allows mid new
        → Wrote R.allows old new }
{}

/// What is written by a rule is written by any wider rule.
pub fn wrote_weakens<R: Rule, W: Rule>()
    ensures { ((files : Files) (change : Change) → R.allows files change → W.allows files change)
        → (old new : History) → Wrote R.allows old new → Wrote W.allows old new }
{}

/// If a call writes by a rule, so do its writes before any point, and those after it.
pub fn each_part_is_allowed<R: Rule>()
    ensures before { (old new moment : History) → Wrote R.allows old new
        → IsMoment old new moment → Wrote R.allows old moment }
    ensures after { (old new moment : History) → Wrote R.allows old new → IsMoment old new moment
        → Wrote R.allows moment new }
{}

/// The states during a call are exactly the cuts of its writes.
pub fn cuts_are_moments()
    ensures cut { (old new : History) (count : ℕ) → IsMoment old new old → length old ≤ count
        → count ≤ length new → IsMoment old new (first_writes count new) }
    ensures counted { (new : History) (count : ℕ) → count ≤ length new
        → length (first_writes count new) ≡ count }
    ensures moment { (old new moment : History) → IsMoment old new moment
        → moment ≡ first_writes (length moment) new }
{}

/// A property that every allowed write keeps holds at every point of a call that writes by the
/// rule, if it held before.
pub fn kept_at_each_moment<R: Rule, P: Property>()
    ensures { ((files : Files) (change : Change) → P.holds files → R.allows files change
        → P.holds (written files change))
        → (old new : History) → P.holds (files_of old) → Wrote R.allows old new
        → AllMoments P.holds old new }
{}

/// The first of a list of writes were made exactly when the list begins with the writes that were
/// made.
pub fn some_are_the_first()
    ensures { (writes : List Change) (old new : History) → WroteSome writes old new
        ↔ ((done : List Change) × (later : List Change) × (writes ≡ done ++ later)
        × (new ≡ reverse done ++ old)) }
{}

/// If the first of two calls did not fail, the faults of both together are those of the second.
pub fn faults_compose<S: Store>()
    ensures { (failed : Bool) (old mid new : S) → KeepsFaults S.never_fails S.faults ⊥ old mid
        → KeepsFaults S.never_fails S.faults (IsTrue failed) mid new
        → KeepsFaults S.never_fails S.faults (IsTrue failed) old new }
{}

/// The same holds for the faults of a sink.
pub fn sink_faults_compose<K: Sink>()
    ensures { (failed : Bool) (old mid new : K) → KeepsFaults K.never_fails K.faults ⊥ old mid
        → KeepsFaults K.never_fails K.faults (IsTrue failed) mid new
        → KeepsFaults K.never_fails K.faults (IsTrue failed) old new }
{}

/// The states during two calls, one after the other, are those during the first and those during
/// the second.
pub fn moments_compose<P: Property>()
    ensures split { (old mid new moment : History) → IsMoment old mid old → IsMoment mid new mid
        → IsMoment old new moment ↔ (IsMoment old mid moment ⊎ IsMoment mid new moment) }
    ensures whole { (old mid new : History) → AllMoments P.holds old mid
        → AllMoments P.holds mid new → AllMoments P.holds old new }
{}

/// A path is an object's exactly when its last parts are `objects`, two digits, and thirty-eight
/// digits.
pub fn object_paths_by_form()
    ensures { (path : List ℕ) → IsTrue (is_object_path path) ↔ IsObjectPath path }
{}

/// The place of an object below a folder is the path of an object.
pub fn objects_have_object_paths()
    ensures { (folder : List ℕ) (name : Name) → IsName name
        → IsTrue (is_object_path (joined folder (object_place name))) }
{}

/// A read answers with a file of at most the limit, with `Long` for a longer one, and with `Absent`
/// for none.
pub fn files_are_read_up_to_the_limit()
    ensures whole { (bytes : List ℕ) (limit : ℕ) (read : ContentValue) → length bytes ≤ limit
        → TellsFile (Some bytes) limit read → read ≡ content.Whole bytes }
    ensures long { (bytes : List ℕ) (limit : ℕ) (read : ContentValue) → limit < length bytes
        → TellsFile (Some bytes) limit read → read ≡ content.Long }
    ensures absent { (limit : ℕ) (read : ContentValue) → TellsFile None limit read
        → read ≡ content.Absent }
{}

/// A count that has risen is higher, below its last value.
pub fn risen_counts_are_higher()
    ensures { (before now : ℕ) → HasRisen before now → before < 2 ^ 64 - 1 → before < now }
{}

/// A store in memory fails at the calls of its list, by the first entry for each, and counts each
/// failure.
pub fn listed_calls_fail()
    ensures none { (call : ℕ) → fail_at call [] ≡ None }
    ensures listed { (entry : FailValue) (later : List FailValue)
        → fail_at entry.call (entry ∷ later) ≡ Some entry.after }
    ensures other { (call : ℕ) (entry : FailValue) (later : List FailValue) → entry.call ≢ call
        → fail_at call (entry ∷ later) ≡ fail_at call later }
    ensures counted { (state : MemState) (after : Bool) → next_fail state ≡ Some after
        → (after_call state).faults ≡ raised state.faults }
    ensures not_counted { (state : MemState) → next_fail state ≡ None
        → (after_call state).faults ≡ state.faults }
{}

/// A write that fails is made if its entry says that it fails after the write, and not if it fails
/// before.
pub fn failed_writes_are_made_if_listed_so()
    ensures after { (change : Change) (old new : MemState) → next_fail old ≡ Some true
        → WriteAnswers change old new (Err fault.Failed)
        → new.history ≡ change ∷ old.history }
    ensures before { (change : Change) (old new : MemState) → next_fail old ≡ Some false
        → WriteAnswers change old new (Err fault.Failed) → new.history ≡ old.history }
{}

/// A read of an object's path counts as one, and a read of another file does not.
pub fn reads_of_objects_are_counted()
    ensures object { (path : List ℕ) (state : MemState) → is_object_path path ≡ true
        → (after_read path state).reads ≡ raised state.reads }
    ensures other { (path : List ℕ) (state : MemState) → is_object_path path ≡ false
        → (after_read path state).reads ≡ state.reads }
{}
