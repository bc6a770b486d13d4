//! Laws of what holds at each moment of a run, each the contract of a function that does nothing.
ghost use Rattle.std.specs.Prelude.{◌≡◌, ℕ, List, Contains, IsTrue};
ghost use Rattle.gb_text.specs.Digits.{IsId};
ghost use Rattle.gb_text.specs.declared.id.Id.{Id};
ghost use Rattle.gb_store.specs.Files.{History, files_of};
ghost use Rattle.gb_store.specs.Moments.{AllMoments};
ghost use Rattle.repo_state.specs.declared.side.Side.{Side};
ghost use Rattle.bug_run.specs.Run.{Call, RunAnswers};
ghost use Rattle.bug_run.specs.Runs.{AreApart, IsRun};
ghost use Rattle.bug_run.specs.declared.status.Status.{Status as StatusValue};
ghost use Rattle.ref_moments.specs.Once.{ChangesAt, ChangesOnce, IsOldOrNew, StaysSame};
ghost use Rattle.run_moments.specs.Places.{AsksToRead, IsThatOrApart, SameButRows};
ghost use Rattle.words.specs.declared.list.ListRequest.{ListRequest};
ghost use Rattle.words.specs.declared.words.Asked.TheVariants as asked;

/// Over a run, whatever its arguments ask and whatever it answers, each ref changes by one write at
/// most, the put of its own file: on each side and of each id, in the folder in which the run
/// writes and in each that does not overlap it. So no two moments of the run come before a write
/// that changes it.
pub fn each_ref_changes_at_most_once()
    ensures once { (call : Call) (old new : History) (before after : List ℕ) (answer : StatusValue)
        (folder : List ℕ) (of : Side) (id : Id) → IsTrue call.store_tells
        → IsThatOrApart folder call.asked → IsId id → RunAnswers call old new before after answer
        → ChangesOnce folder of id old new }
    ensures one { (call : Call) (old new first second : History) (before after : List ℕ)
        (answer : StatusValue) (folder : List ℕ) (of : Side) (id : Id) → IsTrue call.store_tells
        → IsThatOrApart folder call.asked → IsId id → RunAnswers call old new before after answer
        → ChangesAt folder of id old new first → ChangesAt folder of id old new second
        → first ≡ second }
{}

/// At each moment of a run, each ref is as it was before the run or as the whole run leaves it. So
/// a run that was stopped at any moment has left each ref as it was, or as the whole run would
/// have.
pub fn stopped_runs_leave_each_ref_old_or_new()
    ensures moments { (call : Call) (old new : History) (before after : List ℕ)
        (answer : StatusValue) (folder : List ℕ) (of : Side) (id : Id) → IsTrue call.store_tells
        → IsThatOrApart folder call.asked → IsId id → RunAnswers call old new before after answer
        → AllMoments (IsOldOrNew folder of id old new) old new }
    ensures stopped { (folders : List (List ℕ)) (old new : History) (folder : List ℕ) (of : Side)
        (id : Id) → AreApart folders → Contains folders folder → IsId id
        → (run : IsRun folders old new)
        → AllMoments (IsOldOrNew folder of id old run.end) old new
        × ChangesOnce folder of id old new }
{}

/// A run that only reads, or whose arguments ask for nothing or are refused, writes nothing: at
/// every moment all files are the same.
pub fn runs_that_read_write_nothing()
    ensures { (call : Call) (old new : History) (before after : List ℕ) (answer : StatusValue)
        → IsTrue call.store_tells → AsksToRead call.asked
        → RunAnswers call old new before after answer
        → (new ≡ old) × AllMoments (λ files. files ≡ files_of old) old new }
{}

/// A list changes no ref, and at every moment each file but those of rows is the same.
pub fn lists_change_rows_alone()
    ensures files { (call : Call) (old new : History) (before after : List ℕ) (answer : StatusValue)
        (request : ListRequest) → IsTrue call.store_tells → call.asked ≡ asked.List request
        → RunAnswers call old new before after answer
        → AllMoments (SameButRows request.folder (files_of old)) old new }
    ensures refs { (call : Call) (old new : History) (before after : List ℕ) (answer : StatusValue)
        (request : ListRequest) (of : Side) (id : Id) → IsTrue call.store_tells
        → call.asked ≡ asked.List request → RunAnswers call old new before after answer
        → StaysSame request.folder of id old new }
{}
