//! Laws of where operation commits come from, each the contract of a function that does nothing.
ghost use Rattle.std.specs.Prelude.{◌≡◌, ◌∷◌, ◌⊎◌, [], ℕ, List};
ghost use Rattle.gb_text.specs.Digits.{IsId};
ghost use Rattle.gb_text.specs.declared.id.Id.{Id};
ghost use Rattle.gb_store.specs.Files.{History, files_of};
ghost use Rattle.bug_ops.specs.declared.op.BugOp.{BugOp};
ghost use Rattle.dag_entity.specs.declared.entity.Placed.{Placed};
ghost use Rattle.repo_steps.specs.BugDoings.{op_ids};
ghost use Rattle.words.specs.Words.{asked_of};
ghost use Rattle.bug_run.specs.Runs.{AreAllSound, AreApart, IsRun};
ghost use Rattle.full_exchanges.specs.Having.{HaveOneTextEach};
ghost use Rattle.exchange_runs.specs.Takes.{RunsAmong, TakesAmong};
ghost use Rattle.operation_origins.specs.Once.{AreFresh, IsFresh, OneMade, StandOnce};
ghost use Rattle.operation_origins.specs.Origins.{IsThere, WasMade};
ghost use Rattle.operation_origins.specs.Seen.{SeenAreSound};

/// Whatever is run over sound folders of which no two overlap, and wherever it stops, if a fetch or
/// a pull into one of them is from one of them: each operation commit of a bug that one of them
/// then has, or has last seen at a remote, one of them had or had last seen before, or the run's
/// own edit made it. A run makes one commit at most, of one bug, with one operation.
pub fn runs_make_operations_by_edits_alone()
    ensures origins { (folders : List (List ℕ)) (old new : History) (id : Id)
        (placed : Placed BugOp) → AreApart folders → (run : IsRun folders old new)
        → TakesAmong folders (asked_of run.words) → AreAllSound folders (files_of old)
        → HaveOneTextEach (files_of new) folders → IsId id
        → IsThere (files_of new) folders id placed
        → IsThere (files_of old) folders id placed ⊎ WasMade folders old new run id placed }
    ensures one_commit { (folders : List (List ℕ)) (old new : History) (run : IsRun folders old new)
        (id other : Id) (one two : Placed BugOp) → WasMade folders old new run id one
        → WasMade folders old new run other two → (id ≡ other) × (one ≡ two) }
    ensures one_operation { (folders : List (List ℕ)) (old new : History)
        (run : IsRun folders old new) (id : Id) (placed : Placed BugOp)
        → WasMade folders old new run id placed
        → (op : Id) × (op_ids placed.pack.ops ≡ op ∷ []) }
{}

/// Whatever is run over such folders, from no files at all, and wherever each run stops: each
/// operation commit that is there then was made by one of the runs.
pub fn each_operation_was_made_by_a_run()
    ensures { (folders : List (List ℕ)) (new : History) (id : Id) (placed : Placed BugOp)
        → AreApart folders → (runs : RunsAmong folders [] new)
        → HaveOneTextEach (files_of new) folders → IsId id
        → IsThere (files_of new) folders id placed → OneMade folders [] new runs id placed }
{}

/// Where each operation occurs once, it does so after a run, if what the run makes has no operation
/// with an id that was there. So it is after any number of such runs from no files at all: no two
/// operation commits of any folders, sides and bugs share the id of an operation, unless they are
/// one commit of one bug.
pub fn operations_stand_once()
    ensures run { (folders : List (List ℕ)) (old new : History) → AreApart folders
        → (run : IsRun folders old new) → TakesAmong folders (asked_of run.words)
        → AreAllSound folders (files_of old) → HaveOneTextEach (files_of new) folders
        → IsFresh folders old new run → StandOnce (files_of old) folders
        → StandOnce (files_of new) folders }
    ensures runs { (folders : List (List ℕ)) (new : History) → AreApart folders
        → (runs : RunsAmong folders [] new) → HaveOneTextEach (files_of new) folders
        → AreFresh folders [] new runs → StandOnce (files_of new) folders }
{}

/// Nothing is wrong with the bugs that such folders have last seen at remotes, but perhaps that an
/// author is unknown. A run keeps it so in sound folders, and so do any number of runs from no
/// files at all, wherever each stops.
pub fn bugs_last_seen_have_no_fault()
    ensures run { (folders : List (List ℕ)) (old new : History) → AreApart folders
        → (run : IsRun folders old new) → TakesAmong folders (asked_of run.words)
        → AreAllSound folders (files_of old) → HaveOneTextEach (files_of new) folders
        → SeenAreSound (files_of old) folders → SeenAreSound (files_of new) folders }
    ensures runs { (folders : List (List ℕ)) (new : History) → AreApart folders
        → RunsAmong folders [] new → HaveOneTextEach (files_of new) folders
        → SeenAreSound (files_of new) folders }
{}
