//! Laws of the trees that folders hold, each the contract of a function that does nothing.
ghost use Rattle.std.specs.Prelude.{◌≡◌, [], ℕ, Bool, Contains, List};
ghost use Rattle.gb_text.specs.Digits.{IsId};
ghost use Rattle.gb_text.specs.declared.id.Id.{Id};
ghost use Rattle.gb_text.specs.declared.id.Name.{Name};
ghost use Rattle.gb_store.specs.Files.{Files, History, files_of};
ghost use Rattle.object_store.specs.Held.{objects_after, objects_in};
ghost use Rattle.ref_store.specs.Refs.{Head};
ghost use Rattle.remote_copy.specs.Causes.{CauseHolds};
ghost use Rattle.remote_copy.specs.declared.fault.CopyFault.{CopyFault};
ghost use Rattle.repo_state.specs.Sides.{head_at};
ghost use Rattle.repo_state.specs.Sound.{IsSound};
ghost use Rattle.sync_steps.specs.Places.{local_side};
ghost use Rattle.sync_steps.specs.declared.line.EntityWord.{EntityWord as WordValue};
ghost use Rattle.words.specs.Words.{asked_of};
ghost use Rattle.bug_run.specs.Runs.{AreApart, IsRun};
ghost use Rattle.copy_limits.specs.Flat.{HasFlatEntities};
ghost use Rattle.full_exchanges.specs.Having.{HaveOneTextEach};
ghost use Rattle.exchange_runs.specs.Takes.{RunsAmong, TakesAmong};
ghost use Rattle.flat_trees.specs.Flat.{AreAllFlat, AreTreesFlat};

/// A run over folders of which no two overlap, that take commits from each other alone, leaves each
/// tree that they hold flat if it was before, wherever the run stops: with at most 15 entries, none
/// of which names a tree. So do any runs from no files at all. Nothing else is asked of what the
/// folders hold.
pub fn trees_stay_flat()
    ensures run { (folders : List (List ℕ)) (old new : History) → AreApart folders
        → (run : IsRun folders old new) → TakesAmong folders (asked_of run.words)
        → AreAllFlat folders (files_of old) → AreAllFlat folders (files_of new) }
    ensures runs { (folders : List (List ℕ)) (new : History) → AreApart folders
        → RunsAmong folders [] new → AreAllFlat folders (files_of new) }
{}

/// The entities of a sound folder are flat if each tree that it holds is, since each commit below
/// the head of an identity or of a bug is held with its tree.
pub fn entities_of_flat_folders_are_flat()
    ensures { (folder : List ℕ) (files : Files) → IsSound folder files
        → AreTreesFlat (objects_in files folder) → HasFlatEntities folder files }
{}

/// After any runs from no files at all over such folders, wherever each run stops, the entities of
/// each folder are flat. If the folders have no two texts under one name then, nothing keeps a
/// head of one of them, of an identity or of a bug, from being copied into one of them.
pub fn runs_leave_flat_entities()
    ensures flat { (folders : List (List ℕ)) (folder : List ℕ) (new : History)
        → AreApart folders → RunsAmong folders [] new → Contains folders folder
        → HasFlatEntities folder (files_of new) }
    ensures copied { (folders : List (List ℕ)) (source target : List ℕ) (new : History)
        (closed : Bool) (word : WordValue) (id : Id) (head : Name) (why : CopyFault)
        → AreApart folders → RunsAmong folders [] new → HaveOneTextEach (files_of new) folders
        → Contains folders source → Contains folders target
        → IsId id → head_at (files_of new) source (local_side word) id ≡ Head head
        → CauseHolds closed (objects_after new source) (objects_after new target) head why → ⊥ }
{}
