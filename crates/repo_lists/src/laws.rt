//! Laws of lists, each the contract of a function that does nothing.
ghost use Rattle.std.specs.Prelude.{◌≡◌, ℕ, List, Ok, Err};
ghost use Rattle.gb_store.specs.Files.{Files, History, files_of};
ghost use Rattle.gb_store.specs.Moments.{Wrote};
ghost use Rattle.gb_store.specs.declared.store.Change.{Change};
ghost use Rattle.query.specs.declared.query.Query.{Query as QueryValue};
ghost use Rattle.repo_lists.specs.Lists.{ListAnswers, ListsBugs};
ghost use Rattle.repo_state.specs.Sound.{IsSound};
ghost use Rattle.repo_state.specs.declared.stop.ReadStop.TheVariants as stop;
ghost use Rattle.repo_writes.specs.Kinds.{IsRowWrite};
ghost use Rattle.words.specs.declared.list.Layout.{Layout as LayoutValue};

/// In a sound folder a list has the bugs that compiling each of them from scratch gives, whatever rows
/// are stored.
pub fn listed_bugs_are_compiled_from_scratch()
    ensures { (folder text : List ℕ) (layout : LayoutValue) (query : QueryValue)
        (old new : History) → IsSound folder (files_of old)
        → ListAnswers folder layout query old new (Ok text)
        → ListsBugs (files_of old) folder layout query text }
{}

/// In a sound folder no list is refused for damage.
pub fn sound_folders_are_listed()
    ensures { (folder path : List ℕ) (layout : LayoutValue) (query : QueryValue)
        (old new : History) → IsSound folder (files_of old)
        → ListAnswers folder layout query old new (Err (stop.Damaged path)) → ⊥ }
{}

/// After a list of a sound folder, the next one writes nothing: every row that may be stored is.
pub fn listed_rows_are_not_written_again()
    ensures { (folder text : List ℕ) (layout : LayoutValue) (query : QueryValue)
        (old new : History) (change : Change) → IsSound folder (files_of old)
        → Wrote (IsRowWrite folder) old new
        → ListAnswers folder layout query old new (Ok text)
        → IsRowWrite folder (files_of new) change → ⊥ }
{}
