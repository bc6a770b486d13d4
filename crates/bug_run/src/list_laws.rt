//! Laws of what a list prints, each the contract of a function that does nothing.
ghost use Rattle.std.specs.Prelude.{◌≡◌, ◌⊎◌, ◌++◌, ◌<◌, ℕ, List, IsTrue, Result, length, take};
ghost use Rattle.gb_store.specs.Files.{History, files_of};
ghost use Rattle.gb_store.specs.Moments.{Wrote};
ghost use Rattle.repo_lists.specs.Lists.{ListsBugs};
ghost use Rattle.repo_state.specs.Sound.{IsSound};
ghost use Rattle.repo_steps.specs.declared.refusal.Stop.{Stop};
ghost use Rattle.repo_writes.specs.Kinds.{IsRowWrite};
ghost use Rattle.bug_run.specs.Answer.{Answer};
ghost use Rattle.bug_run.specs.Run.{Call, ListRequestAnswers, RunAnswers, text_of};
ghost use Rattle.bug_run.specs.declared.status.Status.{Status as StatusValue};
ghost use Rattle.bug_run.specs.declared.status.Status.TheVariants as status;
ghost use Rattle.words.specs.declared.list.ListRequest.{ListRequest};
ghost use Rattle.words.specs.declared.words.Asked.TheVariants as asked;

/// What `ls` and `board` print of a sound folder: the local bugs that the query asks for, in its order,
/// each as the operations of the commits below its head say, with the names of the folder's people. So
/// the text does not depend on the rows that are stored. Rows alone are written.
pub fn lists_print_bugs_compiled_from_scratch()
    ensures { (call : Call) (old new : History) (before after : List ℕ) (request : ListRequest)
        → IsTrue call.store_tells → IsTrue call.sink_tells → call.asked ≡ asked.List request
        → IsSound request.folder (files_of old)
        → RunAnswers call old new before after status.Done
        → (text : List ℕ)
        × ListsBugs (files_of old) request.folder request.layout request.query text
        × (after ≡ before ++ text) × Wrote (IsRowWrite request.folder) old new }
{}

/// In a sound folder a list is done, but where the store fails, the output fails or memory runs out.
pub fn sound_folders_are_listed()
    ensures { (call : Call) (old new : History) (before after : List ℕ) (answer : StatusValue)
        (request : ListRequest) → IsTrue call.store_tells → call.asked ≡ asked.List request
        → IsSound request.folder (files_of old) → RunAnswers call old new before after answer
        → (answer ≡ status.Done) ⊎ ((answer ≡ status.Memory)
        ⊎ ((answer ≡ status.DiskFault) ⊎ (answer ≡ status.OutFault))) }
{}

/// Where the output fails in a list, what was printed is strictly shorter than the text, and is its
/// beginning. Rows that were written stay.
pub fn failed_lists_are_cut_short()
    ensures { (call : Call) (old new : History) (before after : List ℕ) (request : ListRequest)
        → call.asked ≡ asked.List request → RunAnswers call old new before after status.OutFault
        → (result : Result Answer Stop) × (count : ℕ)
        × ListRequestAnswers call.store_tells request old new result
        × (count < length (text_of result))
        × (IsTrue call.sink_tells → after ≡ before ++ take count (text_of result)) }
{}
