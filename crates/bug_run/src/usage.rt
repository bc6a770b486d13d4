//! Laws of what each command reads, and of what is printed where the output fails. No call of them does
//! anything.
ghost use Rattle.std.specs.Prelude.{◌≡◌, ◌≤◌, ◌<◌, ◌+◌, ◌*◌, ◌^◌, ◌⊎◌, ◌++◌, ℕ, List, [], ◌∷◌, length, take, Contains, IsTrue, Some, Result};
ghost use Rattle.std.specs.List.{flat_map};
ghost use Rattle.gb_text.specs.declared.id.Id.{Id};
ghost use Rattle.gb_text.specs.declared.id.Name.{Name};
ghost use Rattle.gb_store.specs.Files.{Files, History};
ghost use Rattle.object_store.specs.Held.{objects_in};
ghost use Rattle.commit_walk.specs.Below.{IsBelow};
ghost use Rattle.commit_walk.specs.Distinct.{AreDistinct};
ghost use Rattle.identity.specs.Persons.{IsChain};
ghost use Rattle.repo_state.specs.Bugs.{FindsBug};
ghost use Rattle.repo_state.specs.Comments.{AreSought};
ghost use Rattle.repo_state.specs.Sides.{AreIds};
ghost use Rattle.repo_state.specs.Users.{user_entry};
ghost use Rattle.repo_steps.specs.declared.refusal.Stop.{Stop};
ghost use Rattle.repo_state.specs.declared.side.HeadEntry.{HeadEntry as HeadEntryValue};
ghost use Rattle.repo_state.specs.declared.side.Side.TheVariants as side;
ghost use Rattle.bug_edits.specs.declared.edit.BugEdit.{BugEdit as BugEdits};
ghost use Rattle.words.specs.declared.edit.Edit.TheVariants as edits;
ghost use Rattle.bug_run.specs.Reads.{AreBelowEach, ReadsCommand};
ghost use Rattle.bug_run.specs.Refusals.{usage_text};
ghost use Rattle.bug_run.specs.Run.{Call, RequestAnswers, RunAnswers, text_of};
ghost use Rattle.bug_run.specs.Answer.{Answer};
ghost use Rattle.bug_run.specs.declared.status.Status.TheVariants as status;
ghost use Rattle.words.specs.declared.words.Command.TheVariants as ask;
ghost use Rattle.words.specs.declared.words.Request.{Request};
ghost use Rattle.gb_text.specs.declared.ruled.Line.{Line};
ghost use Rattle.gb_text.specs.declared.ruled.Message.{Message};
ghost use Rattle.gb_text.specs.declared.ruled.Title.{Title};
ghost use Rattle.bug_run.specs.Refusals.{refusal_line};
ghost use Rattle.bug_run.specs.declared.status.Refused.TheVariants.{ByWords};
ghost use Rattle.words.specs.declared.words.Asked.TheVariants as asked;
ghost use Rattle.words.specs.declared.words.BadWord.{BadWord as BadWordValue};

/// How many objects the commands read that look at persons, at a bug or at the user's chain, by their
/// factors: three for each person, three for each commit below the head of a bug, and four more for
/// what an edit of it writes; the same for each bug that an argument for a comment fits; and three for
/// each version of the user and for the new one. Even where no new version is made, no more than 3 * 2^16
/// are read for it.
pub fn reads_are_bounded_by_factors()
    ensures users { (files : Files) (folder : List ℕ) (before after : ℕ)
        → ReadsCommand files folder ask.Users ⊥ before after
        → (after ≡ before) ⊎ ((ids : List Id) × AreIds files folder side.Identities ids
        × (after ≤ before + 3 * length ids)) }
    ensures show { (files : Files) (folder word : List ℕ) (before after : ℕ)
        → ReadsCommand files folder (ask.Show word) ⊥ before after
        → (after ≡ before) ⊎ ((found : HeadEntryValue) × (commits : List Name) × (ids : List Id)
        × FindsBug files folder word found × AreDistinct commits
        × ((name : Name) → Contains commits name
        → IsBelow (objects_in files folder) (found.name ∷ []) name)
        × ((ids ≡ []) ⊎ AreIds files folder side.Identities ids)
        × (after ≤ before + 3 * length commits + 3 * length ids)) }
    ensures log { (files : Files) (folder word : List ℕ) (before after : ℕ)
        → ReadsCommand files folder (ask.Log word) ⊥ before after
        → (after ≡ before) ⊎ ((found : HeadEntryValue) × (commits : List Name)
        × FindsBug files folder word found × AreDistinct commits
        × ((name : Name) → Contains commits name
        → IsBelow (objects_in files folder) (found.name ∷ []) name)
        × (after ≤ before + 3 * length commits)) }
    ensures edit { (files : Files) (folder word : List ℕ) (of_bug : BugEdits) (before after : ℕ)
        → ReadsCommand files folder (ask.Edit (edits.OfBug word of_bug)) ⊥ before after
        → (after ≡ before) ⊎ ((found : HeadEntryValue) × (commits : List Name)
        × FindsBug files folder word found × AreDistinct commits
        × ((name : Name) → Contains commits name
        → IsBelow (objects_in files folder) (found.name ∷ []) name)
        × (after ≤ before + 3 * length commits + 4)) }
    ensures comment { (files : Files) (folder word : List ℕ) (message : Message)
        (before after : ℕ)
        → ReadsCommand files folder (ask.Edit (edits.OfComment word message)) ⊥ before after
        → (bugs : List HeadEntryValue) × (commits : List (List Name))
        × AreSought files folder word bugs × AreBelowEach files folder bugs commits
        × (after ≤ before + 3 * length (flat_map (λ names. names) commits) + 4) }
    ensures version { (files : Files) (folder : List ℕ) (name : Title) (email : Line)
        (before after : ℕ)
        → ReadsCommand files folder (ask.Edit (edits.UserEdit name email)) ⊥ before after
        → after ≤ before + 3 * 2 ^ 16 }
    ensures made { (files : Files) (folder : List ℕ) (name : Title) (email : Line)
        (before after : ℕ)
        → ReadsCommand files folder (ask.Edit (edits.UserEdit name email)) (Unit {0}) before after
        → (user : HeadEntryValue) × (chain : IsChain (objects_in files folder) user.id user.name)
        × (user_entry files folder ≡ Some user)
        × (after ≤ before + 3 * (length chain.walk + 1)) }
{}

/// Where the output fails, what was printed is strictly shorter than the text, and is its beginning.
/// Where a command is done, the whole text was printed.
pub fn failed_output_is_cut_short()
    ensures usage { (call : Call) (old new : History) (before after : List ℕ)
        → call.asked ≡ asked.Nothing → RunAnswers call old new before after status.OutFault
        → (count : ℕ) × (count < length usage_text)
        × (IsTrue call.sink_tells → after ≡ before ++ take count usage_text) }
    ensures refusal { (call : Call) (old new : History) (before after : List ℕ)
        (bad : BadWordValue) → call.asked ≡ asked.Refused bad
        → RunAnswers call old new before after status.OutFault
        → (count : ℕ) × (count < length (refusal_line (ByWords bad)))
        × (IsTrue call.sink_tells → after ≡ before ++ take count (refusal_line (ByWords bad))) }
    ensures command { (call : Call) (old new : History) (before after : List ℕ)
        (request : Request) → call.asked ≡ asked.Request request
        → RunAnswers call old new before after status.OutFault
        → (result : Result Answer Stop) × (count : ℕ)
        × RequestAnswers call.store_tells request call.moment old new result
        × (count < length (text_of result))
        × (IsTrue call.sink_tells → after ≡ before ++ take count (text_of result)) }
    ensures done { (call : Call) (old new : History) (before after : List ℕ)
        (request : Request) → call.asked ≡ asked.Request request
        → RunAnswers call old new before after status.Done
        → (result : Result Answer Stop)
        × RequestAnswers call.store_tells request call.moment old new result
        × (IsTrue call.sink_tells → after ≡ before ++ text_of result) }
{}
