//! Laws of the refusals of edits of a bug, each the contract of a function that does nothing.
ghost use Rattle.std.specs.Prelude.{◌≡◌, List, ℕ, IsTrue, true, Err};
ghost use Rattle.gb_text.specs.Folder.{joined};
ghost use Rattle.gb_text.specs.declared.id.Id.{Id};
ghost use Rattle.gb_store.specs.Files.{History, files_of};
ghost use Rattle.bug_edits.specs.EditTable.{edit_op};
ghost use Rattle.bug_edits.specs.declared.edit.BugEdit.{BugEdit as BugEditValue};
ghost use Rattle.bug_edits.specs.declared.edit.NoChange.{NoChange as NoChangeValue};
ghost use Rattle.ref_store.specs.Refs.{packed_reads};
ghost use Rattle.repo_state.specs.Bugs.{FindsBug, HasBugFault};
ghost use Rattle.repo_state.specs.Finds.{FindsNoHead};
ghost use Rattle.repo_state.specs.Sides.{ref_place};
ghost use Rattle.repo_state.specs.Users.{User, user_at};
ghost use Rattle.repo_state.specs.declared.side.HeadEntry.{HeadEntry as HeadEntryValue};
ghost use Rattle.repo_state.specs.declared.side.Side.TheVariants as side;
ghost use Rattle.repo_state.specs.declared.stop.Missed.{Missed as MissedValue};
ghost use Rattle.repo_steps.specs.BugDoings.{HasBug, bug_says};
ghost use Rattle.repo_steps.specs.Stops.{of_missed, of_no_change};
ghost use Rattle.repo_steps.specs.declared.refusal.Refusal.TheVariants as refusal;
ghost use Rattle.bug_run.specs.Run.{Call, RunAnswers};
ghost use Rattle.bug_run.specs.declared.status.Status.{Status as StatusValue};
ghost use Rattle.refusal_causes.specs.Causes.{IsRefusedOrFault};
ghost use Rattle.words.specs.declared.edit.Edit.TheVariants as edits;
ghost use Rattle.words.specs.declared.words.Asked.TheVariants as asked;
ghost use Rattle.words.specs.declared.words.Command.TheVariants as ask;

/// If there is a user, an edit of a bug is refused for each of these causes, and names the cause:
/// the argument finds no bug, or several, or one whose ref does not contain a name; the bug's
/// commits have a fault; or the bug already has the status or the labels. Only out of memory, and
/// faults of the disk or the output, can replace this answer.
pub fn edits_are_refused_for_their_bug()
    ensures missed { (call : Call) (old new : History) (before after : List ℕ)
        (answer : StatusValue) (folder : List ℕ) (edit : BugEditValue) (word : List ℕ) (user : Id)
        → IsTrue call.store_tells → call.asked
        ≡ asked.Request (record { folder = folder; command = ask.Edit (edits.OfBug word edit) })
        → packed_reads (files_of old) folder ≡ true → user_at (files_of old) folder ≡ User user
        → (why : MissedValue) → FindsNoHead (files_of old) folder side.Bugs word why
        → RunAnswers call old new before after answer → IsRefusedOrFault (of_missed why) answer }
    ensures damaged { (call : Call) (old new : History) (before after : List ℕ)
        (answer : StatusValue) (folder : List ℕ) (edit : BugEditValue) (word : List ℕ) (user : Id)
        → IsTrue call.store_tells → call.asked
        ≡ asked.Request (record { folder = folder; command = ask.Edit (edits.OfBug word edit) })
        → packed_reads (files_of old) folder ≡ true → user_at (files_of old) folder ≡ User user
        → (bug : HeadEntryValue) → FindsBug (files_of old) folder word bug
        → HasBugFault (files_of old) folder bug
        → RunAnswers call old new before after answer
        → IsRefusedOrFault (refusal.Damaged (joined folder (ref_place side.Bugs bug.id))) answer }
    ensures unchanged { (call : Call) (old new : History) (before after : List ℕ)
        (answer : StatusValue) (folder : List ℕ) (edit : BugEditValue) (word : List ℕ) (user : Id)
        → IsTrue call.store_tells → call.asked
        ≡ asked.Request (record { folder = folder; command = ask.Edit (edits.OfBug word edit) })
        → packed_reads (files_of old) folder ≡ true → user_at (files_of old) folder ≡ User user
        → (bug : HasBug folder (files_of old) word) (why : NoChangeValue)
        → edit_op call.moment edit (bug_says bug.entity) ≡ Err why
        → RunAnswers call old new before after answer
        → IsRefusedOrFault (of_no_change why) answer }
{}
