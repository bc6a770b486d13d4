//! Laws of the refusals of lists, each the contract of a function that does nothing.
ghost use Rattle.std.specs.Prelude.{◌≡◌, List, ℕ, IsTrue, true};
ghost use Rattle.gb_store.specs.Files.{History, files_of};
ghost use Rattle.ref_store.specs.Refs.{packed_reads};
ghost use Rattle.repo_steps.specs.declared.refusal.Refusal.{Refusal};
ghost use Rattle.bug_run.specs.Run.{Call, RunAnswers};
ghost use Rattle.bug_run.specs.declared.status.Refused.TheVariants.{ByCommand};
ghost use Rattle.bug_run.specs.declared.status.Status.{Status as StatusValue};
ghost use Rattle.bug_run.specs.declared.status.Status.TheVariants as status;
ghost use Rattle.refusal_causes.specs.Causes.{IsRefusedOrFault, IsRefusedSo, IsUnread, LooksFirst};
ghost use Rattle.refusal_causes.specs.ListCauses.{BarsLists, ListDamage};
ghost use Rattle.words.specs.declared.list.ListRequest.{ListRequest};
ghost use Rattle.words.specs.declared.words.Asked.TheVariants as asked;

/// A list is refused only for packed refs that do not read, or for damage of an identity or of a
/// bug. And where packed refs do not read, an identity is damaged or a bug's ref is no ref text,
/// it is refused so and not done, unless memory runs out or the disk or the output fails. The same
/// holds where something is wrong with a bug's commits, apart from their authors, if the stored
/// rows are true.
pub fn lists_are_refused_for_damage()
    ensures cause { (call : Call) (old new : History) (before after : List ℕ)
        (request : ListRequest) (refusal : Refusal) → IsTrue call.store_tells
        → call.asked ≡ asked.List request
        → RunAnswers call old new before after (status.Refused (ByCommand refusal))
        → LooksFirst (files_of old) request.folder
        (ListDamage (files_of old) request.folder) refusal }
    ensures packed { (call : Call) (old new : History) (before after : List ℕ)
        (answer : StatusValue) (request : ListRequest) (refusal : Refusal)
        → IsTrue call.store_tells → call.asked ≡ asked.List request
        → IsUnread (files_of old) request.folder refusal
        → RunAnswers call old new before after answer → IsRefusedOrFault refusal answer }
    ensures damage { (call : Call) (old new : History) (before after : List ℕ)
        (answer : StatusValue) (request : ListRequest) → IsTrue call.store_tells
        → call.asked ≡ asked.List request → packed_reads (files_of old) request.folder ≡ true
        → BarsLists (files_of old) request.folder → RunAnswers call old new before after answer
        → IsRefusedSo (ListDamage (files_of old) request.folder) answer }
{}
