//! Laws of the refusals of commands in one folder, each the contract of a function that does
//! nothing.
ghost use Rattle.std.specs.Prelude.{◌≡◌, List, ℕ, IsTrue};
ghost use Rattle.gb_store.specs.Files.{History};
ghost use Rattle.repo_steps.specs.declared.refusal.Refusal.{Refusal};
ghost use Rattle.bug_run.specs.Run.{Call, RunAnswers, env_at};
ghost use Rattle.bug_run.specs.declared.status.Refused.TheVariants.{ByCommand};
ghost use Rattle.bug_run.specs.declared.status.Status.{Status as StatusValue};
ghost use Rattle.bug_run.specs.declared.status.Status.TheVariants as status;
ghost use Rattle.refusal_causes.specs.Alike.{AreAlike};
ghost use Rattle.refusal_causes.specs.Causes.{IsRefusedSo, RequestCause};
ghost use Rattle.words.specs.declared.words.Asked.TheVariants as asked;
ghost use Rattle.words.specs.declared.words.Request.{Request};

/// Where a command in one folder is refused, the cause of that refusal holds in the files at
/// entry.
pub fn refused_requests_have_their_cause()
    ensures { (call : Call) (old new : History) (before after : List ℕ) (request : Request)
        (refusal : Refusal) → IsTrue call.store_tells → call.asked ≡ asked.Request request
        → RunAnswers call old new before after (status.Refused (ByCommand refusal))
        → RequestCause (env_at call.moment request.folder) request.command old refusal }
{}

/// The other way: where the cause of a refusal holds, a command in one folder is refused so,
/// unless memory runs out or the disk or the output fails. It is not done, and no other refusal is
/// told. Where several names are taken, any of these may be told.
pub fn causes_refuse_requests()
    ensures { (call : Call) (old new : History) (before after : List ℕ) (answer : StatusValue)
        (request : Request) (refusal : Refusal) → IsTrue call.store_tells
        → call.asked ≡ asked.Request request
        → RequestCause (env_at call.moment request.folder) request.command old refusal
        → RunAnswers call old new before after answer → IsRefusedSo (AreAlike refusal) answer }
{}
