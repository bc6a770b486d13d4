//! Laws of runs of merges and pulls in clean folders, each the contract of a function that does
//! nothing.
ghost use Rattle.std.specs.Prelude.{◌≡◌, ◌++◌, ◌∷◌, [], ℕ, Contains, IsTrue, List, Ok};
ghost use Rattle.gb_store.specs.Files.{History, files_of};
ghost use Rattle.dag_entity.specs.declared.fault.EntityFault.{EntityFault};
ghost use Rattle.remote_name.specs.declared.remote.RemoteName.{RemoteName};
ghost use Rattle.repo_state.specs.Sound.{IsSound};
ghost use Rattle.merge_steps.specs.Pulling.{PullAnswers};
ghost use Rattle.merge_steps.specs.Turns.{MergeAnswers};
ghost use Rattle.merge_steps.specs.declared.line.MergeLine.{MergeLine};
ghost use Rattle.merge_steps.specs.declared.line.MergeOutcome.TheVariants as outcome;
ghost use Rattle.merge_steps.specs.declared.line.Pulled.{Pulled};
ghost use Rattle.bug_run.specs.Exchanges.{answer_of_merge, answer_of_pull};
ghost use Rattle.bug_run.specs.Printed.{HasLines};
ghost use Rattle.bug_run.specs.Run.{Call, RunAnswers};
ghost use Rattle.bug_run.specs.declared.status.Status.{Status};
ghost use Rattle.operation_origins.specs.Limits.{IsLimit};
ghost use Rattle.operation_origins.specs.Tracked.{TrackedAreSound, TrackedAuthorsAreKnown};
ghost use Rattle.operation_origins.specs.Once.{StandOnce};
ghost use Rattle.words.specs.declared.pair.FolderPair.{FolderPair};
ghost use Rattle.words.specs.declared.words.Asked.TheVariants as asked;
ghost use Rattle.words.specs.declared.words.MergeRequest.{MergeRequest};
ghost use Rattle.words.specs.declared.words.PeerCommand.TheVariants as peer;

/// Where the command `merge` is done in a sound folder whose operations occur once, and the bugs
/// last seen at the remote are without fault and their authors known, each line that says that a
/// bug is invalid tells a limit alone. So does each of the command `pull`, where this holds of what
/// its fetch left.
pub fn runs_refuse_bugs_by_a_limit_alone()
    ensures merge { (call : Call) (old new : History) (before after : List ℕ) (answer : Status)
        (request : MergeRequest) → IsTrue call.store_tells → IsTrue call.sink_tells
        → call.asked ≡ asked.Merge request → RunAnswers call old new before after answer
        → HasLines answer → IsSound request.folder (files_of old)
        → StandOnce (files_of old) (request.folder ∷ [])
        → TrackedAreSound (files_of old) request.folder request.remote
        → TrackedAuthorsAreKnown (files_of old) request.folder request.remote
        → (lines : List MergeLine)
        × MergeAnswers request.folder request.remote call.moment.now old new (Ok lines)
        × (after ≡ before ++ (answer_of_merge lines).text)
        × ((line : MergeLine) (why : EntityFault) → Contains lines line
        → line.outcome ≡ outcome.InvalidBug why → IsLimit why) }
    ensures pull { (call : Call) (old new : History) (before after : List ℕ) (answer : Status)
        (pair : FolderPair) (remote : RemoteName) → IsTrue call.store_tells
        → IsTrue call.sink_tells
        → call.asked ≡ asked.Exchange (record { pair = pair; command = peer.Pull remote })
        → RunAnswers call old new before after answer → HasLines answer
        → IsSound pair.own (files_of old) → (pulled : Pulled)
        × (done : PullAnswers pair.own pair.peer remote call.moment.now old new (Ok pulled))
        × (after ≡ before ++ (answer_of_pull pulled).text)
        × (StandOnce (files_of done.mid) (pair.own ∷ [])
        → TrackedAreSound (files_of done.mid) pair.own remote
        → TrackedAuthorsAreKnown (files_of done.mid) pair.own remote
        → (line : MergeLine) (why : EntityFault) → Contains pulled.merged line
        → line.outcome ≡ outcome.InvalidBug why → IsLimit why) }
{}
