//! Laws of what the lines of a merge say of bugs, each the contract of a function that does nothing.
ghost use Rattle.std.specs.Prelude.{◌≡◌, ◌++◌, ℕ, List, IsTrue, Ok};
ghost use Rattle.gb_store.specs.Files.{History};
ghost use Rattle.gb_store.specs.Moments.{IsMoment};
ghost use Rattle.merge_steps.specs.Pulling.{PullAnswers};
ghost use Rattle.merge_steps.specs.Turns.{MergeAnswers};
ghost use Rattle.merge_steps.specs.declared.line.MergeLine.{MergeLine as LineValue};
ghost use Rattle.merge_steps.specs.declared.line.Pulled.{Pulled as PulledValue};
ghost use Rattle.bug_run.specs.Exchanges.{answer_of_merge, answer_of_pull};
ghost use Rattle.bug_run.specs.Merged.{JoinsEachBug, RefusesByFault};
ghost use Rattle.bug_run.specs.Printed.{HasLines};
ghost use Rattle.bug_run.specs.Run.{Call, RunAnswers};
ghost use Rattle.bug_run.specs.declared.status.Status.{Status as StatusValue};
ghost use Rattle.remote_name.specs.declared.remote.RemoteName.{RemoteName};
ghost use Rattle.words.specs.declared.pair.FolderPair.{FolderPair};
ghost use Rattle.words.specs.declared.words.Asked.TheVariants as asked;
ghost use Rattle.words.specs.declared.words.MergeRequest.{MergeRequest};
ghost use Rattle.words.specs.declared.words.PeerCommand.TheVariants as ask;

/// Where a `merge` or a `pull` prints a line of a bug that is no refusal, the bug was joined between
/// two moments of the call. Below its local head after the second lie exactly the operation commits
/// that lay below the local head or the tracked one at the first, and the old local head lies below
/// it. Both heads were then as when the merge began, and the new one is that when the call ends.
pub fn merge_lines_are_joins()
    ensures merge { (call : Call) (old new : History) (before after : List ℕ) (answer : StatusValue)
        (request : MergeRequest) → IsTrue call.store_tells → IsTrue call.sink_tells
        → call.asked ≡ asked.Merge request → RunAnswers call old new before after answer
        → HasLines answer → (lines : List LineValue)
        × MergeAnswers request.folder request.remote call.moment.now old new (Ok lines)
        × (after ≡ before ++ (answer_of_merge lines).text)
        × JoinsEachBug request.folder request.remote lines old new }
    ensures pull { (call : Call) (old new : History) (before after : List ℕ) (answer : StatusValue)
        (pair : FolderPair) (remote : RemoteName)
        → IsTrue call.store_tells → IsTrue call.sink_tells
        → call.asked ≡ asked.Exchange (record { pair = pair; command = ask.Pull remote })
        → RunAnswers call old new before after answer → HasLines answer
        → (pulled : PulledValue)
        × (done : PullAnswers pair.own pair.peer remote call.moment.now old new (Ok pulled))
        × (after ≡ before ++ (answer_of_pull pulled).text) × IsMoment old new done.mid
        × JoinsEachBug pair.own remote pulled.merged done.mid new }
{}

/// Where a `merge` or a `pull` prints that a bug is invalid, the local head and the tracked one
/// together had that fault at a moment of the call, by the local identities of that moment. Both
/// heads were then as when the merge began, and the local ref is so when the call ends.
pub fn refused_merges_have_their_fault()
    ensures merge { (call : Call) (old new : History) (before after : List ℕ) (answer : StatusValue)
        (request : MergeRequest) → IsTrue call.store_tells → IsTrue call.sink_tells
        → call.asked ≡ asked.Merge request → RunAnswers call old new before after answer
        → HasLines answer → (lines : List LineValue)
        × MergeAnswers request.folder request.remote call.moment.now old new (Ok lines)
        × (after ≡ before ++ (answer_of_merge lines).text)
        × RefusesByFault request.folder request.remote lines old new }
    ensures pull { (call : Call) (old new : History) (before after : List ℕ) (answer : StatusValue)
        (pair : FolderPair) (remote : RemoteName)
        → IsTrue call.store_tells → IsTrue call.sink_tells
        → call.asked ≡ asked.Exchange (record { pair = pair; command = ask.Pull remote })
        → RunAnswers call old new before after answer → HasLines answer
        → (pulled : PulledValue)
        × (done : PullAnswers pair.own pair.peer remote call.moment.now old new (Ok pulled))
        × (after ≡ before ++ (answer_of_pull pulled).text) × IsMoment old new done.mid
        × RefusesByFault pair.own remote pulled.merged done.mid new }
{}
