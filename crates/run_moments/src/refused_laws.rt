//! Laws of what is refused, each the contract of a function that does nothing.
ghost use Rattle.std.specs.Prelude.{◌≡◌, ◌++◌, ℕ, true, List, Contains, IsTrue, Ok};
ghost use Rattle.gb_store.specs.Files.{History, files_of};
ghost use Rattle.gb_store.specs.Moments.{AllMoments, IsMoment};
ghost use Rattle.merge_steps.specs.MergeLines.{is_refused};
ghost use Rattle.merge_steps.specs.Pulling.{PullAnswers};
ghost use Rattle.merge_steps.specs.Refused.{WasRefused};
ghost use Rattle.merge_steps.specs.Turns.{MergeAnswers};
ghost use Rattle.merge_steps.specs.declared.line.MergeLine.{MergeLine as MergeLineValue};
ghost use Rattle.merge_steps.specs.declared.line.Pulled.{Pulled as PulledValue};
ghost use Rattle.remote_name.specs.declared.remote.RemoteName.{RemoteName};
ghost use Rattle.repo_steps.specs.declared.refusal.Refusal.{Refusal};
ghost use Rattle.sync_steps.specs.Places.{local_side};
ghost use Rattle.bug_run.specs.Exchanges.{answer_of_merge, answer_of_pull};
ghost use Rattle.bug_run.specs.Printed.{HasLines};
ghost use Rattle.bug_run.specs.Run.{Call, RunAnswers};
ghost use Rattle.bug_run.specs.declared.status.Refused.TheVariants.{ByCommand};
ghost use Rattle.bug_run.specs.declared.status.Status.{Status as StatusValue};
ghost use Rattle.bug_run.specs.declared.status.Status.TheVariants as status;
ghost use Rattle.ref_moments.specs.Once.{StaysSame};
ghost use Rattle.words.specs.declared.pair.FolderPair.{FolderPair};
ghost use Rattle.words.specs.declared.words.Asked.TheVariants as asked;
ghost use Rattle.words.specs.declared.words.MergeRequest.{MergeRequest};
ghost use Rattle.words.specs.declared.words.PeerCommand.TheVariants as peer;
ghost use Rattle.words.specs.declared.words.Request.{Request};

/// A refused edit, and any other refused command in one folder, writes nothing: at every moment all
/// files are the same.
pub fn refused_commands_write_nothing()
    ensures { (call : Call) (old new : History) (before after : List ℕ) (request : Request)
        (refusal : Refusal) → IsTrue call.store_tells → call.asked ≡ asked.Request request
        → RunAnswers call old new before after (status.Refused (ByCommand refusal))
        → (new ≡ old) × AllMoments (λ files. files ≡ files_of old) old new }
{}

/// Where a line of a `merge` or of a `pull` refuses an entity, the cause that it gives held at a
/// moment of the call, by the local head and the tracked one that the entity had: of a bug the
/// fault of both heads together, of an identity the fault of the tracked chain, or that neither
/// head is in the chain of the other. And the local ref is the same at every moment of the call.
pub fn refused_merges_have_their_cause()
    ensures merge { (call : Call) (old new : History) (before after : List ℕ) (answer : StatusValue)
        (request : MergeRequest) → IsTrue call.store_tells → IsTrue call.sink_tells
        → call.asked ≡ asked.Merge request → RunAnswers call old new before after answer
        → HasLines answer → (lines : List MergeLineValue)
        × MergeAnswers request.folder request.remote call.moment.now old new (Ok lines)
        × (after ≡ before ++ (answer_of_merge lines).text)
        × ((line : MergeLineValue) → Contains lines line → is_refused line.outcome ≡ true
        → WasRefused request.folder request.remote line old new
        × StaysSame request.folder (local_side line.word) line.id old new) }
    ensures pull { (call : Call) (old new : History) (before after : List ℕ) (answer : StatusValue)
        (pair : FolderPair) (remote : RemoteName)
        → IsTrue call.store_tells → IsTrue call.sink_tells
        → call.asked ≡ asked.Exchange (record { pair = pair; command = peer.Pull remote })
        → RunAnswers call old new before after answer → HasLines answer
        → (pulled : PulledValue)
        × (done : PullAnswers pair.own pair.peer remote call.moment.now old new (Ok pulled))
        × (after ≡ before ++ (answer_of_pull pulled).text) × IsMoment old new done.mid
        × ((line : MergeLineValue) → Contains pulled.merged line → is_refused line.outcome ≡ true
        → WasRefused pair.own remote line done.mid new
        × StaysSame pair.own (local_side line.word) line.id old new) }
{}
