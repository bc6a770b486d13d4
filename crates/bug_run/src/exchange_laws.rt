//! Laws of what an exchange answers and prints, each the contract of a function that does nothing.
ghost use Rattle.std.specs.Prelude.{◌≡◌, ◌<◌, ◌++◌, ℕ, List, length, take, IsTrue, Result, Ok};
ghost use Rattle.gb_store.specs.Files.{History, files_of};
ghost use Rattle.repo_state.specs.Sound.{IsSound};
ghost use Rattle.repo_steps.specs.declared.refusal.Stop.{Stop};
ghost use Rattle.sync_steps.specs.Fetching.{FetchAnswers};
ghost use Rattle.sync_steps.specs.Lines.{lines_text_of, refused_in};
ghost use Rattle.sync_steps.specs.Pushing.{PushAnswers};
ghost use Rattle.sync_steps.specs.declared.line.Line.{Line as LineValue};
ghost use Rattle.merge_steps.specs.Pulling.{PullAnswers};
ghost use Rattle.merge_steps.specs.Turns.{MergeAnswers};
ghost use Rattle.merge_steps.specs.declared.line.MergeLine.{MergeLine as MergeLineValue};
ghost use Rattle.merge_steps.specs.declared.line.Pulled.{Pulled as PulledValue};
ghost use Rattle.bug_run.specs.Answer.{Answer};
ghost use Rattle.bug_run.specs.Exchanges.{answer_of_merge, answer_of_pull};
ghost use Rattle.bug_run.specs.Printed.{HasLines};
ghost use Rattle.bug_run.specs.Run.{Call, MergeRequestAnswers, PeerRequestAnswers, RunAnswers, status_for, text_of};
ghost use Rattle.bug_run.specs.Served.{IsAnsweredBut, MayRefuse, MayRefusePeer};
ghost use Rattle.bug_run.specs.declared.status.Status.{Status as StatusValue};
ghost use Rattle.bug_run.specs.declared.status.Status.TheVariants as status;
ghost use Rattle.remote_name.specs.declared.remote.RemoteName.{RemoteName};
ghost use Rattle.words.specs.declared.pair.FolderPair.{FolderPair};
ghost use Rattle.words.specs.declared.words.Asked.TheVariants as asked;
ghost use Rattle.words.specs.declared.words.MergeRequest.{MergeRequest};
ghost use Rattle.words.specs.declared.words.PeerCommand.TheVariants as ask;
ghost use Rattle.words.specs.declared.words.PeerRequest.{PeerRequest};

/// What `fetch`, `push`, `pull` and `merge` print where they are done: a line for each entity, as the
/// exchange of these folders or the merge in this one answers it. The status counts the lines that are
/// refusals.
pub fn exchanges_print_their_lines()
    ensures fetch { (call : Call) (old new : History) (before after : List ℕ) (answer : StatusValue)
        (pair : FolderPair) (remote : RemoteName)
        → IsTrue call.store_tells → IsTrue call.sink_tells
        → call.asked ≡ asked.Exchange (record { pair = pair; command = ask.Fetch remote })
        → RunAnswers call old new before after answer → HasLines answer
        → (lines : List LineValue) × FetchAnswers pair.own pair.peer remote old new (Ok lines)
        × (after ≡ before ++ lines_text_of lines) × (answer ≡ status_for (refused_in lines)) }
    ensures push { (call : Call) (old new : History) (before after : List ℕ) (answer : StatusValue)
        (pair : FolderPair) → IsTrue call.store_tells → IsTrue call.sink_tells
        → call.asked ≡ asked.Exchange (record { pair = pair; command = ask.Push })
        → RunAnswers call old new before after answer → HasLines answer
        → (lines : List LineValue) × PushAnswers pair.own pair.peer old new (Ok lines)
        × (after ≡ before ++ lines_text_of lines) × (answer ≡ status_for (refused_in lines)) }
    ensures pull { (call : Call) (old new : History) (before after : List ℕ) (answer : StatusValue)
        (pair : FolderPair) (remote : RemoteName)
        → IsTrue call.store_tells → IsTrue call.sink_tells
        → call.asked ≡ asked.Exchange (record { pair = pair; command = ask.Pull remote })
        → RunAnswers call old new before after answer → HasLines answer
        → (pulled : PulledValue)
        × PullAnswers pair.own pair.peer remote call.moment.now old new (Ok pulled)
        × (after ≡ before ++ (answer_of_pull pulled).text)
        × (answer ≡ status_for (answer_of_pull pulled).refused) }
    ensures merge { (call : Call) (old new : History) (before after : List ℕ) (answer : StatusValue)
        (request : MergeRequest) → IsTrue call.store_tells → IsTrue call.sink_tells
        → call.asked ≡ asked.Merge request → RunAnswers call old new before after answer
        → HasLines answer → (lines : List MergeLineValue)
        × MergeAnswers request.folder request.remote call.moment.now old new (Ok lines)
        × (after ≡ before ++ (answer_of_merge lines).text)
        × (answer ≡ status_for (answer_of_merge lines).refused) }
{}

/// If the own folder is sound, a `fetch` or a `push` is refused as a whole only where the packed refs of the
/// peer do not read. Else each entity has its line, but where the store fails, the output fails or memory runs
/// out. A `merge` or a `pull` is refused only where there is no user, or an object of a merge commit cannot
/// have its name; and a `pull` also for the packed refs of the peer.
pub fn exchanges_of_sound_folders_have_lines()
    ensures exchange { (call : Call) (old new : History) (before after : List ℕ)
        (answer : StatusValue) (request : PeerRequest) → IsTrue call.store_tells
        → call.asked ≡ asked.Exchange request → IsSound request.pair.own (files_of old)
        → RunAnswers call old new before after answer
        → IsAnsweredBut (MayRefusePeer request.command request.pair old) answer }
    ensures merge { (call : Call) (old new : History) (before after : List ℕ) (answer : StatusValue)
        (request : MergeRequest) → IsTrue call.store_tells → call.asked ≡ asked.Merge request
        → IsSound request.folder (files_of old) → RunAnswers call old new before after answer
        → IsAnsweredBut (MayRefuse request.folder old) answer }
{}

/// Where the output fails in an exchange or a merge, what was printed is strictly shorter than the text, and
/// is its beginning. What was written stands.
pub fn failed_lines_are_cut_short()
    ensures exchange { (call : Call) (old new : History) (before after : List ℕ)
        (request : PeerRequest) → call.asked ≡ asked.Exchange request
        → RunAnswers call old new before after status.OutFault
        → (result : Result Answer Stop) × (count : ℕ)
        × PeerRequestAnswers call.store_tells request call.moment old new result
        × (count < length (text_of result))
        × (IsTrue call.sink_tells → after ≡ before ++ take count (text_of result)) }
    ensures merge { (call : Call) (old new : History) (before after : List ℕ)
        (request : MergeRequest) → call.asked ≡ asked.Merge request
        → RunAnswers call old new before after status.OutFault
        → (result : Result Answer Stop) × (count : ℕ)
        × MergeRequestAnswers call.store_tells request call.moment old new result
        × (count < length (text_of result))
        × (IsTrue call.sink_tells → after ≡ before ++ take count (text_of result)) }
{}
