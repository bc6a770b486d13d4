//! Laws of the refusals of exchanges and merges as a whole, each the contract of a function that
//! does nothing.
ghost use Rattle.std.specs.Prelude.{◌≡◌, ◌⊎◌, List, ℕ, Err, IsTrue, true};
ghost use Rattle.gb_store.specs.Files.{History, files_of};
ghost use Rattle.ref_store.specs.Refs.{packed_reads};
ghost use Rattle.remote_name.specs.declared.remote.RemoteName.{RemoteName};
ghost use Rattle.repo_state.specs.declared.stop.ReadStop.TheVariants as read;
ghost use Rattle.repo_steps.specs.declared.refusal.Refusal.{Refusal};
ghost use Rattle.repo_steps.specs.declared.refusal.Refusal.TheVariants as refusals;
ghost use Rattle.sync_steps.specs.Fetching.{FetchAnswers};
ghost use Rattle.sync_steps.specs.Pushing.{PushAnswers};
ghost use Rattle.sync_steps.specs.declared.line.EntityWord.{EntityWord as EntityWordValue};
ghost use Rattle.bug_run.specs.Headline.{IsFault};
ghost use Rattle.bug_run.specs.Run.{Call, RunAnswers};
ghost use Rattle.bug_run.specs.declared.status.Refused.TheVariants.{ByCommand};
ghost use Rattle.bug_run.specs.declared.status.Status.{Status as StatusValue};
ghost use Rattle.bug_run.specs.declared.status.Status.TheVariants as status;
ghost use Rattle.refusal_causes.specs.Alike.{AreAlike};
ghost use Rattle.refusal_causes.specs.Causes.{IsRefusedOrFault, IsRefusedSo};
ghost use Rattle.refusal_causes.specs.ExchangeCauses.{BothRead, HasUser, IsFetched, IsMergedFrom};
ghost use Rattle.refusal_causes.specs.ExchangeCauses.{MergeCause, PeerCause, PullBarred, UserCause};
ghost use Rattle.refusal_causes.specs.TurnCauses.{IsTakenSooner, MergeBarred, RefBarred};
ghost use Rattle.words.specs.declared.pair.FolderPair.{FolderPair};
ghost use Rattle.words.specs.declared.words.Asked.TheVariants as asked;
ghost use Rattle.words.specs.declared.words.MergeRequest.{MergeRequest};
ghost use Rattle.words.specs.declared.words.PeerCommand.TheVariants as peer;
ghost use Rattle.words.specs.declared.words.PeerRequest.{PeerRequest};

/// Where an exchange or a merge is refused as a whole, the cause of that refusal holds: packed refs
/// of a folder do not read; there is no user, or the user file names no local identity; or a turn
/// fails, the first in order. A turn of a fetch fails where the peer's ref has a head and the
/// tracking ref is no ref text; of a push where the local ref is no ref text, of a bug only if no
/// identity is damaged; of a merge where one of these two refs is no ref text, or an object of a
/// merge commit cannot have its name. A pull has the causes of its fetch, and then those of its
/// merge of what the fetch left.
pub fn refused_exchanges_have_their_cause()
    ensures exchange { (call : Call) (old new : History) (before after : List ℕ)
        (request : PeerRequest) (refusal : Refusal) → IsTrue call.store_tells
        → call.asked ≡ asked.Exchange request
        → RunAnswers call old new before after (status.Refused (ByCommand refusal))
        → PeerCause request.command request.pair old refusal
        ⊎ PullBarred request.command request.pair call.moment.now old new refusal }
    ensures merge { (call : Call) (old new : History) (before after : List ℕ)
        (request : MergeRequest) (refusal : Refusal) → IsTrue call.store_tells
        → call.asked ≡ asked.Merge request
        → RunAnswers call old new before after (status.Refused (ByCommand refusal))
        → MergeCause request.folder request.remote call.moment.now old new refusal }
{}

/// The other way: where there is such a cause, an exchange or a merge is refused so, unless memory
/// runs out or the disk or the output fails. Where the turns that begin as those of a merge lead to
/// one that fails, the merge is refused for that one; if several names are taken, it may tell any
/// of them. A pull that has no cause before its merge is refused as the merge: its fetch left a
/// history from which a merge led to the end, and whatever refuses a merge from there refuses the
/// pull.
pub fn causes_refuse_exchanges()
    ensures exchange { (call : Call) (old new : History) (before after : List ℕ)
        (answer : StatusValue) (request : PeerRequest) (refusal : Refusal)
        → IsTrue call.store_tells → call.asked ≡ asked.Exchange request
        → PeerCause request.command request.pair old refusal
        → RunAnswers call old new before after answer → IsRefusedOrFault refusal answer }
    ensures merge { (call : Call) (old new end : History) (before after : List ℕ)
        (answer : StatusValue) (request : MergeRequest) (refusal : Refusal)
        → IsTrue call.store_tells → call.asked ≡ asked.Merge request
        → MergeCause request.folder request.remote call.moment.now old end refusal
        → RunAnswers call old new before after answer → IsRefusedSo (AreAlike refusal) answer }
    ensures pull { (call : Call) (old new : History) (before after : List ℕ)
        (answer : StatusValue) (pair : FolderPair) (remote : RemoteName)
        → IsTrue call.store_tells
        → call.asked ≡ asked.Exchange (record { pair = pair; command = peer.Pull remote })
        → ((refusal : Refusal) → PeerCause (peer.Pull remote) pair old refusal → ⊥)
        → RunAnswers call old new before after answer
        → IsFault answer ⊎ ((mid : History) × IsFetched pair remote old mid
        × IsMergedFrom pair remote call.moment.now mid new
        × ((end : History) (refusal : Refusal)
        → MergeBarred pair.own remote call.moment.now mid end refusal
        → IsRefusedSo (AreAlike refusal) answer)) }
{}

/// A fetch or a push that is refused for a ref did what comes before: each entity before the one
/// with that ref had its turn, and nothing else was written.
pub fn refused_exchanges_had_the_turns_before()
    ensures fetch { (call : Call) (old new : History) (before after : List ℕ) (pair : FolderPair)
        (remote : RemoteName) (refusal : Refusal) → IsTrue call.store_tells
        → call.asked ≡ asked.Exchange (record { pair = pair; command = peer.Fetch remote })
        → BothRead pair (files_of old)
        → RunAnswers call old new before after (status.Refused (ByCommand refusal))
        → (path : List ℕ) × (refusal ≡ refusals.Damaged path)
        × FetchAnswers pair.own pair.peer remote old new (Err (read.Damaged path)) }
    ensures push { (call : Call) (old new : History) (before after : List ℕ) (pair : FolderPair)
        (refusal : Refusal) → IsTrue call.store_tells
        → call.asked ≡ asked.Exchange (record { pair = pair; command = peer.Push })
        → BothRead pair (files_of old)
        → RunAnswers call old new before after (status.Refused (ByCommand refusal))
        → (path : List ℕ) × (refusal ≡ refusals.Damaged path)
        × PushAnswers pair.own pair.peer old new (Err (read.Damaged path)) }
{}

/// A pull without a user, or with a user file that names no local identity, fetches and writes
/// nothing, however it answers.
pub fn pulls_without_a_user_write_nothing()
    ensures { (call : Call) (old new : History) (before after : List ℕ) (answer : StatusValue)
        (pair : FolderPair) (remote : RemoteName) (refusal : Refusal) → IsTrue call.store_tells
        → call.asked ≡ asked.Exchange (record { pair = pair; command = peer.Pull remote })
        → UserCause pair.own (files_of old) refusal → RunAnswers call old new before after answer
        → new ≡ old }
{}

/// A merge with a user is refused for a damaged ref exactly where there is one, and names the
/// first: of the entities whose tracking ref is there, identities before bugs and each in the order
/// of ids, the first of which the tracking ref or the local ref is no ref text at entry. Out of
/// memory, and faults of the disk or the output, can replace this answer; and where that entity is
/// a bug, a name that is taken.
pub fn merges_are_refused_for_the_first_bad_ref()
    ensures cause { (call : Call) (old new : History) (before after path : List ℕ)
        (request : MergeRequest) → IsTrue call.store_tells → call.asked ≡ asked.Merge request
        → packed_reads (files_of old) request.folder ≡ true → HasUser request.folder (files_of old)
        → RunAnswers call old new before after
        (status.Refused (ByCommand (refusals.Damaged path)))
        → (word : EntityWordValue) × RefBarred request.folder request.remote (files_of old) word
        (refusals.Damaged path) }
    ensures refuses { (call : Call) (old new : History) (before after : List ℕ)
        (answer : StatusValue) (request : MergeRequest) (word : EntityWordValue)
        (refusal : Refusal) → IsTrue call.store_tells → call.asked ≡ asked.Merge request
        → packed_reads (files_of old) request.folder ≡ true → HasUser request.folder (files_of old)
        → RefBarred request.folder request.remote (files_of old) word refusal
        → RunAnswers call old new before after answer
        → IsRefusedSo (λ told. (refusal ≡ told) ⊎ IsTakenSooner word told) answer }
{}
