//! Laws of what survives of what runs acknowledged, each the contract of a function that does
//! nothing.
ghost use Rattle.std.specs.Prelude.{◌≡◌, ◌++◌, ℕ, false, List, Contains, IsTrue, None, Ok, Some};
ghost use Rattle.gb_text.specs.Digits.{IsId};
ghost use Rattle.gb_text.specs.declared.id.Id.{Id};
ghost use Rattle.gb_text.specs.declared.id.Name.{Name};
ghost use Rattle.gb_text.specs.declared.ruled.Line.{Line as LineText};
ghost use Rattle.gb_text.specs.declared.ruled.Title.{Title};
ghost use Rattle.gb_store.specs.Files.{History, files_of};
ghost use Rattle.merge_steps.specs.MergeLines.{is_refused};
ghost use Rattle.merge_steps.specs.Pulling.{PullAnswers};
ghost use Rattle.merge_steps.specs.Turns.{MergeAnswers};
ghost use Rattle.merge_steps.specs.declared.line.MergeLine.{MergeLine as MergeLineValue};
ghost use Rattle.merge_steps.specs.declared.line.Pulled.{Pulled as PulledValue};
ghost use Rattle.ref_store.specs.Refs.{Head};
ghost use Rattle.remote_name.specs.declared.remote.RemoteName.{RemoteName};
ghost use Rattle.repo_state.specs.Sides.{head_at};
ghost use Rattle.repo_state.specs.Users.{id_line};
ghost use Rattle.repo_state.specs.declared.side.Side.{Side};
ghost use Rattle.repo_state.specs.declared.side.Side.TheVariants as side;
ghost use Rattle.repo_steps.specs.PeopleDoings.{HasUser, new_made};
ghost use Rattle.repo_writes.specs.Kept.{IsOwnSide, KeepsBelow};
ghost use Rattle.sync_steps.specs.Fetching.{FetchAnswers};
ghost use Rattle.sync_steps.specs.Lines.{lines_text_of};
ghost use Rattle.sync_steps.specs.Places.{local_side, tracking_side};
ghost use Rattle.sync_steps.specs.Pushing.{PushAnswers};
ghost use Rattle.sync_steps.specs.declared.line.Line.{Line as LineValue};
ghost use Rattle.sync_steps.specs.declared.line.Outcome.TheVariants as outcome;
ghost use Rattle.bug_run.specs.Exchanges.{answer_of_merge, answer_of_pull};
ghost use Rattle.bug_run.specs.Printed.{HasLines};
ghost use Rattle.bug_run.specs.Run.{Call, RunAnswers, env_at};
ghost use Rattle.bug_run.specs.Runs.{AreApart, Runs};
ghost use Rattle.bug_run.specs.declared.status.Status.{Status as StatusValue};
ghost use Rattle.bug_run.specs.declared.status.Status.TheVariants as status;
ghost use Rattle.run_moments.specs.Lines.{HasTracked, KeepsAllBelow};
ghost use Rattle.run_moments.specs.Survives.{Adds, HasOperation, IsAddedTo, KeepsCommits};
ghost use Rattle.words.specs.declared.edit.Edit.{Edit as Edits};
ghost use Rattle.words.specs.declared.edit.Edit.TheVariants as edits;
ghost use Rattle.words.specs.declared.pair.FolderPair.{FolderPair};
ghost use Rattle.words.specs.declared.words.Asked.TheVariants as asked;
ghost use Rattle.words.specs.declared.words.Command.TheVariants as ask;
ghost use Rattle.words.specs.declared.words.MergeRequest.{MergeRequest};
ghost use Rattle.words.specs.declared.words.PeerCommand.TheVariants as peer;

/// Whatever is run over folders of which no two overlap, and wherever each run stops: each
/// operation commit of a bug stays one of that bug, each head of an identity or a bug stays at or
/// below the present one, and all that was below any head, of a tracking ref too, stays below it.
pub fn runs_keep_what_refs_lead_to()
    ensures commits { (folders : List (List ℕ)) (old new : History) (folder : List ℕ)
        → AreApart folders → Runs folders old new → Contains folders folder
        → KeepsCommits folder (files_of old) (files_of new) }
    ensures heads { (folders : List (List ℕ)) (old new : History) (folder : List ℕ) (of : Side)
        (id : Id) (head : Name) → AreApart folders → Runs folders old new
        → Contains folders folder → IsOwnSide of → IsId id
        → head_at (files_of old) folder of id ≡ Head head
        → KeepsBelow folder (files_of new) of id head }
    ensures below { (folders : List (List ℕ)) (old new : History) (folder : List ℕ) (head : Name)
        → AreApart folders → Runs folders old new → Contains folders folder
        → KeepsAllBelow folder (files_of old) (files_of new) head }
{}

/// Where an edit is done, it has printed the id of what it made, and that survives whatever is run
/// then and wherever each run stops: the operation is among those of the bug to which it was added,
/// and the version is in the chain of its identity.
pub fn acknowledged_edits_survive()
    ensures operations { (folders : List (List ℕ)) (call : Call) (old mid new : History)
        (before after folder : List ℕ) (edit : Edits) → AreApart folders
        → Contains folders folder → IsTrue call.store_tells → IsTrue call.sink_tells
        → call.asked ≡ asked.Request (record { folder = folder; command = ask.Edit edit })
        → Adds edit → RunAnswers call old mid before after status.Done → Runs folders mid new
        → (told : Id) × (bug : Id) × (after ≡ before ++ id_line told)
        × IsAddedTo folder (files_of old) edit told bug
        × HasOperation folder (files_of new) bug told }
    ensures person { (folders : List (List ℕ)) (call : Call) (old mid new : History)
        (before after folder : List ℕ) (name : Title) (email : LineText) → AreApart folders
        → Contains folders folder → IsTrue call.store_tells → IsTrue call.sink_tells
        → call.asked ≡ asked.Request (record {
          folder = folder;
          command = ask.Edit (edits.UserNew name email);
        })
        → RunAnswers call old mid before after status.Done → Runs folders mid new
        → let made = new_made (env_at call.moment folder) name email None in
        (after ≡ before ++ id_line made.id)
        × KeepsBelow folder (files_of new) side.Identities made.id made.head }
    ensures version { (folders : List (List ℕ)) (call : Call) (old mid new : History)
        (before after folder : List ℕ) (name : Title) (email : LineText) → AreApart folders
        → Contains folders folder → IsTrue call.store_tells → IsTrue call.sink_tells
        → call.asked ≡ asked.Request (record {
          folder = folder;
          command = ask.Edit (edits.UserEdit name email);
        })
        → RunAnswers call old mid before after status.Done → Runs folders mid new
        → (user : HasUser folder (files_of old)) × (after ≡ before ++ id_line user.id)
        × KeepsBelow folder (files_of new) side.Identities user.id
        (new_made (env_at call.moment folder) name email (Some user.head)).head }
{}

/// What a printed line acknowledges survives whatever is run then and wherever each run stops.
/// Where an entity was fetched, all that its tracking ref led to when the call ended is held. Where
/// one was pushed, the head of the own folder's ref stays at or below that of the peer's. Where a
/// merge did not refuse a bug, each operation commit below its tracking ref stays one of the bug,
/// and where it did not refuse an identity, the tracked version stays in its chain.
pub fn acknowledged_lines_survive()
    ensures fetch { (folders : List (List ℕ)) (call : Call) (old mid new : History)
        (before after : List ℕ) (answer : StatusValue) (pair : FolderPair) (remote : RemoteName)
        → AreApart folders → Contains folders pair.own
        → IsTrue call.store_tells → IsTrue call.sink_tells
        → call.asked ≡ asked.Exchange (record { pair = pair; command = peer.Fetch remote })
        → RunAnswers call old mid before after answer → HasLines answer → Runs folders mid new
        → (lines : List LineValue) × FetchAnswers pair.own pair.peer remote old mid (Ok lines)
        × (after ≡ before ++ lines_text_of lines)
        × ((line : LineValue) → Contains lines line → line.outcome ≡ outcome.Fetched
        → (head : Name)
        × (head_at (files_of mid) pair.own (tracking_side remote line.word) line.id ≡ Head head)
        × KeepsAllBelow pair.own (files_of mid) (files_of new) head) }
    ensures push { (folders : List (List ℕ)) (call : Call) (old mid new : History)
        (before after : List ℕ) (answer : StatusValue) (pair : FolderPair)
        → AreApart folders → Contains folders pair.peer
        → IsTrue call.store_tells → IsTrue call.sink_tells
        → call.asked ≡ asked.Exchange (record { pair = pair; command = peer.Push })
        → RunAnswers call old mid before after answer → HasLines answer → Runs folders mid new
        → (lines : List LineValue) × PushAnswers pair.own pair.peer old mid (Ok lines)
        × (after ≡ before ++ lines_text_of lines)
        × ((line : LineValue) → Contains lines line → line.outcome ≡ outcome.Pushed
        → (head : Name)
        × (head_at (files_of old) pair.own (local_side line.word) line.id ≡ Head head)
        × KeepsBelow pair.peer (files_of new) (local_side line.word) line.id head) }
    ensures merge { (folders : List (List ℕ)) (call : Call) (old mid new : History)
        (before after : List ℕ) (answer : StatusValue) (request : MergeRequest)
        → AreApart folders → Contains folders request.folder
        → IsTrue call.store_tells → IsTrue call.sink_tells → call.asked ≡ asked.Merge request
        → RunAnswers call old mid before after answer → HasLines answer → Runs folders mid new
        → (lines : List MergeLineValue)
        × MergeAnswers request.folder request.remote call.moment.now old mid (Ok lines)
        × (after ≡ before ++ (answer_of_merge lines).text)
        × ((line : MergeLineValue) → Contains lines line → is_refused line.outcome ≡ false
        → HasTracked line.word request.folder request.remote line.id (files_of old)
        (files_of new)) }
    ensures pull { (folders : List (List ℕ)) (call : Call) (old mid new : History)
        (before after : List ℕ) (answer : StatusValue) (pair : FolderPair) (remote : RemoteName)
        → AreApart folders → Contains folders pair.own
        → IsTrue call.store_tells → IsTrue call.sink_tells
        → call.asked ≡ asked.Exchange (record { pair = pair; command = peer.Pull remote })
        → RunAnswers call old mid before after answer → HasLines answer → Runs folders mid new
        → (pulled : PulledValue)
        × (done : PullAnswers pair.own pair.peer remote call.moment.now old mid (Ok pulled))
        × (after ≡ before ++ (answer_of_pull pulled).text)
        × ((line : LineValue) → Contains pulled.fetched line → line.outcome ≡ outcome.Fetched
        → (head : Name)
        × (head_at (files_of mid) pair.own (tracking_side remote line.word) line.id ≡ Head head)
        × KeepsAllBelow pair.own (files_of mid) (files_of new) head)
        × ((line : MergeLineValue) → Contains pulled.merged line → is_refused line.outcome ≡ false
        → HasTracked line.word pair.own remote line.id (files_of done.mid) (files_of new)) }
{}
