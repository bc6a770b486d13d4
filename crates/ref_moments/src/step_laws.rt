//! Laws of when each step changes a ref, each the contract of a function that does nothing.
ghost use Rattle.std.specs.Prelude.{◌≡◌, ◌⊎◌, ℕ, List, Some, Result, Ok, Err};
ghost use Rattle.gb_text.specs.Digits.{IsId};
ghost use Rattle.gb_text.specs.Overlap.{Overlap};
ghost use Rattle.gb_text.specs.declared.id.Id.{Id};
ghost use Rattle.gb_store.specs.Files.{History};
ghost use Rattle.merge_steps.specs.Pulling.{PullAnswers};
ghost use Rattle.merge_steps.specs.Turns.{MergeAnswers};
ghost use Rattle.merge_steps.specs.declared.line.MergeLine.{MergeLine as MergeLineValue};
ghost use Rattle.merge_steps.specs.declared.line.Pulled.{Pulled as PulledValue};
ghost use Rattle.merge_steps.specs.declared.stop.MergeStop.{MergeStop as MergeStopValue};
ghost use Rattle.remote_name.specs.declared.remote.RemoteName.{RemoteName};
ghost use Rattle.repo_state.specs.declared.side.Side.{Side};
ghost use Rattle.repo_state.specs.declared.stop.ReadStop.{ReadStop as ReadStopValue};
ghost use Rattle.repo_steps.specs.Answers.{DoingAnswers, IsDone};
ghost use Rattle.repo_steps.specs.Doing.{HeadSet};
ghost use Rattle.repo_steps.specs.Doings.{EditAnswers, doing_of};
ghost use Rattle.repo_steps.specs.Picked.{Picked};
ghost use Rattle.repo_steps.specs.declared.env.Env.{Env as EnvValue};
ghost use Rattle.repo_steps.specs.declared.refusal.Refusal.{Refusal as RefusalValue};
ghost use Rattle.repo_steps.specs.declared.refusal.Stop.{Stop as StopValue};
ghost use Rattle.repo_steps.specs.declared.refusal.Stop.TheVariants as stop;
ghost use Rattle.sync_steps.specs.Fetching.{FetchAnswers};
ghost use Rattle.sync_steps.specs.Pushing.{PushAnswers};
ghost use Rattle.sync_steps.specs.declared.line.Line.{Line as LineValue};
ghost use Rattle.words.specs.declared.edit.Edit.{Edit as EditValue};
ghost use Rattle.ref_moments.specs.Once.{IsSetOnce, StaysSame};
ghost use Rattle.ref_moments.specs.Sets.{IsFetched, IsMergedRef, IsPulledRef, IsPushed, StaysOrIsSet};

/// Whatever an edit answers, it leaves each ref of its folder at every moment, but the one that it
/// sets; and one write sets that one. A done edit has set it, and a refused one has written
/// nothing.
pub fn edits_set_one_ref_once()
    ensures once { (env : EnvValue) (command : EditValue) (old new : History)
        (result : Result Id StopValue) → EditAnswers env command old new result
        → (picked : Picked) × DoingAnswers (doing_of env command picked old) old new result
        × ((of : Side) (id : Id)
        → StaysOrIsSet env.folder (doing_of env command picked old) of id old new) }
    ensures done { (env : EnvValue) (command : EditValue) (picked : Picked) (old new : History)
        (told : Id) (set : HeadSet)
        → IsDone (doing_of env command picked old) old new told
        → (doing_of env command picked old).sets ≡ Some set
        → IsSetOnce env.folder set.of set.id set.head old new }
    ensures refused { (env : EnvValue) (command : EditValue) (old new : History)
        (refusal : RefusalValue) → EditAnswers env command old new (Err (stop.Refused refusal))
        → new ≡ old }
{}

/// Whatever a fetch answers, it leaves each ref of its folder at every moment, but tracking refs;
/// and one write sets such a ref, to the head that the peer's ref had. It leaves each ref of the
/// peer.
pub fn fetches_set_each_ref_once()
    ensures own { (own peer : List ℕ) (remote : RemoteName) (old new : History)
        (result : Result (List LineValue) ReadStopValue) (of : Side) (id : Id)
        → FetchAnswers own peer remote old new result → IsId id
        → StaysSame own of id old new ⊎ IsFetched own peer remote of id old new }
    ensures peer { (own peer : List ℕ) (remote : RemoteName) (old new : History)
        (result : Result (List LineValue) ReadStopValue) (of : Side) (id : Id)
        → (Overlap own peer → ⊥) → FetchAnswers own peer remote old new result
        → StaysSame peer of id old new }
{}

/// Whatever a push answers, it leaves each ref of the peer at every moment, but local refs; and one
/// write sets such a ref, to the head that the own folder's ref had. It leaves each ref of the own
/// folder.
pub fn pushes_set_each_ref_once()
    ensures peer { (own peer : List ℕ) (old new : History)
        (result : Result (List LineValue) ReadStopValue) (of : Side) (id : Id)
        → PushAnswers own peer old new result → IsId id
        → StaysSame peer of id old new ⊎ IsPushed own peer of id old new }
    ensures own { (own peer : List ℕ) (old new : History)
        (result : Result (List LineValue) ReadStopValue) (of : Side) (id : Id)
        → (Overlap own peer → ⊥) → PushAnswers own peer old new result
        → StaysSame own of id old new }
{}

/// Whatever a merge answers, it leaves each ref at every moment, but the local refs of entities
/// whose tracking ref has a head; and one write sets such a ref.
pub fn merges_set_each_ref_once()
    ensures { (folder : List ℕ) (remote : RemoteName) (now : ℕ) (old new : History)
        (result : Result (List MergeLineValue) MergeStopValue) (of : Side) (id : Id)
        → MergeAnswers folder remote now old new result → IsId id
        → StaysSame folder of id old new ⊎ IsMergedRef folder remote of id old new }
{}

/// Whatever a pull answers, it leaves each ref of its folder at every moment, but tracking refs and
/// local refs. One write sets a tracking ref, to the head that the peer's ref had, and one a local
/// ref.
pub fn pulls_set_each_ref_once()
    ensures { (own peer : List ℕ) (remote : RemoteName) (now : ℕ) (old new : History)
        (result : Result PulledValue MergeStopValue) (of : Side) (id : Id)
        → PullAnswers own peer remote now old new result → IsId id
        → StaysSame own of id old new
        ⊎ (IsFetched own peer remote of id old new ⊎ IsPulledRef own of id old new) }
{}
