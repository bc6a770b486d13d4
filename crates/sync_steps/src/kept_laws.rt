//! Laws of what an exchange leaves as it was, and of when a line is a refusal, each the contract of
//! a function that does nothing.
ghost use Rattle.std.specs.Prelude.{◌≡◌, ◌≢◌, ◌↔◌, ◌⊎◌, ◌∷◌, [], ℕ, true, false, List, Contains, Result, Ok, Err};
ghost use Rattle.gb_text.specs.Digits.{IsId};
ghost use Rattle.gb_text.specs.Folder.{joined};
ghost use Rattle.gb_text.specs.Overlap.{Overlap};
ghost use Rattle.gb_text.specs.declared.id.Id.{Id};
ghost use Rattle.gb_text.specs.declared.id.Name.{Name};
ghost use Rattle.gb_store.specs.Files.{History, files_of};
ghost use Rattle.gb_store.specs.Moments.{IsMoment};
ghost use Rattle.commit_walk.specs.Below.{IsBelow};
ghost use Rattle.object_store.specs.Held.{objects_after};
ghost use Rattle.ref_store.specs.Refs.{Bad, Head};
ghost use Rattle.remote_copy.specs.Causes.{CauseHolds};
ghost use Rattle.remote_name.specs.declared.remote.RemoteName.{RemoteName};
ghost use Rattle.repo_state.specs.Sides.{head_at, ref_place};
ghost use Rattle.repo_state.specs.declared.side.Side.{Side};
ghost use Rattle.repo_state.specs.declared.stop.ReadStop.{ReadStop as ReadStopValue};
ghost use Rattle.repo_state.specs.declared.stop.ReadStop.TheVariants as stop;
ghost use Rattle.sync_steps.specs.Carrying.{fault_of};
ghost use Rattle.sync_steps.specs.Fetching.{FetchAnswers};
ghost use Rattle.sync_steps.specs.Lines.{are_quiet, is_refused};
ghost use Rattle.sync_steps.specs.Places.{local_side, tracking_side};
ghost use Rattle.sync_steps.specs.Pushing.{PushAnswers};
ghost use Rattle.sync_steps.specs.Quiet.{NothingToFetch, NothingToPush};
ghost use Rattle.sync_steps.specs.declared.line.CopyCause.{CopyCause as CauseValue};
ghost use Rattle.sync_steps.specs.declared.line.EntityWord.{EntityWord as WordValue};
ghost use Rattle.sync_steps.specs.declared.line.Outcome.TheVariants as outcome;
ghost use Rattle.sync_steps.specs.declared.line.Line.{Line as LineValue};

/// When each head is known where the exchange would take it, nothing is written, and no line tells
/// of a copy.
pub fn nothing_new_is_quiet()
    ensures fetch { (own peer : List ℕ) (remote : RemoteName) (old new : History)
        (lines : List LineValue) → FetchAnswers own peer remote old new (Ok lines)
        → NothingToFetch own peer remote (files_of old)
        → (are_quiet lines ≡ true) × (new ≡ old) }
    ensures push { (own peer : List ℕ) (old new : History) (lines : List LineValue)
        → PushAnswers own peer old new (Ok lines) → NothingToPush own peer (files_of old)
        → (are_quiet lines ≡ true) × (new ≡ old) }
{}

/// A fetch leaves each local ref, each ref of another remote and each bad ref as it was, whatever
/// it answers. When it is done, the tracking ref of each entity that it refused is as it was.
pub fn fetches_keep_other_refs()
    ensures others { (own peer : List ℕ) (remote : RemoteName) (old new : History)
        (result : Result (List LineValue) ReadStopValue) (of : Side) (id : Id)
        → (Overlap own peer → ⊥) → FetchAnswers own peer remote old new result
        → ((word : WordValue) → of ≢ tracking_side remote word)
        → head_at (files_of new) own of id ≡ head_at (files_of old) own of id }
    ensures refused { (own peer : List ℕ) (remote : RemoteName) (old new : History)
        (lines : List LineValue) (line : LineValue) → (Overlap own peer → ⊥)
        → FetchAnswers own peer remote old new (Ok lines) → Contains lines line
        → is_refused line.outcome ≡ true
        → head_at (files_of new) own (tracking_side remote line.word) line.id
        ≡ head_at (files_of old) own (tracking_side remote line.word) line.id }
    ensures bad { (own peer : List ℕ) (remote : RemoteName) (old new : History)
        (result : Result (List LineValue) ReadStopValue) (of : Side) (id : Id)
        → FetchAnswers own peer remote old new result
        → head_at (files_of old) own of id ≡ Bad → head_at (files_of new) own of id ≡ Bad }
{}

/// A push leaves each tracking ref and each bad ref of the peer as it was, whatever it answers.
/// When it is done, the peer's ref of each entity that it refused is as it was.
pub fn pushes_keep_other_refs()
    ensures others { (own peer : List ℕ) (old new : History)
        (result : Result (List LineValue) ReadStopValue) (of : Side) (id : Id)
        → (Overlap own peer → ⊥) → PushAnswers own peer old new result
        → ((word : WordValue) → of ≢ local_side word)
        → head_at (files_of new) peer of id ≡ head_at (files_of old) peer of id }
    ensures refused { (own peer : List ℕ) (old new : History) (lines : List LineValue)
        (line : LineValue) → (Overlap own peer → ⊥)
        → PushAnswers own peer old new (Ok lines) → Contains lines line
        → is_refused line.outcome ≡ true
        → head_at (files_of new) peer (local_side line.word) line.id
        ≡ head_at (files_of old) peer (local_side line.word) line.id }
    ensures bad { (own peer : List ℕ) (old new : History)
        (result : Result (List LineValue) ReadStopValue) (of : Side) (id : Id)
        → PushAnswers own peer old new result
        → head_at (files_of old) peer of id ≡ Bad → head_at (files_of new) peer of id ≡ Bad }
{}

/// When a fetch is done, a line says that the head is the same if and only if the peer's ref and
/// the tracking ref had one head before. Any other head was fetched, unless something kept it from
/// being copied at a moment of the call.
pub fn heads_are_fetched_unless_a_copy_has_a_cause()
    ensures same { (own peer : List ℕ) (remote : RemoteName) (old new : History)
        (lines : List LineValue) (line : LineValue) → (Overlap own peer → ⊥)
        → FetchAnswers own peer remote old new (Ok lines) → Contains lines line
        → (line.outcome ≡ outcome.Same)
        ↔ ((head : Name) × (head_at (files_of old) peer (local_side line.word) line.id ≡ Head head)
        × (head_at (files_of old) own (tracking_side remote line.word) line.id ≡ Head head)) }
    ensures fetched { (own peer : List ℕ) (remote : RemoteName) (old new : History)
        (lines : List LineValue) (line : LineValue) (head : Name) → (Overlap own peer → ⊥)
        → FetchAnswers own peer remote old new (Ok lines) → Contains lines line
        → head_at (files_of old) peer (local_side line.word) line.id ≡ Head head
        → (line.outcome ≡ outcome.Same) ⊎ ((line.outcome ≡ outcome.Fetched)
        ⊎ ((why : CauseValue) × (moment : History) × (line.outcome ≡ outcome.DamagedCopy why)
        × IsMoment old new moment
        × CauseHolds true (objects_after moment peer) (objects_after moment own) head
        (fault_of why))) }
{}

/// When a push is done, an entity whose line is not held had a local head. The line says that the
/// head is the same if and only if both refs had one head before, that the peer's ref is bad if and
/// only if it is one, and that the peer's head is not below if and only if it is another head that
/// is not below the local one. Any other head was pushed, unless something kept it from being
/// copied at a moment of the call.
pub fn heads_are_pushed_unless_a_copy_has_a_cause()
    ensures heads { (own peer : List ℕ) (old new : History) (lines : List LineValue)
        (line : LineValue) → (Overlap own peer → ⊥)
        → PushAnswers own peer old new (Ok lines) → Contains lines line
        → line.outcome ≢ outcome.Held → (head : Name)
        × (head_at (files_of old) own (local_side line.word) line.id ≡ Head head) }
    ensures same { (own peer : List ℕ) (old new : History) (lines : List LineValue)
        (line : LineValue) → (Overlap own peer → ⊥)
        → PushAnswers own peer old new (Ok lines) → Contains lines line
        → line.outcome ≢ outcome.Held → (line.outcome ≡ outcome.Same)
        ↔ ((head : Name) × (head_at (files_of old) own (local_side line.word) line.id ≡ Head head)
        × (head_at (files_of old) peer (local_side line.word) line.id ≡ Head head)) }
    ensures bad { (own peer : List ℕ) (old new : History) (lines : List LineValue)
        (line : LineValue) → (Overlap own peer → ⊥)
        → PushAnswers own peer old new (Ok lines) → Contains lines line
        → line.outcome ≢ outcome.Held → (line.outcome ≡ outcome.BadRef)
        ↔ (head_at (files_of old) peer (local_side line.word) line.id ≡ Bad) }
    ensures not_forward { (own peer : List ℕ) (old new : History) (lines : List LineValue)
        (line : LineValue) (other : Name) → (Overlap own peer → ⊥)
        → PushAnswers own peer old new (Ok lines) → Contains lines line
        → line.outcome ≢ outcome.Held → (line.outcome ≡ outcome.NotForward other)
        ↔ ((head : Name) × (head_at (files_of old) own (local_side line.word) line.id ≡ Head head)
        × (head_at (files_of old) peer (local_side line.word) line.id ≡ Head other)
        × (other ≢ head) × (IsBelow (objects_after old own) (head ∷ []) other → ⊥)) }
    ensures pushed { (own peer : List ℕ) (old new : History) (lines : List LineValue)
        (line : LineValue) (head : Name) → (Overlap own peer → ⊥)
        → PushAnswers own peer old new (Ok lines) → Contains lines line
        → head_at (files_of old) own (local_side line.word) line.id ≡ Head head
        → (line.outcome ≡ outcome.Held) ⊎ ((line.outcome ≡ outcome.Same)
        ⊎ ((line.outcome ≡ outcome.BadRef)
        ⊎ (((other : Name) × (line.outcome ≡ outcome.NotForward other))
        ⊎ ((line.outcome ≡ outcome.Pushed)
        ⊎ ((why : CauseValue) × (moment : History) × (line.outcome ≡ outcome.DamagedCopy why)
        × IsMoment old new moment
        × CauseHolds false (objects_after moment own) (objects_after moment peer) head
        (fault_of why)))))) }
{}

/// An exchange that ends at damage names the path of a bad ref. A fetch names the tracking ref of
/// an entity that has a head in the peer, and a push names a local ref.
pub fn exchanges_end_at_bad_refs()
    ensures fetch { (own peer : List ℕ) (remote : RemoteName) (old new : History) (path : List ℕ)
        → FetchAnswers own peer remote old new (Err (stop.Damaged path))
        → (word : WordValue) × (id : Id) × IsId id
        × ((head : Name) × (head_at (files_of old) peer (local_side word) id ≡ Head head))
        × (path ≡ joined own (ref_place (tracking_side remote word) id))
        × (head_at (files_of old) own (tracking_side remote word) id ≡ Bad) }
    ensures push { (own peer : List ℕ) (old new : History) (path : List ℕ)
        → PushAnswers own peer old new (Err (stop.Damaged path))
        → (word : WordValue) × (id : Id) × IsId id
        × (path ≡ joined own (ref_place (local_side word) id))
        × (head_at (files_of old) own (local_side word) id ≡ Bad) }
{}
