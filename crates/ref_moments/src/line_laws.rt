//! Laws of what the line of an entity says of its ref, each the contract of a function that does
//! nothing.
ghost use Rattle.std.specs.Prelude.{◌≡◌, ◌≢◌, ℕ, true, false, List, Contains, Ok};
ghost use Rattle.gb_text.specs.declared.id.Name.{Name};
ghost use Rattle.gb_store.specs.Files.{History, files_of};
ghost use Rattle.merge_steps.specs.Turns.{MergeAnswers};
ghost use Rattle.merge_steps.specs.declared.line.MergeLine.{MergeLine as MergeLineValue};
ghost use Rattle.ref_store.specs.Refs.{Head};
ghost use Rattle.remote_name.specs.declared.remote.RemoteName.{RemoteName};
ghost use Rattle.repo_state.specs.Sides.{head_at};
ghost use Rattle.sync_steps.specs.Fetching.{FetchAnswers};
ghost use Rattle.sync_steps.specs.Places.{local_side, tracking_side};
ghost use Rattle.sync_steps.specs.Pushing.{PushAnswers};
ghost use Rattle.sync_steps.specs.declared.line.Line.{Line as LineValue};
ghost use Rattle.sync_steps.specs.declared.line.Outcome.TheVariants as outcome;
ghost use Rattle.ref_moments.specs.Once.{IsSetOnce, StaysSame};
ghost use Rattle.ref_moments.specs.Sets.{moves};

/// Where a line of a fetch says that its entity was fetched, one write set the tracking ref, to the
/// head that the peer's ref had. Where it says anything else, the tracking ref is the same at every
/// moment.
pub fn fetch_lines_say_what_was_set()
    ensures fetched { (own peer : List ℕ) (remote : RemoteName) (old new : History)
        (lines : List LineValue) (line : LineValue)
        → FetchAnswers own peer remote old new (Ok lines) → Contains lines line
        → line.outcome ≡ outcome.Fetched → (head : Name)
        × (head_at (files_of old) peer (local_side line.word) line.id ≡ Head head)
        × IsSetOnce own (tracking_side remote line.word) line.id head old new }
    ensures others { (own peer : List ℕ) (remote : RemoteName) (old new : History)
        (lines : List LineValue) (line : LineValue)
        → FetchAnswers own peer remote old new (Ok lines) → Contains lines line
        → line.outcome ≢ outcome.Fetched
        → StaysSame own (tracking_side remote line.word) line.id old new }
{}

/// Where a line of a push says that its entity was pushed, one write set the peer's ref, to the
/// head that the own folder's ref had. Where it says anything else, the peer's ref is the same at
/// every moment.
pub fn push_lines_say_what_was_set()
    ensures pushed { (own peer : List ℕ) (old new : History) (lines : List LineValue)
        (line : LineValue) → PushAnswers own peer old new (Ok lines) → Contains lines line
        → line.outcome ≡ outcome.Pushed → (head : Name)
        × (head_at (files_of old) own (local_side line.word) line.id ≡ Head head)
        × IsSetOnce peer (local_side line.word) line.id head old new }
    ensures others { (own peer : List ℕ) (old new : History) (lines : List LineValue)
        (line : LineValue) → PushAnswers own peer old new (Ok lines) → Contains lines line
        → line.outcome ≢ outcome.Pushed
        → StaysSame peer (local_side line.word) line.id old new }
{}

/// Where a line of a merge says that its entity is new, forward or joined, one write set the local
/// ref. Where it says anything else, so where the entity is refused, the local ref is the same at
/// every moment.
pub fn merge_lines_say_what_was_set()
    ensures moved { (folder : List ℕ) (remote : RemoteName) (now : ℕ) (old new : History)
        (lines : List MergeLineValue) (line : MergeLineValue)
        → MergeAnswers folder remote now old new (Ok lines) → Contains lines line
        → moves line.outcome ≡ true
        → (head : Name) × IsSetOnce folder (local_side line.word) line.id head old new }
    ensures others { (folder : List ℕ) (remote : RemoteName) (now : ℕ) (old new : History)
        (lines : List MergeLineValue) (line : MergeLineValue)
        → MergeAnswers folder remote now old new (Ok lines) → Contains lines line
        → moves line.outcome ≡ false
        → StaysSame folder (local_side line.word) line.id old new }
{}
