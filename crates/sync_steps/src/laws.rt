//! Laws of exchanges, each the contract of a function that does nothing.
ghost use Rattle.std.specs.Prelude.{◌≡◌, ◌≢◌, ◌↔◌, ◌⊎◌, ◌+◌, ◌++◌, ◌∷◌, [], ℕ, Bool, true, false, List, Contains, Result, Ok, Some, codes};
ghost use Rattle.gb_text.specs.Overlap.{Overlap};
ghost use Rattle.gb_text.specs.declared.id.Name.{Name};
ghost use Rattle.gb_store.specs.Files.{History, files_of};
ghost use Rattle.gb_store.specs.Moments.{Wrote};
ghost use Rattle.commit_walk.specs.Below.{IsBelow};
ghost use Rattle.object_store.specs.Held.{objects_after};
ghost use Rattle.ref_store.specs.Refs.{Absent, Bad, Head};
ghost use Rattle.ref_store.specs.Setting.{ref_write};
ghost use Rattle.remote_copy.specs.Copies.{HasNoCause, IsCopied};
ghost use Rattle.remote_copy.specs.declared.fault.CopyFault.TheVariants as fault;
ghost use Rattle.repo_state.specs.Sides.{dir_of, head_at, ref_place};
ghost use Rattle.remote_name.specs.declared.remote.RemoteName.{RemoteName};
ghost use Rattle.repo_state.specs.declared.side.HeadEntry.{HeadEntry};
ghost use Rattle.repo_state.specs.declared.side.Side.{Side};
ghost use Rattle.repo_state.specs.declared.stop.ReadStop.{ReadStop as ReadStopValue};
ghost use Rattle.sync_steps.specs.Carrying.{IsCarried, IsCutOff, PutObjects, fault_of};
ghost use Rattle.sync_steps.specs.Fetching.{FetchAnswers, Fetches};
ghost use Rattle.sync_steps.specs.Lines.{is_quiet, is_refused, lines_text_of, refused_in};
ghost use Rattle.sync_steps.specs.Places.{local_side, tracking_side};
ghost use Rattle.sync_steps.specs.Pushing.{PushAnswers, Pushes};
ghost use Rattle.sync_steps.specs.Told.{HasLineOfEach};
ghost use Rattle.sync_steps.specs.Turns.{Turn};
ghost use Rattle.sync_steps.specs.Writes.{MayFetch, MayPush};
ghost use Rattle.sync_steps.specs.declared.line.CopyCause.{CopyCause as CauseValue};
ghost use Rattle.sync_steps.specs.declared.line.CopyCause.TheVariants as cause;
ghost use Rattle.sync_steps.specs.declared.line.EntityWord.TheVariants as word;
ghost use Rattle.sync_steps.specs.declared.line.Exchange.TheVariants as verb;
ghost use Rattle.sync_steps.specs.declared.line.Outcome.{Outcome as OutcomeValue};
ghost use Rattle.sync_steps.specs.declared.line.Outcome.TheVariants as outcome;
ghost use Rattle.sync_steps.specs.declared.line.Line.{Line as LineValue};

/// The text of lines is that of the first and then that of the others, and as many are refused as of both.
pub fn lines_are_told_one_after_another()
    ensures text { (lines others : List LineValue)
        → lines_text_of (lines ++ others) ≡ lines_text_of lines ++ lines_text_of others }
    ensures refused { (lines others : List LineValue)
        → refused_in (lines ++ others) ≡ refused_in lines + refused_in others }
{}

/// When a fetch is done, the tracking ref of each line that was fetched, or that was the same, has the head
/// that the peer's ref had before.
pub fn fetched_refs_have_the_peers_heads()
    ensures { (own peer : List ℕ) (remote : RemoteName) (old new : History)
        (lines : List LineValue) (line : LineValue)
        → FetchAnswers own peer remote old new (Ok lines) → Contains lines line
        → (line.outcome ≡ outcome.Fetched) ⊎ (line.outcome ≡ outcome.Same)
        → (head : Name)
        × (head_at (files_of old) peer (local_side line.word) line.id ≡ Head head)
        × (head_at (files_of new) own (tracking_side remote line.word) line.id ≡ Head head) }
{}

/// When a push is done, the peer's ref of each line that was pushed, or that was the same, has the head that
/// the local ref had before.
pub fn pushed_refs_have_the_local_heads()
    ensures { (own peer : List ℕ) (old new : History) (lines : List LineValue) (line : LineValue)
        → PushAnswers own peer old new (Ok lines) → Contains lines line
        → (line.outcome ≡ outcome.Pushed) ⊎ (line.outcome ≡ outcome.Same)
        → (head : Name)
        × (head_at (files_of old) own (local_side line.word) line.id ≡ Head head)
        × (head_at (files_of new) peer (local_side line.word) line.id ≡ Head head) }
{}

/// What an exchange writes, whatever it answers. A fetch writes below its own folder alone: objects, each
/// after all that it names, and tracking refs, each to the head that the peer's ref has, a commit that is
/// held. A push writes below the peer alone: objects, and refs, each to the head of the local ref, over the
/// head that the peer had, where all that it leads to stands as in the own folder.
pub fn exchanges_write_these()
    ensures fetch { (own peer : List ℕ) (remote : RemoteName) (old new : History)
        (result : Result (List LineValue) ReadStopValue) → (Overlap own peer → ⊥)
        → FetchAnswers own peer remote old new result → Wrote (MayFetch own peer remote) old new }
    ensures push { (own peer : List ℕ) (old new : History)
        (result : Result (List LineValue) ReadStopValue) → (Overlap own peer → ⊥)
        → PushAnswers own peer old new result → Wrote (MayPush own peer) old new }
{}

/// An exchange has a line for each identity that has a ref in the folder that it takes from, and then one
/// for each bug, even if the file is not a ref text. They are in the order of ids, and each id has one.
pub fn each_ref_has_its_line()
    ensures fetch { (own peer : List ℕ) (remote : RemoteName) (old new : History)
        (lines : List LineValue) → FetchAnswers own peer remote old new (Ok lines)
        → HasLineOfEach verb.Fetch peer old lines }
    ensures push { (own peer : List ℕ) (old new : History) (lines : List LineValue)
        → PushAnswers own peer old new (Ok lines) → HasLineOfEach verb.Push own old lines }
{}

/// An entity is refused unless it was fetched or pushed, or was the same. It is told by refs alone if it
/// was the same or is held, or if the peer's ref is no ref text.
pub fn refusals_are_known()
    ensures refused { (out : OutcomeValue) → (is_refused out ≡ false)
        ↔ ((out ≡ outcome.Fetched) ⊎ (out ≡ outcome.Pushed) ⊎ (out ≡ outcome.Same)) }
    ensures quiet { (out : OutcomeValue) → (is_quiet out ≡ true)
        ↔ ((out ≡ outcome.Same) ⊎ (out ≡ outcome.BadRef) ⊎ (out ≡ outcome.Held)) }
{}

/// When a push is done, an entity is held if and only if it is a bug, and a line of an identity says that
/// the peer's ref is not a ref text or that the copy was refused. No other outcome of an identity holds a bug.
pub fn bugs_are_held_for_damaged_identities()
    ensures { (own peer : List ℕ) (old new : History) (lines : List LineValue) (line : LineValue)
        → PushAnswers own peer old new (Ok lines) → Contains lines line
        → (line.outcome ≡ outcome.Held)
        ↔ ((line.word ≡ word.Bug) × ((other : LineValue) × Contains lines other
        × (other.word ≡ word.Identity) × ((other.outcome ≡ outcome.BadRef)
        ⊎ ((why : CauseValue) × (other.outcome ≡ outcome.DamagedCopy why))))) }
{}

/// When a fetch is done, the line of an entity reports a bad ref if and only if the peer's ref is one.
pub fn bad_refs_are_told()
    ensures { (own peer : List ℕ) (remote : RemoteName) (old new : History)
        (lines : List LineValue) (line : LineValue)
        → FetchAnswers own peer remote old new (Ok lines) → Contains lines line
        → (line.outcome ≡ outcome.BadRef)
        ↔ (head_at (files_of old) peer (local_side line.word) line.id ≡ Bad) }
{}

/// Nothing is written for an entity if the refs alone decide, or if its head in the peer is not below.
pub fn turns_that_carry_nothing_write_nothing()
    ensures fetch { (own peer : List ℕ) (to : Side) (turn : Turn) (old new : History)
        → Fetches own peer to turn old new → is_quiet turn.outcome ≡ true → new ≡ old }
    ensures push { (own peer : List ℕ) (of : Side) (held : Bool) (turn : Turn) (old new : History)
        → Pushes own peer of held turn old new → (is_quiet turn.outcome ≡ true)
        ⊎ ((other : Name) × (turn.outcome ≡ outcome.NotForward other)) → new ≡ old }
{}

/// A fetch sets no tracking ref that is no ref text, and gives no outcome where one is. A push sets a ref
/// of the peer only where none stood, or where its head was another that lies below the local one.
pub fn refs_are_set_over_older_heads()
    ensures tracking { (own peer : List ℕ) (to : Side) (turn : Turn) (name : Name)
        (old new : History) → Fetches own peer to turn old new → turn.entity.head ≡ Some name
        → head_at (files_of old) own to turn.entity.id ≡ Bad → ⊥ }
    ensures pushed { (own peer : List ℕ) (of : Side) (held : Bool) (turn : Turn) (name : Name)
        (old new : History) → Pushes own peer of held turn old new
        → turn.outcome ≡ outcome.Pushed → turn.entity.head ≡ Some name
        → (head_at (files_of old) peer of turn.entity.id ≡ Absent)
        ⊎ ((other : Name) × (head_at (files_of old) peer of turn.entity.id ≡ Head other)
        × (other ≢ name) × IsBelow (objects_after old own) (name ∷ []) other) }
{}

/// Where the tracking refs of a remote are stored, below the own folder.
pub fn tracking_refs_stand_by_their_kind()
    ensures identity { (remote : RemoteName) → dir_of (tracking_side remote word.Identity)
        ≡ codes "refs/remotes/" ++ remote.text ++ codes "/identities" }
    ensures bug { (remote : RemoteName) → dir_of (tracking_side remote word.Bug)
        ≡ codes "refs/remotes/" ++ remote.text ++ codes "/bugs" }
{}

/// A ref is set as the last write, after the objects of its head's copy, when nothing kept that from being
/// made and all of it exists. Where memory runs out or the disk fails, it may be unset; if it is set, the
/// same holds.
pub fn refs_are_set_behind_whole_copies()
    ensures carried { (closed : Bool) (source target : List ℕ) (to : Side) (head : HeadEntry)
        (old new : History) → IsCarried closed source target to head old new
        → (mid : History) × PutObjects closed source target head old mid
        × (new ≡ ref_write target (ref_place to head.id) head.name ∷ mid)
        × HasNoCause closed (objects_after old source) (objects_after old target) head.name
        × IsCopied closed (objects_after old source) (objects_after old target)
        (objects_after mid target) head.name }
    ensures cut_off { (closed : Bool) (source target : List ℕ) (to : Side) (head : HeadEntry)
        (old new : History) → IsCutOff closed source target to head old new
        → (mid : History) × PutObjects closed source target head old mid
        × ((new ≡ mid) ⊎ ((new ≡ ref_write target (ref_place to head.id) head.name ∷ mid)
        × HasNoCause closed (objects_after old source) (objects_after old target) head.name
        × IsCopied closed (objects_after old source) (objects_after old target)
        (objects_after mid target) head.name)) }
{}

/// The cause that a line tells is the refusal of the copy that has its name.
pub fn causes_are_refusals_of_copies()
    ensures missing { (name : Name) → fault_of (cause.Missing name) ≡ fault.Missing name }
    ensures damaged { (name : Name) → fault_of (cause.Damaged name) ≡ fault.Damaged name }
    ensures kind { (name : Name) → fault_of (cause.WrongKind name) ≡ fault.WrongKind name }
    ensures large { (count : ℕ) → fault_of (cause.TooLarge count) ≡ fault.TooLarge count }
    ensures ring { (name : Name) → fault_of (cause.Ring name) ≡ fault.Ring name }
    ensures taken { (name : Name) → fault_of (cause.Taken name) ≡ fault.Taken name }
{}
