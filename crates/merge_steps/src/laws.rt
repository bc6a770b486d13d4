//! Laws of merges, each the contract of a function that does nothing.
ghost use Rattle.std.specs.Prelude.{◌≡◌, ◌≢◌, ◌⊎◌, ◌<◌, ◌+◌, ◌^◌, ◌++◌, ℕ, true, false, Contains, Ok, List, Option, Result, Some};
ghost use Rattle.gb_text.specs.Digits.{IsId};
ghost use Rattle.gb_text.specs.declared.id.Id.{Id};
ghost use Rattle.gb_text.specs.declared.id.Name.{Name};
ghost use Rattle.gb_store.specs.Files.{History, files_of};
ghost use Rattle.gb_store.specs.Moments.{Wrote};
ghost use Rattle.object_store.specs.Held.{objects_after};
ghost use Rattle.bug_ops.specs.Kind.{bug_kind};
ghost use Rattle.dag_entity.specs.Faults.{EntityFaultHolds, IsValid};
ghost use Rattle.dag_entity.specs.declared.fault.EntityFault.{EntityFault as FaultValue};
ghost use Rattle.dag_entity.specs.declared.fault.EntityFault.TheVariants as fault;
ghost use Rattle.identity.specs.Advancing.{IsInLocal};
ghost use Rattle.identity.specs.Persons.{IdentityFaultHolds, IsChain};
ghost use Rattle.identity.specs.declared.fault.IdentityFault.{IdentityFault as ChainFaultValue};
ghost use Rattle.identity.specs.declared.fault.IdentityFault.TheVariants as chain_fault;
ghost use Rattle.entity_merge.specs.Joins.{IsKnown, both_heads};
ghost use Rattle.remote_name.specs.declared.remote.RemoteName.{RemoteName};
ghost use Rattle.repo_state.specs.Answers.{IsHeadAt};
ghost use Rattle.repo_state.specs.Sides.{head_at};
ghost use Rattle.repo_state.specs.declared.side.Side.{Side};
ghost use Rattle.repo_state.specs.declared.side.Side.TheVariants as side;
ghost use Rattle.sync_steps.specs.Places.{local_side};
ghost use Rattle.sync_steps.specs.declared.line.EntityWord.{EntityWord as WordValue};
ghost use Rattle.repo_writes.specs.Kinds.{IsWrite};
ghost use Rattle.merge_steps.specs.Left.{IsJoinOf, WasLeft};
ghost use Rattle.merge_steps.specs.Refused.{AreTwoLines, WasRefused};
ghost use Rattle.merge_steps.specs.MergeLines.{is_refused, lines_text_of, refused_in};
ghost use Rattle.merge_steps.specs.Merging.{MergeTurn, MergesBug, MergesPerson};
ghost use Rattle.merge_steps.specs.Told.{HasLineOfEach};
ghost use Rattle.merge_steps.specs.Turns.{MergeAnswers};
ghost use Rattle.merge_steps.specs.declared.line.MergeLine.{MergeLine as LineValue};
ghost use Rattle.merge_steps.specs.declared.line.MergeOutcome.TheVariants as outcome;
ghost use Rattle.merge_steps.specs.declared.stop.MergeStop.{MergeStop as StopValue};

/// Each write of a merge, whatever it answers, is of an object, after all that it names, of the
/// head of an identity or a bug, with no fault and above the present head, or of a clock that
/// rises. So a merge keeps a sound folder sound, and loses nothing.
pub fn merges_write_of_their_kinds()
    ensures { (folder : List ℕ) (remote : RemoteName) (now : ℕ) (old new : History)
        (result : Result (List LineValue) StopValue)
        → now < 2 ^ 64 → MergeAnswers folder remote now old new result
        → Wrote (IsWrite folder) old new }
{}

/// When a turn of a bug does not refuse it, so that the outcome is `Nothing`, `New`, `Forward` or
/// `Joined`, its local ref has a head afterwards. The operation commits below it are exactly those
/// that lay below the local head or the tracked one before. The old local head, if there was one,
/// lies below it.
pub fn merged_lines_are_joins()
    ensures { (folder : List ℕ) (user : Id) (authors : List Id) (now : ℕ) (turn : MergeTurn)
        (old new : History) → IsId user → now < 2 ^ 64
        → MergesBug folder user authors now turn old new → is_refused turn.outcome ≡ false
        → (local : Option Name) × (tracked : Name)
        × IsHeadAt (files_of old) folder side.Bugs turn.entity.id local
        × (turn.entity.head ≡ Some tracked)
        × IsJoinOf folder turn.entity.id local tracked old new }
{}

/// Where a turn says that a bug is invalid, the fault is one of both heads together, by the local
/// head before, and nothing was written. It is neither want of memory nor a fault of the disk. No
/// turn says so where the tracked head is known, or where nothing is wrong with both heads
/// together.
pub fn refused_merges_have_a_fault()
    ensures fault { (folder : List ℕ) (user : Id) (authors : List Id) (now : ℕ) (turn : MergeTurn)
        (old new : History) (why : FaultValue)
        → MergesBug folder user authors now turn old new
        → turn.outcome ≡ outcome.InvalidBug why
        → (local : Option Name) × (tracked : Name)
        × IsHeadAt (files_of old) folder side.Bugs turn.entity.id local
        × (turn.entity.head ≡ Some tracked)
        × EntityFaultHolds bug_kind (objects_after old folder) turn.entity.id
        (both_heads local tracked) authors why
        × (new ≡ old) × (why ≢ fault.Memory) × (why ≢ fault.Disk) }
    ensures only { (folder : List ℕ) (user : Id) (authors : List Id) (now : ℕ) (turn : MergeTurn)
        (old new : History) (why : FaultValue) (local : Option Name) (tracked : Name)
        → MergesBug folder user authors now turn old new
        → IsHeadAt (files_of old) folder side.Bugs turn.entity.id local
        → turn.entity.head ≡ Some tracked
        → IsKnown (objects_after old folder) local tracked
        ⊎ IsValid bug_kind (objects_after old folder) turn.entity.id
        (both_heads local tracked) authors
        → turn.outcome ≢ outcome.InvalidBug why }
{}

/// A merge has a line for each identity of which a tracking ref of the remote exists, and then one
/// for each bug. They are in the order of ids, and each id has one.
pub fn each_tracked_ref_has_its_line()
    ensures { (folder : List ℕ) (remote : RemoteName) (now : ℕ) (old new : History)
        (lines : List LineValue) → MergeAnswers folder remote now old new (Ok lines)
        → HasLineOfEach folder remote old lines }
{}

/// A merge leaves each tracking ref as it was, whatever it answers. When it is done, the local ref
/// of each entity that it refused is as it was.
pub fn merges_keep_other_refs()
    ensures others { (folder : List ℕ) (remote : RemoteName) (now : ℕ) (old new : History)
        (result : Result (List LineValue) StopValue) (of : Side) (id : Id)
        → MergeAnswers folder remote now old new result
        → ((word : WordValue) → of ≢ local_side word)
        → head_at (files_of new) folder of id ≡ head_at (files_of old) folder of id }
    ensures refused { (folder : List ℕ) (remote : RemoteName) (now : ℕ) (old new : History)
        (lines : List LineValue) (line : LineValue)
        → MergeAnswers folder remote now old new (Ok lines) → Contains lines line
        → is_refused line.outcome ≡ true
        → head_at (files_of new) folder (local_side line.word) line.id
        ≡ head_at (files_of old) folder (local_side line.word) line.id }
{}

/// The text of lines is that of the first and then that of the others, and as many are refused as
/// of both.
pub fn lines_are_told_one_after_another()
    ensures text { (lines others : List LineValue)
        → lines_text_of (lines ++ others) ≡ lines_text_of lines ++ lines_text_of others }
    ensures refused { (lines others : List LineValue)
        → refused_in (lines ++ others) ≡ refused_in lines + refused_in others }
{}

/// When a merge is done, each entity that it did not refuse was left so between two moments of it, by
/// the local head and the tracked one that it had before, and its local ref is left so in the end. A
/// bug has a head below which lie exactly the operation commits of both, and the old local head. An
/// identity has a head in whose chain are both: the old one, or the tracked one, with a valid chain.
pub fn done_merges_leave_both_sides()
    ensures { (folder : List ℕ) (remote : RemoteName) (now : ℕ) (old new : History)
        (lines : List LineValue) (line : LineValue) → now < 2 ^ 64
        → MergeAnswers folder remote now old new (Ok lines) → Contains lines line
        → is_refused line.outcome ≡ false
        → WasLeft folder remote line.word line.id old new }
{}

/// When a merge is done, each entity that it refused had a cause at a moment of it, by the local head
/// and the tracked one that it had before. A bug has the fault that is told, of both heads together.
/// The tracked chain of an identity has the fault that is told; or each head is in no chain of the
/// other, and the tracked one is told.
pub fn done_merges_refuse_for_a_cause()
    ensures { (folder : List ℕ) (remote : RemoteName) (now : ℕ) (old new : History)
        (lines : List LineValue) (line : LineValue)
        → MergeAnswers folder remote now old new (Ok lines) → Contains lines line
        → is_refused line.outcome ≡ true → WasRefused folder remote line old new }
{}

/// Where a turn says that an identity is invalid, its tracked chain has the fault, and nothing was
/// written. It is neither want of memory nor a fault of the disk. No turn says so where the tracked
/// head is in the local chain, or where its own is one of the identity. Where a turn says that an
/// identity is not forward, that is so of both heads, and nothing was written.
pub fn refused_identities_have_a_cause()
    ensures fault { (folder : List ℕ) (turn : MergeTurn) (old new : History) (why : ChainFaultValue)
        → MergesPerson folder turn old new → turn.outcome ≡ outcome.InvalidIdentity why
        → (tracked : Name) × (turn.entity.head ≡ Some tracked)
        × IdentityFaultHolds (objects_after old folder) turn.entity.id tracked why
        × (new ≡ old) × (why ≢ chain_fault.Memory) × (why ≢ chain_fault.Disk) }
    ensures only { (folder : List ℕ) (turn : MergeTurn) (old new : History) (why : ChainFaultValue)
        (local : Option Name) (tracked : Name) → MergesPerson folder turn old new
        → IsHeadAt (files_of old) folder side.Identities turn.entity.id local
        → turn.entity.head ≡ Some tracked
        → IsInLocal (objects_after old folder) local tracked
        ⊎ IsChain (objects_after old folder) turn.entity.id tracked
        → turn.outcome ≢ outcome.InvalidIdentity why }
    ensures not_forward { (folder : List ℕ) (turn : MergeTurn) (old new : History) (name : Name)
        → MergesPerson folder turn old new → turn.outcome ≡ outcome.NotForward name
        → (local : Option Name) × (tracked : Name)
        × IsHeadAt (files_of old) folder side.Identities turn.entity.id local
        × (turn.entity.head ≡ Some tracked)
        × AreTwoLines (objects_after old folder) turn.entity.id local tracked name × (new ≡ old) }
{}
