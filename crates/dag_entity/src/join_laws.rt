//! Laws of heads that are joined, each the contract of a function that does nothing.
ghost use Rattle.std.specs.Prelude.{◌≡◌, ◌<◌, ◌^◌, ◌↔◌, ◌⊎◌, ℕ, List, [], ◌∷◌, Contains, All};
ghost use Rattle.gb_text.specs.Digits.{IsId, IsName};
ghost use Rattle.gb_text.specs.declared.id.Id.{Id as IdValue};
ghost use Rattle.gb_text.specs.declared.id.Name.{Name as NameValue};
ghost use Rattle.object_store.specs.Held.{Objects};
ghost use Rattle.object_store.specs.Texts.{IsShort};
ghost use Rattle.commit_walk.specs.Below.{IsBelow, IsParent};
ghost use Rattle.dag_entity.specs.Agreeing.{SameNeeded};
ghost use Rattle.dag_entity.specs.Entities.{IsEntity, IsOperationCommit, IsOperationList};
ghost use Rattle.dag_entity.specs.Extending.{extended};
ghost use Rattle.dag_entity.specs.Faults.{AreApart, EntityFaultHolds, IsValid};
ghost use Rattle.dag_entity.specs.Joining.{IsMergeTime, TakesBoth, at_head, merge_name, merge_node, merge_objects};
ghost use Rattle.dag_entity.specs.Nodes.{IsNode};
ghost use Rattle.dag_entity.specs.declared.entity.Entity.{Entity as EntityValue};
ghost use Rattle.dag_entity.specs.declared.entity.Placed.{Placed as PlacedValue};
ghost use Rattle.dag_entity.specs.declared.fault.EntityFault.{EntityFault as FaultValue};

use op_kind::OpKind;

/// A fault of one head is one of all heads below which it lies. So each head of a valid join is valid
/// alone, and so is each parent of a valid head. Of two heads this needs that they aren't apart: only
/// what two heads that are apart need for their merge commit isn't a fault of heads above them.
pub fn faults_go_up<K: OpKind>()
    ensures one { (objects : Objects) (id : IdValue) (authors : List IdValue)
        (heads : List NameValue) (low : NameValue) (fault : FaultValue)
        → IsBelow objects heads low
        → EntityFaultHolds K.meaning objects id (low ∷ []) authors fault
        → EntityFaultHolds K.meaning objects id heads authors fault }
    ensures heads { (objects : Objects) (id : IdValue) (authors : List IdValue)
        (heads others : List NameValue) (fault : FaultValue)
        → ((one two : NameValue) → AreApart objects others one two → ⊥)
        → ((name : NameValue) → IsBelow objects others name → IsBelow objects heads name)
        → EntityFaultHolds K.meaning objects id others authors fault
        → EntityFaultHolds K.meaning objects id heads authors fault }
    ensures valid { (objects : Objects) (id : IdValue) (authors : List IdValue)
        (heads : List NameValue) (low : NameValue) → IsBelow objects heads low
        → IsValid K.meaning objects id heads authors
        → IsValid K.meaning objects id (low ∷ []) authors }
    ensures parents { (objects : Objects) (id : IdValue) (authors : List IdValue)
        (high low : NameValue) → IsParent objects high low
        → IsValid K.meaning objects id (high ∷ []) authors
        → IsValid K.meaning objects id (low ∷ []) authors }
{}

/// A head below another adds nothing to it: no fault, no commit and no operation. So both together are
/// the entity of the upper one alone.
pub fn a_head_below_another_adds_nothing<K: OpKind>()
    ensures below { (objects : Objects) (low high name : NameValue)
        → IsBelow objects (high ∷ []) low
        → IsBelow objects (low ∷ high ∷ []) name ↔ IsBelow objects (high ∷ []) name }
    ensures faults { (objects : Objects) (id : IdValue) (authors : List IdValue)
        (low high : NameValue) (fault : FaultValue) → IsBelow objects (high ∷ []) low
        → EntityFaultHolds K.meaning objects id (low ∷ high ∷ []) authors fault
        ↔ EntityFaultHolds K.meaning objects id (high ∷ []) authors fault }
    ensures turned { (objects : Objects) (id : IdValue) (authors : List IdValue)
        (low high : NameValue) (fault : FaultValue) → IsBelow objects (high ∷ []) low
        → EntityFaultHolds K.meaning objects id (high ∷ low ∷ []) authors fault
        ↔ EntityFaultHolds K.meaning objects id (high ∷ []) authors fault }
    ensures entity { (objects : Objects) (id : IdValue) (authors : List IdValue)
        (low high : NameValue) (entity : EntityValue K) → IsBelow objects (high ∷ []) low
        → IsEntity K.meaning objects id (low ∷ high ∷ []) authors entity
        → IsEntity K.meaning objects id (high ∷ []) authors (at_head entity high) }
    ensures operations { (objects : Objects) (low high : NameValue) (ops : List K)
        → IsBelow objects (high ∷ []) low
        → IsOperationList K.meaning objects (low ∷ high ∷ []) ops
        ↔ IsOperationList K.meaning objects (high ∷ []) ops }
{}

/// What is wrong with two heads together of which each is valid alone takes both: a root below each, and
/// these differ; an operation whose id stands below each, in two commits; too many commits with the
/// merge commit that heads that are apart need; or the greatest clock of such a head. Each of these is
/// a fault of both.
pub fn two_valid_heads_fail_by_what_takes_both<K: OpKind>()
    ensures split { (objects : Objects) (id : IdValue) (authors : List IdValue)
        (one two : NameValue) (fault : FaultValue)
        → IsValid K.meaning objects id (one ∷ []) authors
        → IsValid K.meaning objects id (two ∷ []) authors
        → EntityFaultHolds K.meaning objects id (one ∷ two ∷ []) authors fault
        → TakesBoth K.meaning objects one two fault }
    ensures holds { (objects : Objects) (id : IdValue) (authors : List IdValue)
        (one two : NameValue) (fault : FaultValue) → TakesBoth K.meaning objects one two fault
        → EntityFaultHolds K.meaning objects id (one ∷ two ∷ []) authors fault }
{}

/// A commit over two heads that are apart, and valid together, makes an entity again, in objects that
/// agree about what both need: where it has an empty pack of one of the authors and the merge clock,
/// which is above both heads' and the folder's. Below it lie itself and what lies below both heads;
/// its operation commits are those of both, and its operations theirs, each once and in their order.
pub fn a_commit_over_both_heads_is_valid<K: OpKind>()
    ensures entity { (before after : Objects) (id : IdValue) (one two : NameValue)
        (author : IdValue) (authors : List IdValue) (clock now edit : ℕ)
        (entity : EntityValue K)
        → IsEntity K.meaning before id (one ∷ two ∷ []) authors entity
        → AreApart before (one ∷ two ∷ []) one two → IsMergeTime before one two clock edit
        → SameNeeded before after (one ∷ two ∷ [])
        → IsNode K.meaning after (merge_node K.meaning one two author edit now)
        → Contains authors author
        → IsEntity K.meaning after id (merge_name K.meaning one two author edit now ∷ [])
        authors (extended entity (merge_node K.meaning one two author edit now)) }
    ensures clocks { (objects : Objects) (one two : NameValue) (clock edit : ℕ)
        → (time : IsMergeTime objects one two clock edit)
        → (time.one < edit) × (time.two < edit) × (clock < edit) }
    ensures below { (before after : Objects) (one two name : NameValue) (author : IdValue)
        (edit now : ℕ) → SameNeeded before after (one ∷ two ∷ [])
        → IsNode K.meaning after (merge_node K.meaning one two author edit now)
        → IsBelow after (merge_name K.meaning one two author edit now ∷ []) name
        ↔ ((merge_name K.meaning one two author edit now ≡ name)
        ⊎ IsBelow before (one ∷ two ∷ []) name) }
    ensures commits { (before after : Objects) (one two : NameValue) (author : IdValue)
        (edit now : ℕ) (placed : PlacedValue K) → SameNeeded before after (one ∷ two ∷ [])
        → IsNode K.meaning after (merge_node K.meaning one two author edit now)
        → IsOperationCommit K.meaning after
        (merge_name K.meaning one two author edit now ∷ []) placed
        ↔ (IsOperationCommit K.meaning before (one ∷ []) placed
        ⊎ IsOperationCommit K.meaning before (two ∷ []) placed) }
    ensures operations { (before after : Objects) (one two : NameValue) (author : IdValue)
        (edit now : ℕ) (ops : List K) → SameNeeded before after (one ∷ two ∷ [])
        → IsNode K.meaning after (merge_node K.meaning one two author edit now)
        → IsOperationList K.meaning before (one ∷ two ∷ []) ops
        → IsOperationList K.meaning after (merge_name K.meaning one two author edit now ∷ [])
        ops }
{}

/// The objects of a commit over two heads with an empty pack are short, so that none of them is ever too
/// large to be put.
pub fn objects_of_merge_commits_are_short<K: OpKind>()
    ensures { (one two : NameValue) (author : IdValue) (edit now : ℕ) → IsId author
        → IsName one → IsName two → edit < 2 ^ 64 → now < 2 ^ 64
        → All IsShort (merge_objects K.meaning one two author edit now) }
{}
