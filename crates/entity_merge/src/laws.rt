//! Laws of joins, each the contract of a function that does nothing.
ghost use Rattle.std.specs.Prelude.{◌≡◌, ◌<◌, ◌+◌, ◌^◌, ℕ, max, List, [], ◌∷◌, ◌⊎◌, Option, Some, Ok, Err, Contains, All};
ghost use Rattle.gb_text.specs.Digits.{IsId, IsName};
ghost use Rattle.object_store.specs.Texts.{IsShort};
ghost use Rattle.gb_text.specs.declared.id.Id.{Id as IdValue};
ghost use Rattle.gb_text.specs.declared.id.Name.{Name as NameValue};
ghost use Rattle.gb_store.specs.Files.{History};
ghost use Rattle.object_store.specs.Held.{Objects, objects_after};
ghost use Rattle.commit_walk.specs.Below.{IsBelow};
ghost use Rattle.dag_entity.specs.Agreeing.{SameNeeded};
ghost use Rattle.dag_entity.specs.Entities.{IsEntity, IsOperationList};
ghost use Rattle.dag_entity.specs.Extending.{extended};
ghost use Rattle.dag_entity.specs.Faults.{AreApart, EntityFaultHolds, IsValid};
ghost use Rattle.dag_entity.specs.Joining.{IsMergeTime, at_head, merge_name, merge_node, merge_objects};
ghost use Rattle.dag_entity.specs.Nodes.{IsNode, edit_at};
ghost use Rattle.dag_entity.specs.declared.entity.Entity.{Entity as EntityValue};
ghost use Rattle.dag_entity.specs.declared.fault.EntityFault.{EntityFault as FaultValue};
ghost use Rattle.entity_merge.specs.Joins.{AreUnion, HasWord, HaveSame, IsKnown, Joins, PlanAnswers, both_heads, head_of, heads_in};
ghost use Rattle.entity_merge.specs.declared.plan.MergePlan.{MergePlan as Plan};
ghost use Rattle.entity_merge.specs.Merging.{MergeAnswers};
ghost use Rattle.entity_merge.specs.Unions.{SameWord};
ghost use Rattle.entity_merge.specs.declared.fault.MergeFault.TheVariants as stop;
ghost use Rattle.entity_merge.specs.declared.word.Merged.{Merged as Word};
ghost use Rattle.entity_merge.specs.declared.word.Merged.TheVariants.{Forward, Joined, Nothing};

use op_kind::OpKind;

/// At most one word holds of two heads. A merge commit may have any name here.
pub fn one_word_holds()
    ensures { (objects : Objects) (local : Option NameValue) (remote : NameValue)
        (one two : Word) → HasWord objects local remote one → HasWord objects local remote two
        → SameWord one two }
{}

/// If heads are valid together, each commit below them is valid as a head alone: a fault of such a
/// head alone is a fault of all heads together.
pub fn heads_of_a_valid_join_are_valid<K: OpKind>()
    ensures faults { (objects : Objects) (id : IdValue) (authors : List IdValue)
        (heads : List NameValue) (top : NameValue) (fault : FaultValue)
        → IsBelow objects heads top
        → EntityFaultHolds K.meaning objects id (top ∷ []) authors fault
        → EntityFaultHolds K.meaning objects id heads authors fault }
    ensures valid { (objects : Objects) (id : IdValue) (authors : List IdValue)
        (heads : List NameValue) (top : NameValue) → IsBelow objects heads top
        → IsValid K.meaning objects id heads authors
        → IsValid K.meaning objects id (top ∷ []) authors }
{}

/// A valid join leaves a valid head with the packs of both sides: the remote head if the local one
/// lies below it, and otherwise the merge commit, if its author is one of the authors.
pub fn joined_heads_are_valid<K: OpKind>()
    ensures forward { (objects : Objects) (id : IdValue) (local remote : NameValue)
        (authors : List IdValue) (entity : EntityValue K)
        → IsEntity K.meaning objects id (local ∷ remote ∷ []) authors entity
        → IsBelow objects (remote ∷ []) local
        → IsEntity K.meaning objects id (remote ∷ []) authors (at_head entity remote) }
    ensures joined { (before after : Objects) (id : IdValue) (local remote : NameValue)
        (author : IdValue) (authors : List IdValue) (clock now edit : ℕ)
        (entity : EntityValue K)
        → IsEntity K.meaning before id (local ∷ remote ∷ []) authors entity
        → AreApart before (local ∷ remote ∷ []) local remote
        → IsMergeTime before local remote clock edit
        → SameNeeded before after (local ∷ remote ∷ [])
        → IsNode K.meaning after (merge_node K.meaning local remote author edit now)
        → Contains authors author
        → IsEntity K.meaning after id
        (merge_name K.meaning local remote author edit now ∷ []) authors
        (extended entity (merge_node K.meaning local remote author edit now)) }
{}

/// The edit clock of a merge commit is above those of both heads and above the folder's.
pub fn clocks_of_joins_rise()
    ensures { (objects : Objects) (local remote : NameValue) (clock edit : ℕ)
        → (time : IsMergeTime objects local remote clock edit)
        → (time.one < edit) × (time.two < edit) × (clock < edit) }
{}

/// A join loses nothing: what was below either head is below the resulting one.
pub fn joins_lose_nothing<K: OpKind>()
    ensures { (before after : Objects) (author : IdValue) (clock now : ℕ)
        (local : Option NameValue) (remote top : NameValue) (word : Word)
        → Joins K.meaning before after local remote author clock now word
        → head_of local word ≡ Some top
        → SameNeeded before after (both_heads local remote)
        → (name : NameValue) → IsBelow before (both_heads local remote) name
        → IsBelow after (top ∷ []) name }
{}

/// The operation commits below the resulting head are exactly those of both sides.
pub fn joins_keep_both_sides<K: OpKind>()
    ensures { (before after : Objects) (author : IdValue) (clock now : ℕ)
        (local : Option NameValue) (remote top : NameValue) (word : Word)
        → Joins K.meaning before after local remote author clock now word
        → head_of local word ≡ Some top
        → SameNeeded before after (both_heads local remote)
        → AreUnion K.meaning after (top ∷ []) before (heads_in local) (remote ∷ []) }
{}

/// On operation commits joins are commutative, associative and idempotent, in whatever folders they
/// are made: the result is the union of the sides.
pub fn joins_are_unions<K: OpKind>()
    ensures commute { (a b c d : Objects) (one two left right others tops : List NameValue)
        → AreUnion K.meaning a one c left right → AreUnion K.meaning b two d tops others
        → HaveSame K.meaning c left d others → HaveSame K.meaning c right d tops
        → HaveSame K.meaning a one b two }
    ensures associate { (a b c d o1 o2 o3 o4 : Objects)
        (ab abc bc abc_too xs ys zs xs_too ys_too zs_too ab_too bc_too : List NameValue)
        → AreUnion K.meaning a ab o1 xs ys → AreUnion K.meaning b abc o2 ab_too zs
        → AreUnion K.meaning c bc o3 ys_too zs_too
        → AreUnion K.meaning d abc_too o4 xs_too bc_too
        → HaveSame K.meaning a ab o2 ab_too → HaveSame K.meaning c bc o4 bc_too
        → HaveSame K.meaning o1 xs o4 xs_too → HaveSame K.meaning o1 ys o3 ys_too
        → HaveSame K.meaning o2 zs o3 zs_too → HaveSame K.meaning b abc d abc_too }
    ensures repeat { (a c : Objects) (one left right : List NameValue)
        → AreUnion K.meaning a one c left right → HaveSame K.meaning c left c right
        → HaveSame K.meaning a one c left }
{}

/// If the same operation commits lie below some heads in one store and some in another, their operations
/// are the same in the same order, whoever joined them.
pub fn same_commits_say_the_same<K: OpKind>()
    ensures { (objects others : Objects) (heads tops : List NameValue) (one two : List K)
        → HaveSame K.meaning objects heads others tops
        → IsOperationList K.meaning objects heads one
        → IsOperationList K.meaning others tops two → one ≡ two }
{}

/// After a join the same remote head is known, and the other side takes the merge commit by `Forward`.
pub fn joins_are_seen_again<K: OpKind>()
    ensures known { (before after : Objects) (local remote : NameValue) (author : IdValue)
        (edit now : ℕ) → SameNeeded before after (local ∷ remote ∷ [])
        → IsNode K.meaning after (merge_node K.meaning local remote author edit now)
        → HasWord after (Some (merge_name K.meaning local remote author edit now)) remote
        Nothing }
    ensures forward { (before after : Objects) (id : IdValue) (local remote : NameValue)
        (author : IdValue) (authors : List IdValue) (clock now edit : ℕ)
        (entity : EntityValue K)
        → IsEntity K.meaning before id (local ∷ remote ∷ []) authors entity
        → IsMergeTime before local remote clock edit
        → SameNeeded before after (local ∷ remote ∷ [])
        → IsNode K.meaning after (merge_node K.meaning local remote author edit now)
        → HasWord after (Some remote) (merge_name K.meaning local remote author edit now)
        (Forward (merge_name K.meaning local remote author edit now)) }
{}

/// The objects of a merge commit are short, so none of them is ever too large to be put.
pub fn objects_of_joins_are_short<K: OpKind>()
    ensures { (local remote : NameValue) (author : IdValue) (edit now : ℕ) → IsId author
        → IsName local → IsName remote → edit < 2 ^ 64 → now < 2 ^ 64
        → All IsShort (merge_objects K.meaning local remote author edit now) }
{}

/// The resulting head has the operations that both heads had together before the join, in the same order.
/// A merge commit adds none.
pub fn joins_say_what_both_said<K: OpKind>()
    ensures { (before after : Objects) (author : IdValue) (clock now : ℕ)
        (local : Option NameValue) (remote top : NameValue) (word : Word) (ops : List K)
        → Joins K.meaning before after local remote author clock now word
        → head_of local word ≡ Some top
        → SameNeeded before after (both_heads local remote)
        → IsOperationList K.meaning before (both_heads local remote) ops
        → IsOperationList K.meaning after (top ∷ []) ops }
{}

/// A plan comes only if the remote head is known or nothing is wrong with both heads together. So if
/// something is wrong with them and the remote head is not known, the answer is `Invalid`, unless memory
/// runs out or the disk fails.
pub fn faulty_joins_are_refused<K: OpKind>()
    ensures { (objects : Objects) (id : IdValue) (local : Option NameValue)
        (remote : NameValue) (author : IdValue) (authors : List IdValue) (clock now : ℕ)
        (plan : Plan) → PlanAnswers K.meaning objects id local remote author authors clock now
        (Ok plan) → IsKnown objects local remote
        ⊎ IsValid K.meaning objects id (both_heads local remote) authors }
{}

/// A merge commit has the edit clock of a merge: one more than the greatest of those of both heads and of
/// the folder. This holds of one that is planned and of one that a join leaves.
pub fn merge_commits_have_the_clock_of_a_merge<K: OpKind>()
    ensures planned { (objects : Objects) (id : IdValue) (local remote head : NameValue)
        (author : IdValue) (authors : List IdValue) (clock now : ℕ) (plan : Plan)
        → PlanAnswers K.meaning objects id (Some local) remote author authors clock now (Ok plan)
        → plan.merged ≡ Joined head → IsMergeTime objects local remote clock plan.edit }
    ensures left { (before after : Objects) (local remote head : NameValue) (author : IdValue)
        (clock now : ℕ)
        → Joins K.meaning before after (Some local) remote author clock now (Joined head)
        → (edit : ℕ) × IsMergeTime before local remote clock edit
        × (head ≡ merge_name K.meaning local remote author edit now) }
    ensures time { (objects : Objects) (local remote : NameValue) (clock edit one two : ℕ)
        → edit_at objects local ≡ Some one → edit_at objects remote ≡ Some two
        → IsMergeTime objects local remote clock edit → edit ≡ max clock (max one two) + 1 }
{}

/// A join is refused as invalid only if the remote head is not known and the reported fault is one of both
/// heads together. Then nothing was written.
pub fn known_heads_are_not_refused<K: OpKind>()
    ensures planned { (objects : Objects) (id : IdValue) (local : Option NameValue)
        (remote : NameValue) (author : IdValue) (authors : List IdValue) (clock now : ℕ)
        (fault : FaultValue)
        → PlanAnswers K.meaning objects id local remote author authors clock now
        (Err (stop.Invalid fault)) → (IsKnown objects local remote → ⊥)
        × EntityFaultHolds K.meaning objects id (both_heads local remote) authors fault }
    ensures merged { (folder : List ℕ) (id : IdValue) (local : Option NameValue)
        (remote : NameValue) (author : IdValue) (authors : List IdValue) (clock now : ℕ)
        (old new : History) (fault : FaultValue)
        → MergeAnswers K.meaning folder id local remote author authors clock now old new
        (Err (stop.Invalid fault)) → (IsKnown (objects_after old folder) local remote → ⊥)
        × EntityFaultHolds K.meaning (objects_after old folder) id (both_heads local remote) authors
        fault × (new ≡ old) }
{}
