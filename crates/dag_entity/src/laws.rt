//! Laws of entities, each the contract of a function that does nothing.
ghost use Rattle.std.specs.Prelude.{◌≡◌, ◌≢◌, ◌≤◌, ◌<◌, ◌+◌, ◌-◌, ◌^◌, ◌↔◌, ◌⊎◌, ℕ, true, List, [], ◌∷◌, ◌++◌, map, length, slice_get, Contains, Some};
ghost use Rattle.gb_text.specs.declared.decimal.TheConstants.{GREATEST_TIME};
ghost use Rattle.gb_text.specs.declared.id.Id.{Id as IdValue};
ghost use Rattle.gb_text.specs.declared.id.Name.{Name as NameValue};
ghost use Rattle.git_object.specs.declared.commit.Commit.{Commit as CommitValue};
ghost use Rattle.lamport.specs.declared.clock.TheConstants.{JUMP};
ghost use Rattle.object_store.specs.Held.{IsLarge, Objects};
ghost use Rattle.commit_walk.specs.Below.{HasCommit, IsBelow, IsParent};
ghost use Rattle.commit_walk.specs.Distinct.{AreDistinct};
ghost use Rattle.commit_walk.specs.declared.below.TheConstants.{MOST_COMMITS};
ghost use Rattle.commit_pack.specs.declared.fault.CommitPackFault.{CommitPackFault as FaultValue};
ghost use Rattle.commit_pack.specs.declared.fault.CommitPackFault.TheVariants as pack_fault;
ghost use Rattle.op_pack.specs.declared.pack.Pack.{Pack as PackValue};
ghost use Rattle.dag_entity.specs.Entities.{AreAllInOrder, AreOperationCommits, IsEntity, IsOperationCommit, IsOperationList, ops_in, with_operations};
ghost use Rattle.dag_entity.specs.Extending.{Begins, BeginsOnce, ClockRises, Extends, HasPackText, begun, extended};
ghost use Rattle.dag_entity.specs.Faults.{AreApart, EntityFaultHolds, IsRootCommit, IsValid, RepeatsAcross};
ghost use Rattle.dag_entity.specs.Nodes.{HasPackFault, IsCommitBelow, IsNeeded, IsNodeBelow, edit_at, pack_at};
ghost use Rattle.dag_entity.specs.declared.entity.Entity.{Entity as EntityValue};
ghost use Rattle.dag_entity.specs.declared.entity.Loaded.{Loaded as LoadedValue};
ghost use Rattle.dag_entity.specs.declared.entity.Placed.{Placed as PlacedValue};
ghost use Rattle.dag_entity.specs.declared.fault.EntityFault.TheVariants as fault;

use op_kind::OpKind;

/// The packs with operations are an entity's operation commits in order, and their operations
/// joined are its operations.
pub fn entities_give_their_operations<K: OpKind>()
    ensures commits { (objects : Objects) (heads : List NameValue) (packs : List (PlacedValue K))
        → AreAllInOrder K.meaning objects heads packs
        → AreOperationCommits K.meaning objects heads (with_operations K.meaning packs) }
    ensures operations { (objects : Objects) (heads : List NameValue)
        (packs : List (PlacedValue K)) → AreAllInOrder K.meaning objects heads packs
        → IsOperationList K.meaning objects heads (ops_in K.meaning packs) }
{}

/// An entity has one order of packs and one list of operations. Heads with the same operation
/// commits have the same operations, also in other objects: the edges between commits have no part
/// in it.
pub fn operations_are_determined<K: OpKind>()
    ensures packs { (objects : Objects) (heads : List NameValue)
        (one two : List (PlacedValue K))
        → AreAllInOrder K.meaning objects heads one
        → AreAllInOrder K.meaning objects heads two → one ≡ two }
    ensures operations { (objects : Objects) (heads : List NameValue) (one two : List K)
        → IsOperationList K.meaning objects heads one
        → IsOperationList K.meaning objects heads two → one ≡ two }
    ensures edges { (objects others : Objects) (heads tops : List NameValue) (one two : List K)
        → ((placed : PlacedValue K) → IsOperationCommit K.meaning objects heads placed
        ↔ IsOperationCommit K.meaning others tops placed)
        → IsOperationList K.meaning objects heads one
        → IsOperationList K.meaning others tops two → one ≡ two }
{}

/// No operation of an entity occurs twice, and no two of its operation commits have the same pack
/// text.
pub fn each_operation_stands_once<K: OpKind>()
    ensures texts { (objects : Objects) (id : IdValue) (heads : List NameValue)
        (authors : List IdValue) (one two : PlacedValue K) (text : List ℕ)
        → IsValid K.meaning objects id heads authors
        → IsOperationCommit K.meaning objects heads one
        → IsOperationCommit K.meaning objects heads two
        → HasPackText objects one.commit text → HasPackText objects two.commit text
        → one ≡ two }
    ensures once { (objects : Objects) (id : IdValue) (heads : List NameValue)
        (authors : List IdValue) (entity : EntityValue K)
        → IsEntity K.meaning objects id heads authors entity
        → AreDistinct (map (λ (op : K). (K.meaning.common_of op).place.id)
        (ops_in K.meaning entity.packs)) }
{}

/// An entity begins at its one root, with an operation that may be first and whose id is the
/// entity's. Every other commit has a greater edit clock than each of its parents.
pub fn valid_entities_are_well_formed<K: OpKind>()
    ensures root { (objects : Objects) (id : IdValue) (heads : List NameValue)
        (authors : List IdValue) (entity : EntityValue K)
        → IsEntity K.meaning objects id heads authors entity
        → BeginsOnce K.meaning objects heads id entity.create }
    ensures clocks { (objects : Objects) (id : IdValue) (heads : List NameValue)
        (authors : List IdValue) (entity : EntityValue K) (high low : NameValue)
        → IsEntity K.meaning objects id heads authors entity
        → IsBelow objects heads high → IsParent objects high low
        → ClockRises objects high low }
{}

/// A valid entity satisfies the rules of clock jumps, of merge commits, of following operations and
/// of known authors. Where neither of two heads lies below the other, there is room for the merge
/// commit that they need: among the commits, and above the clock of each head.
pub fn valid_entities_keep_the_rules<K: OpKind>()
    ensures near { (objects : Objects) (id : IdValue) (heads : List NameValue)
        (authors : List IdValue) (high low : NameValue) (commit : CommitValue)
        (above beneath : ℕ) → IsValid K.meaning objects id heads authors
        → IsCommitBelow objects heads high commit → commit.parents ≡ low ∷ []
        → edit_at objects high ≡ Some above → edit_at objects low ≡ Some beneath
        → above ≤ beneath + JUMP }
    ensures merges { (objects : Objects) (id : IdValue) (heads : List NameValue)
        (authors : List IdValue) (node : LoadedValue K)
        → IsValid K.meaning objects id heads authors → IsNodeBelow K.meaning objects heads node
        → 2 ≤ length node.parents → node.placed.pack.ops ≡ [] }
    ensures follow { (objects : Objects) (id : IdValue) (heads : List NameValue)
        (authors : List IdValue) (node : LoadedValue K) (place : ℕ) (op : K)
        → IsValid K.meaning objects id heads authors → IsNodeBelow K.meaning objects heads node
        → slice_get node.placed.pack.ops place ≡ Some op
        → (node.parents ≡ [] → place ≡ 0 → ⊥) → K.meaning.is_following op ≡ true }
    ensures known { (objects : Objects) (id : IdValue) (heads : List NameValue)
        (authors : List IdValue) (node : LoadedValue K)
        → IsValid K.meaning objects id heads authors → IsNodeBelow K.meaning objects heads node
        → Contains authors node.placed.pack.author }
    ensures room { (objects : Objects) (id : IdValue) (authors : List IdValue)
        (one two : NameValue) (entity : EntityValue K)
        → IsEntity K.meaning objects id (one ∷ two ∷ []) authors entity
        → (IsBelow objects (two ∷ []) one → ⊥) → (IsBelow objects (one ∷ []) two → ⊥)
        → entity.commits < MOST_COMMITS }
    ensures clock { (objects : Objects) (id : IdValue) (authors : List IdValue)
        (one two head : NameValue) → IsValid K.meaning objects id (one ∷ two ∷ []) authors
        → (IsBelow objects (two ∷ []) one → ⊥) → (IsBelow objects (one ∷ []) two → ⊥)
        → Contains (one ∷ two ∷ []) head → edit_at objects head ≢ Some GREATEST_TIME }
{}

/// A fault of roots, clock order or clock jump names its commits in order, exactly when they have
/// that fault.
pub fn faults_tell_what_is_wrong<K: OpKind>()
    ensures root { (objects : Objects) (id : IdValue) (heads : List NameValue)
        (authors : List IdValue) (name : NameValue)
        → EntityFaultHolds K.meaning objects id heads authors (fault.SecondRoot name)
        ↔ ((commit : CommitValue) × (other : NameValue) × (last : CommitValue)
        × IsCommitBelow objects heads name commit × (commit.parents ≡ [])
        × IsCommitBelow objects heads other last × (last.parents ≡ []) × (name ≢ other)) }
    ensures order { (objects : Objects) (id : IdValue) (heads : List NameValue)
        (authors : List IdValue) (high low : NameValue)
        → EntityFaultHolds K.meaning objects id heads authors (fault.ClockOrder high low)
        ↔ ((above : ℕ) × (beneath : ℕ) × IsBelow objects heads high × IsParent objects high low
        × (edit_at objects high ≡ Some above) × (edit_at objects low ≡ Some beneath)
        × (above ≤ beneath)) }
    ensures jump { (objects : Objects) (id : IdValue) (heads : List NameValue)
        (authors : List IdValue) (high low : NameValue)
        → EntityFaultHolds K.meaning objects id heads authors (fault.ClockJump high low)
        ↔ ((commit : CommitValue) × (above : ℕ) × (beneath : ℕ)
        × IsCommitBelow objects heads high commit × (commit.parents ≡ low ∷ [])
        × (edit_at objects high ≡ Some above) × (edit_at objects low ≡ Some beneath)
        × (beneath + 1000000 < above)) }
{}

/// A broken limit is reported as the limit plus one: 65,537 commits, 4,097 operations of a pack, or
/// 4,194,305 bytes of an object. Where the names, each once, are those of all commits below the heads,
/// 65,537 is told of more than 2^16, and of no fewer; but where neither of two heads lies below the
/// other, it is told of 2^16 too, since the merge commit that they need is one more. Of such heads one
/// is told as full where its edit clock is 2^63 - 1, and only there.
pub fn limits_of_entities_are_known<K: OpKind>()
    ensures numbers { (objects : Objects) (id : IdValue) (heads : List NameValue)
        (authors : List IdValue) (count : ℕ)
        → EntityFaultHolds K.meaning objects id heads authors (fault.TooLarge count)
        → (count ≡ 2 ^ 16 + 1) ⊎ (((count ≡ 2 ^ 12 + 1) × ((name : NameValue)
        × HasPackFault K.meaning objects heads name (pack_fault.TooLarge count)))
        ⊎ ((count ≡ 2 ^ 22 + 1) × ((name : NameValue) × IsNeeded objects heads name
        × IsLarge (objects name)))) }
    ensures commits { (objects : Objects) (id : IdValue) (heads : List NameValue)
        (authors : List IdValue) (names : List NameValue) → AreDistinct names
        → ((name : NameValue) → Contains names name ↔ HasCommit objects heads name)
        → ((one two : NameValue) → heads ≡ one ∷ two ∷ []
        → (IsBelow objects (two ∷ []) one → ⊥) → (IsBelow objects (one ∷ []) two → ⊥) → ⊥)
        → EntityFaultHolds K.meaning objects id heads authors (fault.TooLarge (2 ^ 16 + 1))
        ↔ (2 ^ 16 < length names) }
    ensures room { (objects : Objects) (id : IdValue) (one two : NameValue)
        (authors : List IdValue) (names : List NameValue) → AreDistinct names
        → ((name : NameValue) → Contains names name
        ↔ HasCommit objects (one ∷ two ∷ []) name)
        → (IsBelow objects (two ∷ []) one → ⊥) → (IsBelow objects (one ∷ []) two → ⊥)
        → EntityFaultHolds K.meaning objects id (one ∷ two ∷ []) authors
        (fault.TooLarge (2 ^ 16 + 1)) ↔ (2 ^ 16 ≤ length names) }
    ensures clock { (objects : Objects) (id : IdValue) (heads : List NameValue)
        (authors : List IdValue) (head : NameValue)
        → EntityFaultHolds K.meaning objects id heads authors (fault.ClockFull head)
        ↔ ((one : NameValue) × (two : NameValue) × (heads ≡ one ∷ two ∷ [])
        × (IsBelow objects (two ∷ []) one → ⊥) × (IsBelow objects (one ∷ []) two → ⊥)
        × Contains heads head × (edit_at objects head ≡ Some (2 ^ 63 - 1))) }
{}

/// An entity's edit clock is the greatest edit clock of its heads.
pub fn edit_clocks_of_entities_are_the_greatest<K: OpKind>()
    ensures one { (objects : Objects) (id : IdValue) (heads : List NameValue)
        (authors : List IdValue) (entity : EntityValue K)
        → IsEntity K.meaning objects id heads authors entity
        → (head : NameValue) × Contains heads head
        × (edit_at objects head ≡ Some entity.edit) }
    ensures most { (objects : Objects) (id : IdValue) (heads : List NameValue)
        (authors : List IdValue) (entity : EntityValue K) (head : NameValue)
        → IsEntity K.meaning objects id heads authors entity → Contains heads head
        → (clock : ℕ) × (edit_at objects head ≡ Some clock) × (clock ≤ entity.edit) }
{}

/// Two heads that are valid alone are valid together if they share a root, repeat no operation, and
/// leave room for a merge.
pub fn two_heads_are_valid_together<K: OpKind>()
    ensures { (objects : Objects) (id : IdValue) (authors : List IdValue) (one two : NameValue)
        (names : List NameValue) → IsValid K.meaning objects id (one ∷ []) authors
        → IsValid K.meaning objects id (two ∷ []) authors
        → ((a b : NameValue) → IsRootCommit objects (one ∷ two ∷ []) a
        → IsRootCommit objects (one ∷ two ∷ []) b → a ≡ b)
        → ((found : IdValue) → RepeatsAcross K.meaning objects (one ∷ two ∷ []) found → ⊥)
        → ((name : NameValue) → HasCommit objects (one ∷ two ∷ []) name
        → Contains names name) → length names < 2 ^ 16
        → edit_at objects one ≢ Some (2 ^ 63 - 1) → edit_at objects two ≢ Some (2 ^ 63 - 1)
        → IsValid K.meaning objects id (one ∷ two ∷ []) authors }
{}

/// Two heads that are apart are also apart in the other order.
pub fn heads_are_apart_in_either_order()
    ensures { (objects : Objects) (heads : List NameValue) (one two : NameValue)
        → AreApart objects heads one two → AreApart objects (two ∷ one ∷ []) two one }
{}

/// A commit below the heads has a pack or a fault, and never both.
pub fn commits_have_a_pack_or_a_fault<K: OpKind>()
    ensures either { (objects : Objects) (heads : List NameValue) (name : NameValue)
        (commit : CommitValue) → IsCommitBelow objects heads name commit
        → ((pack : PackValue K) × (pack_at K.meaning objects name ≡ Some pack))
        ⊎ ((fault : FaultValue) × HasPackFault K.meaning objects heads name fault) }
    ensures never_both { (objects : Objects) (heads : List NameValue) (name : NameValue)
        (pack : PackValue K) (fault : FaultValue)
        → pack_at K.meaning objects name ≡ Some pack
        → HasPackFault K.meaning objects heads name fault → ⊥ }
{}

/// A commit without parents whose pack satisfies the rules of a root is an entity.
pub fn a_first_commit_is_valid<K: OpKind>()
    ensures { (objects : Objects) (id : IdValue) (authors : List IdValue) (node : LoadedValue K)
        (create : ℕ) → Begins K.meaning objects id authors node create
        → IsEntity K.meaning objects id (node.placed.commit ∷ []) authors
        (begun id node create) }
{}

/// A valid commit over the heads of an entity makes an entity again: all packs keep their places, and
/// its operations come last. Its edit clock is above those of the heads, and near that of a single
/// one; over two heads it has no operation; its operations may follow others, and none of them comes
/// twice or is one of the entity's; its author is among the authors; and the entity has fewer commits
/// than it may have.
pub fn a_later_commit_is_valid<K: OpKind>()
    ensures valid { (objects : Objects) (id : IdValue) (heads : List NameValue)
        (authors : List IdValue) (entity : EntityValue K) (node : LoadedValue K)
        → IsEntity K.meaning objects id heads authors entity
        → Extends K.meaning objects heads authors entity.packs node
        → IsValid K.meaning objects id (node.placed.commit ∷ []) authors }
    ensures packs { (objects : Objects) (id : IdValue) (heads : List NameValue)
        (authors : List IdValue) (entity : EntityValue K) (node : LoadedValue K)
        → IsEntity K.meaning objects id heads authors entity
        → Extends K.meaning objects heads authors entity.packs node
        → AreAllInOrder K.meaning objects (node.placed.commit ∷ [])
        (entity.packs ++ node.placed ∷ []) }
    ensures operations { (objects : Objects) (id : IdValue) (heads : List NameValue)
        (authors : List IdValue) (entity : EntityValue K) (node : LoadedValue K)
        → IsEntity K.meaning objects id heads authors entity
        → Extends K.meaning objects heads authors entity.packs node
        → IsOperationList K.meaning objects (node.placed.commit ∷ [])
        (ops_in K.meaning entity.packs ++ node.placed.pack.ops) }
    ensures entity { (objects : Objects) (id : IdValue) (heads : List NameValue)
        (authors : List IdValue) (entity : EntityValue K) (node : LoadedValue K)
        → IsEntity K.meaning objects id heads authors entity
        → Extends K.meaning objects heads authors entity.packs node
        → IsEntity K.meaning objects id (node.placed.commit ∷ []) authors
        (extended entity node) }
{}
