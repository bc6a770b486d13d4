//! Laws of what the faults of an entity report, each the contract of a function that does nothing.
ghost use Rattle.std.specs.Prelude.{◌≡◌, ◌≢◌, ◌≤◌, ◌<◌, ◌↔◌, ◌⊎◌, ℕ, false, List, [], ◌∷◌, length, slice_get, Contains, Some, None};
ghost use Rattle.gb_text.specs.declared.id.Id.{Id as IdValue};
ghost use Rattle.gb_text.specs.declared.id.Name.{Name as NameValue};
ghost use Rattle.git_object.specs.declared.commit.Commit.{Commit as CommitValue};
ghost use Rattle.git_object.specs.declared.tree.Tree.{Tree as TreeValue};
ghost use Rattle.object_store.specs.Held.{Objects};
ghost use Rattle.object_store.specs.Typed.{tree_at};
ghost use Rattle.op_pack.specs.Heads.{HeadFault};
ghost use Rattle.op_pack.specs.declared.fault.PackFault.TheVariants as tree_fault;
ghost use Rattle.dag_entity.specs.Faults.{EntityFaultHolds};
ghost use Rattle.dag_entity.specs.Nodes.{IsCommitBelow, IsNodeBelow};
ghost use Rattle.dag_entity.specs.declared.entity.Loaded.{Loaded as LoadedValue};
ghost use Rattle.dag_entity.specs.declared.fault.EntityFault.TheVariants as fault;

use op_kind::OpKind;

/// What the faults of operations report: a wrong id is that of the first operation of a commit without
/// parents; a second creation is an operation that may not follow others, and is not the first of a
/// commit without parents; and a repeated operation is at two places of one pack, or in the packs of
/// two commits. Each is reported by its own id, as it was found.
pub fn faults_of_operations_report_what_was_found<K: OpKind>()
    ensures wrong { (objects : Objects) (id : IdValue) (heads : List NameValue)
        (authors : List IdValue) (found : IdValue)
        → EntityFaultHolds K.meaning objects id heads authors (fault.WrongId found)
        ↔ ((node : LoadedValue K) × (op : K) × (later : List K)
        × IsNodeBelow K.meaning objects heads node × (node.parents ≡ [])
        × (node.placed.pack.ops ≡ op ∷ later)
        × ((K.meaning.common_of op).place.id ≡ found) × (found ≢ id)) }
    ensures second { (objects : Objects) (id : IdValue) (heads : List NameValue)
        (authors : List IdValue) (found : IdValue)
        → EntityFaultHolds K.meaning objects id heads authors (fault.SecondCreate found)
        ↔ ((node : LoadedValue K) × (op : K) × (place : ℕ)
        × IsNodeBelow K.meaning objects heads node
        × (slice_get node.placed.pack.ops place ≡ Some op)
        × ((K.meaning.common_of op).place.id ≡ found) × (K.meaning.is_following op ≡ false)
        × (node.parents ≡ [] → place ≡ 0 → ⊥)) }
    ensures repeated { (objects : Objects) (id : IdValue) (heads : List NameValue)
        (authors : List IdValue) (found : IdValue)
        → EntityFaultHolds K.meaning objects id heads authors (fault.RepeatedOperation found)
        ↔ (((node : LoadedValue K) × (op other : K) × (one two : ℕ)
        × IsNodeBelow K.meaning objects heads node × (one ≢ two)
        × (slice_get node.placed.pack.ops one ≡ Some op)
        × (slice_get node.placed.pack.ops two ≡ Some other)
        × ((K.meaning.common_of op).place.id ≡ found)
        × ((K.meaning.common_of other).place.id ≡ found))
        ⊎ ((one two : LoadedValue K) × (op other : K)
        × IsNodeBelow K.meaning objects heads one × IsNodeBelow K.meaning objects heads two
        × (one.placed.commit ≢ two.placed.commit) × Contains one.placed.pack.ops op
        × Contains two.placed.pack.ops other
        × ((K.meaning.common_of op).place.id ≡ found)
        × ((K.meaning.common_of other).place.id ≡ found))) }
{}

/// What the faults of packs report: an unknown author is the author of a pack, and not among the
/// authors; a commit without a create clock has no parent, and a commit that should have no operations
/// has two or more. Each such commit is reported by its own name. An unknown version is reported by the
/// commit and the number that the commit's tree gives.
pub fn faults_of_packs_report_what_was_found<K: OpKind>()
    ensures author { (objects : Objects) (id : IdValue) (heads : List NameValue)
        (authors : List IdValue) (author : IdValue)
        → EntityFaultHolds K.meaning objects id heads authors (fault.AuthorUnknown author)
        ↔ ((node : LoadedValue K) × IsNodeBelow K.meaning objects heads node
        × (node.placed.pack.author ≡ author) × (Contains authors author → ⊥)) }
    ensures create { (objects : Objects) (id : IdValue) (heads : List NameValue)
        (authors : List IdValue) (name : NameValue)
        → EntityFaultHolds K.meaning objects id heads authors (fault.NoCreateClock name)
        ↔ ((node : LoadedValue K) × IsNodeBelow K.meaning objects heads node
        × (node.placed.commit ≡ name) × (node.parents ≡ [])
        × (node.placed.pack.create ≡ None)) }
    ensures merge { (objects : Objects) (id : IdValue) (heads : List NameValue)
        (authors : List IdValue) (name : NameValue)
        → EntityFaultHolds K.meaning objects id heads authors (fault.MergeHasOperations name)
        ↔ ((node : LoadedValue K) × IsNodeBelow K.meaning objects heads node
        × (node.placed.commit ≡ name) × (2 ≤ length node.parents)
        × (0 < length node.placed.pack.ops)) }
    ensures version { (objects : Objects) (id : IdValue) (heads : List NameValue)
        (authors : List IdValue) (name : NameValue) (n : ℕ)
        → EntityFaultHolds K.meaning objects id heads authors (fault.UnknownVersion name n)
        ↔ ((commit : CommitValue) × (tree : TreeValue)
        × IsCommitBelow objects heads name commit × (tree_at objects commit.tree ≡ Some tree)
        × HeadFault tree (tree_fault.UnknownVersion n)) }
{}
