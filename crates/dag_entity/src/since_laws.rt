//! Laws of chains of commits above a known name, each the contract of a function that does nothing.
ghost use Rattle.std.specs.Prelude.{◌≡◌, true, List, [], ◌∷◌, ◌++◌};
ghost use Rattle.std.specs.List.{AllByRecursion};
ghost use Rattle.gb_text.specs.declared.id.Id.{Id as IdValue};
ghost use Rattle.gb_text.specs.declared.id.Name.{Name as NameValue};
ghost use Rattle.object_store.specs.Held.{Objects};
ghost use Rattle.commit_walk.specs.Below.{IsBelow};
ghost use Rattle.dag_entity.specs.Entities.{IsOperationList, ops_in};
ghost use Rattle.dag_entity.specs.Since.{IsChainTo, IsSoundAt};
ghost use Rattle.dag_entity.specs.declared.entity.Placed.{Placed as PlacedValue};

use op_kind::OpKind;

/// The known name of a chain lies below the head. If nothing is wrong with the entity at the head, but
/// perhaps that an author is unknown, so it is at the known name.
pub fn a_chain_goes_down<K: OpKind>()
    ensures below { (objects : Objects) (head known : NameValue) (packs : List (PlacedValue K))
        → IsChainTo K.meaning objects head known packs → IsBelow objects (head ∷ []) known }
    ensures sound { (objects : Objects) (id : IdValue) (head known : NameValue)
        (packs : List (PlacedValue K)) → IsSoundAt K.meaning objects id head
        → IsChainTo K.meaning objects head known packs → IsSoundAt K.meaning objects id known }
{}

/// If nothing is wrong with the entity at the head of a chain, but perhaps that an author is unknown,
/// its operations are those at the known name, followed by those of the chain, the lowest commit first.
/// Each operation of the chain may stand behind others.
pub fn a_chain_adds_its_operations<K: OpKind>()
    ensures operations { (objects : Objects) (id : IdValue) (head known : NameValue)
        (packs : List (PlacedValue K)) (old : List K) → IsSoundAt K.meaning objects id head
        → IsChainTo K.meaning objects head known packs
        → IsOperationList K.meaning objects (known ∷ []) old
        → IsOperationList K.meaning objects (head ∷ []) (old ++ ops_in K.meaning packs) }
    ensures follow { (objects : Objects) (id : IdValue) (head known : NameValue)
        (packs : List (PlacedValue K)) → IsSoundAt K.meaning objects id head
        → IsChainTo K.meaning objects head known packs
        → AllByRecursion (λ (op : K). K.meaning.is_following op ≡ true)
        (ops_in K.meaning packs) }
{}
