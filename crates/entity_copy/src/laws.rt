//! Laws of entities and identities whose heads were copied whole, each the contract of a function that does
//! nothing. They hold by what is needed, which is the same in both folders, whatever else the target holds.
ghost use Rattle.std.specs.Prelude.{◌≡◌, ◌↔◌, false, List, [], ◌∷◌};
ghost use Rattle.gb_text.specs.declared.id.Id.{Id as IdValue};
ghost use Rattle.gb_text.specs.declared.id.Name.{Name as NameValue};
ghost use Rattle.object_store.specs.Held.{Objects};
ghost use Rattle.commit_walk.specs.Chain.{Meets};
ghost use Rattle.commit_walk.specs.Below.{IsBelow};
ghost use Rattle.dag_entity.specs.Agreeing.{SameNeeded};
ghost use Rattle.dag_entity.specs.Entities.{IsEntity, IsOperationList};
ghost use Rattle.dag_entity.specs.Faults.{EntityFaultHolds};
ghost use Rattle.dag_entity.specs.declared.entity.Entity.{Entity as EntityValue};
ghost use Rattle.dag_entity.specs.declared.fault.EntityFault.{EntityFault as FaultValue};
ghost use Rattle.identity.specs.Agreeing.{SameChain};
ghost use Rattle.identity.specs.Persons.{IdentityFaultHolds, IsChain, Shows};
ghost use Rattle.identity.specs.declared.chain.Person.{Person as PersonValue};
ghost use Rattle.identity.specs.declared.fault.IdentityFault.{IdentityFault as ChainFault};
ghost use Rattle.remote_copy.specs.Copies.{IsCopied};

use op_kind::OpKind;

/// If all commits were followed, each object that the entity at the head needs is the same in both
/// folders. So the same commits lie below the head, and the same is wrong with the entity in both; and
/// where nothing is, it is the same entity, with the same operations.
pub fn whole_copies_have_the_same_entity<K: OpKind>()
    ensures needed { (source entry target : Objects) (head : NameValue)
        → IsCopied false source entry target head → SameNeeded source target (head ∷ []) }
    ensures below { (source entry target : Objects) (head name : NameValue)
        → IsCopied false source entry target head
        → IsBelow source (head ∷ []) name ↔ IsBelow target (head ∷ []) name }
    ensures faults { (source entry target : Objects) (head : NameValue) (id : IdValue)
        (authors : List IdValue) (fault : FaultValue) → IsCopied false source entry target head
        → EntityFaultHolds K.meaning source id (head ∷ []) authors fault
        ↔ EntityFaultHolds K.meaning target id (head ∷ []) authors fault }
    ensures entity { (source entry target : Objects) (head : NameValue) (id : IdValue)
        (authors : List IdValue) (entity : EntityValue K)
        → IsCopied false source entry target head
        → IsEntity K.meaning source id (head ∷ []) authors entity
        ↔ IsEntity K.meaning target id (head ∷ []) authors entity }
    ensures operations { (source entry target : Objects) (head : NameValue) (ops : List K)
        → IsCopied false source entry target head
        → IsOperationList K.meaning source (head ∷ []) ops
        ↔ IsOperationList K.meaning target (head ∷ []) ops }
{}

/// Where all commits were followed, each object that the chain of an identity from the head needs is the
/// same in both folders. So the same commits are met, and the same is wrong with the chain in both; and
/// where nothing is, it is the same chain, which shows the same person.
pub fn whole_copies_have_the_same_chain()
    ensures needed { (source entry target : Objects) (head : NameValue)
        → IsCopied false source entry target head → SameChain source target head }
    ensures met { (source entry target : Objects) (head name : NameValue)
        → IsCopied false source entry target head
        → Meets source head name ↔ Meets target head name }
    ensures faults { (source entry target : Objects) (head : NameValue) (id : IdValue)
        (fault : ChainFault) → IsCopied false source entry target head
        → IdentityFaultHolds source id head fault ↔ IdentityFaultHolds target id head fault }
    ensures chain { (source entry target : Objects) (head : NameValue) (id : IdValue)
        → IsCopied false source entry target head → (chain : IsChain source id head)
        → (other : IsChain target id head) × (other.walk ≡ chain.walk) }
    ensures back { (source entry target : Objects) (head : NameValue) (id : IdValue)
        → IsCopied false source entry target head → (chain : IsChain target id head)
        → (other : IsChain source id head) × (other.walk ≡ chain.walk) }
    ensures person { (source entry target : Objects) (head : NameValue) (id : IdValue)
        (person : PersonValue) → IsCopied false source entry target head
        → Shows source id head person ↔ Shows target id head person }
{}
