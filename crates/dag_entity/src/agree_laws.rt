//! Laws of what an entity depends on, each the contract of a function that does nothing.
ghost use Rattle.std.specs.Prelude.{◌≡◌, ◌≢◌, ℕ, List, Contains, None};
ghost use Rattle.gb_text.specs.declared.id.Id.{Id as IdValue};
ghost use Rattle.gb_text.specs.declared.id.Name.{Name as NameValue};
ghost use Rattle.gb_store.specs.Files.{History};
ghost use Rattle.gb_store.specs.Moments.{Wrote};
ghost use Rattle.object_store.specs.Growth.{OnlyGrew};
ghost use Rattle.object_store.specs.Held.{Objects, objects_after};
ghost use Rattle.object_store.specs.Puts.{PutsObject};
ghost use Rattle.object_store.specs.Typed.{commit_at};
ghost use Rattle.commit_walk.specs.Below.{IsBelow};
ghost use Rattle.dag_entity.specs.Agreeing.{SameNeeded};
ghost use Rattle.dag_entity.specs.Entities.{AreAllInOrder, IsEntity, IsOperationList};
ghost use Rattle.dag_entity.specs.Faults.{EntityFaultHolds, IsValid};
ghost use Rattle.dag_entity.specs.Nodes.{IsNeeded, edit_at, pack_at};
ghost use Rattle.dag_entity.specs.declared.entity.Entity.{Entity as EntityValue};
ghost use Rattle.dag_entity.specs.declared.entity.Placed.{Placed as PlacedValue};
ghost use Rattle.dag_entity.specs.declared.fault.EntityFault.{EntityFault as FaultValue};
ghost use Rattle.dag_entity.specs.declared.fault.EntityFault.TheVariants.{AuthorUnknown};

use op_kind::OpKind;

/// Two stores that agree on what one needs agree on what either needs.
pub fn stores_agree_both_ways()
    ensures both { (one two : Objects) (heads : List NameValue)
        → SameNeeded one two heads → SameNeeded two one heads }
    ensures needed { (one two : Objects) (heads : List NameValue) (name : NameValue)
        → SameNeeded one two heads → IsNeeded one heads name → IsNeeded two heads name }
{}

/// In agreeing stores the same commits lie below the heads, with the same edit clocks.
pub fn agreeing_stores_have_the_same_commits()
    ensures below { (one two : Objects) (heads : List NameValue) (name : NameValue)
        → SameNeeded one two heads → IsBelow one heads name → IsBelow two heads name }
    ensures commits { (one two : Objects) (heads : List NameValue) (name : NameValue)
        → SameNeeded one two heads → IsBelow one heads name
        → commit_at two name ≡ commit_at one name }
    ensures clocks { (one two : Objects) (heads : List NameValue) (name : NameValue)
        → SameNeeded one two heads → IsBelow one heads name
        → edit_at two name ≡ edit_at one name }
{}

/// In agreeing stores a commit below the heads has the same pack, or no pack in either.
pub fn agreeing_stores_have_the_same_packs<K: OpKind>()
    ensures { (one two : Objects) (heads : List NameValue) (name : NameValue)
        → SameNeeded one two heads → IsBelow one heads name
        → pack_at K.meaning two name ≡ pack_at K.meaning one name }
{}

/// In agreeing stores the packs are in the same order and the operations are the same.
pub fn agreeing_stores_have_the_same_order<K: OpKind>()
    ensures packs { (one two : Objects) (heads : List NameValue) (packs : List (PlacedValue K))
        → SameNeeded one two heads → AreAllInOrder K.meaning one heads packs
        → AreAllInOrder K.meaning two heads packs }
    ensures operations { (one two : Objects) (heads : List NameValue) (ops : List K)
        → SameNeeded one two heads → IsOperationList K.meaning one heads ops
        → IsOperationList K.meaning two heads ops }
{}

/// In agreeing stores an entity has the same faults, and without a fault it is the same entity.
pub fn agreeing_stores_have_the_same_faults<K: OpKind>()
    ensures faults { (one two : Objects) (id : IdValue) (heads : List NameValue)
        (authors : List IdValue) (fault : FaultValue)
        → SameNeeded one two heads → EntityFaultHolds K.meaning one id heads authors fault
        → EntityFaultHolds K.meaning two id heads authors fault }
    ensures valid { (one two : Objects) (id : IdValue) (heads : List NameValue)
        (authors : List IdValue)
        → SameNeeded one two heads → IsValid K.meaning one id heads authors
        → IsValid K.meaning two id heads authors }
    ensures entity { (one two : Objects) (id : IdValue) (heads : List NameValue)
        (authors : List IdValue) (entity : EntityValue K)
        → SameNeeded one two heads → IsEntity K.meaning one id heads authors entity
        → IsEntity K.meaning two id heads authors entity }
{}

/// If objects are only added and nothing needed was missing, everything needed stays as it is.
pub fn what_is_needed_stays()
    ensures { (old new : Objects) (heads : List NameValue) → OnlyGrew old new
        → ((name : NameValue) → IsNeeded old heads name → old name ≢ None)
        → SameNeeded old new heads }
{}

/// Added objects leave a valid entity the same, with the same operations.
pub fn new_objects_change_nothing_of_a_valid_entity<K: OpKind>()
    ensures same { (old new : Objects) (id : IdValue) (heads : List NameValue)
        (authors : List IdValue)
        → OnlyGrew old new → IsValid K.meaning old id heads authors → SameNeeded old new heads }
    ensures stays { (old new : Objects) (id : IdValue) (heads : List NameValue)
        (authors : List IdValue) (entity : EntityValue K)
        → OnlyGrew old new → IsEntity K.meaning old id heads authors entity
        → IsEntity K.meaning new id heads authors entity }
    ensures no_other { (old new : Objects) (id : IdValue) (heads : List NameValue)
        (authors : List IdValue) (entity : EntityValue K)
        → OnlyGrew old new → IsValid K.meaning old id heads authors
        → IsEntity K.meaning new id heads authors entity
        → IsEntity K.meaning old id heads authors entity }
    ensures operations { (old new : Objects) (id : IdValue) (heads : List NameValue)
        (authors : List IdValue) (ops : List K)
        → OnlyGrew old new → IsValid K.meaning old id heads authors
        → IsOperationList K.meaning old heads ops → IsOperationList K.meaning new heads ops }
    ensures puts { (folder : List ℕ) (old new : History) (id : IdValue) (heads : List NameValue)
        (authors : List IdValue) (entity : EntityValue K)
        → Wrote (PutsObject folder) old new
        → IsEntity K.meaning (objects_after old folder) id heads authors entity
        → IsEntity K.meaning (objects_after new folder) id heads authors entity }
{}

/// Of all faults only an unknown author depends on who the authors are.
pub fn other_faults_do_not_depend_on_the_authors<K: OpKind>()
    ensures { (objects : Objects) (id : IdValue) (heads : List NameValue)
        (authors others : List IdValue) (fault : FaultValue)
        → ((author : IdValue) → fault ≢ AuthorUnknown author)
        → EntityFaultHolds K.meaning objects id heads authors fault
        → EntityFaultHolds K.meaning objects id heads others fault }
{}

/// More known authors add no fault, and leave an entity as it is.
pub fn more_authors_make_nothing_wrong<K: OpKind>()
    ensures faults { (objects : Objects) (id : IdValue) (heads : List NameValue)
        (authors others : List IdValue) (fault : FaultValue)
        → ((author : IdValue) → Contains authors author → Contains others author)
        → EntityFaultHolds K.meaning objects id heads others fault
        → EntityFaultHolds K.meaning objects id heads authors fault }
    ensures valid { (objects : Objects) (id : IdValue) (heads : List NameValue)
        (authors others : List IdValue)
        → ((author : IdValue) → Contains authors author → Contains others author)
        → IsValid K.meaning objects id heads authors → IsValid K.meaning objects id heads others }
    ensures entity { (objects : Objects) (id : IdValue) (heads : List NameValue)
        (authors others : List IdValue) (entity : EntityValue K)
        → ((author : IdValue) → Contains authors author → Contains others author)
        → IsEntity K.meaning objects id heads authors entity
        → IsEntity K.meaning objects id heads others entity }
{}
