//! Laws of folders that hold what an entity needs, each the contract of a function that does nothing.
ghost use Rattle.std.specs.Prelude.{List};
ghost use Rattle.gb_text.specs.declared.id.Id.{Id as IdValue};
ghost use Rattle.gb_text.specs.declared.id.Name.{Name as NameValue};
ghost use Rattle.object_store.specs.Held.{Objects};
ghost use Rattle.dag_entity.specs.Agreeing.{SameNeeded};
ghost use Rattle.dag_entity.specs.Faults.{IsValid};
ghost use Rattle.dag_entity.specs.Folders.{HaveOneText, HoldsNeeded};

use op_kind::OpKind;

/// Two folders that hold what the entity at the heads needs agree about it, where no two of their object
/// texts share a name: the same is needed in both, and it is the same. A folder in which the entity is
/// valid holds what it needs.
pub fn folders_that_hold_what_is_needed_agree<K: OpKind>()
    ensures agree { (one two : Objects) (heads : List NameValue) → HaveOneText one two
        → HoldsNeeded one heads → HoldsNeeded two heads → SameNeeded one two heads }
    ensures hold { (objects : Objects) (id : IdValue) (heads : List NameValue)
        (authors : List IdValue) → IsValid K.meaning objects id heads authors
        → HoldsNeeded objects heads }
    ensures valid { (one two : Objects) (id other : IdValue) (heads : List NameValue)
        (authors others : List IdValue) → HaveOneText one two
        → IsValid K.meaning one id heads authors → IsValid K.meaning two other heads others
        → SameNeeded one two heads }
{}
