//! Laws of the order of packs, each the contract of a function that does nothing.
ghost use Rattle.std.specs.Prelude.{◌≡◌, ◌<◌, ◌↔◌, List, [], ◌∷◌, ◌++◌, Contains};
ghost use Rattle.std.specs.List.{AllPairs};
ghost use Rattle.gb_text.specs.declared.id.Name.{Name as NameValue};
ghost use Rattle.object_store.specs.Held.{Objects};
ghost use Rattle.dag_entity.specs.Entities.{AreAllInOrder};
ghost use Rattle.dag_entity.specs.Faults.{HasClockOrder};
ghost use Rattle.dag_entity.specs.Order.{ParentsComeFirst, Rise, StandsBefore};
ghost use Rattle.dag_entity.specs.declared.entity.Placed.{Placed as PlacedValue};

use op_kind::OpKind;

/// The packs of an entity are in the order of edit clock, then pack id, then commit name. Ids and
/// names are in byte order.
pub fn packs_stand_by_clock_then_id<K: OpKind>()
    ensures { (objects : Objects) (heads : List NameValue) (packs : List (PlacedValue K))
        → AreAllInOrder K.meaning objects heads packs → AllPairs StandsBefore packs }
{}

/// Packs have at most one order, which does not depend on how they were listed.
pub fn orders_of_packs_are_determined<K: OpKind>()
    ensures { (one two : List (PlacedValue K)) → Rise one → Rise two
        → ((placed : PlacedValue K) → Contains one placed ↔ Contains two placed) → one ≡ two }
{}

/// A pack whose clock is greater than all others comes last in the order.
pub fn a_later_pack_stands_at_the_end<K: OpKind>()
    ensures { (packs : List (PlacedValue K)) (placed : PlacedValue K) → Rise packs
        → ((other : PlacedValue K) → Contains packs other → other.pack.edit < placed.pack.edit)
        → Rise (packs ++ placed ∷ []) }
{}

/// If clocks rise, the order lists the packs of parents before those of their children.
pub fn parents_stand_before_children<K: OpKind>()
    ensures { (objects : Objects) (heads : List NameValue) (packs : List (PlacedValue K))
        → AreAllInOrder K.meaning objects heads packs
        → ((high low : NameValue) → HasClockOrder objects heads high low → ⊥)
        → ParentsComeFirst objects packs }
{}
