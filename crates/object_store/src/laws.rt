//! Laws of what names hold, each the contract of a function that does nothing.
ghost use Rattle.std.specs.Prelude.{◌≡◌, ◌↔◌, ◌⊎◌, ◌^◌, ◌<◌, ◌≤◌, ℕ, List, Some, None, Err, length};
ghost use Rattle.gb_text.specs.Digits.{IsName};
ghost use Rattle.gb_text.specs.Folder.{joined};
ghost use Rattle.gb_text.specs.declared.id.Name.{Name};
ghost use Rattle.gb_store.specs.Files.{History};
ghost use Rattle.gb_store.specs.Moments.{Wrote};
ghost use Rattle.gb_store.specs.ObjectPath.{object_place};
ghost use Rattle.git_object.specs.Grammar.{IsObjectText, object_name};
ghost use Rattle.git_object.specs.declared.object.Object.{Object};
ghost use Rattle.object_store.specs.Faults.{kind_fault};
ghost use Rattle.object_store.specs.Growth.{OnlyGrew};
ghost use Rattle.object_store.specs.Held.{HasObjectFault, IsHeld, ObjectFaultHolds, Objects, object_at, objects_after, text_at};
ghost use Rattle.object_store.specs.Puts.{PutsObject, TextAnswers};
ghost use Rattle.object_store.specs.Texts.{IsShort};
ghost use Rattle.object_store.specs.Typed.{CannotReadAs, HasKindFault, HoldsAs, as_blob, as_commit, as_tree};
ghost use Rattle.object_store.specs.declared.fault.ObjFault.{ObjFault as FaultValue};
ghost use Rattle.object_store.specs.declared.fault.ObjFault.TheVariants as fault;
ghost use Rattle.object_store.specs.declared.fault.PutFault.TheVariants as put;

use crate::read::MOST_BYTES;

/// A name holds the object whose text by Git's grammar is the file there, if the file is small
/// enough and has that SHA-1.
pub fn held_objects_are_read()
    ensures { (objects : Objects) (name : Name) (object : Object)
        → (object_at objects name ≡ Some object) ↔ IsHeld objects name object }
{}

/// A name holds at most one object.
pub fn a_name_holds_one_object()
    ensures { (objects : Objects) (name : Name) (one two : Object)
        → IsHeld objects name one → IsHeld objects name two → one ≡ two }
{}

/// A name holds an object or has a fault, and never both.
pub fn a_name_holds_an_object_or_fails()
    ensures either { (objects : Objects) (name : Name)
        → ((object : Object) × IsHeld objects name object) ⊎ HasObjectFault objects name }
    ensures never_both { (objects : Objects) (name : Name) (object : Object)
        → IsHeld objects name object → HasObjectFault objects name → ⊥ }
{}

/// A name holds an object of a kind or has a fault, and never both.
pub fn a_name_holds_a_kind_or_fails()
    ensures commit { (objects : Objects) (name : Name)
        → HoldsAs as_commit objects name ⊎ HasKindFault as_commit objects name }
    ensures tree { (objects : Objects) (name : Name)
        → HoldsAs as_tree objects name ⊎ HasKindFault as_tree objects name }
    ensures blob { (objects : Objects) (name : Name)
        → HoldsAs as_blob objects name ⊎ HasKindFault as_blob objects name }
    ensures no_commit { (objects : Objects) (name : Name)
        → HoldsAs as_commit objects name → HasKindFault as_commit objects name → ⊥ }
    ensures no_tree { (objects : Objects) (name : Name)
        → HoldsAs as_tree objects name → HasKindFault as_tree objects name → ⊥ }
    ensures no_blob { (objects : Objects) (name : Name)
        → HoldsAs as_blob objects name → HasKindFault as_blob objects name → ⊥ }
{}

/// Distinct names have distinct paths in a folder.
pub fn distinct_names_have_distinct_paths()
    ensures { (folder : List ℕ) (one two : Name) → IsName one → IsName two
        → joined folder (object_place one) ≡ joined folder (object_place two) → one ≡ two }
{}

/// Writes of objects, each where nothing is stored, only add to the objects of the folder.
pub fn writes_of_objects_only_add()
    ensures { (folder : List ℕ) (old new : History) → Wrote (PutsObject folder) old new
        → OnlyGrew (objects_after old folder) (objects_after new folder) }
{}

/// If objects are only added, what was held stays held.
pub fn what_is_held_stays()
    ensures text { (old new : Objects) (name : Name) (text : List ℕ) → OnlyGrew old new
        → text_at old name ≡ Some text → text_at new name ≡ Some text }
    ensures object { (old new : Objects) (name : Name) (object : Object) → OnlyGrew old new
        → object_at old name ≡ Some object → object_at new name ≡ Some object }
{}

/// Writing nothing is an addition, and additions compose.
pub fn additions_compose()
    ensures none { (objects : Objects) → OnlyGrew objects objects }
    ensures then { (old mid new : Objects) → OnlyGrew old mid → OnlyGrew mid new
        → OnlyGrew old new }
{}

/// An object may have 4 MiB.
pub fn an_object_has_at_most_4_mebibytes()
    ensures { MOST_BYTES ≡ 2 ^ 22 }
{}

/// A name holds an object if and only if its file has at most 4,194,304 bytes, the name's SHA-1
/// and the object's text. A longer file is large, any other file is damaged, and no file is
/// missing.
pub fn what_a_file_gives()
    ensures held { (objects : Objects) (name : Name) (object : Object)
        → IsHeld objects name object ↔ ((text : List ℕ) × (objects name ≡ Some text)
        × (length text ≤ 4194304) × (object_name text ≡ name) × IsObjectText text object) }
    ensures large { (objects : Objects) (name at : Name)
        → ObjectFaultHolds objects name (fault.Large at) ↔ ((at ≡ name)
        × ((text : List ℕ) × (objects name ≡ Some text) × (4194304 < length text))) }
    ensures damaged { (objects : Objects) (name at : Name)
        → ObjectFaultHolds objects name (fault.Damaged at) ↔ ((at ≡ name)
        × ((text : List ℕ) × (objects name ≡ Some text) × (length text ≤ 4194304)
        × (object_at objects name ≡ None))) }
    ensures missing { (objects : Objects) (name at : Name)
        → ObjectFaultHolds objects name (fault.Missing at)
        ↔ ((at ≡ name) × (objects name ≡ None)) }
{}

/// A read of an object of one kind fails with the faults of a read of any object, for the same
/// reasons.
pub fn faults_of_kinds_are_those_of_objects()
    ensures commit { (objects : Objects) (name : Name) (fault : FaultValue)
        → CannotReadAs as_commit objects name (kind_fault fault)
        ↔ ObjectFaultHolds objects name fault }
    ensures tree { (objects : Objects) (name : Name) (fault : FaultValue)
        → CannotReadAs as_tree objects name (kind_fault fault)
        ↔ ObjectFaultHolds objects name fault }
    ensures blob { (objects : Objects) (name : Name) (fault : FaultValue)
        → CannotReadAs as_blob objects name (kind_fault fault)
        ↔ ObjectFaultHolds objects name fault }
{}

/// A text is too long to be put if and only if it has more than 4,194,304 bytes. The refusal has
/// the number 4,194,305.
pub fn what_is_too_long_to_be_put()
    ensures short { (text : List ℕ) → IsShort text ↔ (length text ≤ 4194304) }
    ensures large { (folder text : List ℕ) (old new : History) (count : ℕ)
        → TextAnswers folder text old new (Err (put.Large count))
        ↔ ((count ≡ 4194305) × (4194304 < length text) × (new ≡ old)) }
{}
