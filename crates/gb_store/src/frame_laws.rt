//! Laws of what a write leaves as it was, each the contract of a function that does nothing.
ghost use Rattle.std.specs.Prelude.{◌≡◌, ◌≢◌, ℕ, List, false};
ghost use Rattle.gb_text.specs.Digits.{IsName};
ghost use Rattle.gb_text.specs.Folder.{is_rooted, joined};
ghost use Rattle.gb_text.specs.Overlap.{Overlap};
ghost use Rattle.gb_text.specs.declared.id.Name.{Name};
ghost use Rattle.gb_store.specs.Files.{Files, written};
ghost use Rattle.gb_store.specs.ObjectPath.{is_object_path, object_place};
ghost use Rattle.gb_store.specs.declared.store.Change.{Change};

/// A write below a folder leaves all files below a folder that does not overlap it.
pub fn writes_leave_folders_apart()
    ensures { (files : Files) (change : Change) (folder other place rest : List ℕ)
        → change.path ≡ joined other place → is_rooted place ≡ false → is_rooted rest ≡ false
        → (Overlap folder other → ⊥)
        → written files change (joined folder rest) ≡ files (joined folder rest) }
{}

/// A write at a place of a folder leaves its other places.
pub fn writes_leave_other_places()
    ensures { (files : Files) (change : Change) (folder place rest : List ℕ)
        → change.path ≡ joined folder place → place ≢ rest
        → written files change (joined folder rest) ≡ files (joined folder rest) }
{}

/// A write at a path that is not an object's leaves the objects of every folder.
pub fn other_writes_leave_objects()
    ensures { (files : Files) (change : Change) (folder : List ℕ) (name : Name)
        → is_object_path change.path ≡ false → IsName name
        → written files change (joined folder (object_place name))
        ≡ files (joined folder (object_place name)) }
{}

/// Objects with different names have different paths, in one folder and across folders.
pub fn names_have_their_own_paths()
    ensures place { (one two : Name) → IsName one → IsName two
        → object_place one ≡ object_place two → one ≡ two }
    ensures path { (folder other : List ℕ) (one two : Name) → IsName one → IsName two
        → joined folder (object_place one) ≡ joined other (object_place two) → one ≡ two }
{}
