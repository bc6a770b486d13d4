//! Laws of rows, each the contract of a function that does nothing.
ghost use Rattle.std.specs.Prelude.{◌≡◌, ◌≢◌, ◌++◌, ℕ, List, Some, IsTrue, codes, false, true};
ghost use Rattle.gb_text.specs.Digits.{IsId, IsName};
ghost use Rattle.gb_text.specs.Folder.{is_rooted, joined};
ghost use Rattle.gb_text.specs.Overlap.{Overlap};
ghost use Rattle.gb_text.specs.declared.id.Id.{Id};
ghost use Rattle.gb_text.specs.declared.id.Name.{Name};
ghost use Rattle.gb_store.specs.Files.{Files, written};
ghost use Rattle.gb_store.specs.ObjectPath.{is_object_path, object_place};
ghost use Rattle.gb_store.specs.declared.store.Change.{Change};
ghost use Rattle.excerpt_cache.specs.Rows.{IsInCache, is_short, row_at, row_place, row_write};

use crate::codec::RowCodec;

/// What is written of a row that satisfies the rules of its codec is read as the row, if its text is
/// within the limit.
pub fn written_rows_are_read<R: RowCodec>()
    ensures { (files : Files) (folder : List ℕ) (id : Id) (row : R) → R.codec.KeepsRules row
        → is_short (R.codec.written row) ≡ true
        → row_at R.codec (written files (row_write folder id (R.codec.written row))) folder id
        ≡ Some row }
{}

/// Writing the row of an id leaves the rows of other ids.
pub fn rows_are_a_map<R: RowCodec>()
    ensures { (files : Files) (folder text : List ℕ) (id other : Id) → IsId id → IsId other
        → id ≢ other
        → row_at R.codec (written files (row_write folder id text)) folder other
        ≡ row_at R.codec files folder other }
{}

/// The path of a row begins with its folder and `git-bug/cache/`. It differs from the paths of rows
/// of other ids, and is not the path of an object.
pub fn row_paths_are_in_the_cache()
    ensures below { (id : Id) → IsInCache (row_place id) }
    ensures plain { (id : Id) → is_rooted (row_place id) ≡ false }
    ensures distinct { (folder : List ℕ) (id other : Id) → IsId id → IsId other → id ≢ other
        → joined folder (row_place id) ≢ joined folder (row_place other) }
    ensures no_object { (folder : List ℕ) (id : Id) → IsId id
        → is_object_path (joined folder (row_place id)) ≡ false }
{}

/// Writing a row leaves each file of its folder whose place is not below `git-bug/cache/`, and a write
/// of such a file leaves all rows.
pub fn rows_leave_other_places<R: RowCodec>()
    ensures row { (files : Files) (folder text place : List ℕ) (id : Id)
        → (IsInCache place → ⊥)
        → written files (row_write folder id text) (joined folder place)
        ≡ files (joined folder place) }
    ensures other { (files : Files) (change : Change) (folder place : List ℕ) (id : Id)
        → change.path ≡ joined folder place → (IsInCache place → ⊥)
        → row_at R.codec (written files change) folder id ≡ row_at R.codec files folder id }
{}

/// Writing a row leaves the objects of every folder, and a write of an object, in any folder, leaves
/// every row.
pub fn rows_leave_all_objects<R: RowCodec>()
    ensures row { (files : Files) (folder other text : List ℕ) (id : Id) (name : Name) → IsId id
        → IsName name
        → written files (row_write folder id text) (joined other (object_place name))
        ≡ files (joined other (object_place name)) }
    ensures object { (files : Files) (change : Change) (folder : List ℕ) (id : Id)
        → IsTrue (is_object_path change.path) → IsId id
        → row_at R.codec (written files change) folder id ≡ row_at R.codec files folder id }
{}

/// Writing a row leaves each file below a folder that does not overlap its own.
pub fn rows_of_folders_apart()
    ensures { (files : Files) (folder other text place : List ℕ) (id : Id)
        → is_rooted place ≡ false → (Overlap folder other → ⊥)
        → written files (row_write other id text) (joined folder place)
        ≡ files (joined folder place) }
{}
