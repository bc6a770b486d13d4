//! Laws of refs, each the contract of a function that does nothing.
ghost use Rattle.std.specs.Prelude.{◌≡◌, ◌≢◌, ◌↔◌, ◌++◌, ℕ, List, Option, Contains, None, Some, codes, false, map, IsTrue};
ghost use Rattle.std.specs.Cmp.Lexicographic.{slice_cmp};
ghost use Rattle.std.specs.List.{AllPairs};
ghost use Rattle.std.specs.List.Sorted.{IsStrictlySortedBy};
ghost use Rattle.std.specs.Ordering.{nat_cmp};
ghost use Rattle.gb_text.specs.Digits.{IsId, IsName};
ghost use Rattle.gb_text.specs.Folder.{is_rooted, joined};
ghost use Rattle.gb_text.specs.Overlap.{Overlap};
ghost use Rattle.gb_text.specs.declared.id.Id.{Id};
ghost use Rattle.gb_text.specs.declared.id.Name.{Name};
ghost use Rattle.gb_store.specs.Files.{Files, written};
ghost use Rattle.gb_store.specs.ObjectPath.{is_object_path, object_place};
ghost use Rattle.gb_store.specs.declared.store.Change.{Change};
ghost use Rattle.packed_refs.specs.Packed.{head_of};
ghost use Rattle.ref_store.specs.Listing.{IsIdList, IsRefList, id_place};
ghost use Rattle.ref_store.specs.Refs.{Bad, Head, head_if, is_there, packed_at, packed_place, ref_at, ref_of};
ghost use Rattle.ref_store.specs.Setting.{ref_write};
ghost use Rattle.ref_store.specs.declared.listing.RefEntry.{RefEntry};
ghost use Rattle.ref_store.specs.declared.listing.RefFound.TheVariants as found;

/// A ref is its file, where one exists, and else the last line of the packed refs with its name.
pub fn loose_refs_come_first()
    ensures loose { (files : Files) (folder path text : List ℕ)
        → files (joined folder path) ≡ Some text → ref_at files folder path ≡ ref_of (Some text) }
    ensures packed { (files : Files) (folder path : List ℕ) → files (joined folder path) ≡ None
        → ref_at files folder path ≡ head_if (head_of path (packed_at files folder)) }
{}

/// What leaves both files of a ref as they were leaves the ref.
pub fn refs_are_read_from_two_files()
    ensures { (one two : Files) (folder path : List ℕ)
        → one (joined folder path) ≡ two (joined folder path)
        → one (joined folder packed_place) ≡ two (joined folder packed_place)
        → ref_at one folder path ≡ ref_at two folder path }
{}

/// The path of an id's ref is not that of packed refs, so setting a ref leaves them.
pub fn ids_stand_beside_packed_refs()
    ensures { (folder other dir : List ℕ) (id : Id) → IsId id
        → joined folder (id_place dir id) ≢ joined other packed_place }
{}

/// A ref that was set reads as its head, and every other ref of the folder reads as before.
pub fn refs_are_a_map()
    ensures same { (files : Files) (folder path : List ℕ) (head : Name) → IsName head
        → ref_at (written files (ref_write folder path head)) folder path ≡ Head head }
    ensures other { (files : Files) (folder path other : List ℕ) (head : Name) → path ≢ other
        → path ≢ packed_place
        → ref_at (written files (ref_write folder path head)) folder other
        ≡ ref_at files folder other }
{}

/// Setting a ref below `refs/` leaves the objects of its folder.
pub fn refs_are_no_objects()
    ensures { (files : Files) (folder rest : List ℕ) (head : Name)
        → ◌≡◌ {A = Name → Option (List ℕ)}
        (λ name. written files (ref_write folder (codes "refs/" ++ rest) head)
        (joined folder (object_place name)))
        (λ name. files (joined folder (object_place name))) }
{}

/// The path of an id's ref is not an object's path, so reading a ref reads no object.
pub fn ids_stand_at_no_object_path()
    ensures { (folder dir : List ℕ) (id : Id) → IsId id
        → is_object_path (joined folder (id_place dir id)) ≡ false }
{}

/// Setting a ref of an id leaves the objects of every folder.
pub fn refs_leave_all_objects()
    ensures path { (files : Files) (folder other path : List ℕ) (head name : Name)
        → is_object_path (joined folder path) ≡ false → IsName name
        → written files (ref_write folder path head) (joined other (object_place name))
        ≡ files (joined other (object_place name)) }
    ensures id { (files : Files) (folder other dir : List ℕ) (id : Id) (head name : Name)
        → IsId id → IsName name
        → written files (ref_write folder (id_place dir id) head) (joined other (object_place name))
        ≡ files (joined other (object_place name)) }
{}

/// A write of an object, in any folder, leaves every ref of an id.
pub fn objects_leave_all_refs()
    ensures path { (files : Files) (change : Change) (folder path : List ℕ)
        → IsTrue (is_object_path change.path) → is_object_path (joined folder path) ≡ false
        → ref_at (written files change) folder path ≡ ref_at files folder path }
    ensures id { (files : Files) (change : Change) (folder dir : List ℕ) (id : Id)
        → IsTrue (is_object_path change.path) → IsId id
        → ref_at (written files change) folder (id_place dir id)
        ≡ ref_at files folder (id_place dir id) }
{}

/// Setting a ref leaves the refs of folders that do not overlap its own.
pub fn refs_of_folders_apart()
    ensures { (files : Files) (folder other path place : List ℕ) (head : Name)
        → is_rooted path ≡ false → is_rooted place ≡ false → (Overlap folder other → ⊥)
        → ref_at (written files (ref_write other place head)) folder path
        ≡ ref_at files folder path }
{}

/// A listing has an entry for an id if and only if the id has a ref, also one whose file is not a ref
/// text. Entries are in ascending order of ids.
pub fn listings_have_each_ref_file()
    ensures every { (files : Files) (folder dir : List ℕ) (entries : List RefEntry) (id : Id)
        → IsRefList files folder dir entries → IsId id
        → IsTrue (is_there (ref_at files folder (id_place dir id)))
        ↔ ((entry : RefEntry) × Contains entries entry × (entry.id ≡ id)) }
    ensures head { (files : Files) (folder dir : List ℕ) (entries : List RefEntry)
        (entry : RefEntry) (name : Name)
        → IsRefList files folder dir entries → Contains entries entry
        → (entry.found ≡ found.Head name)
        ↔ (ref_at files folder (id_place dir entry.id) ≡ Head name) }
    ensures bad { (files : Files) (folder dir : List ℕ) (entries : List RefEntry)
        (entry : RefEntry)
        → IsRefList files folder dir entries → Contains entries entry
        → (entry.found ≡ found.Bad) ↔ (ref_at files folder (id_place dir entry.id) ≡ Bad) }
    ensures ascending { (files : Files) (folder dir : List ℕ) (entries : List RefEntry)
        → IsRefList files folder dir entries → IsStrictlySortedBy (slice_cmp nat_cmp)
        (map (λ (entry : RefEntry). entry.id.bytes) entries) }
{}

/// A list of ids has an id if and only if the id has a ref, also one whose file is not a ref text. Each
/// id of a list is valid and stands there once. Ids are in ascending order.
pub fn id_listings_have_each_ref_file()
    ensures every { (files : Files) (folder dir : List ℕ) (ids : List Id) (id : Id)
        → IsIdList files folder dir ids → IsId id
        → IsTrue (is_there (ref_at files folder (id_place dir id))) ↔ Contains ids id }
    ensures valid { (files : Files) (folder dir : List ℕ) (ids : List Id) (id : Id)
        → IsIdList files folder dir ids → Contains ids id → IsId id }
    ensures once { (files : Files) (folder dir : List ℕ) (ids : List Id)
        → IsIdList files folder dir ids → AllPairs (λ (one other : Id). one ≢ other) ids }
    ensures ascending { (files : Files) (folder dir : List ℕ) (ids : List Id)
        → IsIdList files folder dir ids → IsStrictlySortedBy (slice_cmp nat_cmp)
        (map (λ (id : Id). id.bytes) ids) }
{}
