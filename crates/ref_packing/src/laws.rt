//! Laws of packs, each the contract of a function that does nothing.
ghost use Rattle.std.specs.Prelude.{◌≡◌, ◌≢◌, ◌⊎◌, ℕ, List};
ghost use Rattle.gb_text.specs.Folder.{joined};
ghost use Rattle.gb_store.specs.Files.{Files, History, files_of, written};
ghost use Rattle.gb_store.specs.Moments.{AllMoments, Wrote};
ghost use Rattle.gb_store.specs.declared.store.Change.{Change};
ghost use Rattle.packed_refs.specs.Packed.{PackedRef};
ghost use Rattle.ref_store.specs.Refs.{packed_place, ref_at};
ghost use Rattle.ref_packing.specs.Answers.{IsBadAt, IsTooLong, MaybePacks, Packs};
ghost use Rattle.ref_packing.specs.Kinds.{IsPackWrite};
ghost use Rattle.ref_packing.specs.Packing.{IsLoose, IsPlace};

/// No write of a pack changes a ref; so each ref has its head at every moment of a pack.
pub fn packs_change_no_ref()
    ensures write { (folder : List ℕ) (files : Files) (change : Change) (path : List ℕ)
        → IsPackWrite folder files change → path ≢ packed_place
        → ref_at (written files change) folder path ≡ ref_at files folder path }
    ensures moments { (folder : List ℕ) (old new : History) (path : List ℕ)
        → Wrote (IsPackWrite folder) old new → path ≢ packed_place
        → AllMoments (λ files. ref_at files folder path ≡ ref_at (files_of old) folder path)
        old new }
{}

/// A write of a pack is of the packed refs or of the file of an id's ref.
pub fn packs_leave_other_files()
    ensures { (folder : List ℕ) (files : Files) (change : Change)
        → IsPackWrite folder files change
        → (change.path ≡ joined folder packed_place)
        ⊎ ((name : List ℕ) × IsPlace name × (change.path ≡ joined folder name)) }
{}

/// After a pack no loose ref is left that it takes; so the next one finds nothing to do.
pub fn packed_refs_have_no_loose_ones()
    ensures { (folder : List ℕ) (old new : History) (count : ℕ) (one : PackedRef)
        → Packs folder old new count → IsLoose (files_of new) folder one → ⊥ }
{}

/// A front of a pack's writes is of its two kinds. Where refs are packed, all of its writes were
/// made.
pub fn packs_write_of_their_kinds()
    ensures kinds { (folder : List ℕ) (old new : History) → MaybePacks folder old new
        → Wrote (IsPackWrite folder) old new }
    ensures done { (folder : List ℕ) (old new : History) (count : ℕ)
        → Packs folder old new count → MaybePacks folder old new }
{}

/// Over the same files a pack moves one number of refs, or is refused, and for one reason: a first
/// bad ref or packed refs that would be too long.
pub fn packs_are_determined()
    ensures counts { (folder : List ℕ) (old elder one two : History) (count other : ℕ)
        → files_of old ≡ files_of elder → Packs folder old one count → Packs folder elder two other
        → count ≡ other }
    ensures not_bad { (folder at : List ℕ) (old new : History) (count : ℕ)
        → Packs folder old new count → IsBadAt folder (files_of old) at → ⊥ }
    ensures not_long { (folder : List ℕ) (old new : History) (count : ℕ)
        → Packs folder old new count → IsTooLong folder (files_of old) → ⊥ }
    ensures one_bad { (folder one two : List ℕ) (files : Files)
        → IsBadAt folder files one → IsBadAt folder files two → one ≡ two }
    ensures one_reason { (folder at : List ℕ) (files : Files)
        → IsBadAt folder files at → IsTooLong folder files → ⊥ }
{}
