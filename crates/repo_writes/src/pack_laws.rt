//! What a pack of refs keeps of a folder, as the contract of a function that does nothing.
ghost use Rattle.std.specs.Prelude.{◌≡◌, ◌⊎◌, List, ℕ};
ghost use Rattle.gb_text.specs.Digits.{IsId};
ghost use Rattle.gb_text.specs.Folder.{joined};
ghost use Rattle.gb_text.specs.Overlap.{Overlap};
ghost use Rattle.gb_text.specs.declared.id.Id.{Id};
ghost use Rattle.gb_store.specs.Files.{Files, History, files_of};
ghost use Rattle.gb_store.specs.Moments.{AllMoments, Wrote};
ghost use Rattle.gb_store.specs.declared.store.Change.{Change};
ghost use Rattle.ref_packing.specs.Kinds.{IsPackWrite};
ghost use Rattle.ref_store.specs.Refs.{packed_place};
ghost use Rattle.repo_state.specs.Sound.{KeepsParts};
ghost use Rattle.repo_state.specs.Sides.{ref_place};
ghost use Rattle.repo_state.specs.declared.side.Side.{Side as SideValue};
ghost use Rattle.repo_writes.specs.Kept.{IsOwnSide, LosesNothing};

/// A pack of refs keeps each part of a folder's soundness at every point, and loses nothing. The same
/// holds of every folder that does not overlap its own. Each of its writes is at the place of the packed
/// refs, or of the ref of a bug or of an identity.
pub fn packs_keep_folders()
    ensures parts { (folder : List ℕ) (old new : History) → Wrote (IsPackWrite folder) old new
        → KeepsParts folder old new }
    ensures kept { (folder : List ℕ) (old new : History) → Wrote (IsPackWrite folder) old new
        → AllMoments (LosesNothing folder (files_of old)) old new }
    ensures apart_parts { (folder other : List ℕ) (old new : History)
        → (Overlap folder other → ⊥) → Wrote (IsPackWrite other) old new
        → KeepsParts folder old new }
    ensures apart_kept { (folder other : List ℕ) (old new : History)
        → (Overlap folder other → ⊥) → Wrote (IsPackWrite other) old new
        → AllMoments (LosesNothing folder (files_of old)) old new }
    ensures places { (folder : List ℕ) (files : Files) (change : Change)
        → IsPackWrite folder files change
        → (change.path ≡ joined folder packed_place)
        ⊎ ((of : SideValue) × (id : Id) × IsOwnSide of × IsId id
        × (change.path ≡ joined folder (ref_place of id))) }
{}
