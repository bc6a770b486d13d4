//! Laws of the kinds of write, each the contract of a function that does nothing.
ghost use Rattle.std.specs.Prelude.{◌≡◌, ◌≤◌, [], ◌∷◌, false, true, not, List, ℕ};
ghost use Rattle.gb_text.specs.Digits.{IsId};
ghost use Rattle.gb_text.specs.Folder.{is_rooted, joined};
ghost use Rattle.gb_text.specs.Overlap.{Overlap};
ghost use Rattle.gb_text.specs.declared.id.Id.{Id};
ghost use Rattle.gb_text.specs.declared.id.Name.{Name};
ghost use Rattle.gb_store.specs.Files.{Files, History, files_of, written};
ghost use Rattle.gb_store.specs.Moments.{AllMoments, Wrote};
ghost use Rattle.gb_store.specs.declared.store.Change.{Change};
ghost use Rattle.object_store.specs.Growth.{OnlyGrew};
ghost use Rattle.object_store.specs.Held.{objects_in};
ghost use Rattle.commit_walk.specs.Chain.{Meets};
ghost use Rattle.commit_walk.specs.Below.{IsBelow};
ghost use Rattle.ref_store.specs.Refs.{Head};
ghost use Rattle.repo_state.specs.Clocks.{clock_at};
ghost use Rattle.repo_state.specs.Sides.{head_at};
ghost use Rattle.repo_state.specs.Sound.{IsSound, KeepsParts};
ghost use Rattle.repo_state.specs.declared.clocks.ClockFile.{ClockFile as ClockFileValue};
ghost use Rattle.repo_state.specs.declared.side.Side.TheVariants as side;
ghost use Rattle.repo_writes.specs.Kept.{LosesNothing};
ghost use Rattle.repo_writes.specs.Kinds.{IsPlace, IsWrite, is_dotless};

/// Writes of the six kinds keep each part of a folder's soundness at every point. So it keeps a sound
/// folder sound.
pub fn writes_keep_folders_sound()
    ensures parts { (folder : List ℕ) (old new : History) → Wrote (IsWrite folder) old new
        → KeepsParts folder old new }
    ensures whole { (folder : List ℕ) (old new : History) → KeepsParts folder old new
        → IsSound folder (files_of old) → AllMoments (IsSound folder) old new }
{}

/// A write of one of the six kinds loses nothing: no object, nothing below a head, and no clock
/// falls.
pub fn writes_lose_nothing()
    ensures objects { (folder : List ℕ) (files : Files) (change : Change)
        → IsWrite folder files change
        → OnlyGrew (objects_in files folder) (objects_in (written files change) folder) }
    ensures heads { (folder : List ℕ) (files : Files) (change : Change)
        → IsWrite folder files change
        → (id : Id) → IsId id → (head : Name) → head_at files folder side.Identities id ≡ Head head
        → (later : Name) × (head_at (written files change) folder side.Identities id ≡ Head later)
        × Meets (objects_in (written files change) folder) later head }
    ensures bugs { (folder : List ℕ) (files : Files) (change : Change)
        → IsWrite folder files change
        → (id : Id) → IsId id → (head : Name) → head_at files folder side.Bugs id ≡ Head head
        → (later : Name) × (head_at (written files change) folder side.Bugs id ≡ Head later)
        × IsBelow (objects_in (written files change) folder) (later ∷ []) head }
    ensures clocks { (folder : List ℕ) (files : Files) (change : Change)
        → IsWrite folder files change
        → (which : ClockFileValue)
        → clock_at files folder which ≤ clock_at (written files change) folder which }
{}

/// Writes of the six kinds lose nothing at any point, and calls that lose nothing compose.
pub fn calls_lose_nothing()
    ensures one { (folder : List ℕ) (old new : History) → Wrote (IsWrite folder) old new
        → AllMoments (LosesNothing folder (files_of old)) old new }
    ensures then { (folder : List ℕ) (old mid new : Files) → LosesNothing folder old mid
        → LosesNothing folder mid new → LosesNothing folder old new }
{}

/// Writes in a folder keep the soundness of every folder that does not overlap it, and lose nothing
/// there.
pub fn folders_apart_stay_sound()
    ensures parts { (folder other : List ℕ) (old new : History) → (Overlap folder other → ⊥)
        → Wrote (IsWrite other) old new → KeepsParts folder old new }
    ensures kept { (folder other : List ℕ) (old new : History) → (Overlap folder other → ⊥)
        → Wrote (IsWrite other) old new
        → AllMoments (LosesNothing folder (files_of old)) old new }
{}

/// Each write is at the place of an object, a ref, the user, a clock or a row below its folder. No
/// such place begins with a slash or holds a dot, so none leaves the folder by a part `..`.
pub fn writes_stay_below_their_folder()
    ensures below { (folder : List ℕ) (files : Files) (change : Change)
        → IsWrite folder files change
        → (place : List ℕ) × IsPlace place × (change.path ≡ joined folder place) }
    ensures plain { (place : List ℕ) → IsPlace place → is_rooted place ≡ false }
    ensures dotless { (place : List ℕ) → IsPlace place → is_dotless place ≡ true }
{}
