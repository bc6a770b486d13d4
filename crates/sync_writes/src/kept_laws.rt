//! Laws of what the writes of an exchange keep, each the contract of a function that does nothing.
ghost use Rattle.std.specs.Prelude.{◌≡◌, ◌++◌, ℕ, List};
ghost use Rattle.gb_text.specs.Folder.{joined};
ghost use Rattle.gb_text.specs.Overlap.{Overlap};
ghost use Rattle.gb_store.specs.Files.{Files, History, files_of};
ghost use Rattle.gb_store.specs.Moments.{AllMoments, Wrote, WroteBy};
ghost use Rattle.gb_store.specs.declared.store.Change.{Change};
ghost use Rattle.remote_name.specs.declared.remote.RemoteName.{RemoteName};
ghost use Rattle.repo_state.specs.Sound.{IsSound, KeepsParts};
ghost use Rattle.repo_writes.specs.Kept.{LosesNothing};
ghost use Rattle.repo_writes.specs.Kinds.{IsPlace};
ghost use Rattle.sync_writes.specs.Keeping.{KeepsPartsFrom};
ghost use Rattle.sync_writes.specs.Kinds.{FetchWrites, PushWrites};

/// What a fetch writes keeps each part of the own folder's soundness at every point, whatever the peer
/// holds.
pub fn fetches_keep_folders_sound()
    ensures { (own peer : List ℕ) (remote : RemoteName) (old new : History)
        → WroteBy (FetchWrites own peer remote) old new → KeepsParts own old new }
{}

/// What a fetch writes loses nothing of its own folder, at any point.
pub fn fetches_lose_nothing()
    ensures { (own peer : List ℕ) (remote : RemoteName) (old new : History)
        → WroteBy (FetchWrites own peer remote) old new
        → AllMoments (LosesNothing own (files_of old)) old new }
{}

/// What a push writes keeps, at every point, each part of soundness that both folders have. So a peer that
/// is sound stays sound, if the own folder is sound.
pub fn pushes_keep_what_both_have()
    ensures parts { (own peer : List ℕ) (old new : History) → (Overlap own peer → ⊥)
        → Wrote (PushWrites own peer) old new → KeepsPartsFrom own peer old new }
    ensures whole { (own peer : List ℕ) (old new : History) → KeepsPartsFrom own peer old new
        → IsSound own (files_of old) → IsSound peer (files_of old)
        → AllMoments (IsSound peer) old new }
{}

/// What a push writes loses nothing of the peer, at any point, whatever either folder holds.
pub fn pushes_lose_nothing()
    ensures { (own peer : List ℕ) (old new : History) → Wrote (PushWrites own peer) old new
        → AllMoments (LosesNothing peer (files_of old)) old new }
{}

/// An exchange keeps each part of the soundness of a folder that does not overlap the one in which it
/// writes, and loses nothing there.
pub fn exchanges_leave_folders_apart()
    ensures fetch { (own peer folder : List ℕ) (remote : RemoteName) (old new : History)
        → (Overlap folder own → ⊥) → WroteBy (FetchWrites own peer remote) old new
        → KeepsParts folder old new × AllMoments (LosesNothing folder (files_of old)) old new }
    ensures push { (own peer folder : List ℕ) (old new : History) → (Overlap folder peer → ⊥)
        → Wrote (PushWrites own peer) old new
        → KeepsParts folder old new × AllMoments (LosesNothing folder (files_of old)) old new }
{}

/// Each write of a fetch is at the place of an object or a ref below the own folder, and each of a push at
/// such a place below the peer.
pub fn exchanges_stay_below_their_folder()
    ensures fetch { (own peer : List ℕ) (remote : RemoteName) (entry : History)
        (earlier : List Change) (change : Change)
        → FetchWrites own peer remote entry earlier change
        → (place : List ℕ) × IsPlace place × (change.path ≡ joined own place) }
    ensures push { (own peer : List ℕ) (files : Files) (change : Change)
        → PushWrites own peer files change
        → (place : List ℕ) × IsPlace place × (change.path ≡ joined peer place) }
{}
