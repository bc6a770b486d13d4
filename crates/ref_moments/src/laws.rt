//! Laws of which write changes a ref, and of what follows for each moment, each the contract of a
//! function that does nothing.
ghost use Rattle.std.specs.Prelude.{◌≡◌, ◌≢◌, ◌⊎◌, ◌++◌, ℕ, List};
ghost use Rattle.gb_text.specs.Digits.{IsId, IsName};
ghost use Rattle.gb_text.specs.Overlap.{Overlap};
ghost use Rattle.gb_text.specs.declared.id.Id.{Id};
ghost use Rattle.gb_text.specs.declared.id.Name.{Name};
ghost use Rattle.gb_store.specs.Files.{Files, History, files_of, written};
ghost use Rattle.gb_store.specs.Moments.{AllMoments, IsMoment, Wrote, WroteBy};
ghost use Rattle.gb_store.specs.declared.store.Change.{Change};
ghost use Rattle.ref_packing.specs.Kinds.{IsPackWrite};
ghost use Rattle.ref_store.specs.Refs.{Head};
ghost use Rattle.ref_store.specs.Setting.{ref_write};
ghost use Rattle.remote_name.specs.declared.remote.RemoteName.{RemoteName};
ghost use Rattle.repo_state.specs.Sides.{head_at, ref_place};
ghost use Rattle.repo_state.specs.declared.side.Side.{Side};
ghost use Rattle.repo_writes.specs.Kinds.{IsRowWrite, IsWrite};
ghost use Rattle.sync_writes.specs.Kinds.{FetchWrites, PushWrites};
ghost use Rattle.ref_moments.specs.Leads.{LeadsOn};
ghost use Rattle.ref_moments.specs.Once.{ChangesAt, ChangesOnce, IsOldOrNew, LeavesOrPuts, StaysSame};

/// The put of a ref's own file sets that ref and leaves each other one. No other write of an edit,
/// of a merge, of a list, of a fetch or of a push changes a ref.
pub fn only_puts_of_their_files_change_refs()
    ensures sets { (folder : List ℕ) (files : Files) (of : Side) (id : Id) (head : Name)
        → IsName head
        → head_at (written files (ref_write folder (ref_place of id) head)) folder of id
        ≡ Head head }
    ensures others { (folder : List ℕ) (files : Files) (of on : Side) (id other : Id) (head : Name)
        → IsId id → IsId other → (of ≢ on) ⊎ (id ≢ other)
        → head_at (written files (ref_write folder (ref_place of id) head)) folder on other
        ≡ head_at files folder on other }
    ensures own { (folder : List ℕ) (files : Files) (change : Change) (of : Side) (id : Id)
        → IsWrite folder files change → LeavesOrPuts folder of id files change }
    ensures fetch { (own peer : List ℕ) (remote : RemoteName) (entry : History)
        (earlier : List Change) (change : Change) (of : Side) (id : Id)
        → FetchWrites own peer remote entry earlier change
        → LeavesOrPuts own of id (files_of (earlier ++ entry)) change }
    ensures push { (own peer : List ℕ) (files : Files) (change : Change) (of : Side) (id : Id)
        → PushWrites own peer files change → LeavesOrPuts peer of id files change }
{}

/// Where a ref changes by one write at most, it is at each moment as it was at first or as it is at
/// last, and no two moments come before a write that changes it. Cut to any moment, it changes by
/// one write at most too.
pub fn refs_that_change_once_are_old_or_new()
    ensures moments { (folder : List ℕ) (of : Side) (id : Id) (old new : History)
        → ChangesOnce folder of id old new
        → AllMoments (IsOldOrNew folder of id old new) old new }
    ensures one { (folder : List ℕ) (of : Side) (id : Id) (old new first second : History)
        → ChangesOnce folder of id old new → ChangesAt folder of id old new first
        → ChangesAt folder of id old new second → first ≡ second }
    ensures cut { (folder : List ℕ) (of : Side) (id : Id) (old new moment : History)
        → ChangesOnce folder of id old new → IsMoment old new moment
        → ChangesOnce folder of id old moment }
{}

/// The rows of a list and a pack of refs leave each ref of their folder at every moment. What is
/// written in a folder leaves each ref of a folder that does not overlap it.
pub fn rows_packs_and_folders_apart_change_no_ref()
    ensures rows { (folder : List ℕ) (of : Side) (id : Id) (old new : History)
        → Wrote (IsRowWrite folder) old new → StaysSame folder of id old new }
    ensures pack { (folder : List ℕ) (of : Side) (id : Id) (old new : History)
        → Wrote (IsPackWrite folder) old new → StaysSame folder of id old new }
    ensures own { (folder other : List ℕ) (of : Side) (id : Id) (old new : History)
        → (Overlap folder other → ⊥) → Wrote (IsWrite other) old new
        → StaysSame folder of id old new }
    ensures pack_apart { (folder other : List ℕ) (of : Side) (id : Id) (old new : History)
        → (Overlap folder other → ⊥) → Wrote (IsPackWrite other) old new
        → StaysSame folder of id old new }
    ensures fetch { (folder own peer : List ℕ) (remote : RemoteName) (of : Side) (id : Id)
        (old new : History)
        → (Overlap folder own → ⊥) → WroteBy (FetchWrites own peer remote) old new
        → StaysSame folder of id old new }
    ensures push { (folder own peer : List ℕ) (of : Side) (id : Id) (old new : History)
        → (Overlap folder peer → ⊥) → Wrote (PushWrites own peer) old new
        → StaysSame folder of id old new }
{}

/// What the refs of a folder lead to at a moment of an edit, a merge, a list, a fetch or a push,
/// they lead to at each later one. Each object is as it was, and each commit below a head, on
/// whatever side, is below it still.
pub fn refs_lead_on_at_each_moment()
    ensures own { (folder : List ℕ) (old new : History) → Wrote (IsWrite folder) old new
        → LeadsOn folder old new }
    ensures fetch { (own peer : List ℕ) (remote : RemoteName) (old new : History)
        → WroteBy (FetchWrites own peer remote) old new → LeadsOn own old new }
    ensures push { (own peer : List ℕ) (old new : History)
        → Wrote (PushWrites own peer) old new → LeadsOn peer old new }
{}
