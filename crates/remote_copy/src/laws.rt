//! Laws of copies, each the contract of a function that does nothing.
ghost use Rattle.std.specs.Prelude.{◌≡◌, ◌≢◌, ◌≤◌, ◌<◌, ◌+◌, ◌*◌, ◌↔◌, ◌⊎◌, ◌^◌, Bool, true, false, ℕ, List, All, Contains, length};
ghost use Rattle.gb_text.specs.declared.id.Name.{Name};
ghost use Rattle.gb_store.specs.Files.{History};
ghost use Rattle.gb_store.specs.Moments.{AllMoments, Wrote};
ghost use Rattle.git_object.specs.declared.frame.Kind.TheVariants.{Commit, Tree};
ghost use Rattle.object_store.specs.Growth.{OnlyGrew};
ghost use Rattle.object_store.specs.Held.{IsLarge, Objects, objects_after, objects_in};
ghost use Rattle.object_store.specs.Puts.{PutsObject};
ghost use Rattle.object_batch.specs.Needs.{IsHeldAs, IsWhole, Leads, NamesNext, Reference};
ghost use Rattle.commit_walk.specs.Distinct.{AreDistinct};
ghost use Rattle.remote_copy.specs.Causes.{CauseHolds};
ghost use Rattle.remote_copy.specs.Closure.{HasWholeTrees, IsAsked, IsClosed, IsFollowed, IsInClosure, LeadsPast, StandsAlike, commit_named};
ghost use Rattle.remote_copy.specs.Copies.{IsCopied, ReadsEach};
ghost use Rattle.remote_copy.specs.Writes.{PutsCopy};
ghost use Rattle.remote_copy.specs.declared.fault.CopyFault.TheVariants as fault;

use crate::open::MOST_TREES;
use crate::work::MOST_OTHERS;
use commit_walk::MOST_COMMITS;

/// A copy writes only objects, each where nothing is stored.
pub fn copies_put_objects()
    ensures { (closed : Bool) (source target : List ℕ) (entry : Objects) (head : Name)
        (old new : History) → Wrote (PutsCopy closed source target entry head) old new
        → Wrote (PutsObject target) old new }
{}

/// If everything that held objects name was held before a copy, it is held at every point during
/// the copy.
pub fn whole_folders_stay_whole()
    ensures { (closed : Bool) (source target : List ℕ) (entry : Objects) (head : Name)
        (old new : History) → IsWhole (objects_after old target)
        → Wrote (PutsCopy closed source target entry head) old new
        → AllMoments (λ files. IsWhole (objects_in files target)) old new }
{}

/// If everything that held trees name was held before a copy, it is held at every point during the
/// copy.
pub fn whole_trees_stay_whole()
    ensures { (closed : Bool) (source target : List ℕ) (entry : Objects) (head : Name)
        (old new : History) → HasWholeTrees (objects_after old target)
        → Wrote (PutsCopy closed source target entry head) old new
        → AllMoments (λ files. HasWholeTrees (objects_in files target)) old new }
{}

/// If the closure of each held commit was held before a copy, it is held at every point during the
/// copy.
pub fn closed_folders_stay_closed()
    ensures { (closed : Bool) (source target : List ℕ) (entry : Objects) (head : Name)
        (old new : History) → IsClosed (objects_after old target)
        → Wrote (PutsCopy closed source target entry head) old new
        → AllMoments (λ files. IsClosed (objects_in files target)) old new }
{}

/// If the target is closed, the closure of a copied head is held.
pub fn copied_heads_have_their_closure()
    ensures { (closed : Bool) (source entry target : Objects) (head : Name) (one : Reference)
        → OnlyGrew entry target → IsClosed target → IsCopied closed source entry target head
        → IsInClosure target head one → IsHeldAs target one.name one.kind }
{}

/// If all commits were followed, the head's closure is the same in both folders, byte by byte.
pub fn whole_copies_are_alike()
    ensures same { (source entry target : Objects) (head : Name) (one : Reference)
        → IsCopied false source entry target head
        → IsInClosure source head one ↔ IsInClosure target head one }
    ensures alike { (source entry target : Objects) (head : Name) (one : Reference)
        → IsCopied false source entry target head
        → IsInClosure source head one → StandsAlike source target one }
{}

/// If the target is said to be closed and holds the head, a copy puts nothing.
pub fn heads_that_stand_are_not_copied()
    ensures { (source target : List ℕ) (entry : Objects) (head : Name) (old new : History)
        → IsHeldAs entry head Commit → Wrote (PutsCopy true source target entry head) old new
        → new ≡ old }
{}

/// A copy follows what the head leads to by a path on which no commit is left out.
pub fn the_part_is_what_paths_lead_to()
    ensures { (closed : Bool) (source target : Objects) (head : Name) (one : Reference)
        → IsFollowed closed source target head one
        ↔ LeadsPast closed source target (commit_named head) one }
{}

/// A copy follows at most 2^16 commits and 2^20 other objects, and at most 16 trees below a commit's
/// tree, one below the other.
pub fn limits_of_copies_are_known()
    ensures commits { MOST_COMMITS ≡ 2 ^ 16 }
    ensures others { MOST_OTHERS ≡ 2 ^ 20 }
    ensures trees { MOST_TREES ≡ 16 }
{}

/// A broken limit is reported as the limit plus one: bytes 4,194,305, commits 65,537, other objects
/// 1,048,577, depth of trees 17.
pub fn copies_tell_what_is_too_large()
    ensures numbers { (closed : Bool) (source target : Objects) (head : Name) (count : ℕ)
        → CauseHolds closed source target head (fault.TooLarge count)
        → (count ≡ 2 ^ 22 + 1) ⊎ ((count ≡ 2 ^ 16 + 1) ⊎ ((count ≡ 2 ^ 20 + 1) ⊎ (count ≡ 17))) }
    ensures bytes { (closed : Bool) (source target : Objects) (head : Name)
        → CauseHolds closed source target head (fault.TooLarge (2 ^ 22 + 1))
        ↔ ((one : Reference) × IsFollowed closed source target head one
        × IsLarge (source one.name)) }
    ensures commits { (closed : Bool) (source target : Objects) (head : Name)
        → CauseHolds closed source target head (fault.TooLarge (2 ^ 16 + 1))
        ↔ ((them : List Reference) × AreDistinct them × (2 ^ 16 < length them)
        × ((one : Reference) → Contains them one → IsFollowed closed source target head one
        × IsHeldAs source one.name one.kind × (one.kind ≡ Commit))) }
    ensures others { (closed : Bool) (source target : Objects) (head : Name)
        → CauseHolds closed source target head (fault.TooLarge (2 ^ 20 + 1))
        ↔ ((them : List Reference) × AreDistinct them × (2 ^ 20 < length them)
        × ((one : Reference) → Contains them one → IsFollowed closed source target head one
        × IsHeldAs source one.name one.kind × (one.kind ≢ Commit))) }
    ensures trees { (closed : Bool) (source target : Objects) (head : Name)
        → CauseHolds closed source target head (fault.TooLarge 17)
        ↔ ((commit : Name) × (tree : Reference) × (path : List Reference) × (last : Reference)
        × IsFollowed closed source target head (commit_named commit) × (tree.kind ≡ Tree)
        × NamesNext source (commit_named commit) tree × Leads source tree path last
        × All (λ (one : Reference). one.kind ≡ Tree) path × (16 < length path)) }
{}

/// A copy reads at most two objects, in both folders together, for each different object that it
/// asks for.
pub fn copies_read_two_objects_for_each()
    ensures { (closed : Bool) (source target : Objects) (head : Name) (before after : ℕ)
        → ReadsEach closed source target head before after
        → (them : List Reference) × AreDistinct them
        × ((one : Reference) → Contains them one → IsAsked closed source target head one)
        × (after ≤ before + 2 * length them) }
{}
