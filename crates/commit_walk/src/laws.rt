//! Laws of what lies below heads, each the contract of a function that does nothing.
ghost use Rattle.std.specs.Prelude.{◌≡◌, ◌<◌, ◌≤◌, ◌↔◌, ◌⊎◌, ◌+◌, ◌^◌, ◌∷◌, [], ℕ, List, Contains, Some, None, length};
ghost use Rattle.gb_text.specs.declared.id.Name.{Name};
ghost use Rattle.object_store.specs.Growth.{OnlyGrew};
ghost use Rattle.git_object.specs.declared.commit.Commit.{Commit};
ghost use Rattle.git_object.specs.declared.object.Object.{Object};
ghost use Rattle.object_store.specs.Held.{Objects, object_at};
ghost use Rattle.object_store.specs.Typed.{as_commit, commit_at};
ghost use Rattle.commit_walk.specs.Answers.{ReadsBelow};
ghost use Rattle.commit_walk.specs.Below.{AreBelow, FaultHolds, IsBelow};
ghost use Rattle.commit_walk.specs.Distinct.{AreDistinct};
ghost use Rattle.commit_walk.specs.Searches.{ReadsUntil};
ghost use Rattle.commit_walk.specs.declared.below.Met.{Met};
ghost use Rattle.commit_walk.specs.declared.fault.WalkFault.{WalkFault};
ghost use Rattle.commit_walk.specs.declared.fault.WalkFault.TheVariants as fault;

use crate::below::MOST_COMMITS;

/// If at most 65,536 commits are everything below the heads, the walk has no fault.
pub fn a_whole_walk_has_no_fault()
    ensures { (objects : Objects) (heads : List Name) (walk : List Met) (fault : WalkFault)
        → AreBelow objects heads walk → length walk ≤ MOST_COMMITS
        → FaultHolds objects heads fault → ⊥ }
{}

/// Heads with the same names below them have the same commits, in whatever order these were met.
pub fn walks_have_the_same_commits()
    ensures { (objects : Objects) (heads others : List Name) (one two : List Met)
        → AreBelow objects heads one → AreBelow objects others two
        → ((name : Name) → IsBelow objects heads name ↔ IsBelow objects others name)
        → (met : Met) → Contains one met ↔ Contains two met }
{}

/// 'Below' is transitive.
pub fn below_is_transitive()
    ensures { (objects : Objects) (heads others : List Name) (name : Name)
        → ((low : Name) → Contains others low → IsBelow objects heads low)
        → IsBelow objects others name → IsBelow objects heads name }
{}

/// Heads lie below themselves, and the parents of a commit that lies below lie below too, with all
/// that lies below those. Nothing else does: below one head lie the head and, if it holds a commit,
/// what lies below that commit's parents.
pub fn parents_lie_below()
    ensures head { (objects : Objects) (heads : List Name) (name : Name) → Contains heads name
        → IsBelow objects heads name }
    ensures parent { (objects : Objects) (heads : List Name) (high low : Name) (commit : Commit)
        → IsBelow objects heads high → commit_at objects high ≡ Some commit
        → Contains commit.parents low → IsBelow objects heads low }
    ensures below_parent { (objects : Objects) (heads : List Name) (high low name : Name)
        (commit : Commit) → IsBelow objects heads high → commit_at objects high ≡ Some commit
        → Contains commit.parents low → IsBelow objects (low ∷ []) name
        → IsBelow objects heads name }
    ensures one { (objects : Objects) (top name : Name) → IsBelow objects (top ∷ []) name
        ↔ ((name ≡ top) ⊎ ((commit : Commit) × (commit_at objects top ≡ Some commit)
        × IsBelow objects commit.parents name)) }
    ensures only { (objects : Objects) (heads : List Name) (name : Name)
        → IsBelow objects heads name → Contains heads name
        ⊎ ((high : Name) × IsBelow objects heads high × ((commit : Commit)
        × (commit_at objects high ≡ Some commit) × Contains commit.parents name)) }
{}

/// What lies below two heads lies below one of them, and the other way round.
pub fn what_lies_below_two_lies_below_one()
    ensures { (objects : Objects) (one two name : Name)
        → IsBelow objects (one ∷ two ∷ []) name
        ↔ (IsBelow objects (one ∷ []) name ⊎ IsBelow objects (two ∷ []) name) }
{}

/// If objects are only added, what is below stays below, and nothing more is below the heads of a
/// whole walk.
pub fn what_lies_below_stays()
    ensures below { (old new : Objects) (heads : List Name) (name : Name) → OnlyGrew old new
        → IsBelow old heads name → IsBelow new heads name }
    ensures whole { (old new : Objects) (heads : List Name) (walk : List Met) → OnlyGrew old new
        → AreBelow old heads walk → AreBelow new heads walk }
    ensures no_more { (old new : Objects) (heads : List Name) (walk : List Met) (name : Name)
        → OnlyGrew old new → AreBelow old heads walk
        → IsBelow new heads name → IsBelow old heads name }
{}

/// A walk may have 2^16 commits, over a graph and along a chain.
pub fn a_walk_has_at_most_65536_commits()
    ensures { MOST_COMMITS ≡ 2 ^ 16 }
{}

/// What each fault of a walk says of the files. Under a name below the heads there is no file, one
/// of more than 4,194,304 bytes, one that is no object, or an object that is not a commit; or
/// there are more than 65,536 commits.
pub fn walk_faults_are_exact()
    ensures missing { (objects : Objects) (heads : List Name) (name : Name)
        → FaultHolds objects heads (fault.Missing name)
        ↔ (IsBelow objects heads name × (objects name ≡ None)) }
    ensures large { (objects : Objects) (heads : List Name) (name : Name)
        → FaultHolds objects heads (fault.Large name) ↔ (IsBelow objects heads name
        × ((text : List ℕ) × (objects name ≡ Some text) × (4194304 < length text))) }
    ensures damaged { (objects : Objects) (heads : List Name) (name : Name)
        → FaultHolds objects heads (fault.Damaged name) ↔ (IsBelow objects heads name
        × ((text : List ℕ) × (objects name ≡ Some text) × (length text ≤ 4194304)
        × (object_at objects name ≡ None))) }
    ensures no_commit { (objects : Objects) (heads : List Name) (name : Name)
        → FaultHolds objects heads (fault.NotCommit name) ↔ (IsBelow objects heads name
        × ((object : Object) × (object_at objects name ≡ Some object)
        × (as_commit object ≡ None))) }
    ensures many { (objects : Objects) (heads : List Name)
        → FaultHolds objects heads fault.TooMany
        ↔ ((names : List Name) × AreDistinct names × (65536 < length names)
        × ((name : Name) → Contains names name → IsBelow objects heads name
        × ((commit : Commit) × (commit_at objects name ≡ Some commit)))) }
{}

/// A whole walk reads at most one object for each commit below its heads, and so does a search.
pub fn walks_read_each_commit_at_most_once()
    ensures walk { (objects : Objects) (heads : List Name) (walk : List Met) (before after : ℕ)
        → AreBelow objects heads walk → ReadsBelow objects heads before after
        → after ≤ before + length walk }
    ensures search { (objects : Objects) (high low : Name) (walk : List Met) (before after : ℕ)
        → AreBelow objects (high ∷ []) walk → ReadsUntil objects high low before after
        → after ≤ before + length walk }
{}
