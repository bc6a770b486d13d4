//! Laws of walks along a chain, each the contract of a function that does nothing.
ghost use Rattle.std.specs.Prelude.{◌≡◌, ◌≤◌, ◌+◌, ◌∷◌, [], ℕ, List, Contains, Some, length};
ghost use Rattle.gb_text.specs.declared.id.Name.{Name};
ghost use Rattle.object_store.specs.Growth.{OnlyGrew};
ghost use Rattle.git_object.specs.declared.commit.Commit.{Commit};
ghost use Rattle.object_store.specs.Held.{Objects};
ghost use Rattle.object_store.specs.Typed.{commit_at};
ghost use Rattle.commit_walk.specs.Below.{IsBelow};
ghost use Rattle.commit_walk.specs.Chain.{ChainFaultHolds, IsLink, Meets, MeetsMerge, Passes, Walked};
ghost use Rattle.commit_walk.specs.Passing.{ReadsAbove};
ghost use Rattle.commit_walk.specs.declared.chain.Link.{Link};
ghost use Rattle.commit_walk.specs.declared.fault.WalkFault.{WalkFault};

use crate::below::MOST_COMMITS;

/// A whole walk along a chain, of at most 65,536 commits, meets no merge commit and has no fault.
pub fn a_whole_chain_has_no_fault()
    ensures merge { (objects : Objects) (head name : Name) (walk : List Link)
        → Walked objects head walk → MeetsMerge objects head name → ⊥ }
    ensures fault { (objects : Objects) (head : Name) (walk : List Link) (fault : WalkFault)
        → Walked objects head walk → length walk ≤ MOST_COMMITS
        → ChainFaultHolds objects head fault → ⊥ }
{}

/// A whole walk along a chain meets only its own commits, and meets each of them if there are at most
/// 65,536.
pub fn a_whole_chain_passes_what_it_meets()
    ensures passes { (objects : Objects) (head name : Name) (walk : List Link)
        → Walked objects head walk → Meets objects head name → Passes walk name }
    ensures met { (objects : Objects) (head : Name) (walk : List Link) (link : Link)
        → Walked objects head walk → length walk ≤ MOST_COMMITS
        → Contains walk link
        → Meets objects head link.name × ((parents : List Name) × IsLink objects link parents) }
{}

/// A head has at most one whole walk along a chain, and that walk meets at most one merge commit.
pub fn chain_walks_are_determined()
    ensures walks { (objects : Objects) (head : Name) (one two : List Link)
        → Walked objects head one → Walked objects head two → one ≡ two }
    ensures merges { (objects : Objects) (head one two : Name)
        → MeetsMerge objects head one → MeetsMerge objects head two → one ≡ two }
{}

/// If objects are only added, a whole walk along a chain stays the same, and it still meets what it met.
pub fn chain_walks_stay()
    ensures whole { (old new : Objects) (head : Name) (walk : List Link) → OnlyGrew old new
        → Walked old head walk → Walked new head walk }
    ensures met { (old new : Objects) (head name : Name) → OnlyGrew old new
        → Meets old head name → Meets new head name }
    ensures merge { (old new : Objects) (head name : Name) → OnlyGrew old new
        → MeetsMerge old head name → MeetsMerge new head name }
{}

/// What a walk along a chain meets lies below its head.
pub fn what_a_chain_meets_lies_below()
    ensures { (objects : Objects) (head name : Name) → Meets objects head name
        → IsBelow objects (head ∷ []) name }
{}

/// A search along a chain reads at most the commits above the name that it passes: none where that is
/// the head, and one where it is the head's only parent.
pub fn passing_reads_the_commits_above()
    ensures head { (objects : Objects) (head : Name) (before after : ℕ)
        → ReadsAbove objects head head before after → after ≤ before }
    ensures parent { (objects : Objects) (head parent : Name) (commit : Commit) (before after : ℕ)
        → commit_at objects head ≡ Some commit → commit.parents ≡ parent ∷ []
        → ReadsAbove objects head parent before after → after ≤ before + 1 }
{}
