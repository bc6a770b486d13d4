//! Laws of copies between sound folders, each the contract of a function that does nothing.
ghost use Rattle.std.specs.Prelude.{◌≡◌, ◌↔◌, ◌⊎◌, ◌+◌, ◌^◌, ◌∷◌, [], ℕ, Bool, List};
ghost use Rattle.gb_text.specs.Digits.{IsId};
ghost use Rattle.gb_text.specs.declared.id.Id.{Id};
ghost use Rattle.gb_text.specs.declared.id.Name.{Name};
ghost use Rattle.gb_store.specs.Files.{Files};
ghost use Rattle.git_object.specs.declared.frame.Kind.TheVariants.{Commit};
ghost use Rattle.object_store.specs.Held.{Objects, objects_in};
ghost use Rattle.object_batch.specs.Needs.{IsHeldAs, NamesNext, Reference};
ghost use Rattle.commit_walk.specs.Below.{IsBelow, IsParent};
ghost use Rattle.dag_entity.specs.Folders.{HaveOneText};
ghost use Rattle.identity.specs.Persons.{IsChain};
ghost use Rattle.ref_store.specs.Refs.{Head};
ghost use Rattle.remote_copy.specs.Causes.{CauseHolds};
ghost use Rattle.remote_copy.specs.Closure.{IsInClosure};
ghost use Rattle.remote_copy.specs.declared.fault.CopyFault.{CopyFault};
ghost use Rattle.remote_copy.specs.declared.fault.CopyFault.TheVariants as fault;
ghost use Rattle.repo_state.specs.Sides.{head_at};
ghost use Rattle.repo_state.specs.Sound.{AreWhole, HasNoFault, IsSound};
ghost use Rattle.sync_steps.specs.Places.{local_side};
ghost use Rattle.sync_steps.specs.declared.line.EntityWord.{EntityWord as WordValue};
ghost use Rattle.copy_limits.specs.Commits.{HasFewCommits, HasNoRing};
ghost use Rattle.copy_limits.specs.Limits.{IsTreeLimit};

/// A commit is named by a commit alone, as a parent: no tree names one. So each commit that a head
/// leads to lies below it.
pub fn commits_are_named_by_commits_alone()
    ensures parents { (objects : Objects) (high low : Reference) → NamesNext objects high low
        → low.kind ≡ Commit → (high.kind ≡ Commit) × IsParent objects high.name low.name }
    ensures below { (objects : Objects) (head : Name) (one : Reference)
        → IsInClosure objects head one → one.kind ≡ Commit
        → IsBelow objects (head ∷ []) one.name }
{}

/// No commit below the head of a bug without a fault lies below itself, whoever the authors are,
/// and none below the head of an identity without a fault.
pub fn entities_without_faults_have_no_ring()
    ensures bug { (objects : Objects) (id : Id) (head : Name) → HasNoFault objects id head
        → HasNoRing objects head }
    ensures identity { (objects : Objects) (id : Id) (head : Name) → IsChain objects id head
        → HasNoRing objects head }
{}

/// At most 65,536 commits lie below such a head.
pub fn entities_without_faults_have_few_commits()
    ensures bug { (objects : Objects) (id : Id) (head : Name) → HasNoFault objects id head
        → HasFewCommits objects head }
    ensures identity { (objects : Objects) (id : Id) (head : Name) → IsChain objects id head
        → HasFewCommits objects head }
{}

/// Two folders have whole objects, and no two texts under one name. The one holds a commit, with at
/// most 65,536 commits below it, none of which lies below itself. Then nothing but a limit of trees
/// keeps the commit from being copied into the other: more than 2^20 objects that are no commits,
/// or more than 16 trees one below the other.
pub fn copies_of_whole_folders_fail_by_a_limit_alone()
    ensures limit { (closed : Bool) (source target : Objects) (head : Name) (why : CopyFault)
        → AreWhole source → AreWhole target → HaveOneText source target
        → IsHeldAs source head Commit → HasNoRing source head → HasFewCommits source head
        → CauseHolds closed source target head why
        → (count : ℕ) × (why ≡ fault.TooLarge count) × IsTreeLimit count }
    ensures numbers { (count : ℕ) → IsTreeLimit count ↔ ((count ≡ 2 ^ 20 + 1) ⊎ (count ≡ 17)) }
{}

/// Nothing but a limit of trees keeps a head of a sound folder, of an identity or of a bug, from
/// being copied into another whose objects are whole, if the two have no two texts under one name.
pub fn heads_of_sound_folders_fail_by_a_limit_alone()
    ensures { (closed : Bool) (source : List ℕ) (files : Files) (target : Objects)
        (word : WordValue) (id : Id) (head : Name) (why : CopyFault)
        → IsSound source files → AreWhole target → HaveOneText (objects_in files source) target
        → IsId id → head_at files source (local_side word) id ≡ Head head
        → CauseHolds closed (objects_in files source) target head why
        → (count : ℕ) × (why ≡ fault.TooLarge count) × IsTreeLimit count }
{}
