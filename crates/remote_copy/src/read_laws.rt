//! Laws of what a copy reads, each the contract of a function that does nothing.
ghost use Rattle.std.specs.Prelude.{◌≡◌, ◌≤◌, ◌+◌, Bool, true, ℕ, List, Contains, length};
ghost use Rattle.gb_text.specs.declared.id.Name.{Name};
ghost use Rattle.git_object.specs.declared.frame.Kind.TheVariants.{Commit};
ghost use Rattle.object_store.specs.Held.{Objects};
ghost use Rattle.object_batch.specs.Needs.{IsHeldAs, Reference};
ghost use Rattle.commit_walk.specs.Distinct.{AreDistinct};
ghost use Rattle.remote_copy.specs.Closure.{IsAsked, IsFollowed};
ghost use Rattle.remote_copy.specs.Copies.{ReadsEach, names_of};

/// A copy reads at most one object in the target for each of some different objects that it asks for,
/// and one in the source for each of some different objects that it follows. No two of the latter have
/// one name: the source is read once for each name, by whatever kinds it is called. A commit that the
/// target holds is not followed where the target is said to be closed; so it is read in the target
/// alone, and a copy of such a head reads one object.
pub fn commits_that_are_left_are_not_read()
    ensures each { (closed : Bool) (source target : Objects) (head : Name) (before after : ℕ)
        → ReadsEach closed source target head before after
        → (asked followed : List Reference) × AreDistinct asked × AreDistinct (names_of followed)
        × ((one : Reference) → Contains asked one → IsAsked closed source target head one)
        × ((one : Reference) → Contains followed one
        → IsFollowed closed source target head one)
        × (after ≤ before + length asked + length followed) }
    ensures left { (source target : Objects) (head : Name) (one : Reference) → one.kind ≡ Commit
        → IsHeldAs target one.name Commit → IsFollowed true source target head one → ⊥ }
    ensures head { (source target : Objects) (head : Name) (before after : ℕ)
        → IsHeldAs target head Commit → ReadsEach true source target head before after
        → after ≤ before + 1 }
{}
