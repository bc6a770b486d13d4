//! Laws of the writes of a copy, each the contract of a function that does nothing.
ghost use Rattle.std.specs.Prelude.{Bool, ℕ, List};
ghost use Rattle.gb_text.specs.declared.id.Name.{Name};
ghost use Rattle.gb_store.specs.Files.{History};
ghost use Rattle.gb_store.specs.Moments.{Wrote};
ghost use Rattle.object_store.specs.Held.{Objects};
ghost use Rattle.remote_copy.specs.NeedWrites.{PutsOneAfterNeeds};
ghost use Rattle.remote_copy.specs.Writes.{PutsCopy};

/// Each write of a copy, whatever its answer, puts one object where nothing stands, after all that it
/// names.
pub fn copies_come_after_their_needs()
    ensures { (closed : Bool) (source target : List ℕ) (entry : Objects) (head : Name)
        (old new : History) → Wrote (PutsCopy closed source target entry head) old new
        → Wrote (PutsOneAfterNeeds target) old new }
{}
