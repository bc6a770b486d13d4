//! What of an exchange is determined, each law the contract of a function that does nothing.
ghost use Rattle.std.specs.Prelude.{◌≡◌, ℕ, List, Ok};
ghost use Rattle.gb_text.specs.Overlap.{Overlap};
ghost use Rattle.gb_store.specs.Files.{History, files_of};
ghost use Rattle.remote_name.specs.declared.remote.RemoteName.{RemoteName};
ghost use Rattle.sync_steps.specs.Fetching.{FetchAnswers};
ghost use Rattle.sync_steps.specs.Pushing.{PushAnswers};
ghost use Rattle.sync_steps.specs.declared.line.Line.{Line as LineValue};
ghost use Rattle.sync_writes.specs.Same.{NoCopyRefused};

/// Two fetches, or two pushes, from the same files, whichever writes led to them, have the same lines and
/// leave the same files, if no line of the one tells of a refused copy. A refused copy may have put some
/// objects of its part, and by them a later copy of a fetch may meet another limit, or none.
pub fn exchanges_are_determined()
    ensures fetch { (own peer : List ℕ) (remote : RemoteName) (old elder new newer : History)
        (lines others : List LineValue) → (Overlap own peer → ⊥) → files_of old ≡ files_of elder
        → NoCopyRefused lines → FetchAnswers own peer remote old new (Ok lines)
        → FetchAnswers own peer remote elder newer (Ok others)
        → (lines ≡ others) × (files_of new ≡ files_of newer) }
    ensures push { (own peer : List ℕ) (old elder new newer : History)
        (lines others : List LineValue) → (Overlap own peer → ⊥) → files_of old ≡ files_of elder
        → NoCopyRefused lines → PushAnswers own peer old new (Ok lines)
        → PushAnswers own peer elder newer (Ok others)
        → (lines ≡ others) × (files_of new ≡ files_of newer) }
{}
