//! Laws of the kinds of write of an exchange, each the contract of a function that does nothing.
ghost use Rattle.std.specs.Prelude.{ℕ, List, Result};
ghost use Rattle.gb_text.specs.Overlap.{Overlap};
ghost use Rattle.gb_store.specs.Files.{History};
ghost use Rattle.gb_store.specs.Moments.{Wrote, WroteBy};
ghost use Rattle.remote_name.specs.declared.remote.RemoteName.{RemoteName};
ghost use Rattle.repo_state.specs.declared.stop.ReadStop.{ReadStop};
ghost use Rattle.sync_steps.specs.Fetching.{FetchAnswers};
ghost use Rattle.sync_steps.specs.Pushing.{PushAnswers};
ghost use Rattle.sync_steps.specs.declared.line.Line.{Line as LineValue};
ghost use Rattle.sync_writes.specs.Kinds.{FetchWrites, PushWrites};

/// What a fetch writes, whatever it answers: objects of its own folder, each after all that it names, and
/// heads of tracking refs. Where that of a bug is set, each identity that reads in the peer has its
/// tracking ref with the peer's head, but where something kept that head from being copied.
pub fn fetches_write_of_their_kinds()
    ensures { (own peer : List ℕ) (remote : RemoteName) (old new : History)
        (result : Result (List LineValue) ReadStop) → (Overlap own peer → ⊥)
        → FetchAnswers own peer remote old new result
        → WroteBy (FetchWrites own peer remote) old new }
{}

/// What a push writes, whatever it answers: objects of the peer, each after all that it names, and heads
/// of its refs. Where that of a bug is set, each local identity has a ref in the peer that reads.
pub fn pushes_write_of_their_kinds()
    ensures { (own peer : List ℕ) (old new : History) (result : Result (List LineValue) ReadStop)
        → (Overlap own peer → ⊥) → PushAnswers own peer old new result
        → Wrote (PushWrites own peer) old new }
{}
