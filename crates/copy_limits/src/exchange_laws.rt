//! Laws of exchanges between sound folders, each the contract of a function that does nothing. The
//! two folders have no two texts under one name at the end, and so at no moment before. A limit is
//! one of trees.
ghost use Rattle.std.specs.Prelude.{◌≡◌, ◌⊎◌, ◌<◌, ◌^◌, ℕ, true, List, Contains, Ok};
ghost use Rattle.gb_text.specs.Digits.{IsId};
ghost use Rattle.gb_text.specs.Overlap.{Overlap};
ghost use Rattle.gb_text.specs.declared.id.Id.{Id};
ghost use Rattle.gb_text.specs.declared.id.Name.{Name};
ghost use Rattle.gb_store.specs.Files.{History, files_of};
ghost use Rattle.gb_store.specs.Moments.{IsMoment, WroteBy};
ghost use Rattle.object_store.specs.Held.{objects_after};
ghost use Rattle.dag_entity.specs.Folders.{HaveOneText};
ghost use Rattle.ref_store.specs.Refs.{Head};
ghost use Rattle.remote_copy.specs.Causes.{CauseHolds};
ghost use Rattle.remote_copy.specs.declared.fault.CopyFault.TheVariants as fault;
ghost use Rattle.remote_name.specs.declared.remote.RemoteName.{RemoteName};
ghost use Rattle.repo_state.specs.Sides.{head_at};
ghost use Rattle.repo_state.specs.Sound.{IsSound};
ghost use Rattle.sync_steps.specs.Fetching.{FetchAnswers};
ghost use Rattle.sync_steps.specs.Lines.{is_refused};
ghost use Rattle.sync_steps.specs.Places.{local_side};
ghost use Rattle.sync_steps.specs.Pushing.{PushAnswers};
ghost use Rattle.sync_steps.specs.declared.line.CopyCause.TheVariants as cause;
ghost use Rattle.sync_steps.specs.declared.line.EntityWord.{EntityWord as WordValue};
ghost use Rattle.sync_steps.specs.declared.line.EntityWord.TheVariants as word;
ghost use Rattle.sync_steps.specs.declared.line.Line.{Line as LineValue};
ghost use Rattle.sync_steps.specs.declared.line.Outcome.TheVariants as outcome;
ghost use Rattle.sync_writes.specs.Kinds.{FetchWrites, HadCause};
ghost use Rattle.merge_steps.specs.Pulling.{PullAnswers};
ghost use Rattle.merge_steps.specs.declared.line.Pulled.{Pulled};
ghost use Rattle.copy_limits.specs.Limits.{IsTreeLimit};

/// When a sound folder fetched from a sound one, each line that refuses an entity tells a limit. So
/// no line tells a bad ref, or that something is missing, damaged, of another kind, in a ring or
/// taken.
pub fn fetches_of_sound_folders_refuse_by_a_limit_alone()
    ensures { (own peer : List ℕ) (remote : RemoteName) (old new : History)
        (lines : List LineValue) (line : LineValue) → (Overlap own peer → ⊥)
        → IsSound own (files_of old) → IsSound peer (files_of old)
        → HaveOneText (objects_after new own) (objects_after new peer)
        → FetchAnswers own peer remote old new (Ok lines) → Contains lines line
        → is_refused line.outcome ≡ true
        → (count : ℕ) × (line.outcome ≡ outcome.DamagedCopy (cause.TooLarge count))
        × IsTreeLimit count }
{}

/// When a sound folder pushed to a sound one, each line that refuses an entity tells a limit, or
/// that the peer's head is not below the local one, or that the bug is held. A bug is held only if
/// the line of an identity tells a limit.
pub fn pushes_of_sound_folders_find_damage_by_a_limit_alone()
    ensures refused { (own peer : List ℕ) (old new : History) (lines : List LineValue)
        (line : LineValue) → (Overlap own peer → ⊥)
        → IsSound own (files_of old) → IsSound peer (files_of old)
        → HaveOneText (objects_after new own) (objects_after new peer)
        → PushAnswers own peer old new (Ok lines) → Contains lines line
        → is_refused line.outcome ≡ true
        → ((count : ℕ) × (line.outcome ≡ outcome.DamagedCopy (cause.TooLarge count))
        × IsTreeLimit count)
        ⊎ (((other : Name) × (line.outcome ≡ outcome.NotForward other))
        ⊎ (line.outcome ≡ outcome.Held)) }
    ensures held { (own peer : List ℕ) (old new : History) (lines : List LineValue)
        (line : LineValue) → (Overlap own peer → ⊥)
        → IsSound own (files_of old) → IsSound peer (files_of old)
        → HaveOneText (objects_after new own) (objects_after new peer)
        → PushAnswers own peer old new (Ok lines) → Contains lines line
        → line.outcome ≡ outcome.Held → (line.word ≡ word.Bug)
        × ((other : LineValue) × Contains lines other × (other.word ≡ word.Identity)
        × ((count : ℕ) × (other.outcome ≡ outcome.DamagedCopy (cause.TooLarge count))
        × IsTreeLimit count)) }
{}

/// When a sound folder pulled from a sound one, each line of the fetch that refuses an entity tells
/// a limit.
pub fn pulls_of_sound_folders_fetch_but_for_a_limit()
    ensures { (own peer : List ℕ) (remote : RemoteName) (now : ℕ) (old new : History)
        (pulled : Pulled) (line : LineValue) → (Overlap own peer → ⊥) → now < 2 ^ 64
        → IsSound own (files_of old) → IsSound peer (files_of old)
        → HaveOneText (objects_after new own) (objects_after new peer)
        → PullAnswers own peer remote now old new (Ok pulled) → Contains pulled.fetched line
        → is_refused line.outcome ≡ true
        → (count : ℕ) × (line.outcome ≡ outcome.DamagedCopy (cause.TooLarge count))
        × IsTreeLimit count }
{}

/// If something kept a head of a sound peer from being copied, at a moment of what a fetch into a
/// sound folder wrote so far, a limit did.
pub fn causes_between_sound_folders_are_limits()
    ensures { (own peer : List ℕ) (remote : RemoteName) (entry now : History) (word : WordValue)
        (id : Id) (head : Name) → (Overlap own peer → ⊥)
        → WroteBy (FetchWrites own peer remote) entry now
        → IsSound own (files_of entry) → IsSound peer (files_of entry)
        → HaveOneText (objects_after now own) (objects_after now peer)
        → IsId id → head_at (files_of now) peer (local_side word) id ≡ Head head
        → HadCause own peer entry now head → (moment : History) × (count : ℕ)
        × IsMoment entry now moment × CauseHolds true (objects_after moment peer)
        (objects_after moment own) head (fault.TooLarge count) × IsTreeLimit count }
{}
