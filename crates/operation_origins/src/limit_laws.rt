//! Laws of merges in clean folders, each the contract of a function that does nothing.
ghost use Rattle.std.specs.Prelude.{◌≡◌, ◌<◌, ◌^◌, ◌∷◌, [], ℕ, Contains, List, Ok};
ghost use Rattle.gb_text.specs.Overlap.{Overlap};
ghost use Rattle.gb_text.specs.declared.id.Id.{Id};
ghost use Rattle.gb_text.specs.declared.id.Name.{Name};
ghost use Rattle.gb_store.specs.Files.{History, files_of};
ghost use Rattle.object_store.specs.Held.{Objects};
ghost use Rattle.dag_entity.specs.Faults.{EntityFaultHolds, IsValid};
ghost use Rattle.dag_entity.specs.declared.fault.EntityFault.{EntityFault};
ghost use Rattle.remote_name.specs.declared.remote.RemoteName.{RemoteName};
ghost use Rattle.repo_state.specs.Sound.{IsSound};
ghost use Rattle.merge_steps.specs.Pulling.{PullAnswers};
ghost use Rattle.merge_steps.specs.Turns.{MergeAnswers};
ghost use Rattle.merge_steps.specs.declared.line.MergeLine.{MergeLine};
ghost use Rattle.merge_steps.specs.declared.line.MergeOutcome.TheVariants as outcome;
ghost use Rattle.merge_steps.specs.declared.line.Pulled.{Pulled};
ghost use Rattle.operation_origins.specs.Limits.{IsLimit, StandOnceBelow};
ghost use Rattle.operation_origins.specs.Tracked.{TrackedAreSound, TrackedAuthorsAreKnown};
ghost use Rattle.operation_origins.specs.Once.{StandOnce};

use op_kind::OpKind;

/// Where each of two heads is valid alone, and operations occur once below both, what is wrong with
/// both together is a limit alone. They have one root then, since the first operation of each has
/// the id of the entity.
pub fn joins_fail_by_a_limit_alone<K: OpKind>()
    ensures { (objects : Objects) (id : Id) (authors : List Id) (one two : Name)
        (fault : EntityFault) → IsValid K.meaning objects id (one ∷ []) authors
        → IsValid K.meaning objects id (two ∷ []) authors
        → StandOnceBelow K.meaning objects one two
        → EntityFaultHolds K.meaning objects id (one ∷ two ∷ []) authors fault → IsLimit fault }
{}

/// A merge of a sound folder refuses a bug by a limit alone, where operations occur once in the
/// folder, nothing is wrong with the bugs that it has last seen at the remote, and their authors
/// are local identities or tracked ones whose chains have no fault. So does the merge of a pull,
/// where this holds of what its fetch left.
pub fn merges_refuse_bugs_by_a_limit_alone()
    ensures merge { (folder : List ℕ) (remote : RemoteName) (now : ℕ) (old new : History)
        (lines : List MergeLine) (line : MergeLine) (why : EntityFault) → now < 2 ^ 64
        → IsSound folder (files_of old) → StandOnce (files_of old) (folder ∷ [])
        → TrackedAreSound (files_of old) folder remote
        → TrackedAuthorsAreKnown (files_of old) folder remote
        → MergeAnswers folder remote now old new (Ok lines) → Contains lines line
        → line.outcome ≡ outcome.InvalidBug why → IsLimit why }
    ensures pull { (own peer : List ℕ) (remote : RemoteName) (now : ℕ) (old new : History)
        (pulled : Pulled) (line : MergeLine) (why : EntityFault) → now < 2 ^ 64
        → (Overlap own peer → ⊥) → IsSound own (files_of old)
        → (done : PullAnswers own peer remote now old new (Ok pulled))
        → StandOnce (files_of done.mid) (own ∷ [])
        → TrackedAreSound (files_of done.mid) own remote
        → TrackedAuthorsAreKnown (files_of done.mid) own remote
        → Contains pulled.merged line → line.outcome ≡ outcome.InvalidBug why → IsLimit why }
{}
