//! Laws of the lines of a whole merge, each the contract of a function that does nothing.
ghost use Rattle.std.specs.Prelude.{◌≡◌, ◌<◌, ◌^◌, ℕ, false, Contains, Ok, List};
ghost use Rattle.gb_store.specs.Files.{History, files_of};
ghost use Rattle.dag_entity.specs.declared.fault.EntityFault.{EntityFault as FaultValue};
ghost use Rattle.remote_name.specs.declared.remote.RemoteName.{RemoteName};
ghost use Rattle.repo_state.specs.Sound.{IsSound};
ghost use Rattle.sync_steps.specs.declared.line.EntityWord.TheVariants as word;
ghost use Rattle.merge_steps.specs.LineJoins.{JoinedBug, JoinedLine, RefusedLine};
ghost use Rattle.merge_steps.specs.MergeLines.{is_refused};
ghost use Rattle.merge_steps.specs.Turns.{MergeAnswers};
ghost use Rattle.merge_steps.specs.declared.line.MergeLine.{MergeLine as LineValue};
ghost use Rattle.merge_steps.specs.declared.line.MergeOutcome.TheVariants as outcome;

/// Where a line of a merge does not refuse a bug, its local ref has a head in the end. The operation
/// commits below it were joined between two moments of the merge: they are exactly those that lay
/// below the local head or the tracked one, and both heads were then as before the merge. Where a
/// line says that a bug is invalid, both heads together had the fault at a moment of the merge, and
/// the local ref is as it was.
pub fn lines_of_bugs_are_joins()
    ensures joined { (folder : List ℕ) (remote : RemoteName) (now : ℕ) (old new : History)
        (lines : List LineValue) (line : LineValue) → now < 2 ^ 64
        → MergeAnswers folder remote now old new (Ok lines) → Contains lines line
        → line.word ≡ word.Bug → is_refused line.outcome ≡ false
        → JoinedLine folder remote line old new }
    ensures refused { (folder : List ℕ) (remote : RemoteName) (now : ℕ) (old new : History)
        (lines : List LineValue) (line : LineValue) (why : FaultValue)
        → MergeAnswers folder remote now old new (Ok lines) → Contains lines line
        → line.word ≡ word.Bug → line.outcome ≡ outcome.InvalidBug why
        → RefusedLine folder remote line why old new }
{}

/// In a sound folder a merge leaves of each bug that it does not refuse exactly both sides' operation
/// commits: those that lay below the local head or the tracked one before the merge lie below the local
/// head after it, and no others. The old local head lies below the new one.
pub fn merges_of_sound_folders_leave_both_sides()
    ensures { (folder : List ℕ) (remote : RemoteName) (now : ℕ) (old new : History)
        (lines : List LineValue) (line : LineValue) → now < 2 ^ 64 → IsSound folder (files_of old)
        → MergeAnswers folder remote now old new (Ok lines) → Contains lines line
        → line.word ≡ word.Bug → is_refused line.outcome ≡ false
        → JoinedBug folder remote line.id old new }
{}
