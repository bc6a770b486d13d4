//! Laws of what a call writes by a rule that sees the writes of the call so far, each the contract of
//! a function that does nothing.
ghost use Rattle.std.specs.Prelude.{List, [], ◌∷◌, ◌++◌, reverse};
ghost use Rattle.gb_store.specs.Files.{History, files_of, written};
ghost use Rattle.gb_store.specs.Moments.{AllMoments, AllowsFromEarlier, AllowsFromLater, EachWrite, IsMoment, WroteBy, WroteSome};
ghost use Rattle.gb_store.specs.declared.store.Change.{Change};

use crate::Property;

/// A rule of the writes of a call, for the laws that hold of each.
pub trait CallRule {
    ghost use Rattle.std.specs.Prelude.{List};
    ghost use Rattle.gb_store.specs.Files.{History};
    ghost use Rattle.gb_store.specs.declared.store.Change.{Change};

    /// The writes that it allows, by the history at entry and the writes of the call so far, the
    /// newest first.
    ghost allows: { History → List Change → Change → Type 0 };
}

/// A call that writes nothing writes by any rule.
pub fn wrote_nothing_by<R: CallRule>()
    ensures { (old : History) → WroteBy R.allows old old }
{}

/// A first write that a rule allows is written by the rule.
pub fn wrote_one_by<R: CallRule>()
    ensures { (change : Change) (old : History) → R.allows old [] change
        → WroteBy R.allows old (change ∷ old) }
{}

/// Two calls that write by a rule, one after the other, together write by it, if the rule allows
/// from the earlier entry what it allows from the later one.
pub fn wrote_by_composes<R: CallRule>()
    ensures { AllowsFromEarlier R.allows → (old mid new : History) → WroteBy R.allows old mid
        → WroteBy R.allows mid new → WroteBy R.allows old new }
{}

/// What is written by a rule is written by any rule that is wider from that entry.
pub fn wrote_by_weakens<R: CallRule, W: CallRule>()
    ensures { (old new : History)
        → ((earlier : List Change) (change : Change) → R.allows old earlier change
        → W.allows old earlier change)
        → WroteBy R.allows old new → WroteBy W.allows old new }
{}

/// If a call writes by a rule, so do its writes before any point, and those after it, if the rule
/// allows from a later entry what it allows from an earlier one.
pub fn each_part_is_allowed_by<R: CallRule>()
    ensures before { (old new moment : History) → WroteBy R.allows old new
        → IsMoment old new moment → WroteBy R.allows old moment }
    ensures after { AllowsFromLater R.allows → (old new moment : History)
        → WroteBy R.allows old new → IsMoment old new moment → WroteBy R.allows moment new }
{}

/// If a rule allows each of a list of writes, every prefix of the list is written by it.
pub fn first_writes_are_allowed<R: CallRule>()
    ensures { (writes : List Change) (old new : History)
        → EachWrite R.allows old (reverse writes) → WroteSome writes old new
        → WroteBy R.allows old new }
{}

/// A property that every allowed write keeps holds at every point of a call that writes by the
/// rule, if it held before.
pub fn kept_at_each_moment_by<R: CallRule, P: Property>()
    ensures { (old new : History)
        → ((earlier : List Change) (change : Change) → P.holds (files_of (earlier ++ old))
        → R.allows old earlier change → P.holds (written (files_of (earlier ++ old)) change))
        → P.holds (files_of old) → WroteBy R.allows old new → AllMoments P.holds old new }
{}
