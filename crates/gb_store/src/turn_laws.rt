//! Laws of steps that a call makes one after another, each the contract of a function that does
//! nothing.
ghost use Rattle.std.specs.Prelude.{List, ◌∷◌, ◌++◌};
ghost use Rattle.gb_store.specs.Files.{History, files_of};
ghost use Rattle.gb_store.specs.Moments.{AllMoments, AllowsFromEarlier, IsMoment, WroteBy};
ghost use Rattle.gb_store.specs.Turns.{InTurn, StoppedInTurn};

use crate::Property;
use crate::call_laws::CallRule;

/// A step of a call for each item, for the laws that hold of each.
pub trait Turn {
    ghost use Rattle.gb_store.specs.Files.{History};

    /// What the call goes through, one after another.
    type Item;

    /// The step of an item, from the history before it to the one after it.
    ghost makes: { Self.Item → History → History → Type 0 };

    /// The same of an item at which the call stopped.
    ghost stops: { Self.Item → History → History → Type 0 };
}

/// Where each step keeps to a rule of writes, and each item at which a call may stop does, the call
/// keeps to it, wherever it stopped.
pub fn turns_write_by_their_rule<T: Turn, R: CallRule>()
    ensures done { AllowsFromEarlier R.allows
        → ((item : T.Item) (old new : History) → T.makes item old new → WroteBy R.allows old new)
        → (items : List T.Item) (old new : History) → InTurn T.makes items old new
        → WroteBy R.allows old new }
    ensures stopped { AllowsFromEarlier R.allows
        → ((item : T.Item) (old new : History) → T.makes item old new → WroteBy R.allows old new)
        → ((item : T.Item) (old new : History) → T.stops item old new → WroteBy R.allows old new)
        → (items : List T.Item) (old new : History) → StoppedInTurn T.makes T.stops items old new
        → WroteBy R.allows old new }
{}

/// What each step keeps at each moment of it holds at each moment of the call, if it held before.
pub fn turns_keep_at_each_moment<T: Turn, P: Property>()
    ensures done { ((item : T.Item) (old new : History) → P.holds (files_of old)
        → T.makes item old new → AllMoments P.holds old new)
        → (items : List T.Item) (old new : History) → P.holds (files_of old)
        → InTurn T.makes items old new → AllMoments P.holds old new }
    ensures stopped { ((item : T.Item) (old new : History) → P.holds (files_of old)
        → T.makes item old new → AllMoments P.holds old new)
        → ((item : T.Item) (old new : History) → P.holds (files_of old)
        → T.stops item old new → AllMoments P.holds old new)
        → (items : List T.Item) (old new : History) → P.holds (files_of old)
        → StoppedInTurn T.makes T.stops items old new → AllMoments P.holds old new }
{}

/// Where a step only adds writes, each goes from one moment of the call to a later one, with the
/// steps before it made by then, and those after it made from there on.
pub fn turns_are_moments<T: Turn>()
    ensures { ((item : T.Item) (old new : History) → T.makes item old new → IsMoment old new old)
        → (early : List T.Item) (item : T.Item) (late : List T.Item) (old new : History)
        → InTurn T.makes (early ++ item ∷ late) old new
        → (mid : History) × (end : History) × T.makes item mid end × IsMoment old new mid
        × IsMoment mid new end × InTurn T.makes early old mid × InTurn T.makes late end new }
{}
