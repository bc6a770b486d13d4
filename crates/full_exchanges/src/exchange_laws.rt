//! Laws of full exchanges, each the contract of a function that does nothing.
ghost use Rattle.std.specs.Prelude.{◌≡◌, ◌≢◌, ◌∷◌, ℕ, All, Contains, List, Ok};
ghost use Rattle.gb_store.specs.Files.{Files, History, files_of};
ghost use Rattle.gb_store.specs.Turns.{InTurn};
ghost use Rattle.repo_view.specs.Shown.{ShowAnswers};
ghost use Rattle.full_exchanges.specs.Exchanges.{AreReady, IsAmong, Member, exchange_among, folders_of, gathering};
ghost use Rattle.full_exchanges.specs.Having.{HasAllOf, HaveOneTextEach, HaveTheSame, NameAuthorsAlike};
ghost use Rattle.full_exchanges.specs.Pulls.{Pull, WasPulled};

/// A folder that pulled from each of the others, one after another, has of each bug exactly the
/// operation commits that one of them all had before; and the others have what they had.
pub fn gathering_leaves_the_union()
    ensures first { (first : Member) (others : List Member) (now : ℕ) (old new : History)
        → ((other : Member) → Contains others other → other.folder ≢ first.folder)
        → AreReady (first ∷ others) (files_of old)
        → HaveOneTextEach (files_of new) (folders_of (first ∷ others))
        → InTurn WasPulled (gathering first others now) old new
        → HasAllOf (files_of new) first.folder (files_of old) (folders_of (first ∷ others)) }
    ensures others { (first other : Member) (others : List Member) (now : ℕ) (old new : History)
        → ((one : Member) → Contains others one → one.folder ≢ first.folder)
        → AreReady (first ∷ others) (files_of old) → Contains others other
        → InTurn WasPulled (gathering first others now) old new
        → HaveTheSame (files_of new) other.folder (files_of old) other.folder }
{}

/// After a full exchange in which no bug was refused, each of the folders has of each bug exactly
/// the operation commits that one of them had before it. So any two have the same bugs, and the
/// same operation commits of each.
pub fn exchanges_leave_the_union_everywhere()
    ensures union { (first : Member) (others : List Member) (now : ℕ) (old new : History)
        (folder : List ℕ)
        → ((other : Member) → Contains others other → other.folder ≢ first.folder)
        → AreReady (first ∷ others) (files_of old)
        → HaveOneTextEach (files_of new) (folders_of (first ∷ others))
        → InTurn WasPulled (exchange_among first others now) old new
        → Contains (folders_of (first ∷ others)) folder
        → HasAllOf (files_of new) folder (files_of old) (folders_of (first ∷ others)) }
    ensures same { (first : Member) (others : List Member) (now : ℕ) (old new : History)
        (one two : List ℕ)
        → ((other : Member) → Contains others other → other.folder ≢ first.folder)
        → AreReady (first ∷ others) (files_of old)
        → HaveOneTextEach (files_of new) (folders_of (first ∷ others))
        → InTurn WasPulled (exchange_among first others now) old new
        → Contains (folders_of (first ∷ others)) one → Contains (folders_of (first ∷ others)) two
        → HaveTheSame (files_of new) one (files_of new) two }
    ensures ready { (first : Member) (others : List Member) (now : ℕ) (old new : History)
        → ((other : Member) → Contains others other → other.folder ≢ first.folder)
        → AreReady (first ∷ others) (files_of old)
        → HaveOneTextEach (files_of new) (folders_of (first ∷ others))
        → InTurn WasPulled (exchange_among first others now) old new
        → AreReady (first ∷ others) (files_of new) }
{}

/// After a full exchange no pull among the folders that refuses no bug changes what one of them has
/// of a bug, however many follow, and in whatever order. So a second full exchange does not.
pub fn later_pulls_change_nothing()
    ensures pulls { (first : Member) (others : List Member) (pulls : List Pull) (now : ℕ)
        (old mid new : History) (folder : List ℕ)
        → ((other : Member) → Contains others other → other.folder ≢ first.folder)
        → AreReady (first ∷ others) (files_of old)
        → HaveOneTextEach (files_of new) (folders_of (first ∷ others))
        → InTurn WasPulled (exchange_among first others now) old mid
        → All (IsAmong (first ∷ others)) pulls → InTurn WasPulled pulls mid new
        → Contains (folders_of (first ∷ others)) folder
        → HaveTheSame (files_of new) folder (files_of mid) folder }
    ensures exchange { (first : Member) (others : List Member) (now later : ℕ)
        (old mid new : History) (folder : List ℕ)
        → ((other : Member) → Contains others other → other.folder ≢ first.folder)
        → AreReady (first ∷ others) (files_of old)
        → HaveOneTextEach (files_of new) (folders_of (first ∷ others))
        → InTurn WasPulled (exchange_among first others now) old mid
        → InTurn WasPulled (exchange_among first others later) mid new
        → Contains (folders_of (first ∷ others)) folder
        → HaveTheSame (files_of new) folder (files_of mid) folder }
{}

/// Two folders that have the same bugs, and the same operation commits of each, show the same text
/// of the bug that a word finds, if both have the same names for the authors.
pub fn agreeing_folders_show_the_same()
    ensures { (files others : Files) (folder place word one two : List ℕ)
        → HaveTheSame files folder others place → NameAuthorsAlike files folder others place
        → ShowAnswers files folder word (Ok one) → ShowAnswers others place word (Ok two)
        → one ≡ two }
{}
