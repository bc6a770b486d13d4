//! Laws of pulls that refuse no bug, each the contract of a function that does nothing.
ghost use Rattle.std.specs.Prelude.{◌≡◌, ◌∷◌, [], ℕ, All, Contains, List};
ghost use Rattle.gb_text.specs.Digits.{IsId};
ghost use Rattle.gb_text.specs.Overlap.{Overlap};
ghost use Rattle.gb_text.specs.declared.id.Id.{Id};
ghost use Rattle.gb_store.specs.Files.{History, files_of};
ghost use Rattle.gb_store.specs.Turns.{InTurn};
ghost use Rattle.repo_state.specs.Sound.{IsSound};
ghost use Rattle.repo_state.specs.declared.side.Side.TheVariants as side;
ghost use Rattle.full_exchanges.specs.Exchanges.{AreReady, IsAmong, Member, folders_of};
ghost use Rattle.full_exchanges.specs.Having.{Has, HaveOneTextEach, OneHas, Piece};
ghost use Rattle.full_exchanges.specs.Leaving.{IsUntouched, Joins};
ghost use Rattle.full_exchanges.specs.Pulls.{Pull, WasPulled};

/// Where a sound folder pulls from a sound one, and no line refuses a bug: of each bug it then has
/// exactly the operation commits that it had and those that the peer has; and of a bug that the
/// peer does not have, those that it had last seen there. What it has last seen at the peer is what
/// the peer has. A folder that does not overlap it is as it was, file by file.
pub fn pulls_join_what_both_have()
    ensures joins { (pull : Pull) (old new : History) → (Overlap pull.own pull.peer → ⊥)
        → IsSound pull.own (files_of old) → IsSound pull.peer (files_of old)
        → HaveOneTextEach (files_of new) (pull.own ∷ pull.peer ∷ []) → WasPulled pull old new
        → Joins pull (files_of old) (files_of new) }
    ensures sound { (pull : Pull) (old new : History) → (Overlap pull.own pull.peer → ⊥)
        → IsSound pull.own (files_of old) → WasPulled pull old new
        → IsSound pull.own (files_of new) }
    ensures untouched { (pull : Pull) (folder : List ℕ) (old new : History)
        → (Overlap pull.own pull.peer → ⊥) → (Overlap folder pull.own → ⊥)
        → WasPulled pull old new → IsUntouched folder (files_of old) (files_of new) }
{}

/// Any pulls of sound folders from each other, one after another and in any order: each folder
/// keeps what it has of each bug, and gets only what one of them had before. They stay sound, and
/// what one has last seen at another, one of them has.
pub fn pulls_among_folders_bring_no_more()
    ensures kept { (members : List Member) (pulls : List Pull) (old new : History)
        (folder : List ℕ) (id : Id) (piece : Piece) → AreReady members (files_of old)
        → HaveOneTextEach (files_of new) (folders_of members) → All (IsAmong members) pulls
        → InTurn WasPulled pulls old new → Contains (folders_of members) folder → IsId id
        → Has (files_of old) folder side.Bugs id piece
        → Has (files_of new) folder side.Bugs id piece }
    ensures no_more { (members : List Member) (pulls : List Pull) (old new : History)
        (folder : List ℕ) (id : Id) (piece : Piece) → AreReady members (files_of old)
        → HaveOneTextEach (files_of new) (folders_of members) → All (IsAmong members) pulls
        → InTurn WasPulled pulls old new → Contains (folders_of members) folder → IsId id
        → Has (files_of new) folder side.Bugs id piece
        → OneHas (files_of old) (folders_of members) id piece }
    ensures ready { (members : List Member) (pulls : List Pull) (old new : History)
        → AreReady members (files_of old) → HaveOneTextEach (files_of new) (folders_of members)
        → All (IsAmong members) pulls → InTurn WasPulled pulls old new
        → AreReady members (files_of new) }
{}
