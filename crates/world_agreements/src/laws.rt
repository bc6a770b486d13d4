//! Laws of worlds and their full exchange, each the contract of a function that does nothing.
ghost use Rattle.std.specs.Prelude.{◌≡◌, ◌<◌, ◌≤◌, ◌++◌, ℕ, All, List, Contains, codes};
ghost use Rattle.gb_store.specs.Files.{History, files_of};
ghost use Rattle.full_exchanges.specs.Having.{HasAllOf, HaveOneTextEach, HaveTheSame, NameAuthorsAlike};
ghost use Rattle.world.specs.Digests.{IsDigest};
ghost use Rattle.world.specs.Folders.{world_folders};
ghost use Rattle.world.specs.Plays.{ArePlayed};
ghost use Rattle.world.specs.Told.{AreDigests, IsSummary, tally_of};
ghost use Rattle.world.specs.declared.world.Ended.{Ended as EndedValue};
ghost use Rattle.world.specs.declared.world.World.{World as WorldValue};
ghost use Rattle.world_events.specs.Within.{IsWithin};
ghost use Rattle.world_events.specs.Words.{folder_word};
ghost use Rattle.world_events.specs.declared.event.Event.{Event as EventValue};
ghost use Rattle.world_texts.specs.Summary.{count_lines, folder_lines};
ghost use Rattle.world_texts.specs.declared.asked.Asked.{Asked as AskedValue};
ghost use Rattle.world_texts.specs.declared.tally.Digest.{Digest as DigestValue};
ghost use Rattle.exchange_runs.specs.Takes.{RunsAmong};
ghost use Rattle.world_agreements.specs.Worlds.{AllNameAlike, IsExchanged, IsExchangedFor};

/// What events leave is left by runs of the program, each stopped somewhere, that take commits into
/// the folders of the world from these folders alone.
pub fn events_take_from_each_other()
    ensures { (folders : ℕ) (events : List EventValue) (ends : List EndedValue)
        (old new : History) → folders ≤ 16 → All (IsWithin folders) events
        → ArePlayed events ends old new → RunsAmong (world_folders folders) old new }
{}

/// Whatever events were played in the folders of a world, and wherever they were stopped: after a
/// full exchange in which each pull is done, each folder has of each bug exactly the operation
/// commits that one of them had before the exchange. So any two have the same bugs, and the same
/// operation commits of each. Their digests tell the same number of bugs, and are the same if both
/// folders have the same names for the authors.
pub fn worlds_agree_where_nothing_is_refused()
    ensures union { (folders folder : ℕ) (mid new : History) → IsExchanged folders mid new
        → HaveOneTextEach (files_of new) (world_folders folders) → folder < folders
        → HasAllOf (files_of new) (folder_word folder) (files_of mid) (world_folders folders) }
    ensures same { (folders one two : ℕ) (mid new : History) → IsExchanged folders mid new
        → HaveOneTextEach (files_of new) (world_folders folders)
        → one < folders → two < folders
        → HaveTheSame (files_of new) (folder_word one) (files_of new) (folder_word two) }
    ensures count { (folders one two : ℕ) (mid new : History) (first second : DigestValue)
        → IsExchanged folders mid new → HaveOneTextEach (files_of new) (world_folders folders)
        → one < folders → two < folders
        → IsDigest new one first → IsDigest new two second → first.bugs ≡ second.bugs }
    ensures digest { (folders one two : ℕ) (mid new : History) (first second : DigestValue)
        → IsExchanged folders mid new → HaveOneTextEach (files_of new) (world_folders folders)
        → one < folders → two < folders
        → NameAuthorsAlike (files_of new) (folder_word one) (files_of new) (folder_word two)
        → IsDigest new one first → IsDigest new two second → first ≡ second }
{}

/// The world that three numbers in their bounds ask for is such a world, if each pull of its full
/// exchange was done. So all its digests tell the same number of bugs. If the folders have the same
/// names for the authors, all its digests are the same, and the last line of its text is `equal`.
pub fn told_worlds_are_equal_where_nothing_is_refused()
    ensures exchanged { (asked : AskedValue) (world : WorldValue)
        (is : IsExchangedFor asked world)
        → IsExchanged asked.folders is.made.mid world.store.history }
    ensures count { (asked : AskedValue) (world : WorldValue) (digests : List DigestValue)
        (one two : DigestValue) → IsExchangedFor asked world
        → HaveOneTextEach (files_of world.store.history) (world_folders asked.folders)
        → AreDigests world.store.history world.folders digests
        → Contains digests one → Contains digests two → one.bugs ≡ two.bugs }
    ensures digest { (asked : AskedValue) (world : WorldValue) (digests : List DigestValue)
        (one two : DigestValue) → IsExchangedFor asked world
        → HaveOneTextEach (files_of world.store.history) (world_folders asked.folders)
        → AllNameAlike asked.folders (files_of world.store.history)
        → AreDigests world.store.history world.folders digests
        → Contains digests one → Contains digests two → one ≡ two }
    ensures told { (asked : AskedValue) (world : WorldValue) (text : List ℕ)
        (summary : IsSummary world text) → IsExchangedFor asked world
        → HaveOneTextEach (files_of world.store.history) (world_folders asked.folders)
        → AllNameAlike asked.folders (files_of world.store.history)
        → text ≡ count_lines (tally_of world) ++ folder_lines 0 summary.digests ++ codes "equal\n" }
{}
