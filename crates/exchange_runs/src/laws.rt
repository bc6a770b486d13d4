//! Laws of full exchanges in a world, each the contract of a function that does nothing.
ghost use Rattle.std.specs.Prelude.{◌≡◌, ◌<◌, ◌≤◌, ◌^◌, [], ℕ, ℤ, All, List, Some};
ghost use Rattle.gb_text.specs.Folder.{folder_of};
ghost use Rattle.gb_store.specs.Files.{History, files_of};
ghost use Rattle.full_exchanges.specs.Having.{HasAllOf, HaveOneTextEach, HaveTheSame, NameAuthorsAlike};
ghost use Rattle.bug_run.specs.Runs.{AreAllSound, AreApart};
ghost use Rattle.world.specs.Digests.{IsDigest};
ghost use Rattle.world.specs.Folders.{world_folders};
ghost use Rattle.world.specs.Plays.{ArePlayed};
ghost use Rattle.world.specs.declared.world.Ended.{Ended as EndedValue};
ghost use Rattle.world_events.specs.Words.{folder_word};
ghost use Rattle.world_events.specs.Within.{IsWithin};
ghost use Rattle.world_events.specs.declared.event.Event.{Event as EventValue};
ghost use Rattle.world_texts.specs.declared.tally.Digest.{Digest};
ghost use Rattle.exchange_runs.specs.Exchanged.{Exchanged, MayExchange};
ghost use Rattle.exchange_runs.specs.Takes.{RunsAmong, SeenIsThere};

/// Where each pull of a full exchange among the folders of a world is done, each folder has of each
/// bug exactly the operation commits that one of them had before. So any two have the same bugs,
/// and the same operation commits of each; and they may exchange again. A folder's text is
/// its word.
pub fn exchanged_folders_agree()
    ensures union { (folders folder : ℕ) (now : ℤ) (old new : History) → folders ≤ 2 ^ 32
        → MayExchange folders (files_of old)
        → HaveOneTextEach (files_of new) (world_folders folders)
        → Exchanged folders now old new → folder < folders
        → HasAllOf (files_of new) (folder_word folder) (files_of old) (world_folders folders) }
    ensures same { (folders one two : ℕ) (now : ℤ) (old new : History) → folders ≤ 2 ^ 32
        → MayExchange folders (files_of old)
        → HaveOneTextEach (files_of new) (world_folders folders)
        → Exchanged folders now old new → one < folders → two < folders
        → HaveTheSame (files_of new) (folder_word one) (files_of new) (folder_word two) }
    ensures again { (folders : ℕ) (now : ℤ) (old new : History) → folders ≤ 2 ^ 32
        → MayExchange folders (files_of old)
        → HaveOneTextEach (files_of new) (world_folders folders)
        → Exchanged folders now old new → MayExchange folders (files_of new) }
    ensures named { (folder : ℕ) (text : List ℕ) → folder < 2 ^ 64
        → folder_of (folder_word folder) ≡ Some text → text ≡ folder_word folder }
{}

/// Then the digests of any two folders tell the same number of bugs; and they are the same, if both
/// folders have the same names for the authors.
pub fn exchanged_folders_have_one_digest()
    ensures count { (folders one two : ℕ) (now : ℤ) (old new : History) (first second : Digest)
        → folders ≤ 2 ^ 32 → MayExchange folders (files_of old)
        → HaveOneTextEach (files_of new) (world_folders folders)
        → Exchanged folders now old new → one < folders → two < folders
        → IsDigest new one first → IsDigest new two second → first.bugs ≡ second.bugs }
    ensures same { (folders one two : ℕ) (now : ℤ) (old new : History) (first second : Digest)
        → folders ≤ 2 ^ 32 → MayExchange folders (files_of old)
        → HaveOneTextEach (files_of new) (world_folders folders)
        → Exchanged folders now old new → one < folders → two < folders
        → NameAuthorsAlike (files_of new) (folder_word one) (files_of new) (folder_word two)
        → IsDigest new one first → IsDigest new two second → first ≡ second }
{}

/// Whatever is run over folders of which no two overlap, from no files at all, and wherever each
/// run stops: if each fetch and pull into one of them is from one of them, what one has last seen
/// of a bug at a remote, one of them has.
pub fn runs_see_what_is_there()
    ensures { (folders : List (List ℕ)) (new : History) → AreApart folders
        → RunsAmong folders [] new → HaveOneTextEach (files_of new) folders
        → AreAllSound folders (files_of new) × SeenIsThere folders (files_of new) }
{}

/// So the folders of a world may exchange, whatever events were played, and wherever they were
/// stopped.
pub fn played_worlds_may_exchange()
    ensures { (folders : ℕ) (events : List EventValue) (ends : List EndedValue) (new : History)
        → folders ≤ 16 → All (IsWithin folders) events → ArePlayed events ends [] new
        → HaveOneTextEach (files_of new) (world_folders folders)
        → MayExchange folders (files_of new) }
{}
