//! Worlds and runs of the program. Each law is the contract of a function that does nothing.
ghost use Rattle.std.specs.Prelude.{◌≤◌, [], ℕ, All, List};
ghost use Rattle.gb_store.specs.Files.{History, files_of};
ghost use Rattle.bug_run.specs.Runs.{AreAllSound, AreApart, Runs};
ghost use Rattle.world.specs.Folders.{world_folders};
ghost use Rattle.world.specs.Plays.{ArePlayed};
ghost use Rattle.world.specs.declared.world.Ended.{Ended as EndedValue};
ghost use Rattle.world_events.specs.Within.{IsWithin};
ghost use Rattle.world_events.specs.declared.event.Event.{Event as EventValue};

/// What events leave is left by runs of the program in the folders of the world, each stopped
/// somewhere. So whatever is proved of any list of such runs is proved of worlds. No two of the
/// folders overlap.
pub fn events_are_runs()
    ensures apart { (folders : ℕ) → folders ≤ 16 → AreApart (world_folders folders) }
    ensures runs { (folders : ℕ) (events : List EventValue) (ends : List EndedValue)
        (old new : History) → folders ≤ 16 → All (IsWithin folders) events
        → ArePlayed events ends old new → Runs (world_folders folders) old new }
{}

/// Each folder of a world is sound, whatever events were played, and wherever they were stopped.
pub fn worlds_are_sound()
    ensures { (folders : ℕ) (events : List EventValue) (ends : List EndedValue) (new : History)
        → folders ≤ 16 → All (IsWithin folders) events → ArePlayed events ends [] new
        → AreAllSound (world_folders folders) (files_of new) }
{}
