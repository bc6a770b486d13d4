//! Laws of clean worlds, each the contract of a function that does nothing.
ghost use Rattle.clean_folders.specs.WorldLaws.{AreCleanAfterTheExchange, AreCleanBeforeEachPull};
ghost use Rattle.clean_folders.specs.WorldLaws.{AreCleanBeforeTheExchange};
ghost use Rattle.clean_folders.specs.WorldLaws.{GeneratedEventsHaveDistinctSeeds};
ghost use Rattle.clean_folders.specs.WorldLaws.{OtherEventsEditNoBug, PullsFindNoNameTaken};
ghost use Rattle.clean_folders.specs.WorldLaws.{PullsOfUsersPrintLines, PullsTellLimits};
ghost use Rattle.clean_folders.specs.WorldLaws.{PullsWithoutLimitRefuseNoBug};
ghost use Rattle.clean_folders.specs.WorldLaws.{StayCleanAfterAnExchange, StayCleanAfterEvents};
ghost use Rattle.clean_folders.specs.WorldLaws.{WorldsOfDistinctSeedsAreClean};

/// Whatever events were played in the folders of a world, and wherever they were stopped: the
/// folders are clean if no two events that edit a bug have one seed, and no two texts that differ
/// have one SHA-256, of those that the events hash for the operations that they make. These are
/// the operations as they are written, and each seed with a zero byte.
pub fn worlds_of_distinct_seeds_are_clean()
    ensures { WorldsOfDistinctSeedsAreClean }
{}

/// A clean world stays clean while events are played that edit no bug, however they end and
/// wherever they are stopped. An event that makes a user, packs refs, pulls or pushes edits none.
/// The pulls of a full exchange are such events. So the world is clean before each of them.
pub fn clean_worlds_stay_clean()
    ensures events { StayCleanAfterEvents }
    ensures exchange { StayCleanAfterAnExchange }
    ensures each { AreCleanBeforeEachPull }
    ensures others { OtherEventsEditNoBug }
{}

/// The events that a number makes have distinct seeds, unless two of the texts from which their
/// seeds are made have one SHA-256. These texts differ, as the places of the events do.
pub fn generated_events_have_distinct_seeds()
    ensures { GeneratedEventsHaveDistinctSeeds }
{}

/// So the world that three numbers in their bounds ask for is a clean world before its full
/// exchange and after it, unless two texts that differ have one SHA-256: two from which the seeds
/// are made, or two that its events hash for the operations that they make.
pub fn told_worlds_are_clean()
    ensures before { AreCleanBeforeTheExchange }
    ensures after { AreCleanAfterTheExchange }
{}

/// No event that pulls in a clean world is refused for a taken name, unless two texts that differ
/// have one SHA-1, of those that stand in its folder then and those of the commits that would join
/// two heads of a bug. So it prints lines, if its folder has a user: nothing else refuses it.
pub fn clean_worlds_answer_pulls_with_lines()
    ensures taken { PullsFindNoNameTaken }
    ensures lines { PullsOfUsersPrintLines }
{}

/// What an event tells that pulls in a clean world, if its run printed lines and the folders have
/// no two texts under one name then: no line of the fetch refuses an entity, and each line of the
/// merge that says that a bug is invalid tells a limit. So the pull refuses no bug, if no line of
/// its merge tells a limit. The folder knows its peer by the peer's word.
pub fn clean_worlds_refuse_no_bug_but_for_a_limit()
    ensures limits { PullsTellLimits }
    ensures none { PullsWithoutLimitRefuseNoBug }
{}
