//! Laws of what folders have last seen of identities and of authors at remotes, each the contract
//! of a function that does nothing.
ghost use Rattle.identity_runs.specs.SeenLaws.{RunsKeepSeenAuthorsKnown, RunsKeepSeenPeopleSound};
ghost use Rattle.identity_runs.specs.SeenLaws.{SeenAuthorsStayKnown, SeenPeopleHaveNoFault};

/// Folders of which no two overlap take commits from each other alone, and have no two texts under
/// one name. Then the chain of each identity that one of them has last seen at a remote has no
/// fault: a run keeps that in sound folders, wherever it stops, and so it is after any runs from no
/// files at all.
pub fn people_last_seen_have_no_fault()
    ensures run { RunsKeepSeenPeopleSound }
    ensures runs { SeenPeopleHaveNoFault }
{}

/// The author of each commit of a bug that one of such folders has last seen at a remote is known
/// to it: a local identity, or one that it has last seen at that remote and whose chain has no
/// fault. A run keeps that in sound folders whose trees are flat, wherever it stops; and so it is
/// after any runs from no files at all, which leave flat trees.
pub fn authors_of_tracked_bugs_are_known()
    ensures run { RunsKeepSeenAuthorsKnown }
    ensures runs { SeenAuthorsStayKnown }
{}
