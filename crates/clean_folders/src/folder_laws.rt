//! Laws of clean folders, each the contract of a function that does nothing.
ghost use Rattle.clean_folders.specs.FolderLaws.{CleanFetchesRefuseNothing, CleanMergesTellLimits};
ghost use Rattle.clean_folders.specs.FolderLaws.{CleanPullsRefuseNoBug, CleanPullsRefuseNoCopy};
ghost use Rattle.clean_folders.specs.FolderLaws.{CleanPullsTellLimits, CleanPushesRefuseOtherHeads};

/// In clean folders, each line of a merge, or of a pull from one of them, that says that a bug is
/// invalid tells a limit. So it is also of a run that was stopped once it had printed its lines.
pub fn clean_folders_refuse_no_bug_but_for_a_limit()
    ensures merge { CleanMergesTellLimits }
    ensures pull { CleanPullsTellLimits }
{}

/// After any runs from no files over folders of which no two overlap, that take commits from each
/// other alone, a fetch from one of them into one of them refuses no entity, and its status is 0.
/// Nor does the fetch of a pull refuse one; and a push does only where the peer's head is not below
/// the local one. The folders have no two texts under one name at the end.
pub fn clean_folders_refuse_no_copy()
    ensures fetch { CleanFetchesRefuseNothing }
    ensures pull { CleanPullsRefuseNoCopy }
    ensures push { CleanPushesRefuseOtherHeads }
{}

/// So a pull between clean folders of whose merge no line tells a limit refuses no bug.
pub fn clean_pulls_without_a_limit_refuse_no_bug()
    ensures { CleanPullsRefuseNoBug }
{}
