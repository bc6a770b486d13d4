//! Laws of runs with unlike seeds, each the contract of a function that does nothing.
ghost use Rattle.clean_folders.specs.RunLaws.{MergesFindNoNameTaken, MergesTellLimits};
ghost use Rattle.clean_folders.specs.RunLaws.{OperationsStandOnce, PullsFindNoNameTaken};
ghost use Rattle.clean_folders.specs.RunLaws.{PullsTellLimits, RunsOfUnlikeSeedsAreFresh};

/// Whatever is run over folders of which no two overlap, from no files at all, and wherever each
/// run stops, if each fetch and pull into one of them is from one of them: where the runs that make
/// an operation have unlike seeds, each operation is new when it is made. Two operations could
/// share an id only if two texts that differ had one SHA-256, of those that the runs hash: the
/// operations as they are written, and each seed with a zero byte.
pub fn runs_of_unlike_seeds_are_fresh()
    ensures { RunsOfUnlikeSeedsAreFresh }
{}

/// So each operation occurs once in the folders after such runs.
pub fn operations_of_unlike_seeds_stand_once()
    ensures { OperationsStandOnce }
{}

/// After such runs, each line of a merge or a pull that says that a bug is invalid tells a limit
/// alone, where the authors of the bugs last seen at the remote are known when its merge begins. So
/// it is also of a run that was stopped once it had printed its lines. A pull is from one of the
/// folders.
pub fn clean_runs_refuse_bugs_by_a_limit_alone()
    ensures merge { MergesTellLimits }
    ensures pull { PullsTellLimits }
{}

/// No merge or pull into one of the folders is refused for a taken name, after any such runs,
/// unless two texts that differ have one SHA-1, of those that stand in the folder then and those of
/// the commits that would join two heads of a bug.
pub fn clean_runs_are_refused_for_no_taken_name()
    ensures merge { MergesFindNoNameTaken }
    ensures pull { PullsFindNoNameTaken }
{}
