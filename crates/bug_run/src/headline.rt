//! The headline: what the program shows, and what its merges leave, whatever was run before. Each law is the
//! contract of a function that does nothing.
ghost use Rattle.std.specs.Prelude.{◌≡◌, ◌++◌, [], IsTrue, List, ℕ};
ghost use Rattle.gb_store.specs.Files.{History, files_of};
ghost use Rattle.repo_state.specs.Bugs.{FindsBug};
ghost use Rattle.repo_state.specs.declared.side.HeadEntry.{HeadEntry as HeadEntryValue};
ghost use Rattle.repo_view.specs.Shown.{AgreeOnAuthors, HaveSameCommits};
ghost use Rattle.bug_run.specs.Headline.{HeadlineHolds, OwnIsAmong};
ghost use Rattle.bug_run.specs.Run.{Call, RunAnswers};
ghost use Rattle.bug_run.specs.Runs.{AreApart, Runs};
ghost use Rattle.bug_run.specs.declared.status.Status.{Status as StatusValue};
ghost use Rattle.bug_run.specs.declared.status.Status.TheVariants as status;
ghost use Rattle.words.specs.declared.words.Asked.TheVariants as asked;
ghost use Rattle.words.specs.declared.words.Command.TheVariants as ask;

/// Take any folders of which no two overlap, and any list of runs from no files at all, each repeated or
/// stopped anywhere. A run writes in one of these folders, or in one that overlaps none of them; and what
/// is pushed into one of them is pushed from one of them. In each of these folders `show` then prints the fields that the
/// operation commits below the bug's head give, in order of edit clock and pack id, and a `merge` or a
/// `pull` leaves of each bug exactly both sides' operation commits. It refuses a bug only for a fault that
/// both heads together have, and then the bug's local ref stays. `show` is refused only where its argument
/// finds no bug or several, a merge as a whole only where there is no user or where an object of a merge
/// commit cannot have its name, and a pull also where the packed refs of the peer do not read. Beside that
/// memory may run out, and the disk or the output may fail.
pub fn the_headline()
    ensures { (folders : List (List ℕ)) (old new : History) (call : Call) (before after : List ℕ)
        (answer : StatusValue) → AreApart folders → Runs folders [] old
        → IsTrue call.store_tells → IsTrue call.sink_tells → OwnIsAmong call.asked folders
        → RunAnswers call old new before after answer
        → HeadlineHolds call.asked call.moment old new before after answer }
{}

/// Two bugs with the same operation commits are printed as the same text, if both folders have the same
/// names for their authors: whatever commits join them, in whichever folders, and whatever else is there.
pub fn same_commits_are_printed_the_same()
    ensures { (call other : Call) (old new elder newer : History)
        (before after earlier later folder place sought words : List ℕ) (bug top : HeadEntryValue)
        → IsTrue call.store_tells → IsTrue call.sink_tells
        → IsTrue other.store_tells → IsTrue other.sink_tells
        → call.asked ≡ asked.Request (record { folder = folder; command = ask.Show sought })
        → other.asked ≡ asked.Request (record { folder = place; command = ask.Show words })
        → FindsBug (files_of old) folder sought bug → FindsBug (files_of elder) place words top
        → HaveSameCommits (files_of old) folder bug (files_of elder) place top
        → AgreeOnAuthors (files_of old) folder bug (files_of elder) place
        → RunAnswers call old new before after status.Done
        → RunAnswers other elder newer earlier later status.Done
        → (text : List ℕ) × (after ≡ before ++ text) × (later ≡ earlier ++ text) }
{}
