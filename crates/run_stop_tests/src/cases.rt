//! Exchanges between the folders `a` and `b`, and what each leaves.
use crate::seen::{are_old_or_new, refs, shown, told};
use fixtures::Disk;
use run_fixtures::{DONE, REFUSED, run_words};
use std::test::Fail;

/// Arguments of a run, and its number.
pub type Run = (&'static [&'static str], u8);

/// The number of a case's run, and that of the same run after it.
pub const FIRST: u8 = 100;

const AGAIN: u8 = 101;

/// Runs that come before, then a run, how it ends, and how many writes it makes.
#[derive(Clone, Copy)]
pub struct Case {
    pub before: &'static [&'static [Run]],
    pub words: &'static [&'static str],
    pub status: u8,
    pub writes: u64,
}

/// A person and two bugs in `a`, whose ids begin with b4bc and d77a, and another person in `b`.
pub const BEGUN: &[Run] = &[
    (&["a", "user-new", "Ann", "ann@x"], 1),
    (&["a", "new", "one", "message"], 2),
    (&["a", "new", "two", "message"], 3),
    (&["a", "comment", "b4bc", "more"], 4),
    (&["b", "user-new", "Bo", "bo@x"], 5),
];

/// Then `b` has pulled them.
pub const PULLED: &[Run] = &[(&["b", "pull", "o", "a"], 6)];

const FETCHED: &[Run] = &[(&["b", "fetch", "o", "a"], 7)];

const PUSHED: &[Run] = &[(&["a", "push", "b"], 8)];

// Both folders have edited one of the bugs, and `a` the other one and its person.
const APART: &[Run] = &[
    (&["a", "label-add", "b4bc", "x"], 11),
    (&["b", "label-add", "b4bc", "y"], 12),
    (&["a", "title", "d77a", "other"], 13),
    (&["a", "user-edit", "Ann", "ann@y"], 14),
];

// The folder `a` alone has gone on.
const FORWARD: &[Run] = &[
    (&["a", "close", "b4bc"], 15),
    (&["a", "comment", "d77a", "less"], 16),
    (&["a", "new", "three", "message"], 17),
];

/// A pull of a person and two bugs.
pub const PULL_OF_NEW: Case = Case {
    before: &[BEGUN],
    words: &["b", "pull", "o", "a"],
    status: DONE,
    writes: 22,
};

/// A pull that joins a bug.
pub const PULL_THAT_JOINS: Case = Case {
    before: &[BEGUN, PULLED, APART],
    words: &["b", "pull", "o", "a"],
    status: DONE,
    writes: 19,
};

/// A pull of what has gone on.
pub const PULL_FORWARD: Case = Case {
    before: &[BEGUN, PULLED, FORWARD],
    words: &["b", "pull", "o", "a"],
    status: DONE,
    writes: 18,
};

/// A push of a person and two bugs.
pub const PUSH_OF_NEW: Case = Case {
    before: &[BEGUN],
    words: &["a", "push", "b"],
    status: DONE,
    writes: 16,
};

/// A push of what has gone on.
pub const PUSH_FORWARD: Case = Case {
    before: &[BEGUN, PUSHED, FORWARD],
    words: &["a", "push", "b"],
    status: DONE,
    writes: 12,
};

/// A push that is refused for one bug, which the peer has edited too.
pub const PUSH_REFUSED: Case = Case {
    before: &[BEGUN, PUSHED, APART, FORWARD],
    words: &["a", "push", "b"],
    status: REFUSED,
    writes: 15,
};

/// The halves of such pulls.
pub const FETCH_OF_NEW: Case = Case {
    before: &[BEGUN],
    words: &["b", "fetch", "o", "a"],
    status: DONE,
    writes: 16,
};

pub const FETCH_FORWARD: Case = Case {
    before: &[BEGUN, PULLED, APART],
    words: &["b", "fetch", "o", "a"],
    status: DONE,
    writes: 12,
};

pub const MERGE_OF_NEW: Case = Case {
    before: &[BEGUN, FETCHED],
    words: &["b", "merge", "o"],
    status: DONE,
    writes: 6,
};

pub const MERGE_THAT_JOINS: Case = Case {
    before: &[BEGUN, PULLED, APART, FETCHED],
    words: &["b", "merge", "o"],
    status: DONE,
    writes: 7,
};

/// What a case's run leaves: the writes and refs before it and after it, what it prints, what is
/// shown then, and what the same run prints after it.
#[derive(Drop)]
pub struct Whole {
    pub begun: u64,
    pub ended: u64,
    pub old: String,
    pub new: String,
    pub text: String,
    pub shown: String,
    pub again: String,
}

/// Makes the runs that come before. Once a call of the store has failed, the rest is left out.
pub fn begin(disk: &mut Disk, case: &Case) -> Result<(), Fail> {
    for runs in case.before {
        begin_runs(disk, runs)?;
    }
    Ok(())
}

fn begin_runs(disk: &mut Disk, runs: &[Run]) -> Result<(), Fail> {
    for (words, number) in runs {
        if disk.store.faults() > 0 {
            return Ok(());
        }
        run_words(disk, words, *number)?;
    }
    Ok(())
}

/// Makes all runs of a case.
pub fn run_whole(disk: &mut Disk, case: &Case) -> Result<Whole, Fail> {
    begin(disk, case)?;
    let begun = disk.store.writes();
    let old = refs(disk)?;
    let (status, text) = told(disk, case.words, FIRST)?;
    let ended = disk.store.writes();
    let writes = ended.saturating_sub(begun);
    if (status, writes) != (case.status, case.writes) {
        return Err(Fail::new(format_args!("{:?}: {status}, {writes}, {text:?}", case.words)));
    }
    let new = refs(disk)?;
    let shown = shown(disk)?;
    let (_, again) = told(disk, case.words, AGAIN)?;
    Ok(Whole {
        begun,
        ended,
        old,
        new,
        text,
        shown,
        again,
    })
}

// Whether the run of a case leaves what the whole one does, and the same run after it prints the
// same and writes nothing.
fn leaves_all(disk: &mut Disk, case: &Case, whole: &Whole) -> Result<bool, Fail> {
    let status = run_words(disk, case.words, FIRST)?;
    let new = refs(disk)?;
    let shown = shown(disk)?;
    let writes = disk.store.writes();
    let (_, again) = told(disk, case.words, AGAIN)?;
    Ok(
        status == case.status
            && new.as_str() == whole.new.as_str()
            && shown.as_str() == whole.shown.as_str()
            && again.as_str() == whole.again.as_str()
            && disk.store.writes() == writes,
    )
}

/// Whether, where the run of a case was left half done, each ref is the old or the new one, and the
/// same run makes the rest.
pub fn goes_on(disk: &mut Disk, case: &Case, whole: &Whole) -> Result<bool, Fail> {
    let refs = refs(disk)?;
    if !are_old_or_new(refs.as_str(), whole.old.as_str(), whole.new.as_str()) {
        return Ok(false);
    }
    leaves_all(disk, case, whole)
}
