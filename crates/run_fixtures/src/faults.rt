//! Runs of which each call of the store fails in turn.
use crate::runs::{DISK_FAULT, DONE, run_words};
use fixtures::Disk;
use std::alloc::Global;
use std::test::Fail;

// More calls of the store than are made here.
const CALLS: u64 = 1_000;

// Runs that come before, each with its place as number.
fn begin(disk: &mut Disk, before: &[&[&str]]) -> Result<(), Fail> {
    for (place, words) in before.iter().enumerate() {
        run_words(disk, words, (place % 100) as u8)?;
    }
    Ok(())
}

// Runs the words while this call of the store fails, and twice more. The second run is done, and
// the third one finds nothing to write. Answers whether the call was made.
fn goes_on_at(
    alloc: Global,
    before: &[&[&str]],
    words: &[&str],
    call: u64,
    after: bool,
) -> Result<bool, Fail> {
    let mut disk = Disk::at(alloc, "a", &[(call, after)])?;
    begin(&mut disk, before)?;
    if disk.store.faults() > 0 {
        return Ok(true);
    }
    let failed = run_words(&mut disk, words, 200)?;
    if disk.store.faults() == 0 {
        return Ok(false);
    }
    let again = run_words(&mut disk, words, 200)?;
    let writes = disk.store.writes();
    let last = run_words(&mut disk, words, 200)?;
    if (failed, again, last) == (DISK_FAULT, DONE, DONE) && disk.store.writes() == writes {
        return Ok(true);
    }
    Err(Fail::new(format_args!("{words:?}, call {call}: ended with {failed}, {again}, {last}")))
}

/// Sees, for each call of the store that the words make, that it may fail, before it has an effect
/// and after that: the same run again is done, and a third one writes nothing.
pub fn goes_on(alloc: Global, before: &[&[&str]], words: &[&str]) -> Result<(), Fail> {
    for call in 0..CALLS {
        let early = goes_on_at(alloc, before, words, call, false)?;
        let late = goes_on_at(alloc, before, words, call, true)?;
        if !early && !late {
            return Ok(());
        }
    }
    Err(Fail::new(format_args!("{words:?}: more calls than are tried")))
}
