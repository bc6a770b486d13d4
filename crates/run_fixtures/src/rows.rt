//! Tables of runs, one after the other.
use crate::runs::{DONE, REFUSED, USAGE, USAGE_LINE, expect, expect_at};
use fixtures::Disk;
use std::test::Fail;

/// A run by its words and its number, with what it prints, and how many writes there were up to its
/// end. Of a refusal the text stands without `refused` and the end of the line.
#[derive(Clone, Copy)]
pub enum Row {
    Done(&'static [&'static str], u8, &'static str, u64),
    Refused(&'static [&'static str], u8, &'static str, u64),
    Usage(&'static [&'static str], u64),
}

/// Runs the rows one after the other. The first that is wrong is told by its place, its words and
/// both texts.
pub fn hold(disk: &mut Disk, rows: &[Row]) -> Result<(), Fail> {
    for (place, row) in rows.iter().enumerate() {
        holds(disk, place, *row)?;
    }
    Ok(())
}

fn holds(disk: &mut Disk, place: usize, row: Row) -> Result<(), Fail> {
    match row {
        Row::Done(words, number, text, writes) => {
            expect_at(disk, place, words, number, (DONE, text))?;
            wrote(disk, place, words, writes)
        }
        Row::Refused(words, number, text, writes) => {
            let line = format!(in disk.alloc; "refused {text}\n")?;
            expect_at(disk, place, words, number, (REFUSED, line.as_str()))?;
            wrote(disk, place, words, writes)
        }
        Row::Usage(words, writes) => {
            expect(disk, place, words, USAGE, USAGE_LINE)?;
            wrote(disk, place, words, writes)
        }
    }
}

// Tells the row where there were not so many writes up to its end.
fn wrote(disk: &Disk, row: usize, words: &[&str], writes: u64) -> Result<(), Fail> {
    let found = disk.store.writes();
    if found == writes {
        return Ok(());
    }
    Err(Fail::new(format_args!("row {row}, {words:?}: there were {found} writes, not {writes}")))
}
