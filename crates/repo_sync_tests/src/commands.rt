//! Exchanges by the program's arguments.
use fixtures::Disk;
use run_fixtures::Row::{Done, Refused, Usage};
use run_fixtures::Step::Does;
use run_fixtures::{DONE, Row, Script, Step, hold, run_at, sink};
use std::test::Fail;

const ROWS: &[Row] = &[
    Usage(&["a", "push"], 0),
    Usage(&["a", "push", "b", "c"], 0),
    Usage(&["a", "fetch", "b"], 0),
    Usage(&["a", "fetch", "hub", "b", "c"], 0),
    Usage(&["", "push", "-x"], 0),
    Refused(&["a/../b", "push", "a"], 0, "17 bad folder", 0),
    Refused(&["a", "push", ""], 0, "17 bad folder", 0),
    Refused(&["a", "push", "c/../d"], 0, "17 bad folder", 0),
    Refused(&["a", "fetch", "o/r", "a/.."], 0, "17 bad folder", 0),
    Refused(&["a", "push", "./a/x"], 0, "11 same folder", 0),
    Refused(&["f", "push", "./f/g"], 0, "11 same folder", 0),
    Refused(&["a/b", "push", "a"], 0, "11 same folder", 0),
    Refused(&["a", "push", "a"], 0, "11 same folder", 0),
    Refused(&["a", "fetch", "o/r", "a//b"], 0, "11 same folder", 0),
    Refused(&["a", "fetch", "o/r", "b"], 0, "12 bad remote name", 0),
    Refused(&["a", "fetch", "", "b"], 0, "12 bad remote name", 0),
    Done(&["a", "fetch", "hub", "/a"], 0, "", 0),
    Done(&["a", "fetch", "hub", "b"], 0, "", 0),
    Done(&["a", "push", "b"], 0, "", 0),
    Done(&["a", "push", "--", "-b"], 0, "", 0),
];

#[test]
fn arguments_of_exchanges_are_read(rt: HostRuntime) -> Result<(), Fail> {
    let mut disk = Disk::at(rt.alloc(), "a", &[])?;
    hold(&mut disk, ROWS)
}

// How many bugs a folder gets.
const MANY: i64 = 1_000;

const PERSON: &[Step] = &[Does(&["a", "user-new", "Ann", "ann@x"], 1, "$A\n")];

// Makes a bug of this number.
fn new(disk: &mut Disk, number: i64) -> Result<(), Fail> {
    let title = format!(in disk.alloc; "title {number}")?;
    let mut sink = sink(disk.alloc);
    let status = run_at(
        disk,
        &mut sink,
        &["a", "new", title.as_str(), "message"],
        number,
        7,
    )?;
    if status == DONE {
        return Ok(());
    }
    Err(Fail::new(format_args!("{title:?}: ended with {status}")))
}

#[test]
fn a_thousand_bugs_are_fetched_once(rt: HostRuntime) -> Result<(), Fail> {
    let mut script = Script::new(rt.alloc(), "a")?;
    script.play(PERSON)?;
    for number in 0..MANY {
        new(&mut script.disk, number)?;
    }
    let first = script.printed(&["b", "fetch", "o", "a"], 8)?;
    let same = first.replace(rt.alloc(), "fetched", "same")?;
    let writes = script.disk.store.writes();
    let reads = script.disk.store.reads();
    let second = script.printed(&["b", "fetch", "o", "a"], 9)?;
    assert_eq!(rt; second.as_str(), same.as_str());
    assert_eq!(rt; second.as_str().lines().count(), 1_001);
    assert_eq!(rt;
        (script.disk.store.writes(), script.disk.store.reads()),
        (writes, reads)
    );
    Ok(())
}
