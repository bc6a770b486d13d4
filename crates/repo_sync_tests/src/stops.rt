//! Exchanges that stop after any of their writes, and are run again.
use run_fixtures::Step::Does;
use run_fixtures::{Script, Step};
use std::alloc::Global;
use std::test::Fail;

const BEGIN: &[Step] = &[
    Does(&["a", "user-new", "Ann", "ann@x"], 1, "$A\n"),
    Does(&["a", "new", "title", "message"], 2, "$B\n"),
];

// After each write of an exchange: where it stopped there, it makes the other writes when it is run
// again, and then it reports that all is the same.
fn goes_on(alloc: Global, words: &[&str]) -> Result<(), Fail> {
    let mut script = Script::new(alloc, "a")?;
    script.play(BEGIN)?;
    let begun = script.disk.store.writes();
    script.printed(words, 3)?;
    let ended = script.disk.store.writes();
    for count in begun..ended {
        script.disk.store.cut(alloc, count)?;
        let again = script.printed(words, 4)?;
        let same = script.printed(words, 5)?;
        let writes = script.disk.store.writes();
        if writes != ended || same.as_str().contains("ed\n") {
            return Err(Fail::new(format_args!(
                "cut at {count}: {writes} writes, {again:?}, {same:?}"
            )));
        }
    }
    Ok(())
}

#[test]
fn a_push_goes_on_where_it_stopped(rt: HostRuntime) -> Result<(), Fail> {
    goes_on(rt.alloc(), &["a", "push", "hub"])
}

#[test]
fn a_fetch_goes_on_where_it_stopped(rt: HostRuntime) -> Result<(), Fail> {
    goes_on(rt.alloc(), &["b", "fetch", "o", "a"])
}
