//! Pulls that stop after any of their writes, and are run again.
use run_fixtures::Step::Does;
use run_fixtures::{Script, Step};
use std::alloc::Global;
use std::test::Fail;

// The folder `a` with a person and two bugs, and `b` with a person.
const BEGIN: &[Step] = &[
    Does(&["a", "user-new", "Ann", "ann@x"], 1, "$A\n"),
    Does(&["a", "new", "one", "message"], 2, "$B\n"),
    Does(&["a", "new", "two", "message"], 3, "$C\n"),
    Does(&["a", "comment", "$B", "more"], 4, "$D\n"),
    Does(&["b", "user-new", "Bo", "bo@x"], 5, "$E\n"),
];

// Both have edited one of the bugs, and `a` the other one.
const APART: &[Step] = &[
    Does(&["a", "label-add", "$B", "x"], 7, "$F\n"),
    Does(&["b", "label-add", "$B", "y"], 8, "$G\n"),
    Does(&["a", "title", "$C", "other"], 9, "$H\n"),
];

fn pull(script: &mut Script) -> Result<(), Fail> {
    script.printed(&["b", "pull", "o", "a"], 10)?;
    Ok(())
}

// What both bugs are after a pull.
fn shown(script: &mut Script) -> Result<String, Fail> {
    pull(script)?;
    let one = script.printed(&["b", "show", "$B"], 11)?;
    let two = script.printed(&["b", "show", "$C"], 12)?;
    Ok(format!(in script.disk.alloc; "{one}{two}")?)
}

// After each write of a pull: where it stopped there and is run again, the bugs are what they are
// after the whole pull.
fn goes_on(script: &mut Script, alloc: Global) -> Result<(), Fail> {
    let begun = script.disk.store.writes();
    let whole = shown(script)?;
    let ended = script.disk.store.writes();
    if ended.saturating_sub(begun) < 10 {
        return Err(Fail::new(format_args!("a pull of {begun} to {ended} writes")));
    }
    for count in begun..ended {
        script.disk.store.cut(alloc, begun)?;
        pull(script)?;
        script.disk.store.cut(alloc, count)?;
        let again = shown(script)?;
        if again.as_str() != whole.as_str() {
            return Err(Fail::new(format_args!("cut at {count}: {again:?}, not {whole:?}")));
        }
    }
    Ok(())
}

#[test]
fn a_pull_of_new_bugs_goes_on_where_it_stopped(rt: HostRuntime) -> Result<(), Fail> {
    let mut script = Script::new(rt.alloc(), "a")?;
    script.play(BEGIN)?;
    goes_on(&mut script, rt.alloc())
}

#[test]
fn a_pull_that_joins_goes_on_where_it_stopped(rt: HostRuntime) -> Result<(), Fail> {
    let mut script = Script::new(rt.alloc(), "a")?;
    script.play(BEGIN)?;
    pull(&mut script)?;
    script.play(APART)?;
    goes_on(&mut script, rt.alloc())
}
