//! Merges of which each call of the store fails in turn.
use run_fixtures::goes_on;
use std::test::Fail;

// The folder `a` with a person and a bug, and `b` with a person of its own, which has fetched them.
const BEFORE: &[&[&str]] = &[
    &["a", "user-new", "Ann", "ann@x"],
    &["a", "new", "title", "message"],
    &["b", "user-new", "Bo", "bo@x"],
    &["b", "fetch", "known", "a"],
];

#[test]
fn a_merge_goes_on_after_each_failure(rt: HostRuntime) -> Result<(), Fail> {
    goes_on(rt.alloc(), BEFORE, &["b", "merge", "known"])
}

#[test]
fn a_pull_goes_on_after_each_failure(rt: HostRuntime) -> Result<(), Fail> {
    goes_on(rt.alloc(), BEFORE, &["b", "pull", "o", "a"])
}
