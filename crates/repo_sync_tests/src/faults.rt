//! Exchanges of which each call of the store fails in turn.
use run_fixtures::goes_on;
use std::test::Fail;

// The folder `a` with a person and a bug.
const BEFORE: &[&[&str]] = &[
    &["a", "user-new", "Ann", "ann@x"],
    &["a", "new", "title", "message"],
];

#[test]
fn a_fetch_goes_on_after_each_failure(rt: HostRuntime) -> Result<(), Fail> {
    goes_on(rt.alloc(), BEFORE, &["c", "fetch", "o", "a"])
}

#[test]
fn a_push_goes_on_after_each_failure(rt: HostRuntime) -> Result<(), Fail> {
    goes_on(rt.alloc(), BEFORE, &["a", "push", "c"])
}
