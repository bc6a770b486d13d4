//! Exchanges of which each call of the store fails, one after another.
use crate::cases::{
    Case, FIRST, PULL_OF_NEW, PULL_THAT_JOINS, PUSH_REFUSED, Whole, begin, goes_on, run_whole,
};
use crate::seen::told;
use fixtures::Disk;
use run_fixtures::DISK_FAULT;
use std::alloc::Global;
use std::test::Fail;

// More calls of the store than are made here.
const CALLS: u64 = 1_000;

/// What is found where a call of the store fails.
#[derive(Clone, Copy, PartialEq, Eq)]
enum Found {
    /// The run ends with a fault and prints nothing. The same run after it goes on.
    Good,
    /// One of these is not so.
    Bad,
    /// There is no such call.
    Behind,
}

fn fails_at(
    alloc: Global,
    case: &Case,
    whole: &Whole,
    call: u64,
    after: bool,
) -> Result<Found, Fail> {
    let mut disk = Disk::at(alloc, "a", &[(call, after)])?;
    begin(&mut disk, case)?;
    let (status, text) = told(&mut disk, case.words, FIRST)?;
    if disk.store.faults() == 0 {
        return Ok(Found::Behind);
    }
    if status == DISK_FAULT && text.is_empty() && goes_on(&mut disk, case, whole)? {
        return Ok(Found::Good);
    }
    Ok(Found::Bad)
}

// How many calls of the store the runs before a case's run make, found by halves.
fn calls_before(alloc: Global, case: &Case) -> Result<u64, Fail> {
    let mut calls = 0u64;
    for step in [512, 256, 128, 64, 32, 16, 8, 4, 2, 1] {
        let more = calls.saturating_add(step);
        let mut disk = Disk::at(alloc, "a", &[(more.saturating_sub(1), false)])?;
        begin(&mut disk, case)?;
        if disk.store.faults() > 0 {
            calls = more;
        }
    }
    Ok(calls)
}

// Sees that a case goes on after each of its calls has failed, before its write or after it.
fn fails(alloc: Global, case: &Case) -> Result<(), Fail> {
    let mut disk = Disk::at(alloc, "a", &[])?;
    let whole = run_whole(&mut disk, case)?;
    let first = calls_before(alloc, case)?;
    for call in first..CALLS {
        for after in [false, true] {
            match fails_at(alloc, case, &whole, call, after)? {
                Found::Good => {}
                Found::Behind => return Ok(()),
                Found::Bad => {
                    return Err(Fail::new(format_args!("{:?}, call {call}, {after}", case.words)));
                }
            }
        }
    }
    Err(Fail::new(format_args!("{:?}: more calls than are tried", case.words)))
}

#[test]
fn each_call_of_a_pull_may_fail(rt: HostRuntime) -> Result<(), Fail> {
    fails(rt.alloc(), &PULL_OF_NEW)
}

#[test]
fn each_call_of_an_exchange_with_both_sides_new_may_fail(rt: HostRuntime) -> Result<(), Fail> {
    fails(rt.alloc(), &PULL_THAT_JOINS)?;
    fails(rt.alloc(), &PUSH_REFUSED)
}
