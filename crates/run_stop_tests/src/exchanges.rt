//! Exchanges that stop after any of their writes, and are run again.
use crate::cases::{
    Case, FETCH_FORWARD, FETCH_OF_NEW, FIRST, MERGE_OF_NEW, MERGE_THAT_JOINS, PULL_FORWARD,
    PULL_OF_NEW, PULL_THAT_JOINS, PUSH_FORWARD, PUSH_OF_NEW, PUSH_REFUSED, Whole, goes_on,
    run_whole,
};
use fixtures::Disk;
use run_fixtures::run_words;
use std::alloc::Global;
use std::test::Fail;

const PULLS: &[Case] = &[PULL_OF_NEW, PULL_THAT_JOINS, PULL_FORWARD];

const PUSHES: &[Case] = &[PUSH_OF_NEW, PUSH_FORWARD, PUSH_REFUSED];

const HALVES: &[Case] = &[FETCH_OF_NEW, FETCH_FORWARD, MERGE_OF_NEW, MERGE_THAT_JOINS];

// Makes the run of a case up to so many writes, and then again.
fn stops_at(disk: &mut Disk, case: &Case, whole: &Whole, count: u64) -> Result<bool, Fail> {
    disk.store.cut(disk.alloc, whole.begun)?;
    run_words(disk, case.words, FIRST)?;
    disk.store.cut(disk.alloc, count)?;
    goes_on(disk, case, whole)
}

// Sees that a case goes on after each of its writes.
fn stops(alloc: Global, case: &Case) -> Result<(), Fail> {
    let mut disk = Disk::at(alloc, "a", &[])?;
    let whole = run_whole(&mut disk, case)?;
    for count in whole.begun..=whole.ended {
        if !stops_at(&mut disk, case, &whole, count)? {
            let place = count.saturating_sub(whole.begun);
            return Err(Fail::new(format_args!("{:?}, cut after {place} writes", case.words)));
        }
    }
    Ok(())
}

#[test]
fn a_pull_goes_on_where_it_stopped(rt: HostRuntime) -> Result<(), Fail> {
    for case in PULLS {
        stops(rt.alloc(), case)?;
    }
    Ok(())
}

#[test]
fn a_push_goes_on_where_it_stopped(rt: HostRuntime) -> Result<(), Fail> {
    for case in PUSHES {
        stops(rt.alloc(), case)?;
    }
    Ok(())
}

#[test]
fn a_fetch_and_a_merge_go_on_where_they_stopped(rt: HostRuntime) -> Result<(), Fail> {
    for case in HALVES {
        stops(rt.alloc(), case)?;
    }
    Ok(())
}
