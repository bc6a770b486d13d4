//! Runs of which each write of the sink fails, one after another.
use crate::cases::{
    BEGUN, Case, FETCH_OF_NEW, FIRST, MERGE_THAT_JOINS, PULL_OF_NEW, PUSH_REFUSED, Run, Whole,
    run_whole,
};
use crate::seen::refs;
use fixtures::Disk;
use gb_store::MemSink;
use gb_text::List;
use run_fixtures::{DONE, OUT_FAULT, REFUSED, USAGE, run_into};
use std::alloc::Global;
use std::test::Fail;

// More writes of a sink than are made here.
const WRITES: u64 = 1_000;

// A sink that takes five bytes a write, and refuses the write of this number.
fn failing(alloc: Global, write: u64) -> Result<MemSink, Fail> {
    let mut fails = List::new(alloc);
    fails.push(write)?;
    Ok(MemSink::new(alloc, fails, 5))
}

// Whether a run, of which this write of the sink fails, ends so, has printed so many bytes of its
// text, and has made all its writes.
fn fails_at(
    disk: &mut Disk,
    case: &Case,
    whole: &Whole,
    write: u64,
    wanted: (u8, usize),
) -> Result<bool, Fail> {
    disk.store.cut(disk.alloc, whole.begun)?;
    let mut sink = failing(disk.alloc, write)?;
    let status = run_into(disk, &mut sink, case.words, FIRST)?;
    let new = refs(disk)?;
    Ok(
        (status, sink.bytes().len()) == wanted
            && whole.text.as_bytes().starts_with(sink.bytes())
            && disk.store.writes() == whole.ended
            && new.as_str() == whole.new.as_str(),
    )
}

// Sees this for each write of the sink, and that the run is whole where none fails.
fn fails(alloc: Global, case: &Case) -> Result<(), Fail> {
    let mut disk = Disk::at(alloc, "a", &[])?;
    let whole = run_whole(&mut disk, case)?;
    let size = whole.text.len();
    let mut printed = 0usize;
    for write in 0..WRITES {
        let ends = printed >= size;
        let wanted = if ends {
            (case.status, size)
        } else {
            (OUT_FAULT, printed)
        };
        if !fails_at(&mut disk, case, &whole, write, wanted)? {
            return Err(Fail::new(format_args!("{:?}, write {write}", case.words)));
        }
        if ends {
            return Ok(());
        }
        printed = printed.saturating_add(5);
    }
    Err(Fail::new(format_args!("{:?}: more writes than are tried", case.words)))
}

const EXCHANGES: &[Case] = &[PULL_OF_NEW, PUSH_REFUSED, FETCH_OF_NEW, MERGE_THAT_JOINS];

#[test]
fn an_exchange_is_carried_out_before_it_is_printed(rt: HostRuntime) -> Result<(), Fail> {
    for case in EXCHANGES {
        fails(rt.alloc(), case)?;
    }
    Ok(())
}

const BEFORE: &[&[Run]] = &[BEGUN];

// Other runs, how they end, and how many writes they make.
const OTHERS: &[(&[&str], u8, u64)] = &[
    (&["a", "user-new", "Cy", "cy@x"], DONE, 4),
    (&["a", "user-edit", "Ann", "ann@y"], DONE, 4),
    (&["a", "new", "three", "message"], DONE, 6),
    (&["a", "comment", "b4bc", "again"], DONE, 5),
    (&["a", "close", "d77a"], DONE, 5),
    (&["a", "pack-refs"], DONE, 4),
    (&["a", "users"], DONE, 0),
    (&["a", "show", "b4bc"], DONE, 0),
    (&["a", "log", "b4bc"], DONE, 0),
    (&["a", "ls"], DONE, 2),
    (&["a", "board"], DONE, 2),
    (&["a", "show", "0"], REFUSED, 0),
    (&["a", "push"], USAGE, 0),
];

#[test]
fn an_edit_is_carried_out_before_it_is_printed(rt: HostRuntime) -> Result<(), Fail> {
    for (words, status, writes) in OTHERS {
        let case = Case {
            before: BEFORE,
            words,
            status: *status,
            writes: *writes,
        };
        fails(rt.alloc(), &case)?;
    }
    Ok(())
}
