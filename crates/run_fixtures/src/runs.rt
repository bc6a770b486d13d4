//! Runs by words, and how they end.
use bug_run::{Status, moment_of, run};
use fixtures::Disk;
use gb_store::{MemSink, MemStore};
use gb_text::List;
use std::alloc::Global;
use std::test::Fail;
use words::read_words;

/// How a run ends, by the status with which the program does.
pub const DONE: u8 = 0;

pub const REFUSED: u8 = 1;

pub const USAGE: u8 = 2;

pub const DISK_FAULT: u8 = 3;

pub const MEMORY: u8 = 4;

pub const OUT_FAULT: u8 = 5;

/// What is printed where words give no command.
pub const USAGE_LINE: &str = "usage: gitbug FOLDER COMMAND ARGUMENTS\n";

fn code(status: &Status) -> u8 {
    match status {
        Status::Done => DONE,
        Status::Refused(_) => REFUSED,
        Status::Usage => USAGE,
        Status::DiskFault => DISK_FAULT,
        Status::Memory => MEMORY,
        Status::OutFault => OUT_FAULT,
    }
}

// The contract of `run` is long, so nothing goes on behind it here.
fn run_all(
    alloc: Global,
    words: &[String],
    store: &mut MemStore,
    sink: &mut MemSink,
    now: i64,
    seed: u8,
) -> Status {
    match read_words(alloc, words) {
        Ok(asked) => run(alloc, words, asked, store, sink, moment_of(now, [seed; 32])),
        Err(_) => Status::Memory,
    }
}

/// A sink that takes seven bytes a write.
pub fn sink(alloc: Global) -> MemSink {
    MemSink::new(alloc, List::new(alloc), 7)
}

/// Runs the words at a moment, with so many as each byte of the seed, and answers how that ended.
pub fn run_at(
    disk: &mut Disk,
    sink: &mut MemSink,
    words: &[&str],
    now: i64,
    seed: u8,
) -> Result<u8, Fail> {
    let mut all = Vec::new(disk.alloc);
    for word in words {
        all.push(String::from_str(disk.alloc, word)?)?;
    }
    let status = run_all(disk.alloc, &all, &mut disk.store, sink, now, seed);
    Ok(code(&status))
}

/// The same, where the number is each byte of the seed and the moment lies so many seconds behind 100.
pub fn run_into(
    disk: &mut Disk,
    sink: &mut MemSink,
    words: &[&str],
    number: u8,
) -> Result<u8, Fail> {
    run_at(disk, sink, words, 100 + i64::from(number), number)
}

/// The same, where what is printed is not looked at.
pub fn run_words(disk: &mut Disk, words: &[&str], number: u8) -> Result<u8, Fail> {
    let mut sink = sink(disk.alloc);
    run_into(disk, &mut sink, words, number)
}

/// Runs the words. Where that ends or prints otherwise, the row, the words and both texts are told.
pub fn expect(
    disk: &mut Disk,
    row: usize,
    words: &[&str],
    status: u8,
    text: &str,
) -> Result<(), Fail> {
    expect_at(disk, row, words, 0, (status, text))
}

/// The same, with a number.
pub fn expect_at(
    disk: &mut Disk,
    row: usize,
    words: &[&str],
    number: u8,
    wanted: (u8, &str),
) -> Result<(), Fail> {
    let mut sink = sink(disk.alloc);
    let status = run_into(disk, &mut sink, words, number)?;
    if status == wanted.0 && sink.bytes() == wanted.1.as_bytes() {
        return Ok(());
    }
    let printed = String::from_utf8_lossy(disk.alloc, sink.bytes())?;
    Err(other(row, words, (status, printed.as_str()), wanted))
}

// What is told where a run ends otherwise.
fn other(row: usize, words: &[&str], found: (u8, &str), wanted: (u8, &str)) -> Fail {
    Fail::new(format_args!("row {row}, {words:?}: ended with {found:?}, not with {wanted:?}"))
}
