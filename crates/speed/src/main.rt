//! The benchmark's program: it reads the operations in the lines of a file a given number of times,
//! or makes bugs in memory and copies them, and prints counts.
#![tactic(auto)]

mod copies;
mod texts;

use crate::copies::Work;
use bug_ops::BugOp;
use gb_text::Id;
use json_span::members;
use op_kind::{OpKind, Place};
use serde_json::Value;
use sha2::{Digest, Sha256};
use std::alloc::{AllocError, Global};
use std::rt::{Env, Files};
use std::{env, fs, io};

/// What is done with the lines.
#[derive(Clone, Copy, Debug, PartialEq, Eq)]
enum Task {
    /// The members of each are counted, as `json_span` splits it.
    Split,
    /// Each is counted where `serde_json` reads a value of it.
    Value,
    /// The first byte of each one's SHA-256 is counted.
    Hash,
    /// The comments of the bug that they add up to are counted.
    Fold,
}

impl Task {
    fn named(word: &str) -> Option<Task> {
        match word {
            "split" => Some(Task::Split),
            "value" => Some(Task::Value),
            "hash" => Some(Task::Hash),
            "fold" => Some(Task::Fold),
            _ => None,
        }
    }
}

fn place(index: usize) -> Place {
    Place {
        id: Id::from_bytes(Sha256::digest(index.to_be_bytes().as_slice())),
        author: Id::from_bytes([1; 32]),
        edit: 1,
        create: None,
    }
}

// The comments of the bug that the lines add up to, or 0 where a line is no operation.
fn fold(alloc: Global, lines: &[&str]) -> u64 {
    let mut state = BugOp::start(alloc);
    for (index, line) in lines.iter().enumerate() {
        let Ok(op) = BugOp::read_op(alloc, place(index), line.as_bytes()) else {
            return 0;
        };
        if BugOp::apply(alloc, &mut state, &op).is_err() {
            return 0;
        }
    }
    state.finish(alloc).map_or(0, |bug| bug.row.comments)
}

// What a line counts.
fn count(alloc: Global, task: Task, line: &str) -> u64 {
    match task {
        Task::Split => members(alloc, line.as_bytes()).map_or(0, |parts| parts.len() as u64),
        Task::Value => u64::from(Value::from_str(alloc, line).is_ok()),
        Task::Hash => u64::from(Sha256::digest(line.as_bytes())[0]),
        Task::Fold => 0,
    }
}

// What the lines count.
fn count_lines(alloc: Global, task: Task, lines: &[&str]) -> u64 {
    if task == Task::Fold {
        return fold(alloc, lines);
    }
    let mut total = 0u64;
    for line in lines {
        total = total.saturating_add(count(alloc, task, line));
    }
    total
}

// What the lines count, gone over so many times.
fn count_all(alloc: Global, task: Task, lines: &[&str], rounds: u64) -> u64 {
    let mut total = 0u64;
    for _ in 0..rounds {
        total = total.saturating_add(count_lines(alloc, task, lines));
    }
    total
}

fn lines_of<'a>(alloc: Global, text: &'a str) -> Result<Vec<&'a str>, AllocError> {
    text.lines().collect(alloc)
}

// What is counted in the lines of a file, gone over so many times. None where no task or no number
// has this word.
fn over_file<R: Files + AllocGlobal>(
    rt: &R,
    path: &str,
    task: &str,
    rounds: &str,
) -> io::Result<Option<u64>> {
    let (Some(task), Ok(rounds)) = (Task::named(task), rounds.parse::<u64>()) else {
        return Ok(None);
    };
    let text = fs::read_to_string(rt, path)?;
    let lines = lines_of(rt.alloc(), text.as_str())?;
    Ok(Some(count_all(rt.alloc(), task, &lines, rounds)))
}

// What is counted over so many bugs in memory. None where no work or no number has this word.
fn over_bugs(alloc: Global, work: &str, bugs: &str) -> Option<u64> {
    let work = Work::named(work)?;
    let bugs = bugs.parse::<u64>().ok()?;
    copies::count(alloc, work, bugs)
}

// What the words ask for: a file, a task and how many times, or a work and how many bugs. None where
// they ask for nothing.
fn answer<R: Env + Files + AllocGlobal>(rt: &R) -> io::Result<Option<u64>> {
    let mut words = env::args(rt)?;
    let _name = words.next();
    let (Some(first), Some(second)) = (words.next(), words.next()) else {
        return Ok(None);
    };
    match words.next() {
        Some(rounds) => over_file(rt, first.as_str(), second.as_str(), rounds.as_str()),
        None => Ok(over_bugs(rt.alloc(), first.as_str(), second.as_str())),
    }
}

fn main(rt: HostRuntime) -> io::Result<()> {
    match answer(&rt)? {
        Some(total) => println!(rt; "{total}"),
        None => println!(rt;
            "speed FILE split|value|hash|fold ROUNDS, or speed build|copy|reads BUGS"
        ),
    }
}
