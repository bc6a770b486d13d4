//! The program: a world of folders that three numbers ask for, and what they show after an
//! exchange.
#![tactic(auto)]

use gb_store::WriteSink;
use gitbug_edge::exit_code;
use std::io::IsTerminal;
use std::process::ExitCode;
use std::rt::Env;
use std::{env, io};
use world::{Watch, run_world};

// After how many events the line on standard error is written anew.
const STEP: u64 = 1_000;

fn main(rt: HostRuntime) -> ExitCode {
    let mut out = WriteSink::new(io::writer(&rt));
    let mut progress = Progress {
        rt: &rt,
        is_seen: rt.stderr().is_terminal(),
    };
    let status = match words(&rt) {
        Ok(words) => Ok(run_world(rt.alloc(), &words, &mut out, &mut progress)),
        Err(e) => Err(e),
    };
    exit_code(&status)
}

// A line on standard error, where that is a terminal.
#[derive(Drop)]
struct Progress<'a, R: Eprint> {
    rt: &'a R,
    is_seen: bool,
}

impl<'a, R: Eprint> Watch for Progress<'a, R> {
    ghost use Rattle.std.specs.Prelude.{[], false};

    ghost tells = { false };

    ghost told = { λ _. [] };

    fn played(&mut self, count: u64, all: u64) {
        if self.is_seen && (count % STEP == 0 || count == all) {
            let end = if count == all { "\n" } else { "" };
            let _ = eprint!(self.rt; "\rplayed {count} of {all} events{end}");
        }
    }
}

// The arguments after the program's name.
fn words<R: Env + AllocGlobal>(rt: &R) -> io::Result<Vec<String>> {
    let mut words = env::args(rt)?;
    let _name = words.next();
    Ok(words.collect(rt.alloc())?)
}
