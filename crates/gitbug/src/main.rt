//! The program: what the command line asks, done over real folders and standard output.
#![tactic(auto)]

use gitbug_edge::{exit_code, run_words};
use std::process::ExitCode;

fn main(rt: HostRuntime) -> ExitCode {
    exit_code(&run_words(&rt))
}
