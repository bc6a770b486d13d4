//! The program again, run without arguments, so that the gate sees an exit status other than 0.
#![tactic(auto)]

use gitbug_edge::{exit_code, run_words};
use std::process::ExitCode;

fn main(rt: HostRuntime) -> ExitCode {
    exit_code(&run_words(&rt))
}
