//! The status that the program ends with.
ghost use Rattle.std.specs.Prelude.{◌≡◌, Result, Ok, Err};
ghost use Rattle.std.specs.Process.{exit_status};
ghost use Rattle.gitbug_edge.specs.Exit.{exit_number, started_number};

use bug_run::Status;
use std::io;
use std::process::ExitCode;

/// What the program ends with: the number of the status of its run, or 6 where the words, the clock or the random bytes
/// could not be had.
pub fn exit_code(started: &io::Result<Status>) -> ExitCode
    ensures { exit_status result ≡ started_number started.now }
{
    match started {
        Ok(status) => ExitCode::from(exit_number(status)),
        Err(_) => ExitCode::from(NOT_STARTED),
    }
}

/// Each number by an example: those of the statuses that a run ends with, and that of a run that was not begun.
pub fn numbers_are_fixed<E>()
    ensures done { (ended : Result Status E) → ended ≡ Ok Status.Done → started_number ended ≡ 0 }
    ensures usage { (ended : Result Status E) → ended ≡ Ok Status.Usage → started_number ended ≡ 2 }
    ensures disk { (ended : Result Status E) → ended ≡ Ok Status.DiskFault → started_number ended ≡ 3 }
    ensures memory { (ended : Result Status E) → ended ≡ Ok Status.Memory → started_number ended ≡ 4 }
    ensures output { (ended : Result Status E) → ended ≡ Ok Status.OutFault → started_number ended ≡ 5 }
    ensures not_begun { (error : E) → started_number (Err error) ≡ 6 }
{}

// The number where a run could not be started.
const NOT_STARTED: u8 = 6;

// The number of a status.
fn exit_number(status: &Status) -> u8
    ensures { result ≡ exit_number status.now }
{
    match status {
        Status::Done => 0,
        Status::Refused(_) => 1,
        Status::Usage => 2,
        Status::DiskFault => 3,
        Status::Memory => 4,
        Status::OutFault => 5,
    }
}
