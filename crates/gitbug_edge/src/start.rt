//! What `main` does.
ghost use Rattle.std.specs.Prelude.{◌≡◌, ◌/◌};
ghost use Rattle.std.specs.Duration.{as_nanos};

use crate::claims::claims_of;
use crate::guard::look_at;
use crate::outcome::{explain, explain_made, explain_memory, missing_folder};
use crate::say::noted;
use crate::writer::SteadyWriter;
use bug_run::{Status, moment_of, run};
use folder_store::{Claim, FolderStore, Locking, again};
use gb_store::{Sink, WriteSink};
use std::alloc::AllocError;
use std::rt::{Clock, Env, Runtime};
use std::time::Duration;
use std::{env, io};
use words::{Asked, read_words};

/// Does what the words of the command line ask, over real folders and standard output. An error says that it was not begun.
/// Standard error says, for people, why a run was not begun, and why it ended with another status than done.
pub fn run_words<R: Runtime + AllocGlobal + Locking>(rt: &R) -> io::Result<Status> {
    let words = noted(rt, "the arguments cannot be read", words(rt))?;
    let mut out = WriteSink::new(SteadyWriter::new(rt, io::writer(rt)));
    run_over_folders(rt, &words, &mut out)
}

/// Does what these words ask, over real folders and this sink.
pub fn run_over_folders<R: Runtime + AllocGlobal + Locking, K: Sink>(
    rt: &R,
    words: &[String],
    out: &mut K,
) -> io::Result<Status> {
    let now = noted(rt, "the clock cannot be read", seconds(rt))?;
    let seed = noted(rt, "random bytes cannot be had", random_bytes(rt))?;
    let Ok(asked) = read_words(rt.alloc(), words) else {
        explain_memory(rt);
        return Ok(Status::Memory);
    };
    let mut disk = FolderStore::new(rt.clone()?, claims_looked_at(rt, &asked)?);
    let missing = missing_folder(rt, words);
    let moment = moment_of(now, seed);
    let status = run(rt.alloc(), words, asked, &mut disk, out, moment);
    disk.leave();
    explain(rt, words, &status, &disk);
    explain_made(rt, missing);
    Ok(status)
}

// The folders in which the arguments ask for something, if the run may work in them.
fn claims_looked_at<R: Runtime + AllocGlobal>(rt: &R, asked: &Asked) -> io::Result<Vec<Claim>> {
    let alloc = rt.alloc();
    let claims = noted(
        rt,
        "the folder cannot be read",
        claims_of(alloc, asked).map_err(|_| io::Error::from(AllocError)),
    )?;
    look_at(rt, alloc, &claims, matches!(asked, Asked::List(_)))?;
    Ok(claims)
}

// The words after the program's name.
fn words<R: Env + AllocGlobal>(rt: &R) -> io::Result<Vec<String>> {
    let mut words = env::args(rt)?;
    let _name = words.next();
    Ok(words.collect(rt.alloc())?)
}

// 32 random bytes.
fn random_bytes<R: Locking>(rt: &R) -> io::Result<[u8; 32]> {
    let mut bytes = [0u8; 32];
    again(|| rt.fill_bytes(&mut bytes))?;
    Ok(bytes)
}

// The whole seconds since 1970. A clock that is set before 1970 gives an error.
fn seconds(rt: &impl Clock) -> io::Result<i64> {
    let since = rt.since_1970()?;
    Ok(i64::try_from(whole_seconds(&since)).unwrap_or(i64::MAX))
}

// The seconds of a time, without their parts.
fn whole_seconds(time: &Duration) -> u64
    ensures { result ≡ as_nanos time.now / 1_000_000_000 }
{
    time.as_secs()
}
