//! What is said once a run has ended: why it ended so, and what it did that nobody may have meant.
use crate::guard::is_there;
use crate::refusals::{Call, explain_refusal};
use crate::say::say;
use crate::usage::explain_usage;
use bug_run::Status;
use folder_store::{FolderStore, Locking};
use std::rt::{Files, Runtime};

/// Says why a run ended so, where its text does not.
pub fn explain<R: Runtime + AllocGlobal + Locking>(
    rt: &R,
    words: &[String],
    status: &Status,
    disk: &FolderStore<R>,
) {
    match (status, call_of(words)) {
        (Status::Usage, _) => explain_usage(rt, words),
        (Status::Memory, _) => explain_memory(rt),
        (Status::DiskFault, Some(call)) => explain_fault(rt, call.name, disk),
        (Status::Refused(refused), Some(call)) => explain_refusal(rt, call, refused),
        (Status::Done, Some(call)) => explain_dash(rt, call),
        _ => {}
    }
}

/// Says that memory ran out.
pub fn explain_memory<R: Eprint>(rt: &R) {
    say(rt, &["out of memory"]);
}

// The folder, the name of the command and what follows it.
fn call_of(words: &[String]) -> Option<Call> {
    match words {
        [folder, name, rest @ ..] => Some(Call {
            folder: folder.as_str(),
            name: name.as_str(),
            rest,
        }),
        _ => None,
    }
}

// What the system said. A list that cannot store its rows is not printed.
fn explain_fault<R: Runtime + AllocGlobal + Locking>(rt: &R, name: &str, disk: &FolderStore<R>) {
    let Some(failure) = disk.failure() else {
        return;
    };
    let Ok(said) = failure.to_string(rt.alloc()) else {
        return explain_memory(rt);
    };
    let said = said.as_str();
    say(rt, &[said]);
    let is_write = said.contains(" cannot be made: ") || said.contains(" cannot be written: ");
    if is_write && matches!(name, "ls" | "board") {
        say(
            rt,
            &[
                name,
                " stores what it reads of each bug, and this folder cannot be written; show and log write nothing",
            ],
        );
    }
}

// A message that is `-` alone.
fn explain_dash<R: Eprint>(rt: &R, call: Call) {
    match (call.name, call.rest) {
        ("new" | "comment" | "edit", [.., last]) if last.as_str() == "-" => {
            say(
                rt,
                &["the message is just -, since standard input is not read"],
            );
        }
        _ => {}
    }
}

/// The folder that an exchange is about to make: the one that it writes in, if it does not exist.
pub fn missing_folder<'a, R: Files>(rt: &R, words: &'a [String]) -> Option<&'a str> {
    let folder = match call_of(words)? {
        Call {
            name: "push",
            rest: [.., peer],
            ..
        } => peer.as_str(),
        Call {
            name: "fetch" | "pull",
            folder,
            ..
        } => folder,
        _ => return None,
    };
    match is_there(rt, folder) {
        true => None,
        false => Some(folder),
    }
}

/// Says that a folder that did not exist was made.
pub fn explain_made<R: Files + Eprint>(rt: &R, missing: Option<&str>) {
    match missing {
        Some(folder) if is_there(rt, folder) => say(rt, &[folder, " did not exist, and was made"]),
        _ => {}
    }
}
