//! What the program asks of a system whose clock and random bytes are given.
use crate::fake::{Fake, Notes};
use crate::system::{Testing, count, link, make_dir, write};
use bug_edits::EDITS;
use bug_run::Status;
use folder_store::{Claim, FolderStore, Purpose};
use gb_store::{Content, MemSink, Store};
use gb_text::{Folder, List};
use gitbug_edge::{COMMANDS, run_over_folders};
use std::os::unix::fs::PermissionsExt;
use std::test::Fail;
use std::time::Duration;
use std::{fs, io};
use words::{FIRST_VERBS, LAST_VERBS, Verb};

/// Tries each.
pub fn try_all<R: Testing>(rt: &R) -> Result<(), Fail> {
    the_help_has_each_command(rt)?;
    folders_of_git_are_left_alone(rt)?;
    locks_are_waited_for(rt)?;
    the_clock_and_random_bytes_are_used(rt)?;
    locks_are_kept_without_a_peer(rt)?;
    folders_are_synced_after_their_files(rt)?;
    objects_that_were_left_are_synced(rt)?;
    refs_that_an_exchange_finds_are_synced(rt)?;
    files_that_change_are_read_whole(rt)?;
    Ok(())
}

// How a call ended, what it printed on standard output and on standard error, and what else was asked of the system.
#[derive(Drop)]
struct Ran {
    status: io::Result<Status>,
    printed: String,
    said: String,
    notes: Notes,
}

// Runs words at a time that ends in 0.9 seconds.
fn run_at<R: Testing>(rt: &R, words: &[&str]) -> Result<Ran, Fail> {
    let alloc = rt.alloc();
    let notes = Notes::new(alloc);
    let mut texts = Vec::new(alloc);
    for word in words {
        texts.push(String::from_str(alloc, word)?)?;
    }
    let mut out = MemSink::new(alloc, List::new(alloc), 100);
    let fake = Fake::new(rt, Duration::new(1_700_000_000, 900_000_000), &notes);
    let status = run_over_folders(&fake, &texts, &mut out);
    let printed = String::from_utf8_lossy(alloc, out.bytes())?;
    let said = notes.said(alloc)?;
    Ok(Ran {
        status,
        printed,
        said,
        notes,
    })
}

// Each line of the help is a command and what it takes, and each command has a line.
fn the_help_has_each_command<R: Testing>(rt: &R) -> Result<(), Fail> {
    for help in COMMANDS {
        assert!(rt; is_of_a_command(help.call), "at {}", help.call);
    }
    assert_eq!(rt;
        COMMANDS.len(),
        FIRST_VERBS.len() + EDITS.len() + LAST_VERBS.len()
    );
    Ok(())
}

// Whether a text is the name of a command and what it takes.
fn is_of_a_command(call: &str) -> bool {
    let (name, takes) = call.split_once(' ').unwrap_or((call, ""));
    Verb::read(name).is_some_and(|verb| verb.takes() == takes)
}

// A repository, the folder of its objects, a work tree whose objects are a link to those.
fn folders_of_git_are_left_alone<R: Testing>(rt: &R) -> Result<(), Fail> {
    make_repository(rt)?;
    for folder in ["w/.git", "w/.git/objects", "w"] {
        assert!(rt; is_not_begun(rt, folder)?);
    }
    assert_eq!(rt; count(rt, "w/.git")?, 3);
    assert_eq!(rt; count(rt, "w/.git/objects")?, 0);
    Ok(())
}

fn make_repository<R: Testing>(rt: &R) -> Result<(), Fail> {
    for folder in ["w", "w/.git", "w/.git/objects"] {
        make_dir(rt, folder)?;
    }
    write(rt, "w/.git/HEAD", "ref: refs/heads/main\n")?;
    write(rt, "w/.git/config", "")?;
    link(rt, ".git/objects", "w/objects")
}

// Whether no person is made in a folder since it is Git's.
fn is_not_begun<R: Testing>(rt: &R, folder: &str) -> Result<bool, Fail> {
    let ran = run_at(rt, &[folder, "user-new", "Ana", "a@x"])?;
    Ok(
        ran.status.is_err()
            && ran
                .said
                .as_str()
                .contains("is Git's own, and nothing was written"),
    )
}

// Whether words end in a fault of the disk, of which standard error says just this at the end.
fn is_failure<R: Testing>(rt: &R, words: &[&str], said: &str) -> Result<(), Fail> {
    let ran = run_at(rt, words)?;
    assert!(rt; matches!(ran.status, Ok(Status::DiskFault)));
    assert!(rt; ran.said.as_str().ends_with(said));
    assert_eq!(rt; ran.printed.as_str(), "");
    Ok(())
}

// Another program's lock: who reads goes on beside one that is shared, all others wait, and then say for what.
fn locks_are_waited_for<R: Testing>(rt: &R) -> Result<(), Fail> {
    make_dir(rt, "l")?;
    let folder = fs::open(rt, "l")?;
    folder.lock_shared()?;
    is_done(rt, &["l", "users"])?;
    is_failure(rt, &["l", "user-new", "Ana", "a@x"], HELD)?;
    folder.unlock()?;
    folder.lock()?;
    is_failure(rt, &["l", "users"], HELD)?;
    assert!(rt; has_waited(rt)?);
    folder.unlock()?;
    is_done(rt, &["l", "user-new", "Ana", "a@x"])
}

const HELD: &str =
    "gitbug: l cannot be locked: another program has held its lock for half a minute\n";

// Whether a reader waits for about half a minute.
fn has_waited<R: Testing>(rt: &R) -> Result<bool, Fail> {
    let slept = run_at(rt, &["l", "users"])?.notes.slept();
    Ok(slept >= Duration::from_secs(15) && slept <= Duration::from_secs(60))
}

// Whether words are done.
fn is_done<R: Testing>(rt: &R, words: &[&str]) -> Result<(), Fail> {
    let ran = run_at(rt, words)?;
    assert!(rt; matches!(ran.status, Ok(Status::Done)));
    Ok(())
}

// A person whose id follows from the time in whole seconds and from all 32 random bytes.
fn the_clock_and_random_bytes_are_used<R: Testing>(rt: &R) -> Result<(), Fail> {
    let ran = run_at(rt, &["t", "user-new", "Ana", "a@x"])?;
    assert_eq!(rt;
        ran.printed.as_str(),
        "d3a67f20d25e8512d9239d8186a41679540bf4d846fc90dbf031e616befe4401\n"
    );
    let calls = ran.notes.calls(rt.alloc())?;
    assert!(rt; calls.as_str().contains("/.gitbug-2726252423222120\n"));
    assert!(rt; fs::metadata(rt, "t/git-bug/user")?.permissions().mode() & 0o111 == 0);
    Ok(())
}

// The lock of the own folder is kept where the peer is missing: the folder is opened as often as beside an empty peer.
fn locks_are_kept_without_a_peer<R: Testing>(rt: &R) -> Result<(), Fail> {
    make_dir(rt, "te")?;
    let opened = own_opened(rt, "te")?;
    assert_eq!(rt; own_opened(rt, "tm")?, opened);
    Ok(())
}

// How often a pull from a peer opens its own folder.
fn own_opened<R: Testing>(rt: &R, peer: &str) -> Result<usize, Fail> {
    let ran = run_at(rt, &["t", "pull", "o", peer])?;
    assert!(rt; matches!(ran.status, Ok(Status::Done)));
    let calls = ran.notes.calls(rt.alloc())?;
    let opened = calls.as_str().lines().filter(|line| *line == "open t/.");
    Ok(opened.count())
}

// What was asked of the system, without the calls on temporary files.
fn calls_of<'a, R: Testing>(rt: &R, calls: &'a str) -> Result<Vec<&'a str>, Fail> {
    let mut lines = Vec::new(rt.alloc());
    for line in calls.lines() {
        if !line.contains("/.gitbug-") {
            lines.push(line)?;
        }
    }
    Ok(lines)
}

// Whether a folder is opened by itself, as it is to be synced.
fn syncs(lines: &[&str], path: &str) -> bool {
    match path.rsplit_once('/') {
        Some((folder, _)) => lines.iter().any(|line| {
            line.strip_prefix("open ")
                .and_then(|opened| opened.strip_suffix("/."))
                .is_some_and(|opened| opened == folder)
        }),
        None => false,
    }
}

// The place of the put of a ref after another place, or the end.
fn next_ref(lines: &[&str], at: usize) -> usize {
    for (next, line) in lines.iter().enumerate() {
        if next > at && line.starts_with("rename s/refs/") {
            return next;
        }
    }
    lines.len()
}

// Each folder is synced after a file is put in it: those of a tree and of what it names before the commit is put, and that
// of the commit before the ref.
fn folders_are_synced_after_their_files<R: Testing>(rt: &R) -> Result<(), Fail> {
    let ran = run_at(rt, &["s", "user-new", "Ana", "a@x"])?;
    let calls = ran.notes.calls(rt.alloc())?;
    let lines = calls_of(rt, calls.as_str())?;
    let commit = last_object(&lines);
    for (at, line) in lines.iter().enumerate() {
        if let Some(path) = line.strip_prefix("rename ") {
            assert!(rt; is_synced(&lines, commit, at, path));
        }
    }
    assert_eq!(rt; puts_of(&lines), 5);
    Ok(())
}

// How many files are put.
fn puts_of(lines: &[&str]) -> usize {
    lines
        .iter()
        .filter(|line| line.starts_with("rename "))
        .count()
}

// The place of the put of the last object.
fn last_object(lines: &[&str]) -> usize {
    let mut last = 0;
    for (at, line) in lines.iter().enumerate() {
        if line.starts_with("rename s/objects/") {
            last = at;
        }
    }
    last
}

// Whether the folder of a file that is put at a place is synced before what may name it is put.
fn is_synced(lines: &[&str], commit: usize, at: usize, path: &str) -> bool {
    let end = if at < commit {
        commit
    } else {
        next_ref(lines, at)
    };
    syncs(lines.get(at..end).unwrap_or(&[]), path)
}

// Three objects that a killed run left are not put again. Each is opened to be compared. The commit is opened once more to be
// synced: what it names was synced before it. Where the run had not put the commit, the other two are.
fn objects_that_were_left_are_synced<R: Testing>(rt: &R) -> Result<(), Fail> {
    let commit = commit_path(rt)?;
    forget_refs(rt)?;
    assert_eq!(rt; objects_opened(rt)?, 4);
    forget_refs(rt)?;
    fs::remove_file(rt, commit.as_str())?;
    assert_eq!(rt; objects_opened(rt)?, 4);
    Ok(())
}

// The path of the commit of the person.
fn commit_path<R: Testing>(rt: &R) -> Result<String, Fail> {
    let commit = fs::read(rt, PERSON)?;
    let commit = String::from_utf8_lossy(rt.alloc(), &commit)?;
    let name = commit.as_str().trim_end();
    let (front, rest) = name.split_at_checked(2).unwrap_or((name, ""));
    Ok(format!(in rt.alloc(); "s/objects/{front}/{rest}")?)
}

const PERSON: &str =
    "s/refs/identities/d3a67f20d25e8512d9239d8186a41679540bf4d846fc90dbf031e616befe4401";

// Removes the refs, and all that is not an object.
fn forget_refs<R: Testing>(rt: &R) -> Result<(), Fail> {
    fs::remove_dir_all(rt, "s/refs")?;
    Ok(fs::remove_dir_all(rt, "s/git-bug")?)
}

// How often a file of an object is opened to be read, where the same person is made again.
fn objects_opened<R: Testing>(rt: &R) -> Result<usize, Fail> {
    let ran = run_at(rt, &["s", "user-new", "Ana", "a@x"])?;
    assert!(rt; matches!(ran.status, Ok(Status::Done)));
    let calls = ran.notes.calls(rt.alloc())?;
    let lines = calls_of(rt, calls.as_str())?;
    Ok(
        lines
            .iter()
            .filter(|line| line.starts_with("open s/objects/") && !line.ends_with("/."))
            .count(),
    )
}

// What a fetch or a push says is the same has reached the disk, though it puts nothing. It opens no object then.
fn refs_that_an_exchange_finds_are_synced<R: Testing>(rt: &R) -> Result<(), Fail> {
    finds_are_synced(
        rt,
        &["sb", "fetch", "o", "s"],
        "open sb/refs/remotes/o/identities/.",
    )?;
    finds_are_synced(rt, &["s", "push", "sc"], "open sc/refs/identities/.")
}

// Whether an exchange syncs a folder once where it is made again.
fn finds_are_synced<R: Testing>(rt: &R, words: &[&str], synced: &str) -> Result<(), Fail> {
    is_done(rt, words)?;
    let ran = run_at(rt, words)?;
    assert!(rt; ran.printed.as_str().ends_with(" same\n"));
    let calls = ran.notes.calls(rt.alloc())?;
    let calls = calls.as_str();
    assert_eq!(rt; calls.lines().filter(|line| *line == synced).count(), 1);
    assert!(rt; !calls.contains("/objects/"));
    Ok(())
}

// A file is read whole, or is too long, by the bytes that it has when it is read, however many it had when it was looked at.
fn files_that_change_are_read_whole<R: Testing>(rt: &R) -> Result<(), Fail> {
    make_dir(rt, "c")?;
    for then in ["", "1", "22", "333", "4444"] {
        write(rt, "c/a-then", then)?;
        each_text_is_read(rt)?;
    }
    let long = "7".repeat(rt.alloc(), 20_000)?;
    write(rt, "c/a-now", long.as_str())?;
    assert!(rt; is_read(rt, long.as_str(), 19_999)?);
    assert!(rt; is_read(rt, long.as_str(), 20_000)?);
    Ok(())
}

// Reads files of no byte up to four, by limits as small.
fn each_text_is_read<R: Testing>(rt: &R) -> Result<(), Fail> {
    for now in ["", "1", "22", "333", "4444"] {
        write(rt, "c/a-now", now)?;
        for limit in 0..5 {
            assert!(rt; is_read(rt, now, limit)?);
        }
    }
    Ok(())
}

// Whether the file gives this text, or is too long for the limit.
fn is_read<R: Testing>(rt: &R, text: &str, limit: u64) -> Result<bool, Fail> {
    let alloc = rt.alloc();
    let notes = Notes::new(alloc);
    let mut claims = Vec::new(alloc);
    claims.push(Claim {
        folder: Folder::read(alloc, "c")?,
        purpose: Purpose::Read,
    })?;
    let mut store = FolderStore::new(Fake::new(rt, Duration::ZERO, &notes), claims);
    Ok(match store.read(alloc, "c/a-now", limit)? {
        Content::Whole(bytes) => bytes.as_slice() == text.as_bytes()
            && bytes.as_slice().len() as u64 <= limit,
        Content::Long => text.len() as u64 > limit,
        Content::Absent => false,
    })
}
