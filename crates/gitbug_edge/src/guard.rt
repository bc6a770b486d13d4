//! A look at the folders of a run before it begins: those that are Git's own, and those that hold nothing.
use crate::say::say;
use folder_store::{Claim, Purpose, again};
use std::alloc::Global;
use std::fs::Metadata;
use std::io::ErrorKind;
use std::os::unix::fs::MetadataExt;
use std::rt::Files;
use std::{fs, io};

/// Refuses to write in a folder that is Git's own, since Git would find objects there that it cannot read. Says of a folder that
/// is read, or listed, why nothing is in it, and of one that is written that it is among the files of a Git work tree.
pub fn look_at<R: Files + Eprint>(
    rt: &R,
    alloc: Global,
    claims: &[Claim],
    is_list: bool,
) -> io::Result<()> {
    for claim in claims {
        let path = claim.path();
        match claim.purpose {
            Purpose::Read => look_at_read(rt, alloc, path)?,
            Purpose::Write if is_of_git(rt, alloc, path)? => return Err(refuse(rt, path, is_list)),
            Purpose::Write if is_list => look_at_read(rt, alloc, path)?,
            Purpose::Write => look_at_written(rt, alloc, path)?,
        }
    }
    Ok(())
}

/// Whether something is at a path.
pub fn is_there<R: Files>(rt: &R, path: &str) -> bool {
    found(rt, path).is_some()
}

// Nothing is done in a folder of Git's own, which a list would write rows into.
fn refuse<R: Eprint>(rt: &R, path: &str, is_list: bool) -> io::Error {
    let why = match is_list {
        true => UNREAD,
        false =>
            " is Git's own, and nothing was written: name another folder, which Git does not use",
    };
    say_of(rt, path, why);
    io::Error::from(ErrorKind::PermissionDenied)
}

const UNREAD: &str =
    " is Git's own, and what Git wrote there cannot be read: name a folder that gitbug wrote";

// Says of a folder that is read why nothing is in it.
fn look_at_read<R: Files + Eprint>(rt: &R, alloc: Global, path: &str) -> io::Result<()> {
    let why = match why_empty(rt, path) {
        Some(why) => why,
        None if is_repository(rt, alloc, path)? => UNREAD,
        None if is_bare_tree(rt, alloc, path)? =>
            " is a Git work tree, and gitbug wrote nothing there",
        None => return Ok(()),
    };
    say_of(rt, path, why);
    Ok(())
}

fn say_of<R: Eprint>(rt: &R, path: &str, why: &str) {
    say(rt, &[path, why]);
}

// Says of a folder that is about to be written for the first time that it is among the files of a work tree.
fn look_at_written<R: Files + Eprint>(rt: &R, alloc: Global, path: &str) -> io::Result<()> {
    if is_bare_tree(rt, alloc, path)? {
        say(rt, &[path, AMONG, path, "/bugs"]);
    }
    Ok(())
}

const AMONG: &str =
    " is in a Git work tree: refs, objects and git-bug are put beside its files; to keep them apart, name a folder \
    of their own, as ";

// Whether a folder has no refs yet, and is the top of a work tree, or is called `.` and is in one.
fn is_bare_tree<R: Files>(rt: &R, alloc: Global, folder: &str) -> io::Result<bool> {
    let refs = format!(in alloc; "{folder}/refs")?;
    let git = format!(in alloc; "{folder}/.git")?;
    if is_there(rt, refs.as_str()) {
        return Ok(false);
    }
    Ok(is_there(rt, git.as_str()) || folder == "." && ABOVE.iter().any(|git| is_there(rt, git)))
}

// Where a work tree has its repository, from a folder that lies not too deep in it.
const ABOVE: [&str; 4] = ["../.git", "../../.git", "../../../.git", "../../../../.git"];

// Whether a folder is one in which Git keeps a repository, or is the folder of such a one's objects.
fn is_of_git<R: Files>(rt: &R, alloc: Global, folder: &str) -> io::Result<bool> {
    let above = format!(in alloc; "{folder}/..")?;
    let above = above.as_str();
    Ok(
        is_repository(rt, alloc, folder)?
            || is_same(rt, folder, format!(in alloc; "{above}/objects")?.as_str())
                && is_repository(rt, alloc, above)?
            || is_same(
                rt,
                format!(in alloc; "{folder}/objects")?.as_str(),
                format!(in alloc; "{folder}/.git/objects")?.as_str(),
            ),
    )
}

// Whether a folder holds what each of Git's repositories holds.
fn is_repository<R: Files>(rt: &R, alloc: Global, folder: &str) -> io::Result<bool> {
    let head = format!(in alloc; "{folder}/HEAD")?;
    let config = format!(in alloc; "{folder}/config")?;
    Ok(is_there(rt, head.as_str()) && is_there(rt, config.as_str()))
}

// Whether two paths name one folder.
fn is_same<R: Files>(rt: &R, one: &str, two: &str) -> bool {
    match (found(rt, one), found(rt, two)) {
        (Some(one), Some(two)) => one.dev() == two.dev() && one.ino() == two.ino(),
        _ => false,
    }
}

// What a path names, if it can be looked at.
fn found<R: Files>(rt: &R, path: &str) -> Option<Metadata> {
    again(|| fs::metadata(rt, path)).ok()
}

// Why a path is read as a folder with nothing in it, if it is.
fn why_empty<R: Files>(rt: &R, path: &str) -> Option<&'static str> {
    match again(|| fs::metadata(rt, path)) {
        Ok(entry) if entry.is_dir() => None,
        Ok(_) => Some(" is not a folder; it is read as a folder with nothing in it"),
        Err(e) => match e.kind() {
            ErrorKind::NotFound | ErrorKind::NotADirectory => {
                Some(" does not exist; it is read as a folder with nothing in it")
            }
            _ => None,
        },
    }
}
