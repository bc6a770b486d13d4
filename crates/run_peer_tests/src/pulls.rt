//! Pulls of the folder `f` from the peer `p`, and what is seen of `f`.
use crate::objects::{Change, Commit, Names, spoil};
use fixtures::{Disk, text_at};
use gb_store::Store;
use run_fixtures::{DONE, REFUSED, run_into, run_words, sink};
use std::alloc::Global;
use std::test::Fail;

// A person and a bug in each folder. The peer's bug has the id that begins with b4e2, and the other
// one that with 5867.
const BEGUN: [(&[&str], u8); 4] = [
    (&["p", "user-new", "Ann", "ann@x"], 1),
    (&["p", "new", "good", "message"], 2),
    (&["f", "user-new", "Bo", "bo@x"], 3),
    (&["f", "new", "own", "message"], 4),
];

/// The arguments of a pull.
pub const PULL: [&str; 4] = ["f", "pull", "origin", "p"];

// What `f` is asked for.
const QUESTIONS: [&[&str]; 6] = [
    &["f", "users"],
    &["f", "ls"],
    &["f", "show", "b4e2"],
    &["f", "show", "5867"],
    &["f", "log", "b4e2"],
    &["f", "log", "5867"],
];

/// Both folders, before anything of the peer has come.
pub fn begun(alloc: Global) -> Result<Disk, Fail> {
    let mut disk = Disk::at(alloc, "p", &[])?;
    for (words, number) in BEGUN {
        run_words(&mut disk, words, number)?;
    }
    Ok(disk)
}

/// How a run ends, and what it prints.
pub fn told(disk: &mut Disk, words: &[&str]) -> Result<(u8, String), Fail> {
    let mut sink = sink(disk.alloc);
    let status = run_into(disk, &mut sink, words, 9)?;
    Ok((status, String::from_utf8_lossy(disk.alloc, sink.bytes())?))
}

// Adds a line for each file in a folder: its path and its text.
fn push_files(disk: &mut Disk, dir: &str, text: &mut String) -> Result<(), Fail> {
    let names = disk.store.list(disk.alloc, dir)?;
    for name in names.as_slice() {
        let path = format!(in disk.alloc; "{dir}/{}", name.as_str())?;
        let file = text_at(disk, path.as_str())?.ok_or("a file")?;
        text.push_str(format!(in disk.alloc; "{path} {file:?}\n")?.as_str())?;
    }
    Ok(())
}

// The local refs, the clocks and the user of `f`, and what it prints. Its rows are stored then.
fn seen(disk: &mut Disk) -> Result<String, Fail> {
    let mut text = String::new(disk.alloc);
    for dir in [
        "f/refs/bugs",
        "f/refs/identities",
        "f/git-bug/clocks",
        "f/git-bug",
    ] {
        push_files(disk, dir, &mut text)?;
    }
    for words in QUESTIONS {
        let (_, printed) = told(disk, words)?;
        text.push_str(printed.as_str())?;
    }
    Ok(text)
}

/// What pulls print where the peer has nothing with a fault, the first one and the next one, and
/// what is seen of `f` after each.
#[derive(Drop)]
pub struct Good {
    pub first: String,
    pub next: String,
    pub seen: String,
}

/// Pulls from the good peer.
pub fn pull_good(alloc: Global) -> Result<Good, Fail> {
    let mut disk = begun(alloc)?;
    let (status, first) = told(&mut disk, &PULL)?;
    let seen = seen(&mut disk)?;
    let (again, next) = told(&mut disk, &PULL)?;
    if (status, again) != (DONE, DONE) || first.as_str().lines().count() != 4 {
        return Err(Fail::new(format_args!("{status}, {first:?}, {again}, {next:?}")));
    }
    Ok(Good { first, next, seen })
}

// The lines of a text that name an id, or those that do not.
fn lines_with(alloc: Global, text: &str, id: &str, has: bool) -> Result<String, Fail> {
    let mut lines = String::new(alloc);
    for line in text.lines() {
        if line.contains(id) == has {
            lines.push_str(line)?;
            lines.push('\n')?;
        }
    }
    Ok(lines)
}

// The lines of an entity: this one, and where it is one of a merge that it was fetched before.
fn lines_of(alloc: Global, line: &str, fetched: &str) -> Result<String, Fail> {
    let mut words = line.split(' ');
    let verb = words.next().ok_or("a verb")?;
    let kind = words.next().ok_or("a kind")?;
    let id = words.next().ok_or("an id")?;
    if verb == "fetch" {
        return Ok(format!(in alloc; "{line}\n")?);
    }
    Ok(format!(in alloc; "fetch {kind} {id} {fetched}\n{line}\n")?)
}

/// The folder of refs and the id of an entity of the peer.
pub type Entity = (&'static str, &'static str);

/// What a case makes of the peer's entity: the head that `f` pulls before, if a mark is given, then
/// its head, by a mark or the text of its ref, what happens to the files then, and the last line of
/// the entity: one of these.
#[derive(Clone, Copy)]
pub struct Fault<'a> {
    pub entity: Entity,
    pub known: &'a str,
    pub head: &'a str,
    pub change: Change,
    pub lines: &'a [&'a str],
}

/// Commits of the peer's entity, its head, what happens to the files then, and its lines.
#[derive(Clone, Copy)]
pub struct Case(
    pub &'static [Commit],
    pub &'static str,
    pub Change,
    pub &'static [&'static str],
);

/// The last commit of the peer's entity, which is its head, and the entity's line.
#[derive(Clone, Copy)]
pub struct Last(pub Commit, pub &'static str);

// Sets the peer's ref of the entity.
fn put_ref(disk: &mut Disk, names: &Names, entity: Entity, head: &str) -> Result<(), Fail> {
    let path = format!(in disk.alloc; "p/refs/{}/{}", entity.0, entity.1)?;
    if head.len() == 2 {
        let name = names.get(head)?;
        return disk.put(path.as_str(), &name.text());
    }
    disk.put(path.as_str(), head.as_bytes())
}

/// Whether the lines of an entity are one of these and, where that is one of a merge, the line of a
/// fetch before it, and all others are these.
pub fn prints(
    alloc: Global,
    text: &str,
    id: &str,
    lines: &[String],
    wanted: (&str, &str),
) -> Result<bool, Fail> {
    let own = lines_with(alloc, text, id, true)?;
    let others = lines_with(alloc, text, id, false)?;
    let mut found = false;
    for line in lines {
        let wanted = lines_of(alloc, line.as_str(), wanted.0)?;
        found = found || own.as_str() == wanted.as_str();
    }
    Ok(found && others.as_str() == wanted.1)
}

/// Sees that a pull is refused with a line of these, and that the same is seen of `f` as before.
pub fn refuses(
    disk: &mut Disk,
    id: &str,
    lines: &[String],
    wanted: (&str, &str),
    before: &str,
) -> Result<(), Fail> {
    let (status, text) = told(disk, &PULL)?;
    if status != REFUSED || !prints(disk.alloc, text.as_str(), id, lines, wanted)? {
        return Err(Fail::new(format_args!("ended with {status}, {text:?}, not {lines:?}")));
    }
    let after = seen(disk)?;
    if after.as_str() == before {
        return Ok(());
    }
    Err(Fail::new(format_args!("{lines:?}: seen {after:?}, not {before:?}")))
}

// Sees that the next pull is refused in the same way, writes nothing, and reads so many objects at
// most.
fn refuses_again(
    disk: &mut Disk,
    id: &str,
    lines: &[String],
    next: &str,
    most: u64,
) -> Result<(), Fail> {
    let (writes, reads) = (disk.store.writes(), disk.store.reads());
    let (status, text) = told(disk, &PULL)?;
    let read = disk.store.reads().saturating_sub(reads);
    if status == REFUSED
        && prints(disk.alloc, text.as_str(), id, lines, ("same", next))?
        && disk.store.writes() == writes
        && read <= most
    {
        return Ok(());
    }
    Err(Fail::new(format_args!("again: {status}, {text:?}, {read} reads")))
}

// The lines of an entity, with the names that marks name.
fn full_lines(alloc: Global, names: &Names, lines: &[&str], id: &str) -> Result<Vec<String>, Fail> {
    let mut full = Vec::new(alloc);
    for line in lines {
        full.push(names.full(alloc, line, id)?)?;
    }
    Ok(full)
}

// How many objects are read at most where nothing new comes and there are so many commits: three
// for each. Where a head is known, two walks find whether one of both lies below the other. A fetch
// that is refused reads each object in both folders, and one more is the empty file.
fn most_reads(fault: &Fault, commits: usize) -> u64 {
    let commits = commits as u64;
    let each = commits.saturating_mul(3);
    if fault.lines.iter().any(|line| line.starts_with("fetch")) {
        return each.saturating_add(1).saturating_mul(2);
    }
    if fault.known.is_empty() {
        return each;
    }
    commits.saturating_mul(5)
}

// Pulls the head that is known, if there is one. Answers the other lines that the next pull has,
// and what is seen of `f` after it.
fn know(
    disk: &mut Disk,
    names: &Names,
    good: &Good,
    fault: &Fault,
) -> Result<(String, String), Fail> {
    if fault.known.is_empty() {
        let first = String::from_str(disk.alloc, good.first.as_str())?;
        return Ok((first, String::from_str(disk.alloc, good.seen.as_str())?));
    }
    put_ref(disk, names, fault.entity, fault.known)?;
    let (status, text) = told(disk, &PULL)?;
    if status != DONE {
        return Err(Fail::new(format_args!("{}: {status}, {text:?}", fault.known)));
    }
    let next = String::from_str(disk.alloc, good.next.as_str())?;
    Ok((next, seen(disk)?))
}

/// Sees that the peer's entity is refused with its line, while all else comes as from a peer
/// without it, and that nothing of it is seen in `f`.
pub fn refuse(disk: &mut Disk, names: &Names, good: &Good, fault: &Fault) -> Result<(), Fail> {
    let id = fault.entity.1;
    let (others, before) = know(disk, names, good, fault)?;
    put_ref(disk, names, fault.entity, fault.head)?;
    spoil(disk, names, fault.change)?;
    let lines = full_lines(disk.alloc, names, fault.lines, id)?;
    let most = most_reads(fault, names.count());
    refuses(
        disk,
        id,
        &lines,
        ("fetched", others.as_str()),
        before.as_str(),
    )?;
    refuses_again(disk, id, &lines, good.next.as_str(), most)
}

/// Sees so of each case. Where a mark is given, `f` has pulled this head before.
pub fn refuse_each(alloc: Global, entity: Entity, known: &str, cases: &[Case]) -> Result<(), Fail> {
    let good = pull_good(alloc)?;
    for case in cases {
        let Case(commits, head, change, lines) = *case;
        let mut disk = begun(alloc)?;
        let mut names = Names::new(alloc);
        names.put_all(&mut disk, commits)?;
        let fault = Fault {
            entity,
            known,
            head,
            change,
            lines,
        };
        refuse(&mut disk, &names, &good, &fault)?;
    }
    Ok(())
}

/// Sees so of each last commit, which is put over these and named by the head.
pub fn refuse_last(
    alloc: Global,
    entity: Entity,
    known: &str,
    commits: &[Commit],
    head: &str,
    lasts: &[Last],
) -> Result<(), Fail> {
    let good = pull_good(alloc)?;
    for last in lasts {
        let mut disk = begun(alloc)?;
        let mut names = Names::new(alloc);
        names.put_all(&mut disk, commits)?;
        names.put(&mut disk, last.0)?;
        let fault = Fault {
            entity,
            known,
            head,
            change: Change::Nothing,
            lines: &[last.1],
        };
        refuse(&mut disk, &names, &good, &fault)?;
    }
    Ok(())
}
