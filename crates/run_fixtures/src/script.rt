//! Scripts of runs and files, in which `$X` is the digits that the letter X stands for.
use crate::known::Known;
use crate::runs::{DONE, REFUSED, run_into, sink};
use fixtures::Disk;
use gb_store::Store;
use gb_text::Name;
use std::alloc::Global;
use std::test::Fail;

/// A step of a script. A letter is given the digits at its place in the first text that has it, and
/// two letters never stand for the same digits. The objects of the last five are in the folder of
/// the script.
#[derive(Clone, Copy)]
pub enum Step {
    /// A run with a number that is done and prints this.
    Does(&'static [&'static str], u8, &'static str),
    /// A run with a number that is refused and prints this.
    Refuses(&'static [&'static str], u8, &'static str),
    /// The last run made so many writes.
    Wrote(u64),
    /// The last run read so many objects.
    Read(u64),
    /// The file at this path has this text.
    Has(&'static str, &'static str),
    /// There is no file at this path.
    Lacks(&'static str),
    /// The file at this path gets this text.
    Puts(&'static str, &'static str),
    /// There is no file at this path from now on.
    Removes(&'static str),
    /// The letter stands for the id that is mixed from the digits of a bug and of an operation.
    Mixes(char, char, char),
    /// The letter stands for the first seven digits of another one.
    Shortens(char, char),
    /// The object of this letter has no file from now on.
    Loses(char),
    /// Its file has other bytes from now on.
    Spoils(char),
    /// The last byte of this object's file is cut off.
    Cuts(char),
    /// Puts a commit with these parents, files and operations, by the author `$A`.
    Commits(char, &'static [char], &'static [&'static str], &'static [&'static str]),
    /// Puts a commit with these parents and this text of a version.
    Versions(char, &'static [char], &'static str),
}

/// A store in memory, and what letters stand for.
#[derive(Drop)]
pub struct Script {
    pub disk: Disk,
    known: Known,
    writes: u64,
    reads: u64,
}

impl Script {
    /// An empty store, and a folder in it.
    pub fn new(alloc: Global, folder: &str) -> Result<Script, Fail> {
        Ok(Script {
            disk: Disk::at(alloc, folder, &[])?,
            known: Known::new(alloc),
            writes: 0,
            reads: 0,
        })
    }

    /// Takes the steps one after another. The first that is wrong is reported by its place.
    pub fn play(&mut self, steps: &[Step]) -> Result<(), Fail> {
        for (place, step) in steps.iter().enumerate() {
            self.take(place, *step)?;
        }
        Ok(())
    }

    fn take(&mut self, place: usize, step: Step) -> Result<(), Fail> {
        match step {
            Step::Does(words, number, text) => self.runs(place, words, number, (DONE, text)),
            Step::Refuses(words, number, text) => self.runs(place, words, number, (REFUSED, text)),
            Step::Wrote(count) => counted(place, "writes", self.writes, count),
            Step::Read(count) => counted(place, "reads", self.reads, count),
            Step::Has(path, text) => self.has(place, path, text),
            Step::Lacks(path) => self.lacks(place, path),
            Step::Puts(path, text) => self.puts(path, text),
            Step::Removes(path) => self.removes(path),
            Step::Mixes(letter, bug, operation) => self.mixes(letter, bug, operation),
            Step::Shortens(letter, of) => self.known.shorten(letter, of),
            Step::Loses(letter) => self.loses(letter),
            Step::Spoils(letter) => self.spoils(letter),
            Step::Cuts(letter) => self.cuts(letter),
            Step::Commits(letter, parents, files, ops) => self.commits(letter, parents, files, ops),
            Step::Versions(letter, parents, text) => self.versions(letter, parents, text),
        }
    }

    /// Runs arguments with a number. Answers how that ended, and what was printed.
    pub fn run(&mut self, words: &[&str], number: u8) -> Result<(u8, String), Fail> {
        let line = self.known.line(words)?;
        let mut all = Vec::new(self.disk.alloc);
        for word in line.as_str().split('\n') {
            all.push(word)?;
        }
        let mut sink = sink(self.disk.alloc);
        let writes = self.disk.store.writes();
        let reads = self.disk.store.reads();
        let status = run_into(&mut self.disk, &mut sink, &all, number)?;
        self.writes = self.disk.store.writes().saturating_sub(writes);
        self.reads = self.disk.store.reads().saturating_sub(reads);
        Ok((
            status,
            String::from_utf8_lossy(self.disk.alloc, sink.bytes())?,
        ))
    }

    /// What a run prints that is done.
    pub fn printed(&mut self, words: &[&str], number: u8) -> Result<String, Fail> {
        let (status, text) = self.run(words, number)?;
        if status == DONE {
            return Ok(text);
        }
        Err(Fail::new(format_args!("{words:?}: ended with {status}, {text:?}")))
    }

    fn runs(
        &mut self,
        place: usize,
        words: &[&str],
        number: u8,
        wanted: (u8, &str),
    ) -> Result<(), Fail> {
        let (status, text) = self.run(words, number)?;
        let full = self.known.fit(wanted.1, text.as_str())?;
        if status == wanted.0 && full.as_str() == text.as_str() {
            return Ok(());
        }
        Err(Fail::new(format_args!(
            "step {place}, {words:?}: ended with {status} and {text:?}, not with {} and {full:?}",
            wanted.0
        )))
    }

    // The text of a file, if there is one.
    fn file(&mut self, path: &str) -> Result<Option<String>, Fail> {
        let path = self.known.full(path)?;
        fixtures::text_at(&mut self.disk, path.as_str())
    }

    fn has(&mut self, place: usize, path: &str, text: &str) -> Result<(), Fail> {
        let found = self.file(path)?.ok_or("a file")?;
        let full = self.known.fit(text, found.as_str())?;
        if full.as_str() == found.as_str() {
            return Ok(());
        }
        Err(Fail::new(format_args!("step {place}: {path} has {found:?}, not {full:?}")))
    }

    fn lacks(&mut self, place: usize, path: &str) -> Result<(), Fail> {
        match self.file(path)? {
            None => Ok(()),
            Some(found) => Err(Fail::new(format_args!("step {place}: {path} has {found:?}"))),
        }
    }

    fn puts(&mut self, path: &str, text: &str) -> Result<(), Fail> {
        let path = self.known.full(path)?;
        let text = self.known.full(text)?;
        self.disk.put(path.as_str(), text.as_bytes())
    }

    fn removes(&mut self, path: &str) -> Result<(), Fail> {
        let path = self.known.full(path)?;
        self.disk.store.remove(self.disk.alloc, path.as_str())?;
        Ok(())
    }

    fn mixes(&mut self, letter: char, bug: char, operation: char) -> Result<(), Fail> {
        let mixed = self.known.mixed(bug, operation)?;
        self.known.add(letter, mixed.as_str())
    }

    fn name(&self, letter: char) -> Result<Name, Fail> {
        fixtures::name(self.known.get(letter)?)
    }

    fn loses(&mut self, letter: char) -> Result<(), Fail> {
        let name = self.name(letter)?;
        fixtures::remove_object(&mut self.disk, &name)
    }

    fn spoils(&mut self, letter: char) -> Result<(), Fail> {
        let name = self.name(letter)?;
        fixtures::put_under(&mut self.disk, &name, b"x")
    }

    fn cuts(&mut self, letter: char) -> Result<(), Fail> {
        let name = self.name(letter)?;
        fixtures::shorten_object(&mut self.disk, &name)
    }

    fn parents(&self, letters: &[char]) -> Result<Vec<Name>, Fail> {
        let mut names = Vec::new(self.disk.alloc);
        for letter in letters {
            names.push(self.name(*letter)?)?;
        }
        Ok(names)
    }

    fn named(&mut self, letter: char, name: &Name) -> Result<(), Fail> {
        let digits = String::from_utf8_lossy(self.disk.alloc, &name.text())?;
        self.known.add(letter, digits.as_str())
    }

    fn commits(
        &mut self,
        letter: char,
        parents: &[char],
        files: &[&str],
        ops: &[&str],
    ) -> Result<(), Fail> {
        let parents = self.parents(parents)?;
        let author = String::from_str(self.disk.alloc, self.known.get('A')?)?;
        let name = fixtures::put_ops(&mut self.disk, author.as_str(), files, ops, &parents)?;
        self.named(letter, &name)
    }

    fn versions(&mut self, letter: char, parents: &[char], text: &str) -> Result<(), Fail> {
        let parents = self.parents(parents)?;
        let name = fixtures::put_version(&mut self.disk, text, &parents)?;
        self.named(letter, &name)
    }
}

// Reports a step where there were not so many.
fn counted(place: usize, what: &str, found: u64, wanted: u64) -> Result<(), Fail> {
    if found == wanted {
        return Ok(());
    }
    Err(Fail::new(format_args!("step {place}: {found} {what}, not {wanted}")))
}
