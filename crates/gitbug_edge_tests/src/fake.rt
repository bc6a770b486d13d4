//! A system whose clock and random bytes a test gives, over the folders of the real one. It notes what it is asked.
use crate::system::Testing;
use std::alloc::{AllocError, Allocator, Global};
use std::cell::{Cell, RefCell};
use std::env::FillError;
use std::fs::{File, Metadata, OpenOptions};
use std::io::{Error, ErrorKind};
use std::random::RandomSource;
use std::rt::{Clock, Env, Files, Runtime};
use std::time::Duration;
use std::{fmt, io};

/// What the system was asked.
#[derive(Drop)]
pub struct Notes {
    said: RefCell<String>,
    calls: RefCell<String>,
    slept: Cell<Duration>,
    filled: Cell<u8>,
    is_interrupted: Cell<bool>,
}

impl Notes {
    /// Nothing yet.
    pub fn new(alloc: Global) -> Notes {
        Notes {
            said: RefCell::new(String::new(alloc)),
            calls: RefCell::new(String::new(alloc)),
            slept: Cell::new(Duration::ZERO),
            filled: Cell::new(0),
            is_interrupted: Cell::new(false),
        }
    }

    /// What was printed on standard error.
    pub fn said(&self, alloc: Global) -> Result<String, AllocError> {
        text_in(alloc, &self.said)
    }

    /// The calls on files that open or rename, a line each.
    pub fn calls(&self, alloc: Global) -> Result<String, AllocError> {
        text_in(alloc, &self.calls)
    }

    /// How long it slept.
    pub fn slept(&self) -> Duration {
        self.slept.get()
    }
}

fn text_in(alloc: Global, text: &RefCell<String>) -> Result<String, AllocError> {
    match text.try_borrow() {
        Ok(text) => String::from_str(alloc, text.as_str()),
        Err(_) => Err(AllocError),
    }
}

// Adds a text to others.
fn note(texts: &RefCell<String>, text: &str) -> io::Result<()> {
    let mut texts = texts.try_borrow_mut()?;
    texts.push_str(text)?;
    Ok(())
}

/// The system, at one time of the clock. Its random bytes are 0, 1, 2 and so on. A signal interrupts every second look at what
/// a path names. A look at a file `NAME-now` itself sees the file `NAME-then`, as if it had changed since.
#[derive(Clone, Drop)]
pub struct Fake<'a, R: Testing> {
    host: &'a R,
    now: Duration,
    notes: &'a Notes,
}

impl<'a, R: Testing> Fake<'a, R> {
    /// The system at this time since 1970.
    pub fn new(host: &'a R, now: Duration, notes: &'a Notes) -> Fake<'a, R> {
        Fake { host, now, notes }
    }

    fn call(&self, name: &str, path: &str) -> io::Result<()> {
        note(&self.notes.calls, name)?;
        note(&self.notes.calls, " ")?;
        note(&self.notes.calls, path)?;
        note(&self.notes.calls, "\n")
    }
}

impl<'a, R: Testing> Runtime for Fake<'a, R> {}

impl<'a, R: Testing> Alloc for Fake<'a, R> {
    type A = Global;

    fn alloc(&self) -> Global {
        self.host.alloc()
    }
}

impl<'a, R: Testing> Clock for Fake<'a, R> {
    fn monotonic(&self) -> io::Result<Duration> {
        self.host.monotonic()
    }

    fn since_1970(&self) -> io::Result<Duration> {
        Ok(self.now)
    }

    fn sleep(&self, duration: Duration) {
        let slept = self.notes.slept.get();
        self.notes.slept.set(slept.saturating_add(duration));
    }
}

impl<'a, R: Testing> RandomSource for Fake<'a, R> {
    fn fill_bytes(&self, buf: &mut [u8]) -> io::Result<()> {
        for byte in buf {
            let filled = self.notes.filled.get();
            *byte = filled;
            self.notes.filled.set(filled.wrapping_add(1));
        }
        Ok(())
    }
}

impl<'a, R: Testing> Eprint for Fake<'a, R> {
    fn eprint<D: fmt::Display + Drop>(&self, value: D) -> io::Result<()> {
        note(
            &self.notes.said,
            value.to_string(self.host.alloc())?.as_str(),
        )
    }

    fn eprintln<D: fmt::Display + Drop>(&self, value: D) -> io::Result<()> {
        self.eprint(value)?;
        note(&self.notes.said, "\n")
    }
}

impl<'a, R: Testing> Print for Fake<'a, R> {
    fn print<D: fmt::Display + Drop>(&self, value: D) -> io::Result<()> {
        self.host.print(value)
    }

    fn println<D: fmt::Display + Drop>(&self, value: D) -> io::Result<()> {
        self.host.println(value)
    }

    fn write_all(&self, bytes: &[u8]) -> io::Result<()> {
        self.host.write_all(bytes)
    }
}

impl<'a, R: Testing> Input for Fake<'a, R> {
    type Reader = R::Reader;

    fn read_line<A: Allocator + Clone>(&self, buf: &mut String<A>) -> io::Result<usize> {
        self.host.read_line(buf)
    }

    fn lines<A: Allocator>(&self, alloc: A) -> io::Lines<Self::Reader, A> {
        self.host.lines(alloc)
    }

    fn reader(&self) -> Self::Reader {
        self.host.reader()
    }
}

impl<'a, R: Testing> Env for Fake<'a, R> {
    fn arg(&self, i: usize, buf: &mut [u8]) -> Result<usize, FillError> {
        self.host.arg(i, buf)
    }

    fn var(&self, name: &str, buf: &mut [u8]) -> Result<usize, FillError> {
        self.host.var(name, buf)
    }

    fn var_at(&self, i: usize, buf: &mut [u8]) -> Result<usize, FillError> {
        self.host.var_at(i, buf)
    }
}

impl<'a, R: Testing> Files for Fake<'a, R> {
    type File = File;

    type Dir = R::Dir;

    fn open_file(&self, how: &OpenOptions, path: &str) -> io::Result<File> {
        self.call("open", path)?;
        self.host.open_file(how, path)
    }

    fn open_dir(&self, path: &str) -> io::Result<Self::Dir> {
        self.host.open_dir(path)
    }

    fn metadata(&self, path: &str) -> io::Result<Metadata> {
        let is_interrupted = !self.notes.is_interrupted.get();
        self.notes.is_interrupted.set(is_interrupted);
        if is_interrupted {
            return Err(Error::from(ErrorKind::Interrupted));
        }
        self.host.metadata(path)
    }

    fn symlink_metadata(&self, path: &str) -> io::Result<Metadata> {
        match path.strip_suffix("-now") {
            Some(name) => {
                let then = format!(in self.alloc(); "{name}-then")?;
                self.host.symlink_metadata(then.as_str())
            }
            None => self.host.symlink_metadata(path),
        }
    }

    fn copy(&self, _from: &str, _to: &str) -> io::Result<u64> {
        Err(Error::from(ErrorKind::Unsupported))
    }

    fn rename(&self, from: &str, to: &str) -> io::Result<()> {
        self.call("rename", to)?;
        self.host.rename(from, to)
    }

    fn remove_file(&self, path: &str) -> io::Result<()> {
        self.host.remove_file(path)
    }

    fn create_dir(&self, path: &str) -> io::Result<()> {
        self.call("make", path)?;
        self.host.create_dir(path)
    }

    fn remove_dir(&self, path: &str) -> io::Result<()> {
        self.host.remove_dir(path)
    }

    fn remove_dir_all<B: Allocator>(&self, alloc: B, path: &str) -> io::Result<()> {
        self.host.remove_dir_all(alloc, path)
    }
}
