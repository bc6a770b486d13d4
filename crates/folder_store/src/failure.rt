//! Calls of the system that fail: what was asked, at which path, and what the system said.
ghost use Rattle.std.specs.Prelude.{◌≡◌, ◌↔◌, Ok, IfOk, IfErr, IsErrAnd, IsTrue, IsFalse};
ghost use Rattle.std.specs.IoError.{error_kind};

use std::alloc::{AllocError, AllocFailed, Global};
use std::io::ErrorKind;
use std::{fmt, io};

/// What was asked of the system.
#[derive(Clone, Copy, Debug, PartialEq, Eq)]
pub enum Call {
    Look,
    Enter,
    Read,
    List,
    Write,
    Remove,
    Make,
    Sync,
    Lock,
}

impl fmt::Display for Call {
    fn fmt<W: fmt::Write>(&self, f: &mut fmt::Formatter<W>) -> fmt::Result {
        f.write_str(match self {
            Call::Look => "cannot be looked at",
            Call::Enter => "cannot be entered",
            Call::Read => "cannot be read",
            Call::List => "cannot be listed",
            Call::Write => "cannot be written",
            Call::Remove => "cannot be removed",
            Call::Make => "cannot be made",
            Call::Sync => "cannot be synced",
            Call::Lock => "cannot be locked",
        })
    }
}

/// A call of the system that failed.
#[derive(Debug, Drop)]
pub struct Failure {
    /// Whether it is reported as out of memory, which says that nothing was written.
    pub is_out_of_memory: bool,
    said: io::Error,
    call: Call,
    path: Option<String>,
}

impl Failure {
    /// What the system said of a call at a path.
    pub fn new(alloc: Global, call: Call, path: &str, said: io::Error) -> Failure
        ensures { IsTrue result.is_out_of_memory ↔ error_kind said ≡ ErrorKind.OutOfMemory }
    {
        Failure {
            is_out_of_memory: said.kind() == ErrorKind::OutOfMemory,
            said,
            call,
            path: String::from_str(alloc, path).ok(),
        }
    }

    /// The same after a write: it is not reported as out of memory.
    pub fn after_a_write(self) -> Failure
        ensures { IsFalse result.is_out_of_memory }
    {
        let Failure {
            said,
            call,
            path,
            ..
        } = self;
        Failure {
            is_out_of_memory: false,
            said,
            call,
            path,
        }
    }
}

/// What a call at a path gave, or its failure.
pub fn at<T: Drop>(alloc: Global, call: Call, path: &str, done: io::Result<T>) -> Result<T, Failure>
    ensures ok { IfOk done (λ value. result ≡ Ok value) }
    ensures err { IfErr done (λ said. IsErrAnd result (λ e.
        IsTrue e.is_out_of_memory ↔ error_kind said ≡ ErrorKind.OutOfMemory)) }
{
    match done {
        Ok(value) => Ok(value),
        Err(said) => Err(Failure::new(alloc, call, path, said)),
    }
}

// Where memory ran out, which path was meant is not said.
fn out_of_memory() -> Failure
    ensures { IsTrue result.is_out_of_memory }
{
    Failure {
        is_out_of_memory: true,
        said: io::Error::from(ErrorKind::OutOfMemory),
        call: Call::Look,
        path: None,
    }
}

impl From<AllocError> for Failure {
    ghost use Rattle.std.specs.Prelude.{IsTrue};

    ghost from_gives = { λ _ e. IsTrue e.is_out_of_memory };

    fn from(_: AllocError) -> Self {
        out_of_memory()
    }
}

impl<T: Drop> From<AllocFailed<T>> for Failure {
    ghost use Rattle.std.specs.Prelude.{IsTrue};

    ghost from_gives = { λ _ e. IsTrue e.is_out_of_memory };

    fn from(_: AllocFailed<T>) -> Self {
        out_of_memory()
    }
}

impl fmt::Display for Failure {
    fn fmt<W: fmt::Write>(&self, f: &mut fmt::Formatter<W>) -> fmt::Result {
        let call = &self.call;
        let said = &self.said;
        match &self.path {
            Some(path) => {
                let path = path.as_str();
                write!(f, "{path} {call}: {said}")
            }
            None => write!(f, "out of memory"),
        }
    }
}
