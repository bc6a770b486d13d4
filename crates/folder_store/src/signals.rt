//! Calls of the system that a signal may interrupt.
use std::io;
use std::io::ErrorKind;

/// More signals than this in one call are a fault.
pub const MOST_SIGNALS: u32 = 10_000;

/// Makes a call, and makes it again where a signal interrupts it.
pub fn again<T: Drop, F: FnMut() -> io::Result<T>>(mut call: F) -> io::Result<T>
    requires { F.IsAlwaysCallable call }
{
    for _ in 0..MOST_SIGNALS {
        match call() {
            Err(e) if e.kind() == ErrorKind::Interrupted => {}
            done => return done,
        }
    }
    Err(io::Error::from(ErrorKind::Interrupted))
}
