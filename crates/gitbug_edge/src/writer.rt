//! A writer that signals do not stop.
ghost use Rattle.std.specs.Prelude.{◌≤◌, length, IfOk};

use folder_store::MOST_SIGNALS;
use std::io;
use std::io::{ErrorKind, Write};

/// Standard output, to which is written again where a signal interrupts it. Standard error says why it takes nothing.
#[derive(Drop)]
pub struct SteadyWriter<'a, R: Eprint, W: Write + Drop> {
    rt: &'a R,
    out: W,
}

impl<'a, R: Eprint, W: Write + Drop> SteadyWriter<'a, R, W> {
    /// The writer over this one.
    pub fn new(rt: &'a R, out: W) -> SteadyWriter<'a, R, W> {
        SteadyWriter { rt, out }
    }

    // Writes some bytes, again where a signal interrupts it.
    fn write_again(&mut self, buf: &[u8]) -> io::Result<usize>
        ensures { IfOk result (λ n. n ≤ length buf.now) }
    {
        for _ in 0..MOST_SIGNALS {
            match self.out.write(buf) {
                Err(e) if e.kind() == ErrorKind::Interrupted => {}
                done => return done,
            }
        }
        Err(io::Error::from(ErrorKind::Interrupted))
    }
}

impl<'a, R: Eprint, W: Write + Drop> Write for SteadyWriter<'a, R, W> {
    fn write(&mut self, buf: &[u8]) -> io::Result<usize> {
        let done = self.write_again(buf);
        if let Err(said) = &done {
            let _ = eprintln!(self.rt; "gitbug: standard output cannot be written: {said}");
        }
        done
    }

    fn flush(&mut self) -> io::Result<()> {
        self.out.flush()
    }
}
