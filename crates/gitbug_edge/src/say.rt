//! Lines on standard error, for people.
use std::{fmt, io};

/// Prints a line of these parts, one after another. Where it cannot be printed, nothing else is done.
pub fn say<R: Eprint>(rt: &R, parts: &[&str]) {
    let _ = eprintln!(rt; "gitbug: {}", Line { parts });
}

/// Prints a line with a number.
pub fn say_number<R: Eprint>(rt: &R, before: &str, number: u64, after: &str) {
    let _ = eprintln!(rt; "gitbug: {before}{number}{after}");
}

/// What a call gave. Where it failed, standard error says what cannot be done and what the system said.
pub fn noted<T: Drop, R: Eprint>(rt: &R, what: &str, done: io::Result<T>) -> io::Result<T> {
    if let Err(said) = &done {
        let _ = eprintln!(rt; "gitbug: {what}: {said}");
    }
    done
}

// Parts that are printed one after another.
#[derive(Clone, Copy)]
struct Line<'a> {
    parts: &'a [&'a str],
}

impl<'a> fmt::Display for Line<'a> {
    fn fmt<W: fmt::Write>(&self, f: &mut fmt::Formatter<W>) -> fmt::Result {
        for part in self.parts {
            f.write_str(part)?;
        }
        Ok(())
    }
}
