//! What the letters of a script stand for.
use std::alloc::Global;
use std::test::Fail;

/// A line for each letter: the letter, and the digits that it stands for.
#[derive(Drop)]
pub struct Known {
    alloc: Global,
    lines: String,
}

// The digits of a bug, and of an operation, by their places in a combined id.
const MIXED: &str = "bobobobbbobbbbobbbbobbbbobbbbobbbbobbbbobbbbobbbbobbbbobbbbobbbb";

impl Known {
    /// No letter stands for anything.
    pub fn new(alloc: Global) -> Known {
        Known {
            alloc,
            lines: String::new(alloc),
        }
    }

    fn find(&self, letter: char) -> Option<&str> {
        let line = self
            .lines
            .as_str()
            .lines()
            .find(|line| line.starts_with(letter))?;
        line.strip_prefix(letter)
    }

    /// What a letter stands for.
    pub fn get(&self, letter: char) -> Result<&str, Fail> {
        match self.find(letter) {
            Some(digits) => Ok(digits),
            None => Err(Fail::new(format_args!("{letter} stands for nothing"))),
        }
    }

    /// Gives a letter its digits, which are no other letter's.
    pub fn add(&mut self, letter: char, digits: &str) -> Result<(), Fail> {
        if self.lines.as_str().contains(digits) {
            return Err(Fail::new(format_args!("{letter} is {digits:?}, as another letter")));
        }
        self.lines.push(letter)?;
        self.lines.push_str(digits)?;
        self.lines.push('\n')?;
        Ok(())
    }

    /// Gives a letter the first seven digits of another one's.
    pub fn shorten(&mut self, letter: char, of: char) -> Result<(), Fail> {
        let mut digits = String::new(self.alloc);
        for digit in self.get(of)?.chars().take(7) {
            digits.push(digit)?;
        }
        self.lines.push(letter)?;
        self.lines.push_str(digits.as_str())?;
        self.lines.push('\n')?;
        Ok(())
    }

    /// A text with the digits of its letters.
    pub fn full(&mut self, text: &str) -> Result<String, Fail> {
        self.fit(text, "")
    }

    /// Arguments with the digits of their letters, a line each.
    pub fn line(&mut self, words: &[&str]) -> Result<String, Fail> {
        let mut line = String::new(self.alloc);
        for (place, word) in words.iter().enumerate() {
            if place > 0 {
                line.push('\n')?;
            }
            line.push_str(word)?;
        }
        self.full(line.as_str())
    }

    /// A text with the digits of its letters. A letter that stands for nothing yet is given the
    /// digits at its place in what was found.
    pub fn fit(&mut self, text: &str, found: &str) -> Result<String, Fail> {
        let mut full = String::new(self.alloc);
        for (place, part) in text.split('$').enumerate() {
            let mut rest = part.chars();
            if place > 0
                && let Some(letter) = rest.next()
            {
                self.learn(letter, found, full.len())?;
                full.push_str(self.get(letter)?)?;
            }
            full.push_str(rest.as_str())?;
        }
        Ok(full)
    }

    // Gives the letter the digits at a place, where it stands for nothing.
    fn learn(&mut self, letter: char, found: &str, place: usize) -> Result<(), Fail> {
        if self.find(letter).is_some() {
            return Ok(());
        }
        let mut digits = String::new(self.alloc);
        for byte in found.bytes().skip(place) {
            if !byte.is_ascii_hexdigit() {
                break;
            }
            digits.push(char::from(byte))?;
        }
        if digits.is_empty() {
            return Err(Fail::new(format_args!("{letter} stands for nothing in {found:?}")));
        }
        self.add(letter, digits.as_str())
    }

    /// The combined id of the bug and the operation with these letters.
    pub fn mixed(&self, bug: char, operation: char) -> Result<String, Fail> {
        let mut bug = self.get(bug)?.chars();
        let mut operation = self.get(operation)?.chars();
        let mut mixed = String::new(self.alloc);
        for side in MIXED.chars() {
            let digit = if side == 'b' {
                bug.next()
            } else {
                operation.next()
            };
            mixed.push(digit.ok_or("a digit")?)?;
        }
        Ok(mixed)
    }
}
