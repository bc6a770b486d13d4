//! What is marked of the outermost list's parts while its text is read.

ghost use Rattle.std.specs.Prelude.{◌≡◌, ◌+◌, ◌-◌, ◌^◌, ◌<◌, ◌≤◌};
ghost use Rattle.json_span.specs.Machine.{marked, finished, no_marks, span_to};

use crate::{Member, Span};

/// In which part of the outermost list a reader stands, if in any.
#[derive(Clone, Copy, Debug, PartialEq, Eq)]
pub enum Within {
    Outside,
    InName,
    InNumber,
    InValue,
}

/// The name that stands before the value at hand, and where the name or the value at hand began.
#[derive(Clone, Copy)]
pub struct Marks {
    name: Span,
    from: usize,
}

/// The span from a place to another.
pub fn span_to(from: usize, to: usize) -> Span
    requires { from ≤ to }
    ensures { result ≡ span_to from to }
{
    Span {
        at: from,
        len: to - from,
    }
}

impl Marks {
    /// Nothing is marked.
    pub fn new() -> Marks
        ensures { result ≡ no_marks }
    {
        Marks {
            name: Span { at: 0, len: 0 },
            from: 0,
        }
    }

    /// A value with this name began at a place.
    pub fn of_value(name: Span, from: usize) -> Marks
        ensures name { result.name ≡ name }
        ensures from { result.from ≡ from }
    {
        Marks { name, from }
    }

    /// The marks once the byte at a place is read.
    pub fn marked(self, place: usize, before: Within, after: Within) -> Marks
        requires begun { self.from ≤ place }
        requires place { place + 1 < 2 ^ 64 }
        ensures marked { result ≡ marked place (place + 1) before after self }
        ensures begun { result.from ≤ place + 1 }
    {
        match (before, after) {
            (Within::Outside, Within::Outside) => self,
            (Within::Outside, _) => Marks {
                name: self.name,
                from: place,
            },
            (Within::InName, Within::Outside) => Marks {
                name: span_to(self.from, place + 1),
                from: place + 1,
            },
            (Within::InNumber | Within::InValue, Within::Outside) => Marks::new(),
            _ => self,
        }
    }

    /// The part that is whole once the byte at a place is read: a number ends before that byte, any
    /// other value behind it.
    pub fn finished(self, place: usize, before: Within, after: Within) -> Option<Member>
        requires begun { self.from ≤ place }
        requires place { place + 1 < 2 ^ 64 }
        ensures { result ≡ finished place (place + 1) before after self }
    {
        let end = match (before, after) {
            (Within::InNumber, Within::Outside) => place,
            (Within::InValue, Within::Outside) => place + 1,
            _ => return None,
        };
        Some(Member {
            name: self.name,
            value: span_to(self.from, end),
        })
    }
}
