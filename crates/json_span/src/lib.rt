//! Where the parts of a JSON array or object (RFC 8259) lie in its text.
#![tactic(auto)]

ghost use Rattle.std.specs.Prelude.{◌≡◌, ◌+◌, ◌≤◌, length, take, drop};
ghost use Rattle.json_span.specs.Grammar.{LiesIn, cut_of};

mod bare;
mod bytes;
mod front;
mod laws;
mod machine;
mod marks;
mod nest;
mod split;
mod state;

pub use laws::{
    bytes_by_number, joined_splits, lists_are_values, lists_split, one_split, parts_are_shallower,
    parts_are_utf8, parts_by_grammar, scalars_are_values, spaces_change_nothing, spans_ascend,
    strings_are_joined,
};
pub use nest::MOST_BRACKETS;
pub use split::{elements, members};
use std::alloc::{AllocError, AllocFailed};

/// A part of a text: `len` bytes from the index `at`.
#[derive(Clone, Copy, Debug, PartialEq, Eq)]
pub struct Span {
    pub at: usize,
    pub len: usize,
}

/// A member of an object: its name, with the quotes, and its value.
#[derive(Clone, Copy, Debug, PartialEq, Eq)]
pub struct Member {
    pub name: Span,
    pub value: Span,
}

/// Why a text has no parts: memory ran out, or the text has no split. `NotSplit` holds the length of
/// the longest front of the text with which some text with a split begins.
#[derive(Clone, Copy, Debug, PartialEq, Eq, Drop)]
pub enum SpanFault {
    Memory,
    NotSplit(usize),
}

impl From<AllocError> for SpanFault {
    ghost use Rattle.std.specs.Prelude.{◌≡◌};
    ghost use Rattle.json_span.specs.declared.SpanFault.TheVariants.{Memory};

    ghost from_gives = { λ _ e. e ≡ Memory };

    fn from(_e: AllocError) -> SpanFault {
        SpanFault::Memory
    }
}

impl<T: Drop> From<AllocFailed<T>> for SpanFault {
    ghost use Rattle.std.specs.Prelude.{◌≡◌};
    ghost use Rattle.json_span.specs.declared.SpanFault.TheVariants.{Memory};

    ghost from_gives = { λ _ e. e ≡ Memory };

    fn from(_e: AllocFailed<T>) -> SpanFault {
        SpanFault::Memory
    }
}

impl Span {
    /// The bytes of the part.
    pub fn cut<'a>(&self, text: &'a [u8]) -> &'a [u8]
        requires { LiesIn text.now self.now }
        ensures { result.now ≡ cut_of text.now self.now }
    {
        &text[self.at..self.at + self.len]
    }
}
