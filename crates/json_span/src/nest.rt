//! The brackets that are open, as bits in one word.

ghost use Rattle.std.specs.Prelude.{◌≡◌, List, [], Some, None, Option, if◌then◌else◌};
ghost use Rattle.json_span.specs.Nest.{opened, closed, innermost, is_deep, bit_of};

use crate::state::Kind;
use std::marker::Model;

/// The most brackets that may be open at one place of a part of a text.
pub const MOST_BRACKETS: u8 = 100;

// The most that may be open at one place of a text: the outermost, and those within one of its parts.
const ROOM: u8 = MOST_BRACKETS + 1;

/// The brackets that are open at a place of a text: the outermost, and those within one of its parts. A contract sees their kinds, the innermost first, and how many more may be opened.
#[derive(Drop)]
pub struct Nest {
    bits: u128,
    room: u8,
}

impl Model for Nest {
    ghost use Rattle.std.specs.Prelude.{◌≤◌, ◌<◌, ◌^◌, ◌-◌, List, ℕ};
    ghost use Rattle.json_span.specs.declared.state.Kind.{Kind};
    ghost use Rattle.json_span.specs.Nest.{kinds_of};
    ghost use Rattle.json_span.specs.declared.nest.TheConstants.{ROOM};

    ghost Value = { List Kind × ℕ };

    ghost view = { λ n. (kinds_of (ROOM - n.room) n.bits, n.room) };

    ghost invariant = { λ n. (n.room ≤ ROOM) × (n.bits < 2 ^ (ROOM - n.room)) };
}

/// The bit of a kind.
fn bit(kind: Kind) -> u128
    ensures { result ≡ bit_of kind }
{
    match kind {
        Kind::Array => 0,
        Kind::Object => 1,
    }
}

/// The kind of the lowest bit.
fn lowest(bits: u128) -> Kind
    ensures { result ≡ Rattle.json_span.specs.Nest.lowest bits }
{
    if bits % 2 == 1 {
        Kind::Object
    } else {
        Kind::Array
    }
}

impl Nest {
    /// No bracket is open.
    pub fn new() -> Nest
        ensures { result ≡ ([], ROOM) }
    {
        Nest {
            bits: 0,
            room: ROOM,
        }
    }

    /// Opens one more, where there is room.
    pub fn open(&mut self, kind: Kind) -> bool
        ensures { (if result then Some self.new else None) ≡ opened kind self.old.0 self.old.1 }
    {
        let bits = self.bits;
        let room = self.room;
        if room == 0 {
            return false;
        }
        *self = Nest {
            bits: 2 * bits + bit(kind),
            room: room - 1,
        };
        true
    }

    /// Closes the innermost, where there is one.
    pub fn close(&mut self) -> bool
        ensures { (if result then Some self.new else None) ≡ closed self.old.0 self.old.1 }
    {
        let bits = self.bits;
        let room = self.room;
        if room == ROOM {
            return false;
        }
        *self = Nest {
            bits: bits / 2,
            room: room + 1,
        };
        true
    }

    /// The kind of the innermost bracket.
    pub fn innermost(&self) -> Option<Kind>
        ensures { result ≡ innermost self.now.0 }
    {
        if self.room == ROOM {
            None
        } else {
            Some(lowest(self.bits))
        }
    }

    /// More brackets are open than the outermost.
    pub fn is_deep(&self) -> bool
        ensures { result ≡ is_deep self.now.0 }
    {
        self.room < MOST_BRACKETS
    }
}
