//! Why a text is not a query.
use gb_text::Memory;

/// Why a text is not a query. A place is an offset in bytes.
#[derive(Clone, Copy, Debug, PartialEq, Eq, Drop)]
pub enum QueryFault {
    /// Memory ran out.
    Memory,
    /// The word at this place has no field that is known.
    UnknownField(u64),
    /// The value of the word at this place is not one of its field, or the word is a second `sort`.
    BadValue(u64),
    /// The quote at this place is not closed.
    OpenQuote(u64),
}

impl From<Memory> for QueryFault {
    ghost use Rattle.std.specs.Prelude.{◌≡◌};
    ghost use Rattle.query.specs.declared.fault.QueryFault.TheVariants as fault;

    ghost from_gives = { λ _ e. e ≡ fault.Memory };

    fn from(_: Memory) -> Self {
        QueryFault::Memory
    }
}
