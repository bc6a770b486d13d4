//! What can be wrong with the text of an operation.

/// Why a text is no operation. Where several faults hold, any of them may be named.
///
/// `BadMember` and `BadText` hold the number of a member: 1 `type`, 2 `timestamp`, 3 `nonce`,
/// 4 `metadata`, 5 `title`, 6 `was`, 7 `message`, 8 `files`, 9 `status`, 10 `added`, 11 `removed`,
/// 12 `target`, 13 `new_metadata`.
#[derive(Clone, Copy, Debug, PartialEq, Eq, Drop)]
pub enum OpFault {
    /// Memory ran out, which says nothing of the text.
    Memory,
    /// The text is no JSON object (RFC 8259).
    NotObject,
    /// `type` is absent or no plain decimal.
    NoType,
    /// `type` is this number, and no type of the kind has it.
    UnknownType(u64),
    /// `timestamp` is absent, no plain decimal, or above 2^63 - 1.
    BadTime,
    /// `nonce` is absent, or no text that is base64 of 20 to 64 bytes.
    BadNonce,
    /// The member is repeated, or it is missing or not of its JSON form.
    BadMember(u8),
    /// A text in the member breaks the rule for such texts.
    BadText(u8),
}

impl From<gb_text::Memory> for OpFault {
    ghost use Rattle.std.specs.Prelude.{◌≡◌};
    ghost use Rattle.op_kind.specs.declared.fault.OpFault.TheVariants.{Memory};

    ghost from_gives = { λ _ e. e ≡ Memory };

    fn from(_: gb_text::Memory) -> Self {
        OpFault::Memory
    }
}
