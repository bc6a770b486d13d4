//! The members that every operation has.
ghost use Rattle.std.specs.Prelude.{◌≡◌, map, codes, IfOk};
ghost use Rattle.op_kind.specs.Answers.{Answers};
ghost use Rattle.op_kind.specs.Common.{kind_of, time_of, nonce_of, metadata_of, common_of, common_at, FieldsFault, CommonFault};
ghost use Rattle.op_kind.specs.declared.fault.OpFault.{OpFault as FaultValue};
ghost use Rattle.op_kind.specs.FieldLists.{fields_in};

use crate::{Common, Field, Nonce, OpFault, Pair, Place, find, read_fields, read_pairs, read_text};
use gb_text::{GREATEST_TIME, List, read_decimal};
use std::alloc::Global;

#[tactic(auto, unfolding(crate::specs::Common::kind_of))]
fn kind_in(fields: &[Field]) -> Result<u64, OpFault>
    ensures { Answers (kind_of (fields_in fields.now))
        (FieldsFault (fields_in fields.now)) result }
{
    match find(fields, "type") {
        None => Err(OpFault::BadMember(1)),
        Some(None) => Err(OpFault::NoType),
        Some(Some(value)) => read_decimal(value).ok_or(OpFault::NoType),
    }
}

#[tactic(auto, unfolding(crate::specs::Common::time_of))]
fn time_in(fields: &[Field]) -> Result<u64, OpFault>
    ensures { Answers (time_of (fields_in fields.now))
        (FieldsFault (fields_in fields.now)) result }
{
    match find(fields, "timestamp") {
        None => Err(OpFault::BadMember(2)),
        Some(None) => Err(OpFault::BadTime),
        Some(Some(value)) => match read_decimal(value) {
            Some(time) if time <= GREATEST_TIME => Ok(time),
            _ => Err(OpFault::BadTime),
        },
    }
}

#[tactic(auto, unfolding(crate::specs::Common::nonce_of))]
fn nonce_in(alloc: Global, fields: &[Field]) -> Result<Nonce, OpFault>
    ensures { Answers (nonce_of (fields_in fields.now))
        (FieldsFault (fields_in fields.now)) result }
{
    match find(fields, "nonce") {
        None => Err(OpFault::BadMember(3)),
        Some(None) => Err(OpFault::BadNonce),
        Some(Some(value)) => match read_text(alloc, value)? {
            None => Err(OpFault::BadNonce),
            Some(text) => Nonce::read(alloc, text.as_str().as_bytes())?.ok_or(OpFault::BadNonce),
        },
    }
}

#[tactic(auto, unfolding(crate::specs::Common::metadata_of))]
fn metadata_in(alloc: Global, fields: &[Field]) -> Result<List<Pair>, OpFault>
    ensures { Answers (metadata_of (fields_in fields.now))
        (FieldsFault (fields_in fields.now)) result }
{
    match find(fields, "metadata") {
        None => Err(OpFault::BadMember(4)),
        Some(None) => Ok(List::new(alloc)),
        Some(Some(value)) => {
            if value == b"null".as_slice() {
                return Ok(List::new(alloc));
            }
            read_pairs(alloc, value)?.ok_or(OpFault::BadMember(4))
        }
    }
}

/// The common part that the members of an operation give at a place, where its text was split already:
/// the same as `read_common` of the text. Never answers `NotObject`.
#[tactic(auto, unfolding(crate::specs::Common::parts_of))]
pub fn common_in(alloc: Global, place: Place, fields: &[Field]) -> Result<Common, OpFault>
    ensures { Answers (common_of place (fields_in fields.now))
        (FieldsFault (fields_in fields.now)) result }
{
    let kind = kind_in(fields)?;
    let time = time_in(fields)?;
    let nonce = nonce_in(alloc, fields)?;
    let metadata = metadata_in(alloc, fields)?;
    Ok(Common {
        place,
        kind,
        time,
        nonce,
        metadata,
    })
}

/// The common part of an operation's text, at a place. It looks at the members `type`, `timestamp`,
/// `nonce` and `metadata` alone, and never answers `UnknownType` or `BadText`.
///
/// The text is a JSON object (RFC 8259), and no such member is repeated. `type` is a plain decimal
/// below 2^64, and `timestamp` one up to 2^63 - 1. `nonce` is a text that is base64 of 20 to 64 bytes.
/// `metadata` is absent, `null`, or an object of texts with distinct keys. Names are compared as they
/// read; a name that does not read as a text is that of no member. Any other text is refused by a
/// fault that holds of it, where memory did not run out.
pub fn read_common(alloc: Global, place: Place, text: &[u8]) -> Result<Common, OpFault>
    ensures answer { Answers (common_at place text.now) (CommonFault text.now) result }
    ensures sound { IfOk result (λ _. (fault : FaultValue) → CommonFault text.now fault → ⊥) }
{
    match read_fields(alloc, text)? {
        None => Err(OpFault::NotObject),
        Some(fields) => common_in(alloc, place, &fields),
    }
}
