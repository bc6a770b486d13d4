//! The members of a version text, by their forms.
ghost use Rattle.std.specs.Prelude.{◌≡◌, [], false, map, IfOk};
ghost use Rattle.gb_text.specs.Decimal.{decimal_of};
ghost use Rattle.op_kind.specs.Common.{nonce_in as nonce_at, nonce_of};
ghost use Rattle.identity.specs.Version.{line_at, keys_at, format_of, line_of, moment_of, keys_of};

use gb_text::{GREATEST_TIME, Memory, Text, is_line, read_decimal};
use json_span::{SpanFault, elements};
use op_kind::{Field, Nonce, find, read_text};
use std::alloc::Global;

/// The number of the format. None where `version` is absent, repeated, or no plain decimal.
pub fn format_in(fields: &[Field]) -> Option<u64>
    ensures { result ≡ format_of (map (λ f. (f.name, f.value.now)) fields.now) }
{
    match find(fields, "version") {
        Some(Some(value)) => read_decimal(value),
        _ => None,
    }
}

/// The time. None where `unix_time` is absent, repeated, or no plain decimal up to 2^63 - 1.
pub fn time_in(fields: &[Field]) -> Option<u64>
    ensures { result ≡ moment_of (map (λ f. (f.name, f.value.now)) fields.now) }
{
    match find(fields, "unix_time") {
        Some(Some(value)) => read_decimal(value).filter(|time| *time <= GREATEST_TIME),
        _ => None,
    }
}

// The line that a JSON string stands for.
fn read_line(alloc: Global, json: &[u8]) -> Result<Option<Text>, Memory>
    ensures { IfOk result (λ o. o ≡ line_at json.now) }
{
    match read_text(alloc, json)? {
        Some(text) if is_line(text.as_str()) => Ok(Some(text)),
        _ => Ok(None),
    }
}

/// The line under a name, which may be absent and then counts as empty. None where the member is
/// repeated, or no JSON string of a line.
pub fn line_in(alloc: Global, fields: &[Field], name: &str) -> Result<Option<Text>, Memory>
    ensures { IfOk result
        (λ o. o ≡ line_of name.now (map (λ f. (f.name, f.value.now)) fields.now)) }
{
    match find(fields, name) {
        None => Ok(None),
        Some(None) => Ok(Some(Text::from_str(alloc, "")?)),
        Some(Some(value)) => read_line(alloc, value),
    }
}

// The nonce that a JSON string stands for.
fn read_nonce(alloc: Global, json: &[u8]) -> Result<Option<Nonce>, Memory>
    ensures { IfOk result (λ o. o ≡ nonce_at json.now) }
{
    match read_text(alloc, json)? {
        Some(text) => Nonce::read(alloc, text.as_str().as_bytes()),
        None => Ok(None),
    }
}

/// The nonce. None where `nonce` is absent, repeated, or no text that is base64 of 20 to 64 bytes.
#[tactic(auto, unfolding(op_kind::specs::Common::nonce_of))]
pub fn nonce_in(alloc: Global, fields: &[Field]) -> Result<Option<Nonce>, Memory>
    ensures { IfOk result (λ o. o ≡ nonce_of (map (λ f. (f.name, f.value.now)) fields.now)) }
{
    match find(fields, "nonce") {
        Some(Some(value)) => read_nonce(alloc, value),
        _ => Ok(None),
    }
}

// Whether null or an array has an element. None for any other text.
fn read_keys(alloc: Global, json: &[u8]) -> Result<Option<bool>, Memory>
    ensures { IfOk result (λ o. o ≡ keys_at json.now) }
{
    if json == b"null".as_slice() {
        return Ok(Some(false));
    }
    match elements(alloc, json) {
        Ok(parts) => Ok(Some(!parts.is_empty())),
        Err(SpanFault::Memory) => Err(Memory),
        Err(SpanFault::NotSplit(_)) => Ok(None),
    }
}

/// Whether there are keys; `pub_keys` may be absent or `null`, and then there are none. None where it is
/// repeated, or neither `null` nor an array.
pub fn keys_in(alloc: Global, fields: &[Field]) -> Result<Option<bool>, Memory>
    ensures { IfOk result (λ o. o ≡ keys_of (map (λ f. (f.name, f.value.now)) fields.now)) }
{
    match find(fields, "pub_keys") {
        None => Ok(None),
        Some(None) => Ok(Some(false)),
        Some(Some(value)) => read_keys(alloc, value),
    }
}
