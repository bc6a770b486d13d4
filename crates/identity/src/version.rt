//! Versions of an identity, and their texts.
ghost use Rattle.std.specs.Prelude.{◌≡◌, ◌≤◌, map, IfOk, Some};
ghost use Rattle.gb_text.specs.Digits.{IsId};
ghost use Rattle.std.specs.Str.{is_utf8};
ghost use Rattle.identity.specs.Version.{text_with, version_in, version_of, version_id, version_text_of, version_with};

use crate::member::{format_in, keys_in, line_in, nonce_in, time_in};
use gb_text::{Bytes, GREATEST_TIME, Id, Line, Memory, Text, Title, is_title};
use op_kind::{
    Field, Nonce, Written, print_decimal, quote, quote_nonce, read_fields, write_members,
};
use sha2::{Digest, Sha256};
use std::alloc::Global;

/// What a version of an identity says. Name, email, login and the picture's address are lines, empty
/// where they are not told; the name or the login has a character that is not white space. The time is
/// in seconds since 1970. The nonce tells apart versions that say the same.
#[derive(Drop)]
pub struct Version {
    pub name: Text,
    pub email: Text,
    pub login: Text,
    pub avatar_url: Text,
    pub time: u64,
    pub nonce: Nonce,
    pub has_keys: bool,
}

impl Version {
    ghost use Rattle.identity.specs.Version.{person_name};

    /// The version that a text is. None where it is no version text.
    ///
    /// A version text is UTF-8 and a JSON object (RFC 8259). `version` is 2, `unix_time` a plain decimal
    /// up to 2^63 - 1, and `nonce` a text that is base64 of 20 to 64 bytes. `name`, `email`, `login` and
    /// `avatar_url` are texts without control characters, empty where they are absent, and `name` or
    /// `login` has a character that is not white space. `pub_keys` is absent, `null` or an array. None of
    /// these is repeated; other members are passed over. Names are compared as they read.
    pub fn read(alloc: Global, text: &[u8]) -> Result<Option<Version>, Memory>
        ensures { IfOk result (λ o. o ≡ version_of text.now) }
    {
        if !is_utf8(text) {
            return Ok(None);
        }
        match read_fields(alloc, text)? {
            Some(fields) => version_in(alloc, &fields),
            None => Ok(None),
        }
    }

    /// The name that the person goes by: the name, or the login where the name is blank.
    pub fn person_name(&self) -> &str
        ensures { result.now ≡ person_name self.now }
    {
        if is_title(self.name.as_str()) {
            self.name.as_str()
        } else {
            self.login.as_str()
        }
    }
}

// Whether the bytes are UTF-8.
#[tactic(auto, using(op_kind::proofs::TextLemmas::utf8_true, op_kind::proofs::TextLemmas::utf8_false))]
fn is_utf8(bytes: &[u8]) -> bool
    ensures { result ≡ is_utf8 bytes.now }
{
    std::str::from_utf8(bytes).is_ok()
}

// The version that the members of an object are.
#[tactic(auto, unfolding(crate::specs::Version::version_in))]
fn version_in(alloc: Global, fields: &[Field]) -> Result<Option<Version>, Memory>
    ensures { IfOk result (λ o. o ≡ version_in (map (λ f. (f.name, f.value.now)) fields.now)) }
{
    if format_in(fields) != Some(2) {
        return Ok(None);
    }
    let Some(name) = line_in(alloc, fields, "name")? else {
        return Ok(None);
    };
    let Some(email) = line_in(alloc, fields, "email")? else {
        return Ok(None);
    };
    let Some(login) = line_in(alloc, fields, "login")? else {
        return Ok(None);
    };
    let Some(avatar_url) = line_in(alloc, fields, "avatar_url")? else {
        return Ok(None);
    };
    let Some(time) = time_in(fields) else {
        return Ok(None);
    };
    let Some(nonce) = nonce_in(alloc, fields)? else {
        return Ok(None);
    };
    let Some(has_keys) = keys_in(alloc, fields)? else {
        return Ok(None);
    };
    if !is_title(name.as_str()) && !is_title(login.as_str()) {
        return Ok(None);
    }
    Ok(Some(Version {
        name,
        email,
        login,
        avatar_url,
        time,
        nonce,
        has_keys,
    }))
}

/// The text of a version with this name, email, nonce and time, in seconds since 1970, and nothing else:
/// a JSON object without white space, its members in byte order of their names.
pub fn version_text(
    alloc: Global,
    name: &Title,
    email: &Line,
    nonce: &[u8; 32],
    now: u64,
) -> Result<Bytes, Memory>
    requires moment { now ≤ GREATEST_TIME }
    ensures text { IfOk result (λ text. text ≡ text_with name.now email.now nonce.now now) }
    ensures reads_back { IfOk result
        (λ text. version_of text ≡ Some (version_with name.now email.now nonce.now now)) }
{
    let nonce = Nonce::from_bytes(alloc, nonce)?;
    write_version(alloc, name.as_str(), email.as_str(), &nonce, now)
}

// The text of what is written of a version.
fn write_version(
    alloc: Global,
    name: &str,
    email: &str,
    nonce: &Nonce,
    now: u64,
) -> Result<Bytes, Memory>
    ensures { IfOk result (λ text. text ≡ version_text_of name.now email.now nonce.now now) }
{
    let members = [
        written("email", quote(alloc, email)?),
        written("name", quote(alloc, name)?),
        written("nonce", quote_nonce(alloc, nonce)?),
        written("times", Text::from_str(alloc, "{}")?),
        written("unix_time", print_decimal(alloc, now)?),
        written("version", print_decimal(alloc, 2)?),
    ];
    write_members(alloc, &members)
}

// A member to be written, by its name and the text of its value.
fn written<'a>(name: &'a str, value: Text) -> Written<'a>
    ensures { (result.name.now ≡ name.now) × (result.value ≡ value) }
{
    Written { name, value }
}

/// The id of the identity whose first version has this text, byte for byte: its SHA-256 (FIPS 180-4).
pub fn id_of_version(text: &[u8]) -> Id
    ensures id { result ≡ version_id text.now }
    ensures sized { IsId result }
{
    Id::from_bytes(Sha256::digest(text))
}
