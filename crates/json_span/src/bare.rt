//! Members that are read whole: those without escapes and white space, as most are.

ghost use Rattle.std.specs.Prelude.{◌≡◌, ◌<◌, ◌↔◌, IsTrue, IfSome, length};
ghost use Rattle.json_span.specs.Bare.{Stands, IsBareString, IsBareNumber, IsBareNull};
ghost use Rattle.json_span.specs.Bare.{IsBareValue, IsBareMember, is_whole};

use crate::bytes::digit;
use crate::front::{digit_front, plain_bytes, plain_front};
use crate::marks::span_to;
use crate::state::{At, NumberAt};
use crate::{Member, Span};

/// A member, what comes next behind its value or behind a comma that follows it, and where. Where the
/// value is of another kind it is still to come, and begins behind the place that stands for it.
#[derive(Clone, Copy)]
pub struct BareMember {
    pub member: Member,
    pub at: At,
    pub end: usize,
}

impl BareMember {
    /// The value has ended.
    pub fn is_whole(&self) -> bool
        ensures { result ≡ is_whole self.now.at }
    {
        match self.at {
            At::Value | At::Number(_) => false,
            _ => true,
        }
    }
}

/// A value's end, and what comes behind it.
#[derive(Clone, Copy)]
struct BareValue {
    end: usize,
    at: At,
}

// Whether a byte stands at a place.
fn stands(text: &[u8], place: usize, b: u8) -> bool
    ensures { IsTrue result ↔ Stands text.now place b }
{
    place < text.len() && text[place] == b
}

// The end of the name at a place, if it has no escape.
fn bare_name(text: &[u8], from: usize) -> Option<usize>
    ensures { IfSome result (IsBareString text.now from) }
{
    if !stands(text, from, b'"') {
        return None;
    }
    let end = from + 1 + plain_bytes(&text[from + 1..]);
    if !stands(text, end, b'"') {
        return None;
    }
    Some(end + 1)
}

// The end of the string at a place, if it has no escape.
fn bare_string(text: &[u8], from: usize) -> Option<usize>
    ensures { IfSome result (IsBareString text.now from) }
{
    if !stands(text, from, b'"') {
        return None;
    }
    let end = from + 1 + plain_front(&text[from + 1..]);
    if !stands(text, end, b'"') {
        return None;
    }
    Some(end + 1)
}

// The end of the whole number at a place.
fn bare_number(text: &[u8], from: usize) -> Option<usize>
    ensures { IfSome result (IsBareNumber text.now from) }
{
    if from >= text.len() || !digit(text[from]) || text[from] == b'0' {
        return None;
    }
    Some(from + 1 + digit_front(&text[from + 1..]))
}

// The end of the word null at a place.
fn bare_null(text: &[u8], from: usize) -> Option<usize>
    requires { from < length text.now }
    ensures { IfSome result (IsBareNull text.now from) }
{
    if text.len() - from < 4
        || text[from] != b'n'
        || text[from + 1] != b'u'
        || text[from + 2] != b'l'
        || text[from + 3] != b'l'
    {
        return None;
    }
    Some(from + 4)
}

// The value at a place, if it is a string with no escape, a whole number or null.
fn bare_value(text: &[u8], from: usize) -> Option<BareValue>
    ensures { IfSome result (λ v. IsBareValue text.now from v.end v.at) }
{
    if from >= text.len() {
        return None;
    }
    match text[from] {
        b'"' => {
            let end = bare_string(text, from)?;
            Some(BareValue { end, at: At::After })
        }
        b'n' => {
            let end = bare_null(text, from)?;
            Some(BareValue { end, at: At::After })
        }
        _ => {
            let end = bare_number(text, from)?;
            Some(BareValue {
                end,
                at: At::Number(NumberAt::InInteger),
            })
        }
    }
}

/// The member at a place, or its name with the colon, if the name has no escape and no white space is
/// behind it.
pub fn bare_member(text: &[u8], place: usize) -> Option<BareMember>
    ensures { IfSome result (IsBareMember text.now place) }
{
    let colon = bare_name(text, place)?;
    if !stands(text, colon, b':') {
        return None;
    }
    let name = span_to(place, colon);
    let Some(value) = bare_value(text, colon + 1) else {
        return Some(BareMember {
            member: Member {
                name,
                value: Span { at: colon, len: 0 },
            },
            at: At::Value,
            end: colon + 1,
        });
    };
    let member = Member {
        name,
        value: span_to(colon + 1, value.end),
    };
    let (at, end) = if stands(text, value.end, b',') {
        (At::Part, value.end + 1)
    } else {
        (value.at, value.end)
    };
    Some(BareMember { member, at, end })
}
