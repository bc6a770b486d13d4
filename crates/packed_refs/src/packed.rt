//! What a packed text says.
ghost use Rattle.std.specs.Prelude.{◌≡◌, IfOk};
ghost use Rattle.packed_refs.specs.Packed.{head_of, heads_in, id_below, is_packed, refs_in};

use crate::line::{Line, cut_line, read_line};
use crate::ref_line::{RefLine, RefName};
use gb_text::{Id, Memory, Name};
use std::alloc::Global;

/// The head of an id's ref.
#[derive(Clone, Copy, Debug, PartialEq, Eq)]
pub struct PackedHead {
    pub id: Id,
    pub head: Name,
}

/// Whether a text is a packed text: each line is `#` and any bytes, or `^` and 40 lower-case
/// digits, or 40 lower-case digits, a space and a name. The last line feed is optional. The empty
/// text is a packed text.
pub fn is_packed(text: &[u8]) -> bool
    ensures { result ≡ is_packed text.now }
{
    let mut rest = text;
    while !rest.is_empty() {
        let (line, after) = cut_line(rest);
        if read_line(line).is_none() {
            return false;
        }
        rest = after;
    }
    true
}

/// The head that the last line with a name gives it. None also where the text is no packed text.
pub fn head_of(text: &[u8], name: &[u8]) -> Option<Name>
    ensures { result ≡ head_of name.now (refs_in text.now) }
{
    let mut found = None;
    let mut rest = text;
    while !rest.is_empty() {
        let (line, after) = cut_line(rest);
        match read_line(line) {
            None => return None,
            Some(Line::Note) => {}
            Some(Line::Ref { name: other, head }) => {
                if other == name {
                    found = Some(head);
                }
            }
        }
        rest = after;
    }
    found
}

/// The heads of ids whose refs are right in a dir, in the order of lines: an id may come several
/// times, and its last head counts. Empty also where the text is no packed text.
pub fn heads_in(alloc: Global, text: &[u8], dir: &[u8]) -> Result<Vec<PackedHead>, Memory>
    ensures { IfOk result (λ heads. heads.items ≡ heads_in dir.now (refs_in text.now)) }
{
    let mut heads = Vec::new(alloc);
    let mut rest = text;
    while !rest.is_empty() {
        let (line, after) = cut_line(rest);
        match read_line(line) {
            None => return Ok(Vec::new(alloc)),
            Some(Line::Note) => {}
            Some(Line::Ref { name, head }) => {
                if let Some(id) = id_below(dir, name) {
                    heads.push(PackedHead { id, head })?;
                }
            }
        }
        rest = after;
    }
    Ok(heads)
}

/// The refs of a packed text, in the order of lines: a name may come several times, and its last
/// head counts. Empty also where the text is no packed text.
pub fn refs(alloc: Global, text: &[u8]) -> Result<Vec<RefLine>, Memory>
    ensures { IfOk result (λ refs. refs.items ≡ refs_in text.now) }
{
    let mut refs = Vec::new(alloc);
    let mut rest = text;
    while !rest.is_empty() {
        let (line, after) = cut_line(rest);
        match read_line(line) {
            None => return Ok(Vec::new(alloc)),
            Some(Line::Note) => {}
            Some(Line::Ref { name, head }) => {
                let name = RefName::from_slice(alloc, name)?;
                refs.push(RefLine { name, head })?;
            }
        }
        rest = after;
    }
    Ok(refs)
}

// The id whose digits follow a dir and a slash.
fn id_below(dir: &[u8], name: &[u8]) -> Option<Id>
    ensures { result ≡ id_below dir.now name.now }
{
    match name.strip_prefix(dir) {
        Some(below) => match below.strip_prefix(b"/") {
            Some(digits) => Id::read(digits),
            None => None,
        },
        None => None,
    }
}
