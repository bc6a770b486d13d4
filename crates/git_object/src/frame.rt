//! The frame of an object text: the kind and the length before the content.
ghost use Rattle.std.specs.Prelude.{◌≡◌, ◌++◌, ℕ, List, IfOk, OnOk, IfSome, Some, decimal, length};
ghost use Rattle.std.specs.Option.{option_map, MatchOption};
ghost use Rattle.std.specs.Str.{bytes_eq};
ghost use Rattle.gb_text.specs.Digits.{IsName};
ghost use Rattle.git_object.specs.Grammar.{framed, kind_text, object_name};
ghost use Rattle.git_object.specs.Reading.{kind_at, frame_of};
ghost use Rattle.git_object.specs.declared.frame.Kind.{Kind as KindValue};

use crate::cut::{after, cut};
use gb_text::{Bytes, Memory, Name};
use itoa::Buffer;
use sha1::Sha1;
use std::alloc::{AllocError, Global};

/// What an object is.
#[derive(Clone, Copy, Debug, PartialEq, Eq)]
pub enum Kind {
    Blob,
    Tree,
    Commit,
}

/// An object text cut up: the kind that its front names, and the content.
#[derive(Clone, Copy, Debug)]
pub struct Frame<'a> {
    pub kind: Kind,
    pub content: &'a [u8],
}

impl<'a> Frame<'a> {
    /// Cuts an object text (Git's object format): `blob`, `tree` or `commit`, a space, the content's
    /// length in plain decimal, a zero byte, the content. None exactly where the text has another
    /// form. What the content is isn't looked at. Takes no memory.
    pub fn read(text: &'a [u8]) -> Option<Frame<'a>>
        ensures value { option_map (λ frame. (frame.kind, frame.content.now)) result
            ≡ frame_of text.now }
        ensures found { IfSome result (λ frame. text.now ≡ framed frame.kind frame.content.now) }
        ensures only { (kind : KindValue) (content : List ℕ) → text.now ≡ framed kind content
            → MatchOption result ⊥ (λ frame. (frame.kind ≡ kind) × (frame.content.now ≡ content)) }
    {
        let (kind, content) = split(text)?;
        Some(Frame { kind, content })
    }
}

#[tactic(auto, unfolding(crate::specs::Reading::frame_of))]
fn split(text: &[u8]) -> Option<(Kind, &[u8])>
    ensures { option_map (λ parts. (parts.0, parts.1.now)) result ≡ frame_of text.now }
{
    let (front, content) = cut(text, 0)?;
    let kind = kind_of(front, content.len())?;
    Some((kind, content))
}

fn kind_of(front: &[u8], size: usize) -> Option<Kind>
    ensures { result ≡ kind_at front.now size }
{
    if has_size(front, b"blob ", size) {
        Some(Kind::Blob)
    } else if has_size(front, b"tree ", size) {
        Some(Kind::Tree)
    } else if has_size(front, b"commit ", size) {
        Some(Kind::Commit)
    } else {
        None
    }
}

// Whether the front is the word and then the number.
fn has_size(front: &[u8], word: &[u8], size: usize) -> bool
    ensures { result ≡ bytes_eq front.now (word.now ++ decimal size) }
{
    let Some(digits) = after(front, word) else {
        return false;
    };
    let mut buffer = Buffer::new();
    digits == buffer.format(size).as_bytes()
}

fn word_of(kind: Kind) -> &'static [u8]
    ensures { result.now ≡ kind_text kind }
{
    match kind {
        Kind::Blob => b"blob",
        Kind::Tree => b"tree",
        Kind::Commit => b"commit",
    }
}

/// The object text of a kind and a content, which is the one that `Frame::read` cuts into them.
pub fn frame_text(alloc: Global, kind: Kind, content: &[u8]) -> Result<Bytes, Memory>
    ensures text { IfOk result (λ text. text ≡ framed kind content.now) }
    ensures reads_back { IfOk result (λ text. frame_of text ≡ Some (kind, content.now)) }
{
    let mut text = Vec::new(alloc);
    append_frame(&mut text, kind, content)?;
    Ok(Bytes::from_vec(text))
}

fn append_frame(text: &mut Vec<u8>, kind: Kind, content: &[u8]) -> Result<(), AllocError>
    ensures { OnOk result (text.new.items ≡ text.old.items ++ framed kind content.now) }
{
    let mut size = Buffer::new();
    text.extend_from_slice(word_of(kind))?;
    text.push(b' ')?;
    text.extend_from_slice(size.format(content.len()).as_bytes())?;
    text.push(0)?;
    text.extend_from_slice(content)?;
    Ok(())
}

/// The name of the object of a kind with this content: the SHA-1 (FIPS 180-4) of its text, which
/// is hashed by pieces. Takes no memory.
pub fn name_of(kind: Kind, content: &[u8]) -> Name
    ensures value { result ≡ object_name (framed kind content.now) }
    ensures name { IsName result }
{
    let mut size = Buffer::new();
    let mut hasher = Sha1::new();
    hasher.update(word_of(kind));
    hasher.update(b" ");
    hasher.update(size.format(content.len()).as_bytes());
    hasher.update(&[0]);
    hasher.update(content);
    name_with(&hasher.finalize())
}

/// The name of the object that has this whole text: its SHA-1 (FIPS 180-4). Takes no memory.
pub fn name_of_text(text: &[u8]) -> Name
    ensures value { result ≡ object_name text.now }
    ensures name { IsName result }
{
    name_with(&Sha1::digest(text))
}

/// The name with these 20 bytes.
pub(crate) fn name_with(bytes: &[u8]) -> Name
    requires { length bytes.now ≡ 20 }
    ensures value { result.bytes ≡ bytes.now }
    ensures name { IsName result }
{
    let mut copy = [0; 20];
    copy.copy_from_slice(bytes);
    Name::from_bytes(copy)
}
