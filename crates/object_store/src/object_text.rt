//! The text of an object, with its name.
ghost use Rattle.std.specs.Prelude.{◌≡◌, nat_le, length, IfOk};
ghost use Rattle.git_object.specs.Grammar.{framed, object_name};
ghost use Rattle.object_store.specs.Texts.{HasObject};

use crate::read::MOST_BYTES;
use gb_text::{Bytes, Memory, Name};
use git_object::{Kind, frame_text, name_of_text};
use std::alloc::Global;
use std::marker::Model;

/// The text of an object, kept with its name, so that it is hashed once. Contracts see the text.
#[derive(Debug, Drop)]
pub struct ObjectText {
    name: Name,
    text: Bytes,
}

impl Model for ObjectText {
    ghost use Rattle.std.specs.Prelude.{List, ℕ};
    ghost use Rattle.object_store.specs.Texts.{IsNamedText};

    ghost Value = { List ℕ };

    ghost view = { λ o. o.text };

    ghost invariant = { λ o. IsNamedText o.name o.text };
}

impl ObjectText {
    ghost use Rattle.object_store.specs.Texts.{HasObjectText};

    /// The text of the object of a kind that has this content.
    pub fn new(alloc: Global, kind: Kind, content: &[u8]) -> Result<ObjectText, Memory>
        requires { HasObject kind content.now }
        ensures { IfOk result (λ text. text ≡ framed kind content.now) }
    {
        let text = frame_text(alloc, kind, content)?;
        let name = name_of_text(text.as_slice());
        Ok(ObjectText { name, text })
    }

    /// The object's name: the SHA-1 of the text.
    pub fn name(&self) -> Name
        ensures value { result ≡ object_name self.now }
        ensures object { HasObjectText self.now }
    {
        self.name
    }

    /// Whether the text has at most 4,194,304 bytes.
    pub fn is_short(&self) -> bool
        ensures { result ≡ nat_le (length self.now) MOST_BYTES }
    {
        self.as_slice().len() as u64 <= MOST_BYTES
    }

    /// The text.
    pub fn as_slice(&self) -> &[u8]
        ensures { result.now ≡ self.now }
    {
        self.text.as_slice()
    }
}
