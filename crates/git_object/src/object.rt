//! Objects, read from their texts.
ghost use Rattle.std.specs.Prelude.{◌≡◌, IfOk, IfSome, Some};
ghost use Rattle.git_object.specs.Grammar.{IsObjectText, IsContent, kind_of};
ghost use Rattle.git_object.specs.Reading.{Gives, object_with, object_of};

use crate::commit::Commit;
use crate::frame::Kind;
use crate::object_view::ObjectView;
use crate::tree::Tree;
use gb_text::{Bytes, Memory};
use std::alloc::Global;

/// A blob, a tree or a commit. Git's annotated tags are none of the three, and read as no object.
#[derive(Drop)]
pub enum Object {
    Blob(Bytes),
    Tree(Tree),
    Commit(Commit),
}

impl Object {
    ghost use Rattle.git_object.specs.declared.object.Object.{Object as ObjectValue};

    /// The object that has this text, as `Frame::read` cuts it and `Object::of` reads the content.
    /// None exactly where no object has this text.
    pub fn read(alloc: Global, text: &[u8]) -> Result<Option<Object>, Memory>
        ensures value { IfOk result (λ object. object ≡ object_of text.now) }
        ensures found { IfOk result (λ object. IfSome object (λ o. IsObjectText text.now o)) }
        ensures only { (o : ObjectValue) → IsObjectText text.now o
            → IfOk result (λ object. object ≡ Some o) }
    {
        Object::parse(alloc, text)
    }

    fn parse(alloc: Global, text: &[u8]) -> Result<Option<Object>, Memory>
        ensures { Gives (λ object. object) result (object_of text.now) }
    {
        match ObjectView::read(alloc, text)? {
            Some(view) => Ok(Some(view.into_object(alloc)?)),
            None => Ok(None),
        }
    }

    /// The object of this kind that has this content, which is copied at most once. None exactly
    /// where no object of the kind has this content; each content is that of a blob.
    pub fn of(alloc: Global, kind: Kind, content: &[u8]) -> Result<Option<Object>, Memory>
        ensures value { IfOk result (λ object. object ≡ object_with kind content.now) }
        ensures found { IfOk result
            (λ object. IfSome object (λ o. (kind ≡ kind_of o) × IsContent content.now o)) }
        ensures only { (o : ObjectValue) → kind ≡ kind_of o → IsContent content.now o
            → IfOk result (λ object. object ≡ Some o) }
    {
        Object::parse_content(alloc, kind, content)
    }

    fn parse_content(alloc: Global, kind: Kind, content: &[u8]) -> Result<Option<Object>, Memory>
        ensures { Gives (λ object. object) result (object_with kind content.now) }
    {
        match ObjectView::of(alloc, kind, content)? {
            Some(view) => Ok(Some(view.into_object(alloc)?)),
            None => Ok(None),
        }
    }
}
