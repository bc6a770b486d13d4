//! Objects that borrow from the texts that they were read from.
ghost use Rattle.std.specs.Prelude.{◌≡◌, IfOk};
ghost use Rattle.std.specs.Option.{option_map};
ghost use Rattle.git_object.specs.Reading.{object_with, object_of};
ghost use Rattle.git_object.specs.Views.{object_seen};

use crate::commit_view::CommitView;
use crate::frame::{Frame, Kind};
use crate::object::Object;
use crate::tree_view::TreeView;
use gb_text::{Bytes, Memory};
use std::alloc::Global;

/// An object whose bytes are parts of the text that it was read from.
#[derive(Drop)]
pub enum ObjectView<'a> {
    Blob(&'a [u8]),
    Tree(TreeView<'a>),
    Commit(CommitView<'a>),
}

impl<'a> ObjectView<'a> {
    /// The object that has this text, as `Object::read` reads it.
    #[tactic(auto, unfolding(crate::specs::Reading::object_of))]
    pub fn read(alloc: Global, text: &'a [u8]) -> Result<Option<ObjectView<'a>>, Memory>
        ensures { IfOk result (λ object. option_map object_seen object ≡ object_of text.now) }
    {
        let Some(frame) = Frame::read(text) else {
            return Ok(None);
        };
        ObjectView::of(alloc, frame.kind, frame.content)
    }

    /// The object of this kind that has this content, as `Object::of` reads it.
    pub fn of(
        alloc: Global,
        kind: Kind,
        content: &'a [u8],
    ) -> Result<Option<ObjectView<'a>>, Memory>
        ensures { IfOk result (λ object. option_map object_seen object
            ≡ object_with kind content.now) }
    {
        match kind {
            Kind::Blob => Ok(Some(ObjectView::Blob(content))),
            Kind::Tree => match TreeView::read(alloc, content)? {
                Some(tree) => Ok(Some(ObjectView::Tree(tree))),
                None => Ok(None),
            },
            Kind::Commit => match CommitView::read(alloc, content)? {
                Some(commit) => Ok(Some(ObjectView::Commit(commit))),
                None => Ok(None),
            },
        }
    }

    /// The object with copies of its bytes.
    pub(crate) fn into_object(self, alloc: Global) -> Result<Object, Memory>
        ensures { IfOk result (λ object. object ≡ object_seen self.entry) }
    {
        match self {
            ObjectView::Blob(content) => Ok(Object::Blob(Bytes::from_slice(alloc, content)?)),
            ObjectView::Tree(tree) => Ok(Object::Tree(tree.into_tree(alloc)?)),
            ObjectView::Commit(commit) => Ok(Object::Commit(commit.into_commit(alloc)?)),
        }
    }
}
