//! The commands that edit a folder, each with its arguments.
use bug_edits::BugEdit;
use gb_text::{Line, Message, Text, Title};

/// A command that edits a folder, with its arguments.
#[derive(Drop)]
pub enum Edit {
    /// A new identity with this name and email.
    UserNew { name: Title, email: Line },
    /// A new version of the user, with this name and email.
    UserEdit { name: Title, email: Line },
    /// The identity with this id becomes the user.
    UserSet { id: Text },
    /// A new bug with this title and this message.
    New { title: Title, message: Message },
    /// An edit of the bug that an argument finds.
    OfBug { bug: Text, edit: BugEdit },
    /// Another message of the comment that an argument finds.
    OfComment { comment: Text, message: Message },
}
