//! Where and when a command is carried out.
use bug_edits::Moment;
use gb_text::Folder;

/// The folder of a command, and its time with the random bytes from which it makes its nonce.
#[derive(Debug, Drop)]
pub struct Env {
    pub folder: Folder,
    pub moment: Moment,
}
