//! The folders in which a run works.
use gb_text::Folder;

/// What a run does in a folder.
#[derive(Clone, Copy, Debug, PartialEq, Eq)]
pub enum Purpose {
    Read,
    Write,
}

/// A folder in which a run works, and what it does there.
#[derive(Drop)]
pub struct Claim {
    pub folder: Folder,
    pub purpose: Purpose,
}

impl Claim {
    /// Whether a path lies below the folder.
    pub fn covers(&self, path: &str) -> bool {
        match self.folder.as_str() {
            "" => !path.starts_with('/'),
            "/" => path.starts_with('/'),
            folder => path
                .strip_prefix(folder)
                .is_some_and(|rest| rest.starts_with('/')),
        }
    }

    /// Whether a path is that of the folder, or lies below it.
    pub fn holds(&self, path: &str) -> bool {
        path == self.path() || self.covers(path)
    }

    /// The folder as a path of the system.
    pub fn path(&self) -> &str {
        match self.folder.as_str() {
            "" => ".",
            folder => folder,
        }
    }
}
