//! Where a path stands, and what its put has to do with the disk.
use gb_store::is_object_path;
use gb_text::Id;

/// What a path is to the disk.
#[derive(Clone, Copy, PartialEq, Eq)]
pub enum Kind {
    /// An object, which no file names until a put of another kind.
    Object,
    /// A row of the cache, which is made anew where it is lost.
    Row,
    /// What names objects, or is named by none.
    Other,
}

impl Kind {
    /// The kind of a path.
    pub fn of(path: &str) -> Kind {
        if is_object_path(path) {
            Kind::Object
        } else if is_row_path(path) {
            Kind::Row
        } else {
            Kind::Other
        }
    }
}

/// The folder in which a path stands.
pub fn folder_of(path: &str) -> &str {
    match path.rsplit_once('/') {
        None => ".",
        Some(("", _)) => "/",
        Some((folder, _)) => folder,
    }
}

/// Whether a path is that of a ref of a remote.
pub fn is_tracking(path: &str) -> bool {
    path.starts_with("refs/remotes/") || path.contains("/refs/remotes/")
}

/// Whether a path is that of a file of packed refs.
pub fn is_packed(path: &str) -> bool {
    path == "packed-refs" || path.ends_with("/packed-refs")
}

// Whether the last parts of a path are `git-bug`, `cache`, a kind of row and an id.
fn is_row_path(path: &str) -> bool {
    let Some((front, name)) = path.rsplit_once('/') else {
        return false;
    };
    let Some((cache, _)) = front.rsplit_once('/') else {
        return false;
    };
    Id::read(name.as_bytes()).is_some()
        && (cache == "git-bug/cache" || cache.ends_with("/git-bug/cache"))
}
