//! The two folders of a command that exchanges.
ghost use Rattle.std.specs.Prelude.{◌≡◌, false};
ghost use Rattle.words.specs.Overlaps.{overlaps};

use gb_text::Folder;

/// Two folders such that no path can lie below both: the one that a command is for, and the one that
/// it exchanges commits with.
#[derive(Drop)]
pub struct FolderPair {
    pub own: Folder,
    pub peer: Folder,
    pub ghost apart: { overlaps own peer ≡ false },
}

impl FolderPair {
    ghost use Rattle.words.specs.Pairs.{pair_of};

    /// The pair of two folders, unless they overlap. Takes no memory.
    pub fn read(own: Folder, peer: Folder) -> Option<FolderPair>
        ensures { result ≡ pair_of own peer }
    {
        if own.overlaps(&peer) {
            return None;
        }
        Some(FolderPair { own, peer })
    }
}
