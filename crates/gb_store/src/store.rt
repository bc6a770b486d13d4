//! A store of files by path.
ghost use Rattle.std.specs.Prelude.{◌≡◌, ◌∷◌, ℕ, Bool, IsTrue, IfOk, OnOk, IsErrOf};
ghost use Rattle.gb_store.specs.Faults.{KeepsFaults};
ghost use Rattle.gb_store.specs.Files.{History, Put, Removed, file_at, files_of, TellsFile, IsWithin, IsListing};
ghost use Rattle.gb_store.specs.Moments.{MaybeWrote};
ghost use Rattle.gb_store.specs.ObjectPath.{reads_after};

use crate::StoreFault;
use gb_text::{Bytes, List, Text};
use std::alloc::Global;

/// One write of a path: its new bytes, or none where the path is removed.
#[derive(Debug, Drop)]
pub struct Change {
    pub path: Text,
    pub bytes: Option<Bytes>,
}

/// The answer to a read: no file, the bytes of one, or that it has more bytes than were asked for.
#[derive(Debug, Drop)]
pub enum Content {
    Absent,
    Whole(Bytes),
    Long,
}

/// Files by path, which are put, removed, read and listed whole. A path is any text.
pub trait Store {
    /// Whether the store tells its content.
    ghost tells: { Bool };

    /// Its writes, the newest first, where it tells them.
    ghost history: { Self → History };

    /// How often it has failed, up to the last number of its type.
    ghost faults: { Self → ℕ };

    /// How often a path of an object was read, up to the last number of its type.
    ghost object_reads: { Self → ℕ };

    /// Whether no call of it will ever answer `Failed`.
    ghost never_fails: { Self → Bool };

    /// What stands at the path: nothing, a file of at most `limit` bytes, or one that has more.
    /// Makes no write.
    fn read(&mut self, alloc: Global, path: &str, limit: u64) -> Result<Content, StoreFault>
        ensures found { IsTrue tells
            → IfOk result (TellsFile (file_at (history self.old) path.now) limit) }
        ensures within { IfOk result (IsWithin limit) }
        ensures unwritten { IsTrue tells → history self.new ≡ history self.old }
        ensures reads { object_reads self.new ≡ reads_after path.now (object_reads self.old) }
        ensures caused { KeepsFaults never_fails faults (IsErrOf result StoreFault.Failed)
            self.old self.new };

    /// The names without `/` of the files that stand right in a folder, each once, in byte order:
    /// none where the folder is absent. Makes no write.
    fn list(&mut self, alloc: Global, dir: &str) -> Result<List<Text>, StoreFault>
        ensures names { IsTrue tells
            → IfOk result (IsListing (files_of (history self.old)) dir.now) }
        ensures unwritten { IsTrue tells → history self.new ≡ history self.old }
        ensures reads { object_reads self.new ≡ object_reads self.old }
        ensures caused { KeepsFaults never_fails faults (IsErrOf result StoreFault.Failed)
            self.old self.new };

    /// Puts a whole file in the place of what stands at the path. Where it fails, the file was put
    /// or nothing was; where memory runs out, nothing was.
    fn put(&mut self, alloc: Global, path: &str, bytes: &[u8]) -> Result<(), StoreFault>
        ensures done { IsTrue tells → OnOk result (history self.new ≡ Put path.now bytes.now
            ∷ history self.old) }
        ensures maybe { IsTrue tells
            → MaybeWrote (Put path.now bytes.now) (history self.old) (history self.new) }
        ensures memory { IsTrue tells → IsErrOf result StoreFault.Memory
            → history self.new ≡ history self.old }
        ensures reads { object_reads self.new ≡ object_reads self.old }
        ensures caused { KeepsFaults never_fails faults (IsErrOf result StoreFault.Failed)
            self.old self.new };

    /// Removes what stands at the path, if anything does. Where it fails, it was removed or nothing
    /// was; where memory runs out, nothing was.
    fn remove(&mut self, alloc: Global, path: &str) -> Result<(), StoreFault>
        ensures done { IsTrue tells → OnOk result (history self.new ≡ Removed path.now
            ∷ history self.old) }
        ensures maybe { IsTrue tells
            → MaybeWrote (Removed path.now) (history self.old) (history self.new) }
        ensures memory { IsTrue tells → IsErrOf result StoreFault.Memory
            → history self.new ≡ history self.old }
        ensures reads { object_reads self.new ≡ object_reads self.old }
        ensures caused { KeepsFaults never_fails faults (IsErrOf result StoreFault.Failed)
            self.old self.new };
}
