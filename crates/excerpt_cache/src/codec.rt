//! Rows and the texts of their files.
ghost use Rattle.std.specs.Prelude.{◌≡◌, IfOk};
ghost use Rattle.excerpt_cache.specs.Codec.{Codec, KeepsLaw};

use gb_text::{Bytes, Memory};
use std::alloc::Global;

/// A type of rows, with the text of a row's file. What is generic over a codec uses its meaning and
/// its law alone.
pub trait RowCodec: Sized + Drop {
    /// What its texts mean.
    ghost codec: { Codec Self };

    /// The text of the row's file. The row need not satisfy the rules.
    fn write(&self, alloc: Global) -> Result<Bytes, Memory>
        ensures { IfOk result (λ text. text ≡ codec.written self.now) };

    /// The row that a text is, or none.
    fn read(alloc: Global, text: &[u8]) -> Result<Option<Self>, Memory>
        ensures { IfOk result (λ row. row ≡ codec.read_as text.now) };

    ghost law: { KeepsLaw codec };
}
