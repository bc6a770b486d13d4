//! Writing rows.
ghost use Rattle.std.specs.Prelude.{◌≡◌, IsTrue, IsErrOf, OnOk, Some};
ghost use Rattle.gb_text.specs.Folder.{joined};
ghost use Rattle.gb_store.specs.Faults.{KeepsFaults};
ghost use Rattle.gb_store.specs.Files.{files_of};
ghost use Rattle.gb_store.specs.Moments.{WroteIf};
ghost use Rattle.excerpt_cache.specs.Rows.{PutsRow, RowAnswers, is_short, row_write};

use crate::codec::RowCodec;
use crate::fault::CacheFault;
use crate::read::{MOST_BYTES, place_of};
use gb_store::Store;
use gb_text::{Folder, Id};
use std::alloc::Global;

/// Writes the row of an id by one write, whatever was stored at its place. A row whose text has more
/// than `MOST_BYTES` bytes is not written. Reads nothing.
pub fn write_row<R: RowCodec, S: Store>(
    alloc: Global,
    disk: &mut S,
    folder: &Folder,
    id: &Id,
    row: &R,
) -> Result<(), CacheFault>
    ensures answers { IsTrue S.tells
        → RowAnswers (is_short (R.codec.written row.now))
        (row_write folder.now id.now (R.codec.written row.now))
        (S.history disk.old) (S.history disk.new) result }
    ensures wrote { WroteIf S.tells (PutsRow folder.now id.now (R.codec.written row.now))
        (S.history disk.old) (S.history disk.new) }
    ensures reads { S.object_reads disk.new ≡ S.object_reads disk.old }
    ensures caused { KeepsFaults S.never_fails S.faults
        (IsErrOf result CacheFault.Disk) disk.old disk.new }
{
    let place = place_of(alloc, id)?;
    let at = folder.join(alloc, place.as_str())?;
    let text = row.write(alloc)?;
    let bytes = text.as_slice();
    if bytes.len() as u64 > MOST_BYTES {
        return Ok(());
    }
    disk.put(alloc, at.as_str(), bytes)?;
    Ok(())
}
