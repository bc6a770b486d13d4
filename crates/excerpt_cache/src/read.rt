//! Reading rows.
ghost use Rattle.std.specs.Prelude.{◌≡◌, List, ℕ, IsTrue, IsErrOf, IfOk, false};
ghost use Rattle.gb_text.specs.Digits.{IsId};
ghost use Rattle.gb_text.specs.Folder.{joined};
ghost use Rattle.gb_store.specs.Faults.{KeepsFaults};
ghost use Rattle.gb_store.specs.Files.{files_of};
ghost use Rattle.gb_store.specs.ObjectPath.{is_object_path};
ghost use Rattle.excerpt_cache.specs.Rows.{row_at, row_place};

use crate::codec::RowCodec;
use crate::fault::CacheFault;
use gb_store::{Content, Store};
use gb_text::{Folder, Id, Memory, Text, push_id};
use std::alloc::Global;

/// The most bytes that a row's file may have.
pub const MOST_BYTES: u64 = 4_194_304;

/// Where the row of an id is stored, below its folder. No folder has an object there.
#[tactic(auto, using(crate::proofs::PlaceLemmas::row_place_is_no_object))]
pub fn place_of(alloc: Global, id: &Id) -> Result<Text, Memory>
    ensures place { IfOk result (λ place. place ≡ row_place id.now) }
    ensures no_object { (folder : List ℕ)
        → IfOk result (λ place. is_object_path (joined folder place) ≡ false) }
{
    let mut place = String::from_str(alloc, "git-bug/cache/bugs/")?;
    push_id(&mut place, id)?;
    Ok(Text::from_string(place))
}

/// The row of an id. None if and only if no file is stored at its place, the file has more than
/// `MOST_BYTES` bytes, or its codec reads no row there.
pub fn read_row<R: RowCodec, S: Store>(
    alloc: Global,
    disk: &mut S,
    folder: &Folder,
    id: &Id,
) -> Result<Option<R>, CacheFault>
    ensures row { IsTrue S.tells
        → IfOk result (λ row. row ≡ row_at R.codec (files_of (S.history disk.old)) folder.now id.now) }
    ensures unwritten { IsTrue S.tells → S.history disk.new ≡ S.history disk.old }
    ensures reads { S.object_reads disk.new ≡ S.object_reads disk.old }
    ensures caused { KeepsFaults S.never_fails S.faults
        (IsErrOf result CacheFault.Disk) disk.old disk.new }
{
    let place = place_of(alloc, id)?;
    let at = folder.join(alloc, place.as_str())?;
    match disk.read(alloc, at.as_str(), MOST_BYTES)? {
        Content::Whole(text) => Ok(R::read(alloc, text.as_slice())?),
        Content::Absent => Ok(None),
        Content::Long => Ok(None),
    }
}
