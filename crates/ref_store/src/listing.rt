//! The refs of ids directly in a directory of a folder.
ghost use Rattle.std.specs.Prelude.{◌≡◌, ◌++◌, List as Items, ℕ, IsTrue, IsErrOf, IfOk, Err, false, map};
ghost use Rattle.std.specs.BTreeMap.{IsFromIterResult};
ghost use Rattle.gb_store.specs.Faults.{KeepsFaults};
ghost use Rattle.gb_store.specs.Files.{files_of};
ghost use Rattle.gb_store.specs.ObjectPath.{is_object_path};
ghost use Rattle.gb_text.specs.Folder.{joined};
ghost use Rattle.ref_store.specs.Listing.{AreLast, IsRefList, entry_of, id_cmp, id_place, packed_entry, pair_of};
ghost use Rattle.ref_store.specs.declared.fault.RefFault.TheVariants as fault;

use crate::fault::RefFault;
use crate::loose::loose_entries;
use crate::packed::packed_heads;
use gb_store::Store;
use gb_text::{Folder, Id, List, Memory, Name, Text, push_id};
use packed_refs::PackedHead;
use std::alloc::{AllocError, Global};
use std::collections::BTreeMap;

/// What stands at the place of a ref.
#[derive(Clone, Copy, Debug, PartialEq, Eq)]
pub enum RefFound {
    /// A ref text, of this head.
    Head(Name),
    /// A file that is no ref text.
    Bad,
}

/// The ref of an entity.
#[derive(Clone, Copy, Debug, PartialEq, Eq)]
pub struct RefEntry {
    pub id: Id,
    pub found: RefFound,
}

/// Where the ref of an id stands: in the dir, with the 64 digits as the file's name. No folder has
/// an object there.
pub fn place_of(alloc: Global, dir: &str, id: &Id) -> Result<Text, Memory>
    ensures place { IfOk result (λ place. place ≡ id_place dir.now id.now) }
    ensures no_object { (folder : Items ℕ)
        → IfOk result (λ place. is_object_path (joined folder place) ≡ false) }
{
    let mut place = String::from_str(alloc, dir)?;
    place.push_str("/")?;
    push_id(&mut place, id)?;
    Ok(Text::from_string(place))
}

/// One entry for each id whose ref is right in the dir, loose or packed, in the order of ids. A file
/// that is no ref text is an entry too; files with other names are passed over.
pub fn list<S: Store>(
    alloc: Global,
    disk: &mut S,
    folder: &Folder,
    dir: &str,
) -> Result<List<RefEntry>, RefFault>
    ensures entries { IsTrue S.tells
        → IfOk result (IsRefList (files_of (S.history disk.old)) folder.now dir.now) }
    ensures never_bad { (at : Items ℕ) → result ≡ Err (fault.BadRef at) → ⊥ }
    ensures unwritten { IsTrue S.tells → S.history disk.new ≡ S.history disk.old }
    ensures reads { S.object_reads disk.new ≡ S.object_reads disk.old }
    ensures caused { KeepsFaults S.never_fails S.faults
        (IsErrOf result RefFault.Disk) disk.old disk.new }
{
    let at = folder.join(alloc, dir)?;
    let names = disk.list(alloc, at.as_str())?;
    let loose = loose_entries(alloc, disk, folder, dir, names.as_slice())?;
    let packed = packed_heads(alloc, disk, folder, dir)?;
    Ok(List::from_vec(join(alloc, packed.as_slice(), loose.as_slice())?))
}

// The entries of packed and of loose refs, in the order of ids: a loose one counts where both have an
// id, and the last packed one where several have it.
fn join(alloc: Global, packed: &[PackedHead], loose: &[RefEntry]) -> Result<Vec<RefEntry>, Memory>
    ensures { IfOk result (λ joined. AreLast (map packed_entry packed.now ++ loose.now) joined.items) }
{
    let entries = all_entries(alloc, packed, loose)?;
    entries_of(alloc, last_of(alloc, entries.as_slice())?)
}

// The entries of packed refs, and then those of loose refs.
fn all_entries(
    alloc: Global,
    packed: &[PackedHead],
    loose: &[RefEntry],
) -> Result<Vec<RefEntry>, Memory>
    ensures { IfOk result (λ all. all.items ≡ map packed_entry packed.now ++ loose.now) }
{
    let entries = packed.iter().map(|one| packed_entry(one));
    Ok(entries.chain(loose.iter().copied()).collect(alloc)?)
}

// What the last entry of each id says.
fn last_of(alloc: Global, entries: &[RefEntry]) -> Result<BTreeMap<Id, RefFound>, AllocError>
    ensures { IfOk result (IsFromIterResult id_cmp (map pair_of entries.now)) }
{
    let pairs = entries.iter().map(|entry| (entry.id, entry.found));
    pairs.collect(alloc)
}

// The entries of a map, in its order.
fn entries_of(alloc: Global, last: BTreeMap<Id, RefFound>) -> Result<Vec<RefEntry>, Memory>
    ensures { IfOk result (λ entries. entries.items ≡ map entry_of last.entries) }
{
    let mut entries = Vec::new(alloc);
    for (id, found) in last {
        entries.push(RefEntry { id, found })?;
    }
    Ok(entries)
}

// The entry of a packed ref.
fn packed_entry(one: &PackedHead) -> RefEntry
    ensures { result ≡ packed_entry one.now }
{
    RefEntry {
        id: one.id,
        found: RefFound::Head(one.head),
    }
}
