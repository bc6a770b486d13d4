//! The refs that are packed then: those before, and those taken.
ghost use Rattle.std.specs.Prelude.{◌≡◌, ◌++◌, map, IfOk};
ghost use Rattle.std.specs.BTreeMap.{IsFromIterResult};
ghost use Rattle.ref_packing.specs.Merging.{name_cmp, pair_of, ref_of_pair};
ghost use Rattle.ref_packing.specs.Packing.{AreLast};

use crate::loose::Loose;
use gb_text::{List, Memory, Name};
use packed_refs::{RefLine, RefName};
use std::alloc::{AllocError, Global};
use std::collections::BTreeMap;

/// The last of the refs with each name, in byte order of names: those taken come behind those
/// before.
pub(crate) fn merged(
    alloc: Global,
    before: List<RefLine>,
    taken: &[Loose],
) -> Result<Vec<RefLine>, Memory>
    ensures { IfOk result (λ packed. AreLast (before ++ taken.now) packed.items) }
{
    let all = with_copies(alloc, before, taken)?;
    lines_of(alloc, last_of(alloc, all)?)
}

// Some refs, and copies of others behind them.
fn with_copies(
    alloc: Global,
    before: List<RefLine>,
    taken: &[Loose],
) -> Result<Vec<RefLine>, Memory>
    ensures { IfOk result (λ all. all.items ≡ before ++ taken.now) }
{
    let mut all = before.into_vec();
    for one in taken {
        let name = RefName::from_slice(alloc, one.place.as_str().as_bytes())?;
        all.push(RefLine {
            name,
            head: one.head,
        })?;
    }
    Ok(all)
}

// The last head of each name.
fn last_of(alloc: Global, refs: Vec<RefLine>) -> Result<BTreeMap<RefName, Name>, AllocError>
    ensures { IfOk result (IsFromIterResult name_cmp (map pair_of refs.items)) }
{
    let pairs = refs.into_iter().map(|one| (one.name, one.head));
    pairs.collect(alloc)
}

// The refs of a map, in its order.
fn lines_of(alloc: Global, last: BTreeMap<RefName, Name>) -> Result<Vec<RefLine>, Memory>
    ensures { IfOk result (λ lines. lines.items ≡ map ref_of_pair last.entries) }
{
    let mut lines = Vec::new(alloc);
    for (name, head) in last {
        lines.push(RefLine { name, head })?;
    }
    Ok(lines)
}
