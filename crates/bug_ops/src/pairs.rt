//! Metadata in byte order of its keys.
ghost use Rattle.std.specs.Prelude.{◌≡◌, map, IfOk, OnOk};
ghost use Rattle.op_kind.specs.Metadata.{pair_of};
ghost use Rattle.bug_ops.specs.Snapshots.{joined_pairs, with_pair, with_pairs};

use crate::copies::copy_text;
use gb_text::{List, Memory, Text};
use op_kind::Pair;
use std::alloc::Global;
use std::collections::BTreeMap;

// Sets a key that is not set.
fn set_pair(alloc: Global, entries: &mut BTreeMap<Text, Text>, pair: &Pair) -> Result<(), Memory>
    ensures { OnOk result (entries.new.entries ≡ with_pair entries.old.entries pair.now) }
{
    if entries.contains_key(&pair.key) {
        return Ok(());
    }
    let key = copy_text(alloc, &pair.key)?;
    let value = copy_text(alloc, &pair.value)?;
    entries.insert(key, value)?;
    Ok(())
}

/// Sets the keys that are not set, each found by the logarithm of those that are.
pub(crate) fn set_pairs(
    alloc: Global,
    entries: &mut BTreeMap<Text, Text>,
    pairs: &[Pair],
) -> Result<(), Memory>
    ensures { OnOk result (entries.new.entries ≡ with_pairs entries.old.entries pairs.now) }
{
    for pair in pairs {
        set_pair(alloc, entries, pair)?;
    }
    Ok(())
}

/// The entries of a map, in its order.
pub(crate) fn pairs_of(alloc: Global, entries: BTreeMap<Text, Text>) -> Result<List<Pair>, Memory>
    ensures { IfOk result (λ l. l ≡ map pair_of entries.entries) }
{
    let mut pairs = Vec::new(alloc);
    for (key, value) in entries {
        pairs.push(Pair { key, value })?;
    }
    Ok(List::from_vec(pairs))
}

/// A copy of the entries of a map, in its order.
pub(crate) fn copy_entries(
    alloc: Global,
    entries: &BTreeMap<Text, Text>,
) -> Result<List<Pair>, Memory>
    ensures { IfOk result (λ l. l ≡ map pair_of entries.now.entries) }
{
    let mut copies = Vec::new(alloc);
    for (key, value) in entries {
        let key = copy_text(alloc, key)?;
        let value = copy_text(alloc, value)?;
        copies.push(Pair { key, value })?;
    }
    Ok(List::from_vec(copies))
}

/// The pairs with further ones whose keys are not set, in byte order of the keys.
pub(crate) fn join_pairs(
    alloc: Global,
    pairs: &[Pair],
    others: &[Pair],
) -> Result<List<Pair>, Memory>
    ensures { IfOk result (λ l. l ≡ joined_pairs pairs.now others.now) }
{
    let mut entries = BTreeMap::new(alloc);
    set_pairs(alloc, &mut entries, pairs)?;
    set_pairs(alloc, &mut entries, others)?;
    pairs_of(alloc, entries)
}
