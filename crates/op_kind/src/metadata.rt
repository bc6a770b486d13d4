//! Metadata: objects whose members are texts with distinct names.
ghost use Rattle.std.specs.Prelude.{◌≡◌, ◌∷◌, [], map, IfOk};
ghost use Rattle.std.specs.Option.{option_map};
ghost use Rattle.op_kind.specs.Metadata.{entries_at, pairs_at, pair_of};

use crate::{Pair, read_text};
use gb_text::{List, Memory, Text};
use json_span::{SpanFault, members};
use std::alloc::Global;
use std::collections::BTreeMap;

// The texts of an object, by their names. None where the text is no object, a name or a value is no
// text, or two names are the same text.
fn read_entries(alloc: Global, json: &[u8]) -> Result<Option<BTreeMap<Text, Text>>, Memory>
    ensures { IfOk result (λ o. option_map (λ m. m.entries) o ≡ entries_at json.now) }
{
    let parts = match members(alloc, json) {
        Ok(parts) => parts,
        Err(SpanFault::Memory) => return Err(Memory),
        Err(SpanFault::NotSplit(_)) => return Ok(None),
    };
    let mut entries = BTreeMap::new(alloc);
    for part in &parts {
        let Some(key) = read_text(alloc, part.name.cut(json))? else {
            return Ok(None);
        };
        let Some(value) = read_text(alloc, part.value.cut(json))? else {
            return Ok(None);
        };
        if entries.insert(key, value)?.is_some() {
            return Ok(None);
        }
    }
    Ok(Some(entries))
}

// The entries of a map, in its order.
fn pairs_of(alloc: Global, entries: BTreeMap<Text, Text>) -> Result<List<Pair>, Memory>
    ensures { IfOk result (λ l. l ≡ map pair_of entries.entries) }
{
    let mut pairs = Vec::new(alloc);
    for (key, value) in entries {
        pairs.push(Pair { key, value })?;
    }
    Ok(List::from_vec(pairs))
}

/// The pairs of an object text, in byte order of their keys. None where the text is no object, a key
/// or a value is no JSON string that reads as a text, or two keys read as the same text.
#[tactic(auto, unfolding(crate::specs::Metadata::pairs_at))]
pub fn read_pairs(alloc: Global, json: &[u8]) -> Result<Option<List<Pair>>, Memory>
    ensures { IfOk result (λ o. o ≡ pairs_at json.now) }
{
    match read_entries(alloc, json)? {
        Some(entries) => Ok(Some(pairs_of(alloc, entries)?)),
        None => Ok(None),
    }
}
