//! The lists in a row's text.
ghost use Rattle.std.specs.Prelude.{◌≡◌, map, IfOk};
ghost use Rattle.std.specs.List.{list_all};
ghost use Rattle.gb_text.specs.Rules.{is_title_text};
ghost use Rattle.row_text.specs.Lists.{array_at, ascend, ids_at, ids_of, keys_of, pairs_at};

use gb_text::{Id, List, Memory, Text, is_title};
use json_span::{SpanFault, members};
use op_kind::{Pair, read_text, read_texts};
use std::alloc::Global;
use std::cmp::Ordering;

/// The texts of an array of JSON strings.
pub(crate) fn read_array(alloc: Global, json: &[u8]) -> Result<Option<List<Text>>, Memory>
    ensures { IfOk result (λ o. o ≡ array_at json.now) }
{
    if json == b"null".as_slice() {
        return Ok(None);
    }
    read_texts(alloc, json)
}

// The ids whose digits the texts are. None where a text is that of none.
#[tactic(auto, using(crate::proofs::ListLemmas::one_more_id, crate::proofs::ListLemmas::no_more_ids))]
fn ids_of(alloc: Global, texts: &[Text]) -> Result<Option<List<Id>>, Memory>
    ensures { IfOk result (λ o. o ≡ ids_of texts.now) }
{
    let mut ids = Vec::new(alloc);
    for text in texts {
        let Some(id) = Id::read(text.as_str().as_bytes()) else {
            return Ok(None);
        };
        ids.push(id)?;
    }
    Ok(Some(List::from_vec(ids)))
}

/// The ids of an array of their digits.
pub(crate) fn read_ids(alloc: Global, json: &[u8]) -> Result<Option<List<Id>>, Memory>
    ensures { IfOk result (λ o. o ≡ ids_at json.now) }
{
    match read_array(alloc, json)? {
        Some(texts) => ids_of(alloc, texts.as_slice()),
        None => Ok(None),
    }
}

/// The pairs of an object of texts, in the order in which they are written.
pub(crate) fn read_pairs(alloc: Global, json: &[u8]) -> Result<Option<List<Pair>>, Memory>
    ensures { IfOk result (λ o. o ≡ pairs_at json.now) }
{
    let parts = match members(alloc, json) {
        Ok(parts) => parts,
        Err(SpanFault::Memory) => return Err(Memory),
        Err(SpanFault::NotSplit(_)) => return Ok(None),
    };
    let mut pairs = Vec::new(alloc);
    for part in &parts {
        let Some(key) = read_text(alloc, part.name.cut(json))? else {
            return Ok(None);
        };
        let Some(value) = read_text(alloc, part.value.cut(json))? else {
            return Ok(None);
        };
        pairs.push(Pair { key, value })?;
    }
    Ok(Some(List::from_vec(pairs)))
}

/// Whether each text is a title.
pub(crate) fn are_titles(texts: &[Text]) -> bool
    ensures { result ≡ list_all is_title_text texts.now }
{
    texts.iter().all(|text| is_title(text.as_str()))
}

/// Whether texts ascend in byte order, and none is there twice.
pub(crate) fn ascend(texts: &[Text]) -> bool
    ensures { result ≡ ascend texts.now }
{
    let Some((first, rest)) = texts.split_first() else {
        return true;
    };
    let mut last = first;
    for text in rest {
        match last.cmp(text) {
            Ordering::Less => last = text,
            _ => return false,
        }
    }
    true
}

/// Whether the keys of pairs ascend in byte order, and none is there twice.
pub(crate) fn keys_ascend(pairs: &[Pair]) -> bool
    ensures { result ≡ ascend (keys_of pairs.now) }
{
    let Some((first, rest)) = pairs.split_first() else {
        return true;
    };
    let mut last = first;
    for pair in rest {
        match last.key.cmp(&pair.key) {
            Ordering::Less => last = pair,
            _ => return false,
        }
    }
    true
}
