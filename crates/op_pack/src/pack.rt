//! Packs: the operations that one commit adds.
ghost use Rattle.std.specs.Prelude.{◌≡◌, ◌≤◌, ◌++◌, ◌∷◌, [], length, IfOk, OnOk, Some, map};
ghost use Rattle.std.specs.List.{AllByRecursion};
ghost use Rattle.gb_text.specs.Digits.{IsId};
ghost use Rattle.json_span.specs.Joined.{joined, behind_commas};
ghost use Rattle.op_pack.specs.Answers.{AnswersUnlessMemory};
ghost use Rattle.op_pack.specs.Packs.{hash_of, ops_at, version_in, written_ids, SlicesFault};

use crate::head::create_number;
use crate::parts::read_parts;
use crate::{PackFault, TreeHead};
use gb_text::{Bytes, Id, List, Memory};
use lamport::Time;
use op_kind::{OpFault, OpKind, Place};
use sha2::{Digest, Sha256};
use std::alloc::Global;

/// The most operations that a pack may have.
pub const MOST_OPERATIONS: usize = 4096;

/// The operations that one commit adds, in order (git-bug's data model). `id` is the SHA-256 of the
/// pack's text. The version and the clocks are those of the commit's tree.
#[derive(Drop)]
pub struct Pack<K> {
    pub id: Id,
    pub version: u64,
    pub edit: Time,
    pub create: Option<Time>,
    pub author: Id,
    pub ops: List<K>,
}

/// The text of a pack, and the ids of its operations, in their order: the id of each is the SHA-256 of its
/// text.
#[derive(Drop)]
pub struct PackText {
    pub text: Bytes,
    pub ids: List<Id>,
}

// The SHA-256 of a text.
fn hash_of(text: &[u8]) -> Id
    ensures { result ≡ hash_of text.now }
{
    Id::from_bytes(Sha256::digest(text))
}

// The operations that texts stand for, each at the place of its text.
#[tactic(auto, using(crate::proofs::OpsLemmas::front_more, crate::proofs::OpsLemmas::no_front, crate::proofs::OpsLemmas::fault_at))]
fn read_ops<K: OpKind>(
    alloc: Global,
    head: &TreeHead,
    author: Id,
    slices: &[&[u8]],
) -> Result<List<K>, PackFault>
    ensures { AnswersUnlessMemory
        (ops_at K.meaning head.now author (map (λ s. s.now) slices.now))
        (SlicesFault K.meaning (version_in head.now) (map (λ s. s.now) slices.now)) result }
{
    let Ok(mut ops) = Vec::with_capacity(alloc, slices.len()) else {
        return Err(PackFault::Memory);
    };
    for (i, slice) in slices.iter().enumerate() {
        let place = Place {
            id: hash_of(slice),
            author,
            edit: head.edit.number(),
            create: create_number(head.create),
        };
        match K::read_op(alloc, place, slice) {
            Ok(op) => {
                if ops.push(op).is_err() {
                    return Err(PackFault::Memory);
                }
            }
            Err(OpFault::Memory) => return Err(PackFault::Memory),
            Err(fault) => return Err(PackFault::BadOperation(i as u64, fault)),
        }
    }
    Ok(List::from_vec(ops))
}

impl<K: OpKind> Pack<K> {
    ghost use Rattle.op_pack.specs.Packs.{pack_at, version_in, PackTextFault, pack_text, MayStand, written_pack};
    ghost use Rattle.op_pack.specs.declared.fault.PackFault.{PackFault as FaultValue};
    ghost use Rattle.op_pack.specs.declared.head.TreeHead.{TreeHead as HeadValue};

    /// The pack that a text stands for beside a tree with this head (git-bug's data model, format 4).
    /// Ok exactly where the text is UTF-8 and a JSON object (RFC 8259) with one member `author`, an
    /// object with one member `id`, which is a text of 64 lower-case hexadecimal digits; at most one
    /// member `ops`, `null` or an array of at most `MOST_OPERATIONS` elements; and each element is an operation of
    /// the kind. Names are compared as they read, and other members are ignored. The id of an operation
    /// is the SHA-256 of its element as it stands, and the pack's id that of the whole text. Any other
    /// text is refused by a fault that holds of it, where memory did not run out.
    pub fn read(alloc: Global, head: &TreeHead, text: &[u8]) -> Result<Pack<K>, PackFault>
        ensures answer { AnswersUnlessMemory (pack_at K.meaning head.now text.now)
            (PackTextFault K.meaning (version_in head.now) text.now) result }
        ensures sound { IfOk result
            (λ _. (fault : FaultValue)
            → PackTextFault K.meaning (version_in head.now) text.now fault → ⊥) }
        ensures rules { IfOk result (λ pack. AllByRecursion K.meaning.KeepsRules pack.ops) }
    {
        Pack::parse(alloc, head, text)
    }

    #[tactic(auto, unfolding(crate::specs::Packs::pack_at, crate::specs::Packs::PackTextFault))]
    fn parse(alloc: Global, head: &TreeHead, text: &[u8]) -> Result<Pack<K>, PackFault>
        ensures { AnswersUnlessMemory (pack_at K.meaning head.now text.now)
            (PackTextFault K.meaning (version_in head.now) text.now) result }
    {
        let Some(parts) = read_parts(alloc, text)? else {
            return Err(PackFault::BadPack);
        };
        if parts.slices.len() > MOST_OPERATIONS {
            return Err(PackFault::TooLarge(MOST_OPERATIONS as u64 + 1));
        }
        let ops = read_ops(alloc, head, parts.author, &parts.slices)?;
        Ok(Pack {
            id: hash_of(text),
            version: head.version,
            edit: head.edit,
            create: head.create,
            author: parts.author,
            ops,
        })
    }

    /// The pack's text: its author and the texts of its operations, with no white space round or between
    /// them; and their ids. The other fields do not matter. Each operation is written once.
    pub fn write(&self, alloc: Global) -> Result<PackText, Memory>
        ensures text { IfOk result
            (λ written. written.text ≡ pack_text K.meaning self.now.author self.now.ops) }
        ensures ids { IfOk result (λ written. written.ids ≡ written_ids K.meaning self.now.ops) }
        ensures reads_back { (head : HeadValue) → length self.now.ops ≤ MOST_OPERATIONS
            → MayStand K.meaning head self.now.author self.now.ops
            → IfOk result (λ written. pack_at K.meaning head written.text
            ≡ Some (written_pack K.meaning head self.now.author self.now.ops)) }
    {
        self.print(alloc)
    }

    #[tactic(auto, unfolding(crate::specs::Packs::pack_text))]
    fn print(&self, alloc: Global) -> Result<PackText, Memory>
        ensures text { IfOk result
            (λ written. written.text ≡ pack_text K.meaning self.now.author self.now.ops) }
        ensures ids { IfOk result (λ written. written.ids ≡ written_ids K.meaning self.now.ops) }
        ensures author { IfOk result (λ _. IsId self.now.author) }
    {
        let mut text = Vec::new(alloc);
        text.extend_from_slice(b"{\"author\":{\"id\":\"")?;
        text.extend_from_slice(&self.author.text())?;
        text.extend_from_slice(b"\"},\"ops\":[")?;
        let ids = append_ops(alloc, &mut text, self.ops.as_slice())?;
        text.extend_from_slice(b"]}")?;
        Ok(PackText {
            text: Bytes::from_vec(text),
            ids,
        })
    }
}

// Puts operations behind a text, with commas between, and answers their ids.
fn append_ops<K: OpKind>(alloc: Global, text: &mut Vec<u8>, ops: &[K]) -> Result<List<Id>, Memory>
    ensures text { OnOk result
        (text.new.items ≡ text.old.items ++ joined (map K.meaning.written ops.now)) }
    ensures ids { IfOk result (λ ids. ids ≡ written_ids K.meaning ops.now) }
{
    let mut ids = Vec::new(alloc);
    if let Some((first, rest)) = ops.split_first() {
        append_op(alloc, text, &mut ids, first)?;
        append_rest(alloc, text, &mut ids, rest)?;
    }
    Ok(List::from_vec(ids))
}

// Puts further operations behind a text, a comma before each, and their ids behind ids.
fn append_rest<K: OpKind>(
    alloc: Global,
    text: &mut Vec<u8>,
    ids: &mut Vec<Id>,
    ops: &[K],
) -> Result<(), Memory>
    ensures text { OnOk result
        (text.new.items ≡ text.old.items ++ behind_commas (map K.meaning.written ops.now)) }
    ensures ids { OnOk result (ids.new.items ≡ ids.old.items ++ written_ids K.meaning ops.now) }
{
    for op in ops {
        text.push(b',')?;
        append_op(alloc, text, ids, op)?;
    }
    Ok(())
}

// Puts an operation behind a text, and its id behind ids.
fn append_op<K: OpKind>(
    alloc: Global,
    text: &mut Vec<u8>,
    ids: &mut Vec<Id>,
    op: &K,
) -> Result<(), Memory>
    ensures text { OnOk result (text.new.items ≡ text.old.items ++ K.meaning.written op.now) }
    ensures ids { OnOk result
        (ids.new.items ≡ ids.old.items ++ hash_of (K.meaning.written op.now) ∷ []) }
{
    let written = op.write_op(alloc)?;
    ids.push(hash_of(written.as_slice()))?;
    text.extend_from_slice(written.as_slice())?;
    Ok(())
}
