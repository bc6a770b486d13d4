//! Laws of the definitions that the contracts cite. No call of them does anything.
ghost use Rattle.std.specs.Prelude.{◌≡◌, ◌≢◌, ◌≤◌, ◌<◌, ◌↔◌, ◌⊎◌, ◌++◌, ◌-◌, ◌^◌, ℕ, List, [], ◌∷◌, Contains, codes, Some, None, map, length, slice_get};
ghost use Rattle.std.specs.List.{AllByRecursion};
ghost use Rattle.sha2.specs.Sha256.{sha256};
ghost use Rattle.gb_text.specs.Decimal.{decimal_of};
ghost use Rattle.gb_text.specs.Digits.{IsId};
ghost use Rattle.gb_text.specs.declared.id.Id.{Id as IdValue};
ghost use Rattle.git_object.specs.declared.entry.Entry.{Entry as EntryValue};
ghost use Rattle.git_object.specs.declared.tree.Tree.{Tree as TreeValue};
ghost use Rattle.op_kind.specs.declared.fault.OpFault.{OpFault as OpFaultValue};
ghost use Rattle.op_kind.specs.declared.fault.OpFault.TheVariants as operation;
ghost use Rattle.op_pack.specs.Heads.{head_of, versions, HeadFault, IsHeadInRange};
ghost use Rattle.op_pack.specs.Texts.{IsPackText, IsPack, parts_at};
ghost use Rattle.op_pack.specs.Packs.{place_of, pack_at, IsPackOf, version_in, PackTextFault, pack_text, MayStand, written_pack, written_ids};
ghost use Rattle.op_pack.specs.declared.fault.PackFault.{PackFault as FaultValue};
ghost use Rattle.op_pack.specs.declared.fault.PackFault.TheVariants.{Memory, BadPack, BadOperation, TooLarge, UnknownVersion};
ghost use Rattle.op_pack.specs.declared.head.TreeHead.{TreeHead as HeadValue};
ghost use Rattle.op_pack.specs.declared.pack.Pack.{Pack as PackValue};

use crate::MOST_OPERATIONS;
use op_kind::OpKind;

/// A tree gives no head of a pack exactly when one of its faults holds. What it says is in range.
pub fn head_or_fault()
    ensures refused { (tree : TreeValue) (fault : FaultValue) → HeadFault tree fault
        → head_of tree ≡ None }
    ensures cause { (tree : TreeValue) → head_of tree ≡ None
        → (fault : FaultValue) × HeadFault tree fault }
    ensures in_range { (tree : TreeValue) (head : HeadValue) → head_of tree ≡ Some head
        → IsHeadInRange head }
{}

/// What is reported of a version that is not the format's: a number that follows `version-` in the name
/// of an entry, or 0 where no entry's name goes on with a number. Where just one entry's name begins so
/// and a number follows, it is a fault if and only if the number is not 4, and that number is reported.
pub fn unknown_versions_are_reported()
    ensures entries { (tree : TreeValue) (text : List ℕ) → Contains (versions tree) text
        ↔ ((entry : EntryValue) × Contains tree.entries entry
        × (entry.name ≡ codes "version-" ++ text)) }
    ensures number { (tree : TreeValue) (n : ℕ) → HeadFault tree (UnknownVersion n)
        → ((text : List ℕ) × Contains (versions tree) text × (decimal_of text ≡ Some n))
        ⊎ ((n ≡ 0) × ((text : List ℕ) → Contains (versions tree) text
        → decimal_of text ≡ None)) }
    ensures one { (tree : TreeValue) (text : List ℕ) (n m : ℕ) → versions tree ≡ text ∷ []
        → decimal_of text ≡ Some n
        → HeadFault tree (UnknownVersion m) ↔ ((n ≢ 4) × (m ≡ n)) }
{}

/// Each clock that a tree says is a number of 1 to 2^63 - 1.
pub fn clocks_are_within_bounds()
    ensures edit { (tree : TreeValue) (head : HeadValue) → head_of tree ≡ Some head
        → (1 ≤ head.edit) × (head.edit ≤ 2 ^ 63 - 1) }
    ensures create { (tree : TreeValue) (head : HeadValue) (clock : ℕ)
        → head_of tree ≡ Some head → head.create ≡ Some clock
        → (1 ≤ clock) × (clock ≤ 2 ^ 63 - 1) }
{}

/// `parts_at` gives exactly the author and the operations' texts of a pack text.
pub fn parts_are_exact()
    ensures found { (text : List ℕ) (author : IdValue) (slices : List (List ℕ))
        → parts_at text ≡ Some (author, slices) → IsPackText text author slices }
    ensures only { (text : List ℕ) (author : IdValue) (slices : List (List ℕ))
        → IsPackText text author slices → parts_at text ≡ Some (author, slices) }
{}

/// A tree and a text have at most one head, author and list of operations' texts.
pub fn packs_are_determined()
    ensures heads { (tree : TreeValue) (text : List ℕ) (head other : HeadValue)
        (author second : IdValue) (slices rest : List (List ℕ))
        → IsPack tree text head author slices → IsPack tree text other second rest → head ≡ other }
    ensures texts { (text : List ℕ) (author second : IdValue) (slices rest : List (List ℕ))
        → IsPackText text author slices → IsPackText text second rest
        → (author ≡ second) × (slices ≡ rest) }
{}

/// A text is not a pack exactly when one of its faults holds. Want of memory is none of them, and
/// is no fault of an operation.
pub fn pack_or_fault<K: OpKind>()
    ensures refused { (head : HeadValue) (text : List ℕ) (fault : FaultValue)
        → PackTextFault K.meaning (version_in head) text fault
        → pack_at K.meaning head text ≡ None }
    ensures cause { (head : HeadValue) (text : List ℕ) → pack_at K.meaning head text ≡ None
        → (fault : FaultValue) × PackTextFault K.meaning (version_in head) text fault }
    ensures memory { (version : ℕ) (text : List ℕ)
        → PackTextFault K.meaning version text Memory → ⊥ }
    ensures inner_memory { (version : ℕ) (text : List ℕ) (i : ℕ)
        → PackTextFault K.meaning version text (BadOperation i operation.Memory) → ⊥ }
{}

/// Operations are counted from 0 in what is reported: the one at an index has a fault if and only if its
/// text has it. `BadPack` holds if and only if the text has no parts. More than 4,096 operations are too
/// many, and then 4,097 is reported, no matter how many there are.
pub fn pack_faults_are_known<K: OpKind>()
    ensures text { (version : ℕ) (text : List ℕ) → PackTextFault K.meaning version text BadPack
        ↔ (parts_at text ≡ None) }
    ensures operation { (version : ℕ) (text : List ℕ) (author : IdValue)
        (slices : List (List ℕ)) (i : ℕ) (fault : OpFaultValue)
        → parts_at text ≡ Some (author, slices)
        → PackTextFault K.meaning version text (BadOperation i fault)
        ↔ ((slice : List ℕ) × (slice_get slices i ≡ Some slice)
        × K.meaning.HasFault version slice fault) }
    ensures large { (version : ℕ) (text : List ℕ) (author : IdValue) (slices : List (List ℕ))
        (n : ℕ) → parts_at text ≡ Some (author, slices)
        → PackTextFault K.meaning version text (TooLarge n)
        ↔ ((4096 < length slices) × (n ≡ 4097)) }
{}

/// `pack_at` gives exactly the pack that a text is.
pub fn packs_are_exact<K: OpKind>()
    ensures found { (head : HeadValue) (text : List ℕ) (pack : PackValue K)
        → pack_at K.meaning head text ≡ Some pack
        → (slices : List (List ℕ)) × IsPackOf K.meaning head text slices pack }
    ensures only { (head : HeadValue) (text : List ℕ) (slices : List (List ℕ)) (pack : PackValue K)
        → IsPackOf K.meaning head text slices pack → pack_at K.meaning head text ≡ Some pack }
{}

/// The operations of a pack satisfy the rules of their kind, and each has the place of its text.
pub fn operations_keep_rules<K: OpKind>()
    ensures rules { (head : HeadValue) (text : List ℕ) (slices : List (List ℕ)) (pack : PackValue K)
        → IsPackOf K.meaning head text slices pack → AllByRecursion K.meaning.KeepsRules pack.ops }
    ensures places { (head : HeadValue) (text : List ℕ) (slices : List (List ℕ))
        (pack : PackValue K) → IsPackOf K.meaning head text slices pack
        → map (λ o. (K.meaning.common_of o).place) pack.ops
        ≡ map (place_of head pack.author) slices }
{}

/// The id of an operation is the SHA-256 (FIPS 180-4) of its text, and the id of a pack that of the whole
/// text. An operation has the author and the clocks of its pack, and a pack has the version and the
/// clocks of its tree.
pub fn operations_stand_where_their_pack_does<K: OpKind>()
    ensures place { (head : HeadValue) (author : IdValue) (slice : List ℕ)
        → place_of head author slice ≡ record {
          id = record { bytes = sha256 slice };
          author = author;
          edit = head.edit;
          create = head.create;
        } }
    ensures id { (head : HeadValue) (text : List ℕ) (slices : List (List ℕ)) (pack : PackValue K)
        → IsPackOf K.meaning head text slices pack → pack.id.bytes ≡ sha256 text }
    ensures head { (head : HeadValue) (text : List ℕ) (slices : List (List ℕ))
        (pack : PackValue K) → IsPackOf K.meaning head text slices pack
        → (pack.version ≡ head.version) × (pack.edit ≡ head.edit)
        × (pack.create ≡ head.create) }
    ensures ids { (ops : List K) → map (λ (id : IdValue). id.bytes) (written_ids K.meaning ops)
        ≡ map (λ op. sha256 (K.meaning.written op)) ops }
{}

/// Operations that satisfy the rules of their kind are written as a pack text that contains their
/// written texts. Where there are at most `MOST_OPERATIONS`, it reads back as the same author and the
/// same operations, each at the place of its written text.
pub fn written_packs_read_back<K: OpKind>()
    ensures slices { (author : IdValue) (ops : List K) → IsId author
        → AllByRecursion K.meaning.KeepsRules ops
        → IsPackText (pack_text K.meaning author ops) author (map K.meaning.written ops) }
    ensures packs { (head : HeadValue) (author : IdValue) (ops : List K) → IsId author
        → length ops ≤ MOST_OPERATIONS → MayStand K.meaning head author ops
        → pack_at K.meaning head (pack_text K.meaning author ops)
        ≡ Some (written_pack K.meaning head author ops) }
{}
