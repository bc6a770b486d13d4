//! Laws of the definitions that the contracts cite. No call of them does anything.
ghost use Rattle.std.specs.Prelude.{◌≡◌, ◌≢◌, ◌≤◌, ◌<◌, ◌-◌, ◌^◌, ◌++◌, ℕ, List, [], ◌∷◌, length, codes, Option, Some, None, decimal};
ghost use Rattle.std.specs.List.{Contains};
ghost use Rattle.std.specs.List.Sorted.{IsPermutation};
ghost use Rattle.std.specs.Str.{IsUtf8};
ghost use Rattle.base64.specs.Engines.{standard};
ghost use Rattle.base64.specs.GeneralPurpose.{encode_of, IsBytes};
ghost use Rattle.hex.specs.Hex.{encode_lower};
ghost use Rattle.gb_text.specs.Decimal.{decimal_of};
ghost use Rattle.gb_text.specs.Digits.{IsId};
ghost use Rattle.gb_text.specs.declared.id.Id.{Id as IdValue};
ghost use Rattle.json.specs.Print.{quoted};
ghost use Rattle.json_span.specs.Grammar.{IsValueText};
ghost use Rattle.json_span.specs.Parts.{members_of};
ghost use Rattle.op_kind.specs.Bounds.{IsWithinBounds};
ghost use Rattle.op_kind.specs.Common.{common_at, common_of, time_at, nonce_in, metadata_at, metadata_of, CommonFault};
ghost use Rattle.op_kind.specs.Fold.{state_from, row_from};
ghost use Rattle.op_kind.specs.Forms.{id_at, texts_at, FaultOfOne, FaultOfOptional};
ghost use Rattle.op_kind.specs.Members.{Fields, text_at, fields_at, values_of, only_value, value_or};
ghost use Rattle.op_kind.specs.Metadata.{pairs_at};
ghost use Rattle.op_kind.specs.Nonces.{IsNonce};
ghost use Rattle.op_kind.specs.Meaning.{version_of};
ghost use Rattle.op_kind.specs.OpText.{IsOpText, op_brackets, member_brackets};
ghost use Rattle.op_kind.specs.Pairs.{pairs_text, AreInKeyOrder, ArePairsOf, EachPairUtf8};
ghost use Rattle.op_kind.specs.Written.{fields_text, nonce_text, texts_text, EachUtf8, IsWritable, EachWritable};
ghost use Rattle.op_kind.specs.declared.fault.OpFault.{OpFault as FaultValue};
ghost use Rattle.op_kind.specs.declared.fault.OpFault.TheVariants.{Memory, BadMember};
ghost use Rattle.op_kind.specs.declared.place.Place.{Place as PlaceValue};
ghost use Rattle.op_kind.specs.declared.place.Common.{Common as CommonValue};
ghost use Rattle.op_kind.specs.declared.place.Pair.{Pair as PairValue};

use crate::OpKind;
use gb_text::GREATEST_TIME;

/// A text has a common part exactly when none of its faults holds; out of memory is not one of
/// them. The common part has the place that it is read at, and depends on it in nothing else.
pub fn common_part_or_fault()
    ensures refused { (place : PlaceValue) (text : List ℕ) (fault : FaultValue)
        → CommonFault text fault → common_at place text ≡ None }
    ensures cause { (place : PlaceValue) (text : List ℕ) → common_at place text ≡ None
        → (fault : FaultValue) × CommonFault text fault }
    ensures memory { (text : List ℕ) → CommonFault text Memory → ⊥ }
    ensures there { (place : PlaceValue) (text : List ℕ) (common : CommonValue)
        → common_at place text ≡ Some common → common.place ≡ place }
    ensures moved { (here there : PlaceValue) (text : List ℕ) (common : CommonValue)
        → common_at here text ≡ Some common
        → common_at there text ≡ Some (record common { place = there }) }
{}

/// A member has a value in its form exactly when its fault does not hold, whether it is required or
/// optional.
pub fn member_value_or_fault<A>()
    ensures lacking { (number : ℕ) (read : List ℕ → Option A) (values : List (List ℕ))
        (fault : FaultValue) → FaultOfOne number read values fault → only_value read values ≡ None }
    ensures one { (number : ℕ) (read : List ℕ → Option A) (values : List (List ℕ))
        → only_value read values ≡ None → FaultOfOne number read values (BadMember number) }
    ensures broken { (absent : A) (number : ℕ) (read : List ℕ → Option A) (values : List (List ℕ))
        (fault : FaultValue) → FaultOfOptional number read values fault
        → value_or absent read values ≡ None }
    ensures optional { (absent : A) (number : ℕ) (read : List ℕ → Option A)
        (values : List (List ℕ)) → value_or absent read values ≡ None
        → FaultOfOptional number read values (BadMember number) }
{}

/// An operation has a type, a time and a nonce: the members `type`, `timestamp` and `nonce`, as git-bug's
/// data model names them. Members of which one of them is absent give no common part, and nothing
/// stands for it. What is read of each is what stands under its name, and stands there just once.
/// Members that have all three so, and metadata, give the common part of what is read of them.
pub fn operations_need_their_members()
    ensures no_kind { (place : PlaceValue) (fields : Fields) → values_of (codes "type") fields ≡ []
        → common_of place fields ≡ None }
    ensures no_time { (place : PlaceValue) (fields : Fields)
        → values_of (codes "timestamp") fields ≡ [] → common_of place fields ≡ None }
    ensures no_nonce { (place : PlaceValue) (fields : Fields)
        → values_of (codes "nonce") fields ≡ [] → common_of place fields ≡ None }
    ensures kinds { (place : PlaceValue) (fields : Fields) (common : CommonValue)
        → common_of place fields ≡ Some common
        → (value : List ℕ) × (values_of (codes "type") fields ≡ value ∷ [])
        × (decimal_of value ≡ Some common.kind) }
    ensures times { (place : PlaceValue) (fields : Fields) (common : CommonValue)
        → common_of place fields ≡ Some common
        → (value : List ℕ) × (values_of (codes "timestamp") fields ≡ value ∷ [])
        × (time_at value ≡ Some common.time) }
    ensures nonces { (place : PlaceValue) (fields : Fields) (common : CommonValue)
        → common_of place fields ≡ Some common
        → (value : List ℕ) × (values_of (codes "nonce") fields ≡ value ∷ [])
        × (nonce_in value ≡ Some common.nonce) }
    ensures all { (place : PlaceValue) (fields : Fields) (kind time nonce : List ℕ)
        (common : CommonValue) → values_of (codes "type") fields ≡ kind ∷ []
        → values_of (codes "timestamp") fields ≡ time ∷ []
        → values_of (codes "nonce") fields ≡ nonce ∷ [] → decimal_of kind ≡ Some common.kind
        → time_at time ≡ Some common.time → nonce_in nonce ≡ Some common.nonce
        → metadata_of fields ≡ Some common.metadata
        → common_of place fields ≡ Some (record common { place = place }) }
    ensures text { (place : PlaceValue) (text : List ℕ) (fields : Fields)
        → fields_at text ≡ Some fields → common_at place text ≡ common_of place fields }
{}

/// A written value reads back as the value.
pub fn written_values_read_back()
    ensures texts { (text : List ℕ) → IsUtf8 text → text_at (quoted text) ≡ Some text }
    ensures decimals { (n : ℕ) → n < 2 ^ 64 → decimal_of (decimal n) ≡ Some n }
    ensures times { (n : ℕ) → n ≤ GREATEST_TIME → time_at (decimal n) ≡ Some n }
    ensures nonces { (n : List ℕ) → IsNonce n → nonce_in (nonce_text n) ≡ Some n }
    ensures ids { (id : IdValue) → IsId id → id_at (quoted (encode_lower id.bytes)) ≡ Some id }
    ensures lists { (texts : List (List ℕ)) → EachUtf8 texts
        → texts_at (texts_text texts) ≡ Some texts }
    ensures pairs { (pairs : List PairValue) → AreInKeyOrder pairs → EachPairUtf8 pairs
        → pairs_at (pairs_text pairs) ≡ Some pairs }
    ensures metadata { (pairs : List PairValue) → AreInKeyOrder pairs → EachPairUtf8 pairs
        → metadata_at (pairs_text pairs) ≡ Some pairs }
{}

/// A nonce has 20 to 64 bytes. The base64 text of so many bytes reads as them; the text of fewer bytes,
/// or of more, reads as no nonce.
pub fn nonces_have_20_to_64_bytes()
    ensures read { (n : List ℕ) → IsBytes n → 20 ≤ length n → length n ≤ 64
        → nonce_in (quoted (encode_of standard n)) ≡ Some n }
    ensures short { (n : List ℕ) → IsBytes n → length n < 20
        → nonce_in (quoted (encode_of standard n)) ≡ None }
    ensures long { (n : List ℕ) → IsBytes n → 64 < length n
        → nonce_in (quoted (encode_of standard n)) ≡ None }
{}

/// Metadata that are absent or `null` are none, and a list that is `null` is empty.
pub fn null_and_absent_members_are_empty()
    ensures metadata { metadata_at (codes "null") ≡ Some [] }
    ensures absent { (fields : Fields) → values_of (codes "metadata") fields ≡ []
        → metadata_of fields ≡ Some [] }
    ensures lists { texts_at (codes "null") ≡ Some [] }
{}

/// A written value can be the value of a member: it is UTF-8 and a value text. A text, a number, a
/// nonce and an id have no bracket, a list of texts and an object of pairs have one.
pub fn written_values_are_values()
    ensures texts { (depth : ℕ) (name text : List ℕ) → IsUtf8 name → IsUtf8 text
        → IsWritable depth (name, quoted text) }
    ensures decimals { (depth : ℕ) (name : List ℕ) (n : ℕ) → IsUtf8 name → n < 2 ^ 64
        → IsWritable depth (name, decimal n) }
    ensures nonces { (depth : ℕ) (name n : List ℕ) → IsUtf8 name
        → IsWritable depth (name, nonce_text n) }
    ensures ids { (depth : ℕ) (name : List ℕ) (id : IdValue) → IsUtf8 name
        → IsWritable depth (name, quoted (encode_lower id.bytes)) }
    ensures lists { (depth : ℕ) (name : List ℕ) (texts : List (List ℕ)) → 1 ≤ depth → IsUtf8 name
        → EachUtf8 texts → IsWritable depth (name, texts_text texts) }
    ensures pairs { (depth : ℕ) (name : List ℕ) (pairs : List PairValue) → 1 ≤ depth → IsUtf8 name
        → EachPairUtf8 pairs → IsWritable depth (name, pairs_text pairs) }
{}

/// The pairs of an object are those of its members, in byte order of their keys, with no key twice.
/// So they depend on which members there are, and not on their order.
pub fn pairs_are_in_key_order()
    ensures found { (json : List ℕ) (pairs : List PairValue) → pairs_at json ≡ Some pairs
        → ArePairsOf json pairs }
    ensures only { (json : List ℕ) (pairs : List PairValue) → ArePairsOf json pairs
        → pairs_at json ≡ Some pairs }
    ensures same { (pairs others : List PairValue) → AreInKeyOrder pairs → AreInKeyOrder others
        → ((pair : PairValue) → Contains pairs pair → Contains others pair)
        → ((pair : PairValue) → Contains others pair → Contains pairs pair) → pairs ≡ others }
    ensures moved { (json other : List ℕ) (members others : List (List ℕ × List ℕ))
        → members_of json ≡ Some members → members_of other ≡ Some others
        → IsPermutation members others → pairs_at json ≡ pairs_at other }
{}

/// A value that was read can be written again. So is a common part.
pub fn read_values_are_within_bounds()
    ensures texts { (json text : List ℕ) → text_at json ≡ Some text → IsUtf8 text }
    ensures decimals { (json : List ℕ) (n : ℕ) → decimal_of json ≡ Some n → n < 2 ^ 64 }
    ensures times { (json : List ℕ) (n : ℕ) → time_at json ≡ Some n → n ≤ GREATEST_TIME }
    ensures nonces { (json n : List ℕ) → nonce_in json ≡ Some n → IsNonce n }
    ensures ids { (json : List ℕ) (id : IdValue) → id_at json ≡ Some id → IsId id }
    ensures lists { (json : List ℕ) (texts : List (List ℕ)) → texts_at json ≡ Some texts
        → EachUtf8 texts }
    ensures pairs { (json : List ℕ) (pairs : List PairValue) → pairs_at json ≡ Some pairs
        → AreInKeyOrder pairs × EachPairUtf8 pairs }
    ensures metadata { (json : List ℕ) (pairs : List PairValue) → metadata_at json ≡ Some pairs
        → AreInKeyOrder pairs × EachPairUtf8 pairs }
    ensures common { (place : PlaceValue) (text : List ℕ) (common : CommonValue)
        → common_at place text ≡ Some common → IsWithinBounds common }
{}

/// Written members read back as the same members of an operation, if their values do not nest too
/// deeply.
pub fn written_members_read_back()
    ensures members { (fields : Fields) → EachWritable member_brackets fields
        → fields_at (fields_text fields) ≡ Some fields }
    ensures text { (fields : Fields) → EachWritable member_brackets fields
        → IsOpText (fields_text fields) }
{}

/// Every kind of operations reads what it writes, by the laws of a kind alone. What was read of a text
/// that a pack may hold is written and read again; what is written is read at any place where the
/// operation may stand; a text is no operation exactly where it has a fault; its place does not change
/// where an operation may stand; and the row of the last state is the last row.
pub fn kinds_read_what_they_write<K: OpKind>()
    ensures again { (place : PlaceValue) (text : List ℕ) (op : K) → IsUtf8 text
        → IsValueText op_brackets text → K.meaning.read_at place text ≡ Some op
        → K.meaning.read_at place (K.meaning.written op) ≡ Some op }
    ensures carried { (here there : PlaceValue) (op : K) → K.meaning.KeepsRules op
        → K.meaning.Fits there op
        → K.meaning.read_at there (K.meaning.written (K.meaning.placed here op))
        ≡ Some (K.meaning.placed there op) }
    ensures placed { (place : PlaceValue) (op : K) → K.meaning.common_of (K.meaning.placed place op)
        ≡ record (K.meaning.common_of op) { place = place } }
    ensures text { (op : K) → K.meaning.KeepsRules op → IsOpText (K.meaning.written op) }
    ensures opening { (place : PlaceValue) (op : K)
        → K.meaning.is_opening (K.meaning.placed place op) ≡ K.meaning.is_opening op }
    ensures following { (place : PlaceValue) (op : K)
        → K.meaning.is_following (K.meaning.placed place op) ≡ K.meaning.is_following op }
    ensures refused { (place : PlaceValue) (text : List ℕ) (fault : FaultValue)
        → K.meaning.HasFault (version_of place) text fault → K.meaning.read_at place text ≡ None }
    ensures cause { (place : PlaceValue) (text : List ℕ) → K.meaning.read_at place text ≡ None
        → (fault : FaultValue) × K.meaning.HasFault (version_of place) text fault
        × (fault ≢ Memory) }
    ensures rows { (state : K.State) (ops : List K)
        → K.meaning.row_of (state_from K.meaning state ops)
        ≡ row_from K.meaning (K.meaning.row_of state) ops }
{}

/// A list of operations folds as its prefix does, and then the rest.
pub fn folds_append<K: OpKind>()
    ensures state { (state : K.State) (ops others : List K)
        → state_from K.meaning state (ops ++ others)
        ≡ state_from K.meaning (state_from K.meaning state ops) others }
    ensures row { (row : K.Row) (ops others : List K)
        → row_from K.meaning row (ops ++ others)
        ≡ row_from K.meaning (row_from K.meaning row ops) others }
{}
