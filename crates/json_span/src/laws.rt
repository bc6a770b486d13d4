//! Laws of the definitions that the contracts of the calls cite. No call of them does anything.

ghost use Rattle.std.specs.Prelude.{◌≡◌, ◌+◌, ◌++◌, ◌∷◌, [], ◌<◌, ◌≤◌, ◌^◌, ℕ, suc, not, filter, List, Some, All, codes};
ghost use Rattle.std.specs.List.{range_with_len};
ghost use Rattle.std.specs.Fmt.{decimal};
ghost use Rattle.std.specs.Str.{IsUtf8};
ghost use Rattle.json_span.specs.Grammar.{Each, is_digit, is_escape, is_exponent_letter, is_hex, is_minus, is_plain, is_sign, is_space, Chars, IsString, IsNumber, IsValueText, IsPartText, IsObject, IsArray};
ghost use Rattle.json_span.specs.Joined.{array_text, object_text, IsMemberOf};
ghost use Rattle.json_span.specs.Order.{AscendFrom, spans_of};
ghost use Rattle.json_span.specs.Parts.{members_of, elements_of, HasMembers, HasElements};
ghost use Rattle.json_span.specs.declared.Member.{Member as MemberValue};
ghost use Rattle.json_span.specs.declared.Span.{Span as SpanValue};

use crate::nest::MOST_BRACKETS;

/// A text has at most one split.
pub fn one_split()
    ensures objects { (text : List ℕ) (a b : List MemberValue) → IsObject text a → IsObject text b
        → a ≡ b }
    ensures arrays { (text : List ℕ) (a b : List SpanValue) → IsArray text a → IsArray text b
        → a ≡ b }
{}

/// The spans of a split ascend and do not overlap, each name before its value.
pub fn spans_ascend()
    ensures objects { (text : List ℕ) (members : List MemberValue) → IsObject text members
        → AscendFrom 0 (spans_of members) }
    ensures arrays { (text : List ℕ) (spans : List SpanValue) → IsArray text spans
        → AscendFrom 0 spans }
{}

/// `members_of` and `elements_of` give the parts of a text by the grammar, and nothing if it has no
/// split.
pub fn parts_by_grammar()
    ensures members { (text : List ℕ) (parts : List (List ℕ × List ℕ))
        → members_of text ≡ Some parts → HasMembers text parts }
    ensures members_all { (text : List ℕ) (parts : List (List ℕ × List ℕ)) → HasMembers text parts
        → members_of text ≡ Some parts }
    ensures elements { (text : List ℕ) (parts : List (List ℕ)) → elements_of text ≡ Some parts
        → HasElements text parts }
    ensures elements_all { (text : List ℕ) (parts : List (List ℕ)) → HasElements text parts
        → elements_of text ≡ Some parts }
{}

/// Strings, numbers and literals are value texts with no bracket, and so are the decimals below 2^64.
pub fn scalars_are_values()
    ensures strings { (text : List ℕ) → IsString text → IsValueText 0 text }
    ensures numbers { (text : List ℕ) → IsNumber text → IsValueText 0 text }
    ensures decimals { (n : ℕ) → n < 2 ^ 64 → IsValueText 0 (decimal n) }
    ensures truth { IsValueText 0 (codes "true") }
    ensures falsehood { IsValueText 0 (codes "false") }
    ensures null { IsValueText 0 (codes "null") }
{}

/// Parts of strings, joined between quotes, are a string.
pub fn strings_are_joined()
    ensures quoted { (inner : List ℕ) → Chars inner → IsString (34 ∷ inner ++ 34 ∷ []) }
    ensures joined { (a b : List ℕ) → Chars a → Chars b → Chars (a ++ b) }
{}

/// An array or object of value texts is a value text that is one bracket deeper.
pub fn lists_are_values()
    ensures arrays { (depth : ℕ) (parts : List (List ℕ)) → All (IsValueText depth) parts
        → IsValueText (suc depth) (array_text parts) }
    ensures objects { (depth : ℕ) (parts : List (List ℕ × List ℕ)) → All (IsMemberOf depth) parts
        → IsValueText (suc depth) (object_text parts) }
    ensures deeper { (low high : ℕ) (text : List ℕ) → low ≤ high → IsValueText low text
        → IsValueText high text }
{}

/// Value texts joined with commas and brackets split into exactly these parts.
pub fn joined_splits()
    ensures arrays { (parts : List (List ℕ)) → All IsPartText parts
        → elements_of (array_text parts) ≡ Some parts }
    ensures objects { (parts : List (List ℕ × List ℕ)) → All (IsMemberOf MOST_BRACKETS) parts
        → members_of (object_text parts) ≡ Some parts }
{}

/// White space at the ends of a text changes no part.
pub fn spaces_change_nothing()
    ensures objects { (before behind text : List ℕ) → Each is_space before → Each is_space behind
        → members_of (before ++ (text ++ behind)) ≡ members_of text }
    ensures arrays { (before behind text : List ℕ) → Each is_space before → Each is_space behind
        → elements_of (before ++ (text ++ behind)) ≡ elements_of text }
{}

/// A value text that begins with a bracket splits again, if it is at most one bracket deeper than a part may
/// be.
pub fn lists_split()
    ensures objects { (depth : ℕ) (rest : List ℕ) → depth ≤ MOST_BRACKETS + 1
        → IsValueText depth (123 ∷ rest)
        → (parts : List (List ℕ × List ℕ)) × (members_of (123 ∷ rest) ≡ Some parts) }
    ensures arrays { (depth : ℕ) (rest : List ℕ) → depth ≤ MOST_BRACKETS + 1
        → IsValueText depth (91 ∷ rest)
        → (parts : List (List ℕ)) × (elements_of (91 ∷ rest) ≡ Some parts) }
{}

/// The parts of a value text are one bracket shallower, and no part has more than `MOST_BRACKETS`
/// open.
pub fn parts_are_shallower()
    ensures members { (depth : ℕ) (text : List ℕ) (parts : List (List ℕ × List ℕ))
        → IsValueText (suc depth) text → members_of text ≡ Some parts
        → All (IsMemberOf depth) parts }
    ensures elements { (depth : ℕ) (text : List ℕ) (parts : List (List ℕ))
        → IsValueText (suc depth) text → elements_of text ≡ Some parts
        → All (IsValueText depth) parts }
    ensures members_limit { (text : List ℕ) (parts : List (List ℕ × List ℕ))
        → members_of text ≡ Some parts → All (IsMemberOf MOST_BRACKETS) parts }
    ensures elements_limit { (text : List ℕ) (parts : List (List ℕ))
        → elements_of text ≡ Some parts → All IsPartText parts }
{}

/// The parts of a UTF-8 text are UTF-8.
pub fn parts_are_utf8()
    ensures members { (text : List ℕ) (parts : List (List ℕ × List ℕ)) → IsUtf8 text
        → members_of text ≡ Some parts → All (λ m. IsUtf8 m.0 × IsUtf8 m.1) parts }
    ensures elements { (text : List ℕ) (parts : List (List ℕ)) → IsUtf8 text
        → elements_of text ≡ Some parts → All IsUtf8 parts }
{}

/// The bytes of each class in RFC 8259: white space (section 2), digits and signs of numbers (section
/// 6), and the characters of strings (section 7). `escaped` are the bytes that a string has only
/// as escape sequences.
pub fn bytes_by_number()
    ensures spaces { filter is_space (range_with_len 0 256) ≡ 0x09 ∷ 0x0a ∷ 0x0d ∷ 0x20 ∷ [] }
    ensures digits { filter is_digit (range_with_len 0 256) ≡ codes "0123456789" }
    ensures hex_digits { filter is_hex (range_with_len 0 256) ≡ codes "0123456789ABCDEFabcdef" }
    ensures minus { filter is_minus (range_with_len 0 256) ≡ codes "-" }
    ensures signs { filter is_sign (range_with_len 0 256) ≡ codes "+-" }
    ensures exponents { filter is_exponent_letter (range_with_len 0 256) ≡ codes "Ee" }
    ensures escapes { filter is_escape (range_with_len 0 256) ≡ codes "\"/\\bfnrt" }
    ensures escaped { filter (λ b. not (is_plain b)) (range_with_len 0 256)
        ≡ range_with_len 0 0x20 ++ codes "\"\\" }
{}
