//! Laws of prefixes of combined ids, and of look-ups. No call of them does anything.
ghost use Rattle.std.specs.Prelude.{◌≡◌, ◌↔◌, ◌⊎◌, List, [], ◌∷◌, length, take, true};
ghost use Rattle.std.specs.Cmp.Lexicographic.{slice_cmp};
ghost use Rattle.std.specs.List.Sorted.{IsPermutation, IsStrictlySortedBy};
ghost use Rattle.std.specs.Ordering.{nat_cmp};
ghost use Rattle.hex.specs.Hex.{encode_lower};
ghost use Rattle.gb_text.specs.Digits.{IsId};
ghost use Rattle.gb_text.specs.Prefix.{begins_with, digits_of, fits};
ghost use Rattle.gb_text.specs.declared.id.Id.{Id as IdValue};
ghost use Rattle.gb_text.specs.declared.prefix.Prefix.{Prefix as PrefixValue};
ghost use Rattle.combined_id.specs.Combined.{combined_of};
ghost use Rattle.combined_id.specs.Lookup.{Finds, fitting, named};
ghost use Rattle.combined_id.specs.Split.{first_digits, second_digits};
ghost use Rattle.combined_id.specs.declared.lookup.Lookup.{Lookup as LookupValue};
ghost use Rattle.combined_id.specs.declared.lookup.Lookup.TheVariants.{Ambiguous, NotFound};

/// A prefix fits the id of a comment if and only if its parts fit the ids of the bug and of the
/// operation.
pub fn parts_fit_if_the_whole_fits()
    ensures { (prefix : PrefixValue) (bug own both : IdValue) → IsId bug → IsId own
        → encode_lower both.bytes ≡ combined_of (encode_lower bug.bytes) (encode_lower own.bytes)
        → (fits prefix both ≡ true)
        ↔ (begins_with (first_digits prefix) (encode_lower bug.bytes) ≡ true)
        × (begins_with (second_digits prefix) (encode_lower own.bytes) ≡ true) }
{}

/// A look-up names the same ids in whatever order they are listed.
pub fn order_of_ids_does_not_matter()
    ensures { (prefix : PrefixValue) (ids others : List IdValue) (one two : LookupValue)
        → IsPermutation ids others → Finds prefix ids one → Finds prefix others two
        → named ids one ≡ named others two }
{}

/// Among distinct ids in ascending order, an ambiguous prefix names the first two that it fits.
pub fn ambiguous_ids_are_neighbours()
    ensures { (prefix : PrefixValue) (ids : List IdValue) (least next : IdValue)
        → IsStrictlySortedBy (λ one two. slice_cmp nat_cmp one.bytes two.bytes) ids
        → Finds prefix ids (Ambiguous least next)
        → take 2 (fitting prefix ids) ≡ least ∷ next ∷ [] }
{}

/// Unless a prefix is ambiguous, a longer one finds the same id or none.
pub fn longer_prefixes_find_the_same()
    ensures { (shorter longer : PrefixValue) (ids : List IdValue) (one two : LookupValue)
        → take (length (digits_of shorter)) (digits_of longer) ≡ digits_of shorter
        → Finds shorter ids one → Finds longer ids two
        → (length (named ids one) ≡ 2) ⊎ (named ids two ≡ named ids one) ⊎ (two ≡ NotFound) }
{}
