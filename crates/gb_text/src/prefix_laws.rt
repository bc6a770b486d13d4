//! Laws of prefixes. No call of them does anything.
ghost use Rattle.std.specs.Prelude.{◌≡◌, ◌↔◌, ◌≤◌, length, true};
ghost use Rattle.hex.specs.Hex.{encode_lower};
ghost use Rattle.gb_text.specs.Digits.{IsId};
ghost use Rattle.gb_text.specs.Prefix.{digits_of, fits};
ghost use Rattle.gb_text.specs.PrefixText.{is_prefix_text};
ghost use Rattle.gb_text.specs.declared.id.Id.{Id as IdValue};
ghost use Rattle.gb_text.specs.declared.prefix.Prefix.{Prefix as PrefixValue};

/// Of two prefixes of one id, the shorter fits every id that the longer fits.
pub fn shorter_prefixes_fit_more()
    ensures { (shorter longer : PrefixValue) (one other : IdValue)
        → length (digits_of shorter) ≤ length (digits_of longer) → fits shorter one ≡ true
        → fits longer one ≡ true → fits longer other ≡ true → fits shorter other ≡ true }
{}

/// An id's whole text is a prefix, which fits that id and no other.
pub fn whole_texts_fit_one_id()
    ensures reads { (id : IdValue) → IsId id → is_prefix_text (encode_lower id.bytes) ≡ true }
    ensures fits { (prefix : PrefixValue) (one other : IdValue) → IsId one → IsId other
        → digits_of prefix ≡ encode_lower one.bytes → (fits prefix other ≡ true) ↔ (other ≡ one) }
{}
