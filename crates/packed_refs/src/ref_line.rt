//! The names of refs, and refs with their heads.
ghost use Rattle.std.specs.Prelude.{◌≡◌, IfOk};

use gb_text::{Bytes, Memory, Name};
use std::alloc::Global;
use std::cmp::Ordering;
use std::marker::Model;

/// The name of a ref, which contracts see as its bytes. Names are ordered by their bytes.
#[derive(Debug, Drop)]
pub struct RefName {
    bytes: Bytes,
}

impl Model for RefName {
    ghost use Rattle.std.specs.Prelude.{List, ℕ};

    ghost Value = { List ℕ };

    ghost view = { λ n. n.bytes };
}

impl RefName {
    /// A copy of a name.
    pub fn from_slice(alloc: Global, name: &[u8]) -> Result<RefName, Memory>
        ensures { IfOk result (λ n. n ≡ name.now) }
    {
        Ok(RefName {
            bytes: Bytes::from_slice(alloc, name)?,
        })
    }

    /// The bytes of the name.
    pub fn as_slice(&self) -> &[u8]
        ensures { result.now ≡ self.now }
    {
        self.bytes.as_slice()
    }
}

impl PartialEq for RefName {
    ghost use Rattle.std.specs.Cmp.{partial_equiv_from_equiv};
    ghost use Rattle.std.specs.Cmp.Lexicographic.{nat_list_eq_equiv};
    ghost use Rattle.std.specs.Str.{bytes_eq};

    ghost eq = { bytes_eq };

    ghost laws = { partial_equiv_from_equiv nat_list_eq_equiv };

    fn eq(&self, other: &RefName) -> bool {
        self.as_slice() == other.as_slice()
    }
}

impl Eq for RefName {
    ghost use Rattle.std.specs.Cmp.Lexicographic.{nat_list_eq_equiv};

    ghost laws = { nat_list_eq_equiv };
}

impl PartialOrd for RefName {
    ghost use Rattle.std.specs.Prelude.{Some};
    ghost use Rattle.std.specs.Cmp.Lexicographic.{slice_cmp, texts_po};
    ghost use Rattle.std.specs.Ordering.{nat_cmp};

    ghost partial_cmp = { λ x y. Some (slice_cmp nat_cmp x y) };

    ghost laws = { texts_po };

    fn partial_cmp(&self, other: &RefName) -> Option<Ordering> {
        Some(self.cmp(other))
    }
}

impl Ord for RefName {
    ghost use Rattle.std.specs.Prelude.{refl};
    ghost use Rattle.std.specs.Cmp.Lexicographic.{slice_cmp, nat_list_cmp_total, texts_ties};
    ghost use Rattle.std.specs.Ordering.{nat_cmp};

    ghost cmp = { slice_cmp nat_cmp };

    ghost total = { nat_list_cmp_total };

    ghost matches_partial_cmp = { λ x y. refl };

    ghost matches_eq = { λ x y. texts_ties x y };

    fn cmp(&self, other: &RefName) -> Ordering {
        self.as_slice().cmp(&other.as_slice())
    }
}

/// A ref of a packed text: its name and its head.
#[derive(Debug, Drop)]
pub struct RefLine {
    pub name: RefName,
    pub head: Name,
}

impl Model for RefLine {
    ghost use Rattle.packed_refs.specs.Packed.{PackedRef};

    ghost Value = { PackedRef };

    ghost view = { λ l. record { name = l.name; head = l.head } };
}
