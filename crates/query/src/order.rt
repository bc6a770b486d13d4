//! The order of the rows that match.
ghost use Rattle.std.specs.Prelude.{◌≡◌, map, IfOk, IsPermutation};
ghost use Rattle.std.specs.List.Sorted.{IsSorted};
ghost use Rattle.query.specs.Answers.{by_clock, by_clock_down, by_id_down, placed_cmp};

use crate::SortKey;
use gb_text::{Id, List, Memory};
use std::alloc::Global;
use std::cmp::Reverse;

/// A row that matches: the clock that the order looks at, its id and its place.
#[derive(Clone, Copy, Drop)]
pub struct Placed {
    pub clock: u64,
    pub id: Id,
    pub place: usize,
}

/// Puts rows into an order.
pub(crate) fn sort(placed: &mut Vec<Placed>, key: SortKey, down: bool)
    ensures same { IsPermutation placed.old.items placed.new.items }
    ensures ordered { IsSorted (placed_cmp key down) placed.new.items }
{
    match (key, down) {
        (SortKey::ById, true) => sort_by_id_down(placed),
        (SortKey::ById, false) => sort_by_clock(placed),
        (SortKey::ByCreation, true) => sort_by_clock_down(placed),
        (SortKey::ByCreation, false) => sort_by_clock(placed),
        (SortKey::ByEdit, true) => sort_by_clock_down(placed),
        (SortKey::ByEdit, false) => sort_by_clock(placed),
    }
}

// By descending id.
fn sort_by_id_down(placed: &mut Vec<Placed>)
    ensures same { IsPermutation placed.old.items placed.new.items }
    ensures ordered { IsSorted by_id_down placed.new.items }
{
    placed.sort_unstable_by_key(|p| Reverse(p.id));
}

// By ascending clock, and if that is equal by ascending id.
fn sort_by_clock(placed: &mut Vec<Placed>)
    ensures same { IsPermutation placed.old.items placed.new.items }
    ensures ordered { IsSorted by_clock placed.new.items }
{
    placed.sort_unstable_by_key(|p| (p.clock, p.id));
}

// By descending clock, and if that is equal by ascending id.
fn sort_by_clock_down(placed: &mut Vec<Placed>)
    ensures same { IsPermutation placed.old.items placed.new.items }
    ensures ordered { IsSorted by_clock_down placed.new.items }
{
    placed.sort_unstable_by_key(|p| (Reverse(p.clock), p.id));
}

/// The places of rows.
pub(crate) fn places(alloc: Global, placed: &[Placed]) -> Result<List<usize>, Memory>
    ensures { IfOk result (λ places. places ≡ map (λ p. p.place) placed.now) }
{
    let mut places = Vec::new(alloc);
    for p in placed {
        places.push(p.place)?;
    }
    Ok(List::from_vec(places))
}
