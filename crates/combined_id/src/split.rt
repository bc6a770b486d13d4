//! The parts of a prefix of a combined id.
ghost use Rattle.std.specs.Prelude.{◌≡◌};
ghost use Rattle.std.specs.Option.{option_map};
ghost use Rattle.gb_text.specs.Prefix.{digits_of};
ghost use Rattle.combined_id.specs.Split.{first_digits, second_digits};
ghost use Rattle.combined_id.specs.Split.{part_digits, some_digits, takes};

use crate::places::is_second;
use gb_text::Prefix;

/// The digits of a prefix that belong to either id; None where none does.
#[derive(Clone, Copy, Debug)]
pub struct Split {
    pub first: Option<Prefix>,
    pub second: Option<Prefix>,
}

/// Splits a prefix of a comment's id into a prefix of its bug's id and one of its own. Takes no
/// memory. A command that is given a comment splits its argument so, and reads only bugs that the
/// first part fits.
pub fn split_prefix(prefix: &Prefix) -> Split
    ensures first { option_map digits_of result.first ≡ some_digits (first_digits prefix.now) }
    ensures second { option_map digits_of result.second ≡ some_digits (second_digits prefix.now) }
{
    Split {
        first: part(prefix, false),
        second: part(prefix, true),
    }
}

// Whether the place belongs to the id: the secondary, or the primary.
fn takes(second: bool, place: usize) -> bool
    ensures { result ≡ takes second place }
{
    if second {
        is_second(place)
    } else {
        !is_second(place)
    }
}

// The digits at the places of one of both ids, as a prefix.
fn part(prefix: &Prefix, second: bool) -> Option<Prefix>
    ensures { option_map digits_of result ≡ some_digits (part_digits second prefix.now) }
{
    let mut digits = [0; 64];
    let mut count = 0;
    for place in 0..prefix.count {
        if takes(second, place) {
            digits[count] = prefix.digits[place];
            count += 1;
        }
    }
    Prefix::read(&digits[..count])
}
