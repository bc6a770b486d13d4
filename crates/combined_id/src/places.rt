//! Two ids in one, by places.
ghost use Rattle.std.specs.Prelude.{◌≡◌, length};
ghost use Rattle.hex.specs.Hex.{encode_lower};
ghost use Rattle.gb_text.specs.Digits.{IsId};
ghost use Rattle.combined_id.specs.Combined.{combined_of, is_second};

use gb_text::Id;

// Whether the place is the secondary's.
pub(crate) fn is_second(place: usize) -> bool
    ensures { result ≡ is_second place }
{
    matches!(place, 1 | 3 | 5 | 9) || (place >= 10 && place % 5 == 4)
}

// The digits of two ids' digits.
fn mix(primary: &[u8; 64], secondary: &[u8; 64]) -> [u8; 64]
    ensures places { result ≡ combined_of primary.now secondary.now }
    ensures sized { length result ≡ 64 }
{
    let mut digits = [0; 64];
    let (mut first, mut second) = (0, 0);
    for place in 0..64 {
        if is_second(place) {
            digits[place] = secondary[second];
            second += 1;
        } else {
            digits[place] = primary[first];
            first += 1;
        }
    }
    digits
}

/// The id of a comment, of the id of its bug and that of the operation that made it. The first 50
/// digits of the primary count, and the first 14 of the secondary. Takes no memory.
pub fn combine(primary: &Id, secondary: &Id) -> Id
    ensures digits { encode_lower result.bytes
        ≡ combined_of (encode_lower primary.now.bytes) (encode_lower secondary.now.bytes) }
    ensures sized { IsId result }
{
    let digits = mix(&primary.text(), &secondary.text());
    let mut bytes = [0; 32];
    let _ = hex::decode_to_slice(digits.as_slice(), &mut bytes);
    Id { bytes }
}
