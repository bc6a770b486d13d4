//! Plain decimal numbers below 2^64.
ghost use Rattle.std.specs.Prelude.{◌≡◌, ◌^◌, ◌-◌, ℕ, IfSome, Some};
ghost use Rattle.gb_text.specs.Decimal.{IsDecimal, decimal_of};

use itoa::Buffer;

/// The greatest moment, in seconds since 1970, and the greatest edit or create clock: 2^63 - 1.
pub const GREATEST_TIME: u64 = 9223372036854775807;

/// The limit has the value that contracts above this crate write.
pub fn limit_is_known()
    ensures { GREATEST_TIME ≡ 2 ^ 63 - 1 }
{}

/// The number of which the text is the plain decimal: one or more digits, no sign, no leading
/// zero but in `0`, a value below 2^64. Takes no memory.
pub fn read_decimal(text: &[u8]) -> Option<u64>
    ensures value { result ≡ decimal_of text.now }
    ensures found { IfSome result (IsDecimal text.now) }
    ensures only { (n : ℕ) → IsDecimal text.now n → result ≡ Some n }
{
    let Ok(digits) = std::str::from_utf8(text) else {
        return None;
    };
    let Ok(number) = digits.parse::<u64>() else {
        return None;
    };
    let mut printed = Buffer::new();
    if printed.format(number).as_bytes() == text {
        Some(number)
    } else {
        None
    }
}
