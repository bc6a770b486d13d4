//! The classes of bytes that JSON tells apart.

ghost use Rattle.std.specs.Prelude.{◌≡◌};
ghost use Rattle.json_span.specs.Grammar.{is_space, is_digit, is_hex, is_escape, is_plain, is_sign, is_exponent_letter};

/// White space: space, tab, line feed, carriage return (RFC 8259, section 2).
pub fn space(b: u8) -> bool
    ensures { result ≡ is_space b }
{
    b == b' ' || b == b'\t' || b == b'\n' || b == b'\r'
}

/// A decimal digit.
pub fn digit(b: u8) -> bool
    ensures { result ≡ is_digit b }
{
    b >= b'0' && b < b':'
}

/// A hexadecimal digit of either case.
pub fn hex(b: u8) -> bool
    ensures { result ≡ is_hex b }
{
    digit(b) || (b >= b'A' && b < b'G') || (b >= b'a' && b < b'g')
}

/// A byte that may follow a backslash, but for `u` (RFC 8259, section 7).
pub fn escape(b: u8) -> bool
    ensures { result ≡ is_escape b }
{
    b == b'"'
        || b == b'\\'
        || b == b'/'
        || b == b'b'
        || b == b'f'
        || b == b'n'
        || b == b'r'
        || b == b't'
}

/// A byte that stands for itself in a string.
pub fn plain(b: u8) -> bool
    ensures { result ≡ is_plain b }
{
    b >= b' ' && b != b'"' && b != b'\\'
}

/// The sign of an exponent.
pub fn sign(b: u8) -> bool
    ensures { result ≡ is_sign b }
{
    b == b'+' || b == b'-'
}

/// The letter before an exponent.
pub fn exponent_letter(b: u8) -> bool
    ensures { result ≡ is_exponent_letter b }
{
    b == b'E' || b == b'e'
}
