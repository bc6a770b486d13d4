//! Ids, object names, numbers and line ends, added to a text.
ghost use Rattle.std.specs.Prelude.{◌≡◌, ◌++◌, ◌∷◌, [], OnOk, decimal, string_bytes};
ghost use Rattle.std.specs.Str.{IsAscii};
ghost use Rattle.hex.specs.Hex.{encode_lower};
ghost use Rattle.gb_text.specs.Digits.{IsId, IsName};

use crate::{Id, Name};
use itoa::Buffer;
use std::alloc::AllocError;

/// Adds the 64 digits of an id.
pub fn push_id(text: &mut String, id: &Id) -> Result<(), AllocError>
    ensures digits { OnOk result
        (string_bytes text.new ≡ string_bytes text.old ++ encode_lower id.now.bytes) }
    ensures sized { IsId id.now }
{
    push_ascii(text, &id.text())
}

/// Adds the 40 digits of a name.
pub fn push_name(text: &mut String, name: &Name) -> Result<(), AllocError>
    ensures digits { OnOk result
        (string_bytes text.new ≡ string_bytes text.old ++ encode_lower name.now.bytes) }
    ensures sized { IsName name.now }
{
    push_ascii(text, &name.text())
}

/// Adds a number in decimal.
pub fn push_number(text: &mut String, number: u64) -> Result<(), AllocError>
    ensures { OnOk result (string_bytes text.new ≡ string_bytes text.old ++ decimal number) }
{
    let mut buffer = Buffer::new();
    text.push_str(buffer.format(number))
}

/// Ends a line by LF.
pub fn push_line_end(text: &mut String) -> Result<(), AllocError>
    ensures { OnOk result (string_bytes text.new ≡ string_bytes text.old ++ 10 ∷ []) }
{
    text.push_str("\n")
}

/// Adds characters that are a byte each.
pub fn push_ascii(text: &mut String, digits: &[u8]) -> Result<(), AllocError>
    requires { IsAscii digits.now }
    ensures { OnOk result (string_bytes text.new ≡ string_bytes text.old ++ digits.now) }
{
    for digit in digits {
        text.push(char::from(*digit))?;
    }
    Ok(())
}
