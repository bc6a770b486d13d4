//! Prefixes of ids: the first digits of an id's text.
ghost use Rattle.std.specs.Prelude.{◌≡◌, nat_le, take, true};
ghost use Rattle.std.specs.List.{list_all};
ghost use Rattle.gb_text.specs.PrefixText.{is_lower_digit, is_prefix_text};

use crate::Id;

/// From 1 to 64 lower-case hexadecimal digits, the first digits of an id. Each argument for a bug or an
/// identity is read as one.
#[derive(Clone, Copy, Debug)]
pub struct Prefix {
    pub digits: [u8; 64],
    pub count: usize,
    pub ghost room: { nat_le count 64 ≡ true },
    pub ghost is_prefix: { is_prefix_text (take count digits) ≡ true },
}

impl Prefix {
    ghost use Rattle.std.specs.Prelude.{is_some, IfSome};
    ghost use Rattle.gb_text.specs.Prefix.{digits_of, fits};

    /// Reads 1 to 64 lower-case digits, and no other text. Takes no memory.
    pub fn read(text: &[u8]) -> Option<Prefix>
        ensures found { is_some result ≡ is_prefix_text text.now }
        ensures digits { IfSome result (λ prefix. digits_of prefix ≡ text.now) }
    {
        if !is_prefix_text(text) {
            return None;
        }
        let count = text.len();
        let mut digits = [0; 64];
        digits[..count].copy_from_slice(text);
        Some(Prefix { digits, count })
    }

    /// Whether the id's text begins with the digits. Takes no memory.
    pub fn fits(&self, id: &Id) -> bool
        ensures { result ≡ fits self.now id.now }
    {
        id.text()[..self.count] == self.digits[..self.count]
    }
}

// Whether the text is 1 to 64 lower-case digits.
fn is_prefix_text(text: &[u8]) -> bool
    ensures { result ≡ is_prefix_text text.now }
{
    !text.is_empty() && text.len() <= 64 && are_lower_digits(text)
}

// Whether each byte is a lower-case hexadecimal digit.
pub(crate) fn are_lower_digits(text: &[u8]) -> bool
    ensures { result ≡ list_all is_lower_digit text.now }
{
    text.iter()
        .all(|digit| matches!(*digit, b'0'..=b'9' | b'a'..=b'f'))
}
