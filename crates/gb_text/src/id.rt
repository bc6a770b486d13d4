//! Ids and object names: bytes that print as lower-case hexadecimal digits.
ghost use Rattle.std.specs.Prelude.{◌≡◌, ◌*◌, length, Some, IfSome};
ghost use Rattle.hex.specs.Hex.{encode_lower};
ghost use Rattle.gb_text.specs.Digits.{bytes_of_digits};

use crate::prefix::are_lower_digits;

/// The name of an entity or of an operation: a SHA-256, printed as 64 lower-case hexadecimal
/// digits, two a byte, the high half first. Ids are ordered by their bytes, as their texts are.
#[derive(Clone, Copy, Debug, PartialEq, Eq, PartialOrd, Ord, Hash)]
pub struct Id {
    pub bytes: [u8; 32],
}

impl Id {
    ghost use Rattle.gb_text.specs.Digits.{IsId, id_of};
    ghost use Rattle.gb_text.specs.declared.id.Id.{Id as IdValue};

    /// Reads 64 lower-case digits. Takes no memory.
    pub fn read(text: &[u8]) -> Option<Id>
        ensures value { result ≡ id_of text.now }
        ensures found { IfSome result (λ id. text.now ≡ encode_lower id.bytes) }
        ensures only { (id : IdValue) → IsId id → text.now ≡ encode_lower id.bytes
            → result ≡ Some id }
    {
        let mut bytes = [0; 32];
        if read_digits(text, &mut bytes) {
            Some(Id { bytes })
        } else {
            None
        }
    }

    /// The id with these bytes.
    pub fn from_bytes(bytes: [u8; 32]) -> Id
        ensures { result.bytes ≡ bytes }
    {
        Id { bytes }
    }

    /// The 64 digits.
    pub fn text(&self) -> [u8; 64]
        ensures digits { result ≡ encode_lower self.now.bytes }
        ensures reads_back { id_of result ≡ Some self.now }
        ensures sized { IsId self.now }
    {
        let mut text = [0; 64];
        write_digits(&self.bytes, &mut text);
        text
    }
}

/// The name of an object: a SHA-1, printed as 40 lower-case hexadecimal digits, two a byte, the
/// high half first. Names are ordered by their bytes, as their texts are.
#[derive(Clone, Copy, Debug, PartialEq, Eq, PartialOrd, Ord, Hash)]
pub struct Name {
    pub bytes: [u8; 20],
}

impl Name {
    ghost use Rattle.gb_text.specs.Digits.{IsName, name_of};
    ghost use Rattle.gb_text.specs.declared.id.Name.{Name as NameValue};

    /// Reads 40 lower-case digits. Takes no memory.
    pub fn read(text: &[u8]) -> Option<Name>
        ensures value { result ≡ name_of text.now }
        ensures found { IfSome result (λ name. text.now ≡ encode_lower name.bytes) }
        ensures only { (name : NameValue) → IsName name → text.now ≡ encode_lower name.bytes
            → result ≡ Some name }
    {
        let mut bytes = [0; 20];
        if read_digits(text, &mut bytes) {
            Some(Name { bytes })
        } else {
            None
        }
    }

    /// The name with these bytes.
    pub fn from_bytes(bytes: [u8; 20]) -> Name
        ensures { result.bytes ≡ bytes }
    {
        Name { bytes }
    }

    /// The 40 digits.
    pub fn text(&self) -> [u8; 40]
        ensures digits { result ≡ encode_lower self.now.bytes }
        ensures reads_back { name_of result ≡ Some self.now }
        ensures sized { IsName self.now }
    {
        let mut text = [0; 40];
        write_digits(&self.bytes, &mut text);
        text
    }
}

ghost use Rattle.std.specs.Prelude.{if◌then◌else◌, None};
ghost use Rattle.hex.specs.Hex.{IsBytes};

// Reads the digits of as many bytes as there is room for, and says whether the text is such digits.
#[tactic(auto, using(crate::proofs::DigitLemmas::refused_digits, crate::proofs::LowerDigitLemmas::others_refused, crate::proofs::LowerDigitLemmas::decoded_read))]
fn read_digits(text: &[u8], bytes: &mut [u8]) -> bool
    ensures { bytes_of_digits (length bytes.old) text.now
        ≡ (if result then Some bytes.new else None) }
{
    are_lower_digits(text) && hex::decode_to_slice(text, bytes).is_ok()
}

// Writes the digits of some bytes.
fn write_digits(bytes: &[u8], text: &mut [u8])
    requires { length text.old ≡ 2 * length bytes.now }
    ensures digits { text.new ≡ encode_lower bytes.now }
    ensures reads_back { bytes_of_digits (length bytes.now) text.new ≡ Some bytes.now }
    ensures bytes { IsBytes bytes.now }
{
    let _ = hex::encode_to_slice(bytes, text);
}
