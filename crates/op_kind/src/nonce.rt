//! Nonces: 20 to 64 bytes.
ghost use Rattle.std.specs.Prelude.{◌≡◌, ◌≤◌, List, ℕ, length, IfOk, IfSome, Some};
ghost use Rattle.base64.specs.Engines.{standard};
ghost use Rattle.base64.specs.GeneralPurpose.{encode_of, IsBytes};
ghost use Rattle.op_kind.specs.Nonces.{IsNonce, nonce_at};

use base64::DecodeAllocError;
use base64::engine::general_purpose::STANDARD;
use gb_text::{Bytes, Memory};
use std::alloc::Global;
use std::marker::Model;

/// The fewest bytes that a nonce may have.
pub const LEAST_NONCE: usize = 20;

/// The most bytes that a nonce may have.
pub const MOST_NONCE: usize = 64;

/// The bytes that tell apart operations which say the same: 20 to 64 of them. Contracts see the
/// bytes.
#[derive(Debug, Drop)]
pub struct Nonce {
    bytes: Bytes,
}

impl Model for Nonce {
    ghost use Rattle.std.specs.Prelude.{List, ℕ, ◌≤◌, length};
    ghost use Rattle.op_kind.specs.declared.nonce.TheConstants.{LEAST_NONCE, MOST_NONCE};

    ghost Value = { List ℕ };

    ghost view = { λ n. n.bytes };

    ghost invariant = { λ n. (LEAST_NONCE ≤ length n.bytes) × (length n.bytes ≤ MOST_NONCE) };
}

impl Nonce {
    /// The nonce of 20 to 64 bytes.
    pub fn from_bytes(alloc: Global, bytes: &[u8]) -> Result<Nonce, Memory>
        requires least { LEAST_NONCE ≤ length bytes.now }
        requires most { length bytes.now ≤ MOST_NONCE }
        ensures { IfOk result (λ n. n ≡ bytes.now) }
    {
        Ok(Nonce {
            bytes: Bytes::from_slice(alloc, bytes)?,
        })
    }

    /// The nonce of which the text is the standard base64 with padding (RFC 4648, section 4). None for
    /// any other text: fewer than 20 or more than 64 bytes, no padding, another alphabet, white space,
    /// or bits behind the last byte that are not zero.
    #[tactic(auto, unfolding(crate::specs::Nonces::nonce_at))]
    pub fn read(alloc: Global, text: &[u8]) -> Result<Option<Nonce>, Memory>
        ensures value { IfOk result (λ o. o ≡ nonce_at text.now) }
        ensures found { IfOk result (λ o. IfSome o
            (λ n. IsNonce n × (text.now ≡ encode_of standard n))) }
        ensures only { (n : List ℕ) → IsNonce n → text.now ≡ encode_of standard n
            → IfOk result (λ o. o ≡ Some n) }
    {
        let bytes = match STANDARD.decode(alloc, text) {
            Ok(bytes) => bytes,
            Err(DecodeAllocError::OutOfMemory) => return Err(Memory),
            Err(DecodeAllocError::DecodeError(_)) => return Ok(None),
        };
        if bytes.len() < LEAST_NONCE || bytes.len() > MOST_NONCE {
            return Ok(None);
        }
        Ok(Some(Nonce {
            bytes: Bytes::from_vec(bytes),
        }))
    }

    /// The bytes.
    pub fn as_slice(&self) -> &[u8]
        ensures bytes { result.now ≡ self.now }
        ensures least { LEAST_NONCE ≤ length self.now }
        ensures most { length self.now ≤ MOST_NONCE }
    {
        self.bytes.as_slice()
    }
}
