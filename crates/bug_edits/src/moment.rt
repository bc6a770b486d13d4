//! When a command is carried out.
ghost use Rattle.std.specs.Prelude.{◌≤◌};
ghost use Rattle.gb_text.specs.declared.decimal.TheConstants.{GREATEST_TIME};

use sha2::{Digest, Sha256};

/// The time of a command, in seconds since 1970, and the 32 random bytes from which it makes its
/// nonce.
#[derive(Debug, Drop)]
pub struct Moment {
    pub now: u64,
    pub seed: [u8; 32],
    pub ghost within: { now ≤ GREATEST_TIME },
}

impl Moment {
    ghost use Rattle.std.specs.Prelude.{◌≡◌};
    ghost use Rattle.bug_edits.specs.NewOps.{nonce_from};

    /// The nonce of what the command makes: the SHA-256 of its seed and one zero byte.
    pub fn nonce(&self) -> [u8; 32]
        ensures { result ≡ nonce_from self.entry.now.seed }
    {
        let mut hasher = Sha256::new();
        hasher.update(self.seed.as_slice());
        hasher.update(b"\0".as_slice());
        hasher.finalize()
    }
}
