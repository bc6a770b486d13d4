//! The names of remotes, of a type that keeps the fact that they are names.
ghost use Rattle.std.specs.Prelude.{◌≡◌, true};
ghost use Rattle.std.specs.List.{list_all};
ghost use Rattle.remote_name.specs.RemoteTexts.{is_remote_byte, is_remote_name};

use gb_text::{Memory, Text};
use std::alloc::Global;

/// The name of a remote: 1 to 64 letters, digits, `_` or `-` of ASCII.
#[derive(Debug, Drop)]
pub struct RemoteName {
    pub text: Text,
    pub ghost is_name: { is_remote_name text ≡ true },
}

impl RemoteName {
    ghost use Rattle.std.specs.Prelude.{IfOk, OnErr, IsSome};
    ghost use Rattle.remote_name.specs.Remotes.{remote_of};

    /// The remote's name that a text is, if it is one. Takes no memory otherwise.
    #[tactic(auto, using(crate::proofs::RemoteLemmas::copied_remote, crate::proofs::RemoteLemmas::no_remote, crate::proofs::RemoteLemmas::is_a_remote))]
    pub fn read(alloc: Global, text: &str) -> Result<Option<RemoteName>, Memory>
        ensures read { IfOk result (λ read. read ≡ remote_of text.now) }
        ensures memory { OnErr result (IsSome (remote_of text.now)) }
    {
        if !is_name(text) {
            return Ok(None);
        }
        let text = Text::from_str(alloc, text)?;
        Ok(Some(RemoteName { text }))
    }

    /// The same name once more. Its text is not read again.
    pub fn copied(&self, alloc: Global) -> Result<RemoteName, Memory>
        ensures { IfOk result (λ copied. copied ≡ self.now) }
    {
        let text = Text::from_str(alloc, self.text.as_str())?;
        Ok(RemoteName { text })
    }

    /// Its text.
    pub fn as_str(&self) -> &str
        ensures { result.now ≡ self.now.text }
    {
        self.text.as_str()
    }
}

// Whether a text is the name of a remote.
fn is_name(text: &str) -> bool
    ensures { result ≡ is_remote_name text.now }
{
    let bytes = text.as_bytes();
    1 <= bytes.len() && bytes.len() <= 64 && are_of_name(bytes)
}

// Whether each byte may stand in the name of a remote.
fn are_of_name(bytes: &[u8]) -> bool
    ensures { result ≡ list_all is_remote_byte bytes.now }
{
    bytes.iter().all(|byte| is_of_name(*byte))
}

// Whether a byte may stand in the name of a remote.
fn is_of_name(byte: u8) -> bool
    ensures { result ≡ is_remote_byte byte }
{
    byte.is_ascii_alphanumeric() || byte == b'_' || byte == b'-'
}
