//! The names of temporary files.
use crate::signals::again;
use std::alloc::Global;
use std::io;
use std::random::RandomSource;

// What the names begin with. No id, object name or ref name begins so.
const PREFIX: &str = ".gitbug-";

/// Whether a name is that of a temporary file.
pub fn is_temporary(name: &str) -> bool {
    name.starts_with(PREFIX)
}

/// The path of a temporary file in a folder, which nobody can foresee.
pub fn temporary_path(rt: &impl RandomSource, alloc: Global, folder: &str) -> io::Result<String> {
    let mut bytes = [0u8; 8];
    again(|| rt.fill_bytes(&mut bytes))?;
    let number = u64::from_le_bytes(bytes);
    Ok(format!(in alloc; "{folder}/{PREFIX}{number:016x}")?)
}
