//! Writing refs as a packed text.
ghost use Rattle.std.specs.Prelude.{◌≡◌, ◌++◌, ◌∷◌, [], IfOk, OnOk};
ghost use Rattle.packed_refs.specs.Written.{line_of, packed_text};

use crate::ref_line::RefLine;
use gb_text::{Bytes, Memory};
use std::alloc::{AllocError, Global};

/// The text of refs: a line for each, in their order, with the 40 digits of its head, a space, its
/// name and a line feed. It has no comment and no peeled object.
pub fn packed_text(alloc: Global, refs: &[RefLine]) -> Result<Bytes, Memory>
    ensures { IfOk result (λ text. text ≡ packed_text refs.now) }
{
    let mut text = Vec::new(alloc);
    for one in refs {
        push_line(&mut text, one)?;
    }
    Ok(Bytes::from_vec(text))
}

// Adds the line of a ref.
fn push_line(text: &mut Vec<u8>, one: &RefLine) -> Result<(), AllocError>
    ensures { OnOk result (text.new.items ≡ text.old.items ++ (line_of one.now ++ 10 ∷ [])) }
{
    text.extend_from_slice(&one.head.text())?;
    text.push(b' ')?;
    text.extend_from_slice(one.name.as_slice())?;
    text.push(b'\n')?;
    Ok(())
}
