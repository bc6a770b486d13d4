//! The path of an object in a folder.
ghost use Rattle.std.specs.Prelude.{◌≡◌, IfOk, true};
ghost use Rattle.gb_text.specs.Folder.{joined};
ghost use Rattle.gb_store.specs.ObjectPath.{object_place, is_object_path};

use gb_text::{Folder, Memory, Name, Text, push_ascii};
use std::alloc::Global;

// The bytes of the place of an object: `objects/`, 40 digits and a slash.
const PLACE_BYTES: usize = 49;

/// The path of the object in the folder: below it `objects/`, the first two digits of the name, a
/// slash and the other 38 (Git's layout of loose objects). It is one text, made with its room.
pub fn path_of(alloc: Global, folder: &Folder, name: &Name) -> Result<Text, Memory>
    ensures path { IfOk result (λ path. path ≡ joined folder.now (object_place name.now)) }
    ensures counted { IfOk result (λ path. is_object_path path ≡ true) }
{
    let digits = name.text();
    let (fan, rest) = digits.split_at(2);
    let mut path = folder.path_with_room(alloc, PLACE_BYTES)?;
    path.push_str("objects/")?;
    push_ascii(&mut path, fan)?;
    path.push_str("/")?;
    push_ascii(&mut path, rest)?;
    Ok(Text::from_string(path))
}
