//! Which paths are those of objects.
ghost use Rattle.std.specs.Prelude.{◌≡◌, length};
ghost use Rattle.std.specs.List.{list_all};
ghost use Rattle.hex.specs.Hex.{is_hex_digit};
ghost use Rattle.gb_store.specs.ObjectPath.{is_object_path};
ghost use Rattle.gb_store.specs.ObjectTail.{has_object_tail, is_object_tail};

/// Whether the last three parts of a path are `objects`, 2 hexadecimal digits and 38, with letters
/// of either case. Takes the same time for a path of any length.
pub fn is_object_path(path: &str) -> bool
    ensures { result ≡ is_object_path path.now }
{
    has_object_tail(path.as_bytes())
}

// Whether the last 49 bytes are those of an object's path, and begin a part.
fn has_object_tail(path: &[u8]) -> bool
    ensures { result ≡ has_object_tail path.now }
{
    if path.len() < 49 {
        return false;
    }
    let at = path.len() - 49;
    if at > 0 && path[at - 1] != b'/' {
        return false;
    }
    is_object_tail(&path[at..])
}

fn is_object_tail(tail: &[u8]) -> bool
    requires { length tail.now ≡ 49 }
    ensures { result ≡ is_object_tail tail.now }
{
    &tail[..8] == b"objects/".as_slice()
        && are_digits(&tail[8..10])
        && tail[10] == b'/'
        && are_digits(&tail[11..])
}

fn are_digits(text: &[u8]) -> bool
    ensures { result ≡ list_all is_hex_digit text.now }
{
    text.iter()
        .all(|b| matches!(*b, b'0'..=b'9' | b'a'..=b'f' | b'A'..=b'F'))
}
