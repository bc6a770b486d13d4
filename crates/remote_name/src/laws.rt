//! Laws of the names of remotes, each the contract of a function that does nothing.
ghost use Rattle.std.specs.Prelude.{◌≡◌, [], ◌∷◌, List, ℕ, Some, None, codes, false, true};
ghost use Rattle.std.specs.List.{AllByRecursion, repeat};
ghost use Rattle.remote_name.specs.RemoteTexts.{is_remote_name};
ghost use Rattle.remote_name.specs.Remotes.{remote_of};
ghost use Rattle.remote_name.specs.declared.remote.RemoteName.{RemoteName as RemoteNameValue};

/// The name of a remote has 1 to 64 bytes. By their edges: letters, digits, `_` and `-` are among these,
/// and what stands beside them is not, nor are white space, dots, slashes and bytes above 127.
pub fn remote_names_are_known()
    ensures longest { is_remote_name (repeat 64 (codes "a")) ≡ true }
    ensures longer { is_remote_name (repeat 65 (codes "a")) ≡ false }
    ensures none { is_remote_name [] ≡ false }
    ensures signs { is_remote_name (codes "Az_-09") ≡ true }
    ensures dots { is_remote_name (codes "a.b") ≡ false }
    ensures slashes { is_remote_name (codes "a/b") ≡ false }
    ensures edges { is_remote_name (codes "09AZaz_-") ≡ true }
    ensures beside { AllByRecursion (λ c. is_remote_name (c ∷ []) ≡ false)
        (0 ∷ 10 ∷ 32 ∷ 44 ∷ 46 ∷ 47 ∷ 58 ∷ 64 ∷ 91 ∷ 94 ∷ 96 ∷ 123 ∷ 127 ∷ 128 ∷ 195 ∷ []) }
{}

/// The name of a remote is what its text is read as, so that no other name has this text; and a text
/// that is no name is read as none.
pub fn remote_names_read_back()
    ensures read { (remote : RemoteNameValue) → remote_of remote.text ≡ Some remote }
    ensures same { (one other : RemoteNameValue) → one.text ≡ other.text → one ≡ other }
    ensures none { (text : List ℕ) → is_remote_name text ≡ false → remote_of text ≡ None }
{}
