//! Tests of `packed_refs`.
use gb_text::{Memory, Name};
use packed_refs::{head_of, heads_in, is_packed, packed_text, refs};

// What Git wrote of two bugs, a branch and an annotated tag.
const PACKED: &[u8] = b"# pack-refs with: peeled fully-peeled sorted \n\
    563a35609259a1da261543e8e91b9cd7d343133d refs/bugs/0a0a0a0a0a0a0a0a0a0a0a0a0a0a0a0a0a0a0a0a0a0a0a0a0a0a0a0a0a0a0a0a\n\
    563a35609259a1da261543e8e91b9cd7d343133d refs/bugs/0b0b0b0b0b0b0b0b0b0b0b0b0b0b0b0b0b0b0b0b0b0b0b0b0b0b0b0b0b0b0b0b\n\
    563a35609259a1da261543e8e91b9cd7d343133d refs/heads/main\n\
    f71e4dbf0271cd010d4acaf00d7f9f076b141937 refs/tags/v1\n\
    ^563a35609259a1da261543e8e91b9cd7d343133d\n";

// The same without its comment and its peeled object.
const WRITTEN: &[u8] =
    b"563a35609259a1da261543e8e91b9cd7d343133d refs/bugs/0a0a0a0a0a0a0a0a0a0a0a0a0a0a0a0a0a0a0a0a0a0a0a0a0a0a0a0a0a0a0a0a\n\
    563a35609259a1da261543e8e91b9cd7d343133d refs/bugs/0b0b0b0b0b0b0b0b0b0b0b0b0b0b0b0b0b0b0b0b0b0b0b0b0b0b0b0b0b0b0b0b\n\
    563a35609259a1da261543e8e91b9cd7d343133d refs/heads/main\n\
    f71e4dbf0271cd010d4acaf00d7f9f076b141937 refs/tags/v1\n";

#[test]
fn a_text_of_git_has_heads(rt: HostRuntime) {
    let commit = Name::read(b"563a35609259a1da261543e8e91b9cd7d343133d");
    let tag = Name::read(b"f71e4dbf0271cd010d4acaf00d7f9f076b141937");
    assert!(rt; is_packed(PACKED));
    assert!(rt; commit.is_some());
    assert_eq!(rt; head_of(PACKED, b"refs/heads/main"), commit);
    assert_eq!(rt; head_of(PACKED, b"refs/tags/v1"), tag);
    assert_eq!(rt; head_of(PACKED, b"refs/tags"), None);
}

#[test]
fn a_text_of_git_has_bugs(rt: HostRuntime) -> Result<(), Memory> {
    let heads = heads_in(rt.alloc(), PACKED, b"refs/bugs")?;
    assert_eq!(rt; heads.len(), 2);
    assert_eq!(rt; heads[0].id.bytes, [10; 32]);
    assert_eq!(rt; heads[1].id.bytes, [11; 32]);
    assert_eq!(rt;
        Some(heads[1].head),
        Name::read(b"563a35609259a1da261543e8e91b9cd7d343133d")
    );
    assert!(rt; heads_in(rt.alloc(), PACKED, b"refs")?.is_empty());
    Ok(())
}

#[test]
fn a_bad_line_spoils_the_text(rt: HostRuntime) {
    let text = b"563a35609259a1da261543e8e91b9cd7d343133d refs/heads/main\n\n";
    assert!(rt; !is_packed(text));
    assert_eq!(rt; head_of(text, b"refs/heads/main"), None);
}

#[test]
fn a_text_of_git_is_written_again(rt: HostRuntime) -> Result<(), Memory> {
    let refs = refs(rt.alloc(), PACKED)?;
    let text = packed_text(rt.alloc(), refs.as_slice())?;
    assert_eq!(rt; text.as_slice(), WRITTEN);
    Ok(())
}
