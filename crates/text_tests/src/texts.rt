//! Ids, names, numbers, folders and lines: worked texts, and that calls succeed.
use gb_text::{
    Bytes, Folder, FolderFault, Id, List, Name, Text, is_line, is_message, is_title, push_id,
    push_line_end, push_name, push_number, read_decimal, without_line_end,
};
use std::test::Fail;

#[test]
fn owned_values_hold_what_they_are_given(rt: HostRuntime) -> Result<(), Fail> {
    let alloc = rt.alloc();
    assert_eq!(rt; Text::from_str(alloc, "a")?.as_str(), "a");
    assert_eq!(rt; Bytes::from_slice(alloc, b"a")?.as_slice(), b"a".as_slice());
    let mut list = List::new(alloc);
    assert!(rt; list.push(7u8).is_ok());
    assert_eq!(rt; list.as_slice(), [7].as_slice());
    assert_eq!(rt; list.into_vec().as_slice(), [7].as_slice());
    Ok(())
}

#[test]
fn folders_are_normalised_and_joined(rt: HostRuntime) -> Result<(), Fail> {
    let alloc = rt.alloc();
    let rows = [
        ("./a//b/", "refs/bugs", "a/b/refs/bugs"),
        ("/", "x", "/x"),
        ("//", "x", "/x"),
        (".", "x", "x"),
        ("./", "x", "x"),
        ("/a/", "x", "/a/x"),
        ("...", "x", ".../x"),
        ("a..b", "", "a..b/"),
    ];
    for (word, rest, path) in rows {
        assert_eq!(rt;
            Folder::read(alloc, word)?.join(alloc, rest)?.as_str(),
            path
        );
    }
    for word in ["", "..", "a/..", "/../a", "a\tb", "a\u{85}"] {
        assert!(rt; matches!(Folder::read(alloc, word), Err(FolderFault::BadFolder)));
    }
    Ok(())
}

#[test]
fn folders_overlap_by_parts(rt: HostRuntime) -> Result<(), Fail> {
    let alloc = rt.alloc();
    let rows = [
        (".", "a/b", true),
        ("/", "/a", true),
        ("a", "a/b", true),
        ("a/b/c", "./a//b", true),
        ("a", "ab", false),
        ("a", "/a", false),
        (".", "/", false),
        ("a/b", "a/c", false),
    ];
    for (one, two, overlap) in rows {
        let (one, two) = (Folder::read(alloc, one)?, Folder::read(alloc, two)?);
        assert_eq!(rt; one.overlaps(&two), overlap);
        assert_eq!(rt; two.overlaps(&one), overlap);
    }
    Ok(())
}

#[test]
fn ids_and_names_are_lower_case_digits(rt: HostRuntime) -> Result<(), Fail> {
    let digits = b"e69de29bb2d1d6434b8b29ae775ad8c2e48c5391";
    let name = Name::read(digits).ok_or("a name")?;
    assert_eq!(rt; name.text().as_slice(), digits.as_slice());
    assert_eq!(rt;
        Name::read(b"E69de29bb2d1d6434b8b29ae775ad8c2e48c5391"),
        None
    );
    assert_eq!(rt;
        Name::read(b"e69de29bb2d1d6434b8b29ae775ad8c2e48c539"),
        None
    );
    assert_eq!(rt;
        Name::read(b"e69de29bb2d1d6434b8b29ae775ad8c2e48c5391\n"),
        None
    );
    let id = Id::from_bytes([0xa5; 32]);
    assert_eq!(rt; Id::read(&id.text()), Some(id));
    assert_eq!(rt; Id::read(digits), None);
    Ok(())
}

#[test]
fn decimals_are_plain(rt: HostRuntime) {
    assert_eq!(rt; read_decimal(b"0"), Some(0));
    assert_eq!(rt; read_decimal(b"907"), Some(907));
    assert_eq!(rt; read_decimal(b"18446744073709551615"), Some(u64::MAX));
    for text in [
        "",
        "00",
        "01",
        "+1",
        "-0",
        " 1",
        "1\n",
        "18446744073709551616",
        "\u{661}",
    ] {
        assert_eq!(rt; read_decimal(text.as_bytes()), None);
    }
}

#[test]
fn text_rules_go_by_characters(rt: HostRuntime) {
    assert!(rt; is_line("") && is_line("\u{a0}") && is_message("") && is_message("a\r\n\tb"));
    assert!(rt;
        !is_line("a\u{85}") && !is_line("\u{9f}") && !is_line("a\n") && !is_message("\u{7f}")
    );
    assert!(rt; is_title("a label") && !is_title("") && !is_title("\u{3000}\u{a0}"));
}

#[test]
fn one_line_end_is_dropped(rt: HostRuntime) {
    assert_eq!(rt; without_line_end(b"a\n"), b"a".as_slice());
    assert_eq!(rt; without_line_end(b"a\n\n"), b"a\n".as_slice());
    assert_eq!(rt; without_line_end(b"a"), b"a".as_slice());
    assert_eq!(rt; without_line_end(b""), b"".as_slice());
}

#[test]
fn pieces_are_written_one_behind_another(rt: HostRuntime) -> Result<(), Fail> {
    let alloc = rt.alloc();
    let mut text = String::from_str(alloc, "x ")?;
    push_name(&mut text, &Name::from_bytes([0x0a; 20]))?;
    push_line_end(&mut text)?;
    push_number(&mut text, 0)?;
    push_number(&mut text, u64::MAX)?;
    push_id(&mut text, &Id::from_bytes([0xf0; 32]))?;
    assert_eq!(rt;
        text.as_str(),
        "x 0a0a0a0a0a0a0a0a0a0a0a0a0a0a0a0a0a0a0a0a\n018446744073709551615f0f0f0f0f0f0f0f0f0f0f0f0f0f0f0f0f0f0f0f0f0f0f0f0f0f0f0f0f0f0f0f0"
    );
    Ok(())
}
