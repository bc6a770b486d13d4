//! Worked texts of versions.
use fixtures::{id, joined};
use gb_text::{Line, Title};
use identity::{Version, id_of_version, version_text};
use std::alloc::Global;
use std::test::Fail;

const ANA: &[u8] =
    b"{\"email\":\"ana@x\",\"name\":\"Ana\",\"nonce\":\"BwcHBwcHBwcHBwcHBwcHBwcHBwcHBwcHBwcHBwcHBwc=\",\"times\":{},\"unix_time\":100,\"version\":2}";

// The text of a version with this name and email.
fn written(alloc: Global, name: &str, email: &str) -> Result<Vec<u8>, Fail> {
    let name = Title::read(alloc, name)?.ok_or("a name")?;
    let email = Line::read(alloc, email)?.ok_or("an email")?;
    let text = version_text(alloc, &name, &email, &[7; 32], 100)?;
    joined(alloc, &[text.as_slice()])
}

fn read(alloc: Global, text: &[u8]) -> Result<Version, Fail> {
    Ok(Version::read(alloc, text)?.ok_or("a version")?)
}

#[test]
fn a_written_version_reads_back(rt: HostRuntime) -> Result<(), Fail> {
    let alloc = rt.alloc();
    assert_eq!(rt; written(alloc, "Ana", "ana@x")?.as_slice(), ANA);
    let version = read(alloc, ANA)?;
    assert_eq!(rt;
        (version.name.as_str(), version.email.as_str()),
        ("Ana", "ana@x")
    );
    assert_eq!(rt; version.login.as_str(), "");
    assert_eq!(rt; version.nonce.as_slice(), [7; 32].as_slice());
    assert_eq!(rt; (version.time, version.has_keys), (100, false));
    Ok(())
}

#[test]
fn the_id_is_the_sha256_of_the_text(rt: HostRuntime) -> Result<(), Fail> {
    let wanted = id("c2cce04c7df5848d9b83d62b57736ed566b562bb824e58caaa49bd2c451f5427")?;
    assert_eq!(rt; id_of_version(ANA), wanted);
    Ok(())
}

const FRONT: &[u8] = b"{\"version\":2,\"unix_time\":0,\"nonce\":\"AAAAAAAAAAAAAAAAAAAAAAAAAAA=\",";

// Whether a text is no version.
fn is_refused(alloc: Global, text: &[u8]) -> Result<bool, Fail> {
    Ok(Version::read(alloc, text)?.is_none())
}

// Members behind those that must stand, of which each is refused.
const REFUSED_MEMBERS: &[&[u8]] = &[
    b"\"email\":\"a\"",
    b"\"name\":\" \",\"login\":\"  \"",
    b"\"name\":\"a\",\"email\":\"b\\n\"",
    b"\"name\":\"a\",\"name\":\"a\"",
    b"\"name\":\"a\",\"n\\u0061me\":\"a\"",
    b"\"name\":\"a\",\"avatar_url\":7",
    b"\"name\":\"a\",\"login\":null",
    b"\"name\":\"a\",\"pub_keys\":\"k\"",
    b"\"name\":\"a\",\"x\":\"\xff\"",
];

#[test]
fn names_without_their_rules_are_no_version(rt: HostRuntime) -> Result<(), Fail> {
    let alloc = rt.alloc();
    for (row, members) in REFUSED_MEMBERS.iter().enumerate() {
        let text = joined(alloc, &[FRONT, members, b"}"])?;
        assert!(rt; is_refused(alloc, &text)?, "row {row}");
    }
    Ok(())
}

// Texts of which each is refused.
const REFUSED_TEXTS: &[&[u8]] = &[
    b"[]",
    b"{}",
    b"{\"version\":1,\"unix_time\":0,\"nonce\":\"AAAAAAAAAAAAAAAAAAAAAAAAAAA=\",\"name\":\"a\"}",
    b"{\"version\":\"2\",\"unix_time\":0,\"nonce\":\"AAAAAAAAAAAAAAAAAAAAAAAAAAA=\",\"name\":\"a\"}",
    b"{\"version\":2,\"unix_time\":9223372036854775808,\"nonce\":\"AAAAAAAAAAAAAAAAAAAAAAAAAAA=\",\"name\":\"a\"}",
    b"{\"version\":2,\"nonce\":\"AAAAAAAAAAAAAAAAAAAAAAAAAAA=\",\"name\":\"a\"}",
    b"{\"version\":2,\"unix_time\":0,\"nonce\":\"AAAA\",\"name\":\"a\"}",
    b"{\"version\":2,\"unix_time\":0,\"name\":\"a\"}",
];

#[test]
fn other_formats_times_and_nonces_are_no_version(rt: HostRuntime) -> Result<(), Fail> {
    for (row, text) in REFUSED_TEXTS.iter().enumerate() {
        assert!(rt; is_refused(rt.alloc(), text)?, "row {row}");
    }
    Ok(())
}

// Members behind those that must stand, the person's name, and whether there are keys.
const TAKEN: &[(&[u8], &str, bool)] = &[
    (b"\"name\":\" \",\"login\":\"ana\"", "ana", false),
    (
        b"\"login\":\"b\",\"name\":\"a\",\"pub_keys\":null",
        "a",
        false,
    ),
    (b"\"pub_keys\":[ ],\"name\":\"a\"", "a", false),
    (b"\"pub_keys\":[\"k\"],\"name\":\"a\"", "a", true),
    (
        b"\"times\":{},\"times\":[],\"name\":\"a\",\"x\\ud800\":1",
        "a",
        false,
    ),
    (b" \"n\\u0061me\" :\n\"\\u00e9\" ", "\u{e9}", false),
];

// Whether a text is a version of a person with this name, with or without keys.
fn is_taken(alloc: Global, text: &[u8], name: &str, has_keys: bool) -> Result<bool, Fail> {
    let version = read(alloc, text)?;
    Ok(version.person_name() == name && version.has_keys == has_keys)
}

#[test]
fn versions_in_other_words_are_read(rt: HostRuntime) -> Result<(), Fail> {
    let alloc = rt.alloc();
    for (row, (members, name, has_keys)) in TAKEN.iter().enumerate() {
        let text = joined(alloc, &[FRONT, members, b"}"])?;
        assert!(rt; is_taken(alloc, &text, name, *has_keys)?, "row {row}");
    }
    Ok(())
}
