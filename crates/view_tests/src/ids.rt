//! Tests of `combined_id`.
use combined_id::{Lookup, combine, find, split_prefix};
use gb_text::{Id, Prefix};

#[test]
fn digits_go_to_their_places(rt: HostRuntime) {
    let both = combine(&Id::from_bytes([0xaa; 32]), &Id::from_bytes([0xbb; 32]));
    assert_eq!(rt;
        both.text().as_slice(),
        b"abababaaabaaaabaaaabaaaabaaaabaaaabaaaabaaaabaaaabaaaabaaaabaaaa".as_slice()
    );
}

#[test]
fn digits_stay_in_their_order(rt: HostRuntime) {
    let up = Id::read(b"0123456789abcdef0123456789abcdef0123456789abcdef0123456789abcdef");
    let down = Id::read(b"fedcba9876543210fedcba9876543210fedcba9876543210fedcba9876543210");
    let both = match (up, down) {
        (Some(up), Some(down)) => combine(&up, &down),
        _ => Id::from_bytes([0; 32]),
    };
    assert_eq!(rt;
        both.text().as_slice(),
        b"0f1e2d345c6789babcdaef0192345867897abcd6ef0152345467893abcd2ef01".as_slice()
    );
}

// The prefix with these digits, and else the one with the digit 0.
fn prefix(digits: &[u8]) -> Prefix {
    match Prefix::read(digits) {
        Some(prefix) => prefix,
        None => Prefix::read(b"0").unwrap(),
    }
}

// Whether the part has these digits.
fn has(part: Option<Prefix>, digits: &[u8]) -> bool {
    part.is_some_and(|part| &part.digits[..part.count] == digits)
}

const MIXED: &[u8; 64] = b"abababaaabaaaabaaaabaaaabaaaabaaaabaaaabaaaabaaaabaaaabaaaabaaaa";

#[test]
fn prefixes_are_split(rt: HostRuntime) {
    let one = split_prefix(&prefix(&MIXED[..1]));
    assert!(rt; has(one.first, b"a") && one.second.is_none());
    let seven = split_prefix(&prefix(&MIXED[..7]));
    assert!(rt; has(seven.first, b"aaaa") && has(seven.second, b"bbb"));
    let ten = split_prefix(&prefix(&MIXED[..10]));
    assert!(rt; has(ten.first, b"aaaaaa") && has(ten.second, b"bbbb"));
    let sixteen = split_prefix(&prefix(&MIXED[..16]));
    assert!(rt; has(sixteen.first, b"aaaaaaaaaaa") && has(sixteen.second, b"bbbbb"));
    let all = split_prefix(&prefix(MIXED));
    assert!(rt; has(all.first, &[b'a'; 50]) && has(all.second, &[b'b'; 14]));
}

#[test]
fn ids_are_found(rt: HostRuntime) {
    let (a, b) = (Id::from_bytes([0xaa; 32]), Id::from_bytes([0xbb; 32]));
    assert_eq!(rt; find(&[a, b], &prefix(b"a")), Lookup::One(0));
    assert_eq!(rt; find(&[a, b], &prefix(b"bb")), Lookup::One(1));
    assert_eq!(rt; find(&[a, b], &prefix(b"c")), Lookup::NotFound);
    assert_eq!(rt; find(&[], &prefix(b"a")), Lookup::NotFound);
    assert_eq!(rt; find(&[a, a], &prefix(&a.text())), Lookup::Ambiguous(a, a));
}

#[test]
fn the_two_least_are_ambiguous(rt: HostRuntime) {
    let mut ids = [Id::from_bytes([0xaa; 32]); 4];
    ids[0].bytes[31] = 0xad;
    ids[1].bytes[31] = 0xab;
    ids[3].bytes[31] = 0xac;
    assert_eq!(rt;
        find(&ids, &prefix(b"a")),
        Lookup::Ambiguous(ids[2], ids[1])
    );
    assert_eq!(rt; find(&ids, &prefix(&ids[3].text())), Lookup::One(3));
}

#[test]
fn ids_that_share_digits_are_told_apart(rt: HostRuntime) {
    let one = Id::from_bytes([0x55; 32]);
    for shared in 1..64 {
        let mut other = one;
        other.bytes[shared / 2] = if shared % 2 == 0 { 0x45 } else { 0x54 };
        let text = other.text();
        let short = find(&[one, other], &prefix(&text[..shared]));
        assert_eq!(rt; short, Lookup::Ambiguous(other, one));
        assert_eq!(rt;
            find(&[one, other], &prefix(&text[..shared + 1])),
            Lookup::One(1)
        );
    }
}
