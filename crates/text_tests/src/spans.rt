//! Where parts lie: worked texts, and that calls succeed.
use json_span::{SpanFault, elements, members};
use std::alloc::{AllocError, Global};
use std::process::Abort;
use std::rt::HostRuntime;

#[test]
fn members_lie_where_they_stand(rt: HostRuntime) {
    let text = b"{\"a\": 1,\"b\":[]}";
    let all = members(rt.alloc(), text).expect(&rt, "an object");
    assert_eq!(rt; all.len(), 2);
    assert_eq!(rt; (all[0].name.at, all[0].name.len), (1, 3));
    assert_eq!(rt; (all[0].value.at, all[0].value.len), (6, 1));
    assert_eq!(rt; (all[1].name.at, all[1].name.len), (8, 3));
    assert_eq!(rt; (all[1].value.at, all[1].value.len), (12, 2));
    let text =
        b" { \"ops\" : null , \"x\":[1.5,{\"y\":null}], \"author\":{\"name\":\"n\",\"id\":\"A\"} }\n";
    let all = members(rt.alloc(), text).expect(&rt, "an object");
    assert_eq!(rt; all.len(), 3);
    assert_eq!(rt; all[0].name.cut(text), b"\"ops\"".as_slice());
    assert_eq!(rt; all[0].value.cut(text), b"null".as_slice());
    assert_eq!(rt; all[1].value.cut(text), b"[1.5,{\"y\":null}]".as_slice());
    assert_eq!(rt; all[2].name.cut(text), b"\"author\"".as_slice());
    assert_eq!(rt;
        all[2].value.cut(text),
        b"{\"name\":\"n\",\"id\":\"A\"}".as_slice()
    );
}

/// The text was refused at the place.
fn assert_refused<T: Drop>(rt: &impl Abort, answer: Result<Vec<T>, SpanFault>, place: usize) {
    match answer {
        Err(SpanFault::NotSplit(at)) => assert_eq!(rt; at, place),
        _ => panic!(rt; "taken, or out of memory"),
    }
}

#[test]
fn objects_are_refused_at_their_longest_front(rt: HostRuntime) {
    let refused: [(&[u8], usize); 12] = [
        (b"", 0),
        (b" \t\r\n", 4),
        (b"[]", 0),
        (b" []", 1),
        (b"{\"a\":}", 5),
        (b"{\"a\":1,}", 7),
        (b"{a:1}", 1),
        (b"{\"a\" 1}", 5),
        (b"{\"a\":1 \"b\":2}", 7),
        (b"{\"a\":1]", 6),
        (b"{}{}", 2),
        (b"{\"a\":[1,2", 9),
    ];
    for (text, place) in refused {
        assert_refused(&rt, members(rt.alloc(), text), place);
    }
}

#[test]
fn arrays_are_taken_with_their_elements(rt: HostRuntime) {
    let taken: [(&[u8], usize); 12] = [
        (b"[]", 0),
        (b" [ \t\r\n] ", 0),
        (b"[-0]", 1),
        (b"[1e5, 1E+5,0.10e-0]", 3),
        (b"[true,false,null]", 3),
        (b"[\"\\\"\\\\\\/\\b\\f\\n\\r\\t\\u00aF\"]", 1),
        (b"[\"\\ud800\"]", 1),
        (b"[\"\xff\x7f\"]", 1),
        (b"[[1,[2]] , {\"a\":[]},\"]\"]", 3),
        (b"[{\"a\":1,\"a\":2}]", 1),
        (b"[\"\"]", 1),
        (b"[12345678901234567890]\n", 1),
    ];
    for (text, count) in taken {
        let all = elements(rt.alloc(), text).expect(&rt, "an array");
        assert_eq!(rt; all.len(), count);
    }
}

#[test]
fn arrays_are_refused_at_their_longest_front(rt: HostRuntime) {
    let refused: [(&[u8], usize); 20] = [
        (b"[1, 2", 5),
        (b"{}", 0),
        (b"[01]", 2),
        (b"[.5]", 1),
        (b"[1.]", 3),
        (b"[+1]", 1),
        (b"[1e]", 3),
        (b"[-]", 2),
        (b"[tru]", 4),
        (b"[truee]", 5),
        (b"[\"\\u00zz\"]", 6),
        (b"[\"\t\"]", 2),
        (b"[\"\\x\"]", 3),
        (b"[1,]", 3),
        (b"[,1]", 1),
        (b"[1 2]", 3),
        (b"[1}", 2),
        (b"[1]]", 3),
        (b"[] 1", 3),
        (b"[\"a", 3),
    ];
    for (text, place) in refused {
        assert_refused(&rt, elements(rt.alloc(), text), place);
    }
}

/// So many brackets that open and so many that close.
fn nested(alloc: Global, depth: usize) -> Result<Vec<u8>, AllocError> {
    let mut text = Vec::new(alloc);
    for _ in 0..depth {
        text.push(b'[')?;
    }
    for _ in 0..depth {
        text.push(b']')?;
    }
    Ok(text)
}

#[test]
fn an_element_has_a_hundred_open_brackets_at_most(rt: HostRuntime) {
    let text = nested(rt.alloc(), 101).expect(&rt, "memory");
    let all = elements(rt.alloc(), &text).expect(&rt, "an array");
    assert_eq!(rt; all.len(), 1);
    let text = nested(rt.alloc(), 102).expect(&rt, "memory");
    assert_refused(&rt, elements(rt.alloc(), &text), 101);
    let text = nested(rt.alloc(), 2_097_152).expect(&rt, "memory");
    assert_refused(&rt, elements(rt.alloc(), &text), 101);
}
