//! Tests of `render`.
use bug_ops::{BugOp, BugStatus, Comment, Excerpt, Snapshot};
use dag_entity::{Entity, Placed};
use gb_text::{Id, List, Name, Text};
use identity::Person;
use lamport::Time;
use op_kind::Pair;
use op_pack::Pack;
use render::{log_text, show_text, users_text};
use std::alloc::Global;
use std::test::Fail;

// The id whose bytes are all this one.
fn id(byte: u8) -> Id {
    Id::from_bytes([byte; 32])
}

fn text(alloc: Global, text: &str) -> Result<Text, Fail> {
    Ok(Text::from_str(alloc, text)?)
}

fn person(alloc: Global, byte: u8, name: &str, email: &str) -> Result<Person, Fail> {
    Ok(Person {
        id: id(byte),
        head: Name::from_bytes([0; 20]),
        name: text(alloc, name)?,
        email: text(alloc, email)?,
    })
}

// Ana with the id of `a0`, Bo with that of `b0`, and another with Ana's id.
fn persons(alloc: Global) -> Result<Vec<Person>, Fail> {
    let mut persons = Vec::new(alloc);
    persons.push(person(alloc, 0xa0, "Ana", "ana@x")?)?;
    persons.push(person(alloc, 0xb0, "Bo", "")?)?;
    persons.push(person(alloc, 0xa0, "Ann", "ann@x")?)?;
    Ok(persons)
}

// A list of one comment by this person with this message.
fn comments(alloc: Global, author: u8, message: &str) -> Result<List<Comment>, Fail> {
    let mut comments = Vec::new(alloc);
    comments.push(Comment {
        id: id(0xbb),
        author: id(author),
        time: 7,
        message: text(alloc, message)?,
    })?;
    Ok(List::from_vec(comments))
}

fn labels(alloc: Global, labels: &[&str]) -> Result<List<Text>, Fail> {
    let mut all = Vec::new(alloc);
    for label in labels {
        all.push(text(alloc, label)?)?;
    }
    Ok(List::from_vec(all))
}

fn pairs(alloc: Global, pairs: &[(&str, &str)]) -> Result<List<Pair>, Fail> {
    let mut all = Vec::new(alloc);
    for (key, value) in pairs {
        all.push(Pair {
            key: text(alloc, key)?,
            value: text(alloc, value)?,
        })?;
    }
    Ok(List::from_vec(all))
}

fn ids(alloc: Global, bytes: &[u8]) -> Result<List<Id>, Fail> {
    let mut all = Vec::new(alloc);
    for byte in bytes {
        all.push(id(*byte))?;
    }
    Ok(List::from_vec(all))
}

// A row with nothing but a title.
fn bare_row(alloc: Global) -> Result<Excerpt, Fail> {
    Ok(Excerpt {
        id: id(0xaa),
        title: text(alloc, "T")?,
        status: BugStatus::Opened,
        labels: List::new(alloc),
        author: id(0xa0),
        actors: List::new(alloc),
        participants: List::new(alloc),
        create: 1,
        edit: 2,
        first: 3,
        last: 4,
        comments: 1,
        metadata: List::new(alloc),
    })
}

// A row with something of each.
fn full_row(alloc: Global) -> Result<Excerpt, Fail> {
    Ok(Excerpt {
        id: id(0xaa),
        title: text(alloc, "A title")?,
        status: BugStatus::Closed,
        labels: labels(alloc, &["bug", "two words"])?,
        author: id(0xa0),
        actors: ids(alloc, &[0xa0, 0xc1, 0xb0])?,
        participants: ids(alloc, &[0xb0])?,
        create: 5,
        edit: 18446744073709551615,
        first: 1700000000,
        last: 0,
        comments: 1,
        metadata: pairs(alloc, &[("a\"b", "\\\n\t\u{1}"), ("k", "")])?,
    })
}

// The text of a bug with this row and one comment.
fn shown(
    alloc: Global,
    row: Excerpt,
    names: &[Person],
    author: u8,
    message: &str,
) -> Result<Text, Fail> {
    let bug = Snapshot {
        row,
        list: comments(alloc, author, message)?,
    };
    Ok(show_text(alloc, &bug, names)?)
}

const FULL: &str = "bug aaaaaaaaaaaaaaaaaaaaaaaaaaaaaaaaaaaaaaaaaaaaaaaaaaaaaaaaaaaaaaaa
title A title
status closed
label bug
label two words
author Ana
created 5 1700000000
edited 18446744073709551615 0
actor Ana
actor c1c1c1c
actor Bo
participant Bo
metadata \"a\\\"b\" \"\\\\\\n\\t\\u0001\"
metadata \"k\" \"\"
comment abababaaabaaaabaaaabaaaabaaaabaaaabaaaabaaaabaaaabaaaabaaaabaaaa Bo 7
    first
    
    third
";

#[test]
fn a_bug_is_shown_line_by_line(rt: HostRuntime) -> Result<(), Fail> {
    let alloc = rt.alloc();
    let names = persons(alloc)?;
    let told = shown(alloc, full_row(alloc)?, &names, 0xb0, "first\n\nthird")?;
    assert_eq!(rt; told.as_str(), FULL);
    Ok(())
}

// The line of a comment, by an author who is in no list.
const COMMENT: &str =
    "comment abababaaabaaaabaaaabaaaabaaaabaaaabaaaabaaaabaaaabaaaabaaaabaaaa d0d0d0d 7\n";

// What a bare bug shows before its comments, where nobody is known.
const BARE: &str = "bug aaaaaaaaaaaaaaaaaaaaaaaaaaaaaaaaaaaaaaaaaaaaaaaaaaaaaaaaaaaaaaaa
title T
status open
author a0a0a0a
created 1 3
edited 2 4
";

// Whether a message of a bare bug, where nobody is known, is shown so.
fn message_is(alloc: Global, message: &str, lines: &str) -> Result<bool, Fail> {
    let told = shown(alloc, bare_row(alloc)?, &[], 0xd0, message)?;
    let wanted = format!(in alloc; "{}{}{}", BARE, COMMENT, lines)?;
    Ok(told.as_str() == wanted.as_str())
}

#[test]
fn messages_are_cut_at_line_feeds_alone(rt: HostRuntime) -> Result<(), Fail> {
    let alloc = rt.alloc();
    let rows = [
        ("", "    \n"),
        ("a", "    a\n"),
        ("a\n", "    a\n    \n"),
        ("\n\n", "    \n    \n    \n"),
        ("a\r\nb", "    a\r\n    b\n"),
        ("a\rb\r", "    a\rb\r\n"),
        ("a\u{2028}b\u{85}\u{b}c", "    a\u{2028}b\u{85}\u{b}c\n"),
    ];
    for (message, lines) in rows {
        assert!(rt; message_is(alloc, message, lines)?);
    }
    Ok(())
}

// Whether the list of persons is this text, where this one is the user.
fn users_are(
    alloc: Global,
    names: &[Person],
    user: Option<Id>,
    wanted: &str,
) -> Result<bool, Fail> {
    Ok(users_text(alloc, names, user)?.as_str() == wanted)
}

// Ana's line and Bo's, without their ends.
const ANA: &str = "a0a0a0a0a0a0a0a0a0a0a0a0a0a0a0a0a0a0a0a0a0a0a0a0a0a0a0a0a0a0a0a0\tAna\tana@x";

const BO: &str = "b0b0b0b0b0b0b0b0b0b0b0b0b0b0b0b0b0b0b0b0b0b0b0b0b0b0b0b0b0b0b0b0\tBo\t";

#[test]
fn persons_are_listed_with_a_star_for_the_user(rt: HostRuntime) -> Result<(), Fail> {
    let alloc = rt.alloc();
    let mut names = Vec::new(alloc);
    names.push(person(alloc, 0xb0, "Bo", "")?)?;
    names.push(person(alloc, 0xa0, "Ana", "ana@x")?)?;
    let plain = format!(in alloc; "{}\n{}\n", BO, ANA)?;
    let starred = format!(in alloc; "{}\t*\n{}\n", BO, ANA)?;
    assert!(rt; users_are(alloc, &names, None, plain.as_str())?);
    assert!(rt; users_are(alloc, &names, Some(id(0xb0)), starred.as_str())?);
    assert!(rt; users_are(alloc, &names, Some(id(0xc0)), plain.as_str())?);
    assert!(rt; users_are(alloc, &[], Some(id(0xb0)), "")?);
    Ok(())
}

// A commit with an empty pack at this clock.
fn placed(alloc: Global, byte: u8, edit: u64) -> Result<Placed<BugOp>, Fail> {
    let edit = Time::read(edit).ok_or("a time")?;
    Ok(Placed {
        commit: Name::from_bytes([byte; 20]),
        pack: Pack {
            id: id(byte),
            version: 4,
            edit,
            create: None,
            author: id(0),
            ops: List::new(alloc),
        },
    })
}

#[test]
fn a_log_has_a_line_for_each_commit(rt: HostRuntime) -> Result<(), Fail> {
    let alloc = rt.alloc();
    let mut packs = Vec::new(alloc);
    packs.push(placed(alloc, 0xee, 2)?)?;
    packs.push(placed(alloc, 0x0f, 10)?)?;
    let entity = Entity {
        id: id(0),
        heads: List::new(alloc),
        edit: 10,
        create: 1,
        commits: 2,
        packs: List::from_vec(packs),
    };
    assert_eq!(rt;
        log_text(alloc, &entity)?.as_str(),
        "2 eeeeeeeeeeeeeeeeeeeeeeeeeeeeeeeeeeeeeeee\n10 0f0f0f0f0f0f0f0f0f0f0f0f0f0f0f0f0f0f0f0f\n"
    );
    Ok(())
}
