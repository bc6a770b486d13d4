//! Tests of `list_texts`.
use bug_ops::{BugStatus, Excerpt};
use gb_text::{Id, List, Name, Text};
use identity::Person;
use list_texts::{board_text, list_text};
use std::alloc::Global;
use std::test::Fail;

fn id(byte: u8) -> Id {
    Id::from_bytes([byte; 32])
}

fn text(alloc: Global, text: &str) -> Result<Text, Fail> {
    Ok(Text::from_str(alloc, text)?)
}

// A row with this title and so many comments.
fn row(alloc: Global, byte: u8, title: &str, author: u8, comments: u64) -> Result<Excerpt, Fail> {
    Ok(Excerpt {
        id: id(byte),
        title: text(alloc, title)?,
        status: BugStatus::Opened,
        labels: List::new(alloc),
        author: id(author),
        actors: List::new(alloc),
        participants: List::new(alloc),
        create: 1,
        edit: 2,
        first: 3,
        last: 4,
        comments,
        metadata: List::new(alloc),
    })
}

fn labels(alloc: Global) -> Result<List<Text>, Fail> {
    let mut labels = Vec::new(alloc);
    labels.push(text(alloc, "needs info")?)?;
    labels.push(text(alloc, "ui")?)?;
    Ok(List::from_vec(labels))
}

// An open bug of Ana's, and a closed one of somebody unknown, with two labels.
fn rows(alloc: Global) -> Result<Vec<Excerpt>, Fail> {
    let mut second = row(alloc, 0xb2, "日本語日本語日本語日本語日本語日本語日本語", 0xc0, 12345)?;
    second.status = BugStatus::Closed;
    second.labels = labels(alloc)?;
    let mut rows = Vec::new(alloc);
    rows.push(row(alloc, 0xa1, "Short", 0xa0, 7)?)?;
    rows.push(second)?;
    Ok(rows)
}

fn names(alloc: Global) -> Result<Vec<Person>, Fail> {
    let mut names = Vec::new(alloc);
    names.push(Person {
        id: id(0xa0),
        head: Name::from_bytes([0; 20]),
        name: text(alloc, "Ana Luisa de Almeida")?,
        email: text(alloc, "")?,
    })?;
    Ok(names)
}

const LIST: &str = "b2b2b2b\tclosed\t日本語日本語日本語日本語日本語日本語日本語\tc0c0c0c\t12345\tneeds info\tui
a1a1a1a\topen\tShort\tAna Luisa de Almeida\t7
";

const BOARD: &str = "ID      STATUS TITLE                                    AUTHOR          CMTS
a1a1a1a open   Short                                    Ana Luisa de A~    7
b2b2b2b closed 日本語日本語日本語日本語日本語日本語日~  c0c0c0c         12345
1 open, 1 closed
";

const EMPTY: &str = "ID      STATUS TITLE                                    AUTHOR          CMTS
0 open, 0 closed
";

#[test]
fn bugs_are_listed(rt: HostRuntime) -> Result<(), Fail> {
    let alloc = rt.alloc();
    let rows = rows(alloc)?;
    let names = names(alloc)?;
    assert_eq!(rt; list_text(alloc, &rows, &[1, 0], &names)?.as_str(), LIST);
    assert_eq!(rt; list_text(alloc, &rows, &[], &names)?.as_str(), "");
    assert_eq!(rt; board_text(alloc, &rows, &[0, 1], &names)?.as_str(), BOARD);
    assert_eq!(rt; board_text(alloc, &[], &[], &[])?.as_str(), EMPTY);
    Ok(())
}
