//! Trees in the order of Git, contents that are no trees, and large ones.
use fixtures::{joined, name};
use gb_text::{Bytes, List};
use git_object::{Entry, Kind, Mode, Tree, TreeView, name_of};
use std::alloc::Global;
use std::test::Fail;

fn tree_of(alloc: Global, content: &[u8]) -> Result<Tree, Fail> {
    Ok(Tree::read(alloc, content)?.ok_or("a tree")?)
}

fn is_tree(alloc: Global, content: &[u8]) -> Result<bool, Fail> {
    Ok(Tree::read(alloc, content)?.is_some())
}

// The text of a tree that keeps the rules.
fn written(alloc: Global, tree: &Tree) -> Result<Vec<u8>, Fail> {
    if !tree.has_good_names(alloc)? {
        return Err("good names")?;
    }
    joined(alloc, &[tree.write(alloc)?.as_slice()])
}

// An entry of a tree: its text up to the zero byte, and the digits of its object.
type Row = (&'static str, &'static str);

// The content of a tree.
fn content_of(alloc: Global, entries: &[Row]) -> Result<Vec<u8>, Fail> {
    let mut text = Vec::new(alloc);
    for (front, digits) in entries {
        text.extend_from_slice(front.as_bytes())?;
        text.extend_from_slice(&name(digits)?.bytes)?;
    }
    Ok(text)
}

const DOTTED: Row = ("100755 a.b\0", "e69de29bb2d1d6434b8b29ae775ad8c2e48c5391");

const FOLDER: Row = ("40000 a\0", "87116d89612d2f9480abb66987be3fd0a9308cb8");

const PLAIN: Row = ("100644 a0\0", "d670460b4b4aece5915caf5c68d12f560a9fe3e4");

const LINK: Row = ("120000 link\0", "100b93820ade4c16225673b4ca62bb3ade63c313");

const MODULE: Row = (
    "160000 module\0",
    "1111111111111111111111111111111111111111",
);

const SORTED: &[Row] = &[DOTTED, FOLDER, PLAIN, LINK, MODULE];

// The names of the view of a tree, one after the other.
fn seen_names(alloc: Global, content: &[u8]) -> Result<Vec<u8>, Fail> {
    let view = TreeView::read(alloc, content)?.ok_or("a tree")?;
    let mut names = Vec::new(alloc);
    for entry in view.entries.as_slice() {
        names.extend_from_slice(entry.name)?;
    }
    Ok(names)
}

#[test]
fn views_have_the_names_of_their_content(rt: HostRuntime) -> Result<(), Fail> {
    let alloc = rt.alloc();
    let names = seen_names(alloc, &content_of(alloc, SORTED)?)?;
    assert_eq!(rt; names.as_slice(), b"a.baa0linkmodule".as_slice());
    let twice = content_of(alloc, &[DOTTED, FOLDER, DOTTED])?;
    assert!(rt; TreeView::read(alloc, &twice)?.is_none());
    Ok(())
}

// Whether a tree begins with a module and ends with a file of this name.
fn is_turned(tree: &Tree, last_name: &[u8]) -> bool {
    match tree.entries.as_slice() {
        [first, .., last] => first.mode == Mode::Module && last.name.as_slice() == last_name,
        _ => false,
    }
}

#[test]
fn trees_are_written_in_the_order_of_git(rt: HostRuntime) -> Result<(), Fail> {
    let alloc = rt.alloc();
    let other = content_of(alloc, &[MODULE, PLAIN, FOLDER, LINK, DOTTED])?;
    let tree = tree_of(alloc, &other)?;
    assert!(rt; is_turned(&tree, b"a.b"));
    let text = written(alloc, &tree)?;
    assert!(rt; text == content_of(alloc, SORTED)?);
    let wanted = name("75db8f54ad8606d6aeccb6a875015ad13efa3e12")?;
    assert_eq!(rt; name_of(Kind::Tree, &text), wanted);
    assert_eq!(rt; tree_of(alloc, &text)?.entries.len(), 5);
    let inner = content_of(alloc, &[("100644 x\0", PLAIN.1)])?;
    assert_eq!(rt; name_of(Kind::Tree, &inner), name(FOLDER.1)?);
    Ok(())
}

const TREES: &[&[u8]] = &[
    b"",
    b"100644 a\0aaaaaaaaaaaaaaaaaaaa",
    b"100644  \xff\0\0\0aaaaaaaaaaaaaaaaaa",
];

const NO_TREES: &[&str] = &[
    "100644 a\0aaaaaaaaaaaaaaaaaaa",
    "100644 a\0aaaaaaaaaaaaaaaaaaaaa",
    "040000 a\0aaaaaaaaaaaaaaaaaaaa",
    "100664 a\0aaaaaaaaaaaaaaaaaaaa",
    "100644\0aaaaaaaaaaaaaaaaaaaa",
    "100644 \0aaaaaaaaaaaaaaaaaaaa",
    "100644 a/b\0aaaaaaaaaaaaaaaaaaaa",
    "100644 aaaaaaaaaaaaaaaaaaaaa",
    " a\0aaaaaaaaaaaaaaaaaaaa",
    "100644 a\0aaaaaaaaaaaaaaaaaaaa40000 a\0bbbbbbbbbbbbbbbbbbbb",
    "100644 a\0aaaaaaaaaaaaaaaaaaaa100644 b\0aaaaaaaaaaaaaaaaaaaa100644 a\0aaaaaaaaaaaaaaaaaaaa",
];

#[test]
fn trees_that_break_the_format_are_none(rt: HostRuntime) -> Result<(), Fail> {
    for text in TREES {
        assert!(rt; is_tree(rt.alloc(), text)?, "{text:?}");
    }
    for text in NO_TREES {
        assert!(rt; !is_tree(rt.alloc(), text.as_bytes())?, "{text:?}");
    }
    Ok(())
}

// The content of a tree with so many entries, whose names are decimals, the greatest first.
fn large_text(alloc: Global, entries: u32) -> Result<Vec<u8>, Fail> {
    let mut text = Vec::new(alloc);
    for number in (0..entries).rev() {
        let front = format!(in alloc; "100644 {number}")?;
        text.extend_from_slice(front.as_bytes())?;
        text.extend_from_slice(b"\0aaaaaaaaaaaaaaaaaaaa")?;
    }
    Ok(text)
}

#[test]
fn large_trees_take_no_quadratic_time(rt: HostRuntime) -> Result<(), Fail> {
    let alloc = rt.alloc();
    let mut text = large_text(alloc, 120_000)?;
    let tree = tree_of(alloc, &text)?;
    assert_eq!(rt; tree.entries.len(), 120_000);
    assert_eq!(rt; written(alloc, &tree)?.len(), text.len());
    text.extend_from_slice(b"40000 7\0aaaaaaaaaaaaaaaaaaaa")?;
    assert!(rt; !is_tree(alloc, &text)?);
    Ok(())
}

// A tree of plain files and folders with these names.
fn forest(alloc: Global, names: &[(Mode, &str)]) -> Result<Tree, Fail> {
    let mut entries = Vec::new(alloc);
    for (mode, name) in names {
        entries.push(Entry {
            mode: *mode,
            name: Bytes::from_slice(alloc, name.as_bytes())?,
            object: name_of(Kind::Blob, b""),
        })?;
    }
    Ok(Tree {
        entries: List::from_vec(entries),
    })
}

// Whether a tree with these names may be written.
fn may_be_written(alloc: Global, names: &[(Mode, &str)]) -> Result<bool, Fail> {
    Ok(forest(alloc, names)?.has_good_names(alloc)?)
}

const NOT_WRITTEN: &[&[(Mode, &str)]] = &[
    &[(Mode::Plain, "a"), (Mode::Folder, "a")],
    &[(Mode::Plain, "a"), (Mode::Plain, "")],
    &[(Mode::Plain, "a"), (Mode::Plain, "b/c")],
    &[(Mode::Plain, "a"), (Mode::Plain, "b\0")],
];

#[test]
fn names_of_trees_are_tested(rt: HostRuntime) -> Result<(), Fail> {
    for names in NOT_WRITTEN {
        assert!(rt; !may_be_written(rt.alloc(), names)?, "{names:?}");
    }
    Ok(())
}

#[test]
fn trees_made_by_hand_are_written(rt: HostRuntime) -> Result<(), Fail> {
    let alloc = rt.alloc();
    let names = [
        (Mode::Plain, "a0"),
        (Mode::Plain, "a.b"),
        (Mode::Folder, "a"),
    ];
    let text = written(alloc, &forest(alloc, &names)?)?;
    let tree = tree_of(alloc, &text)?;
    let [first, second, third] = tree.entries.as_slice() else {
        return Err("entries")?;
    };
    assert_eq!(rt; first.name.as_slice(), b"a.b".as_slice());
    assert_eq!(rt; second.name.as_slice(), b"a".as_slice());
    assert_eq!(rt; third.name.as_slice(), b"a0".as_slice());
    Ok(())
}
