//! Three folders that edit one bug and pull from each other in every order.
use run_fixtures::Step::Does;
use run_fixtures::{Script, Step};
use std::alloc::Global;
use std::process::Abort;
use std::test::Fail;

const BEGIN: &[Step] = &[
    Does(&["a", "user-new", "Ann", "ann@x"], 1, "$A\n"),
    Does(&["a", "new", "title", "message"], 2, "$B\n"),
    Does(&["b", "user-new", "Bo", "bo@x"], 3, "$C\n"),
    Does(&["c", "user-new", "Cy", "cy@x"], 4, "$D\n"),
];

const EDITS: &[(&str, &str)] = &[
    ("comment", "first"),
    ("title", "one"),
    ("label-add", "x"),
    ("close", ""),
    ("comment", "second"),
    ("open", ""),
    ("label-add", "y"),
    ("title", "two"),
    ("label-rm", "x"),
    ("comment", "third"),
];

const ORDERS: &[(&str, &str, &str)] = &[
    ("a", "b", "c"),
    ("a", "c", "b"),
    ("b", "a", "c"),
    ("b", "c", "a"),
    ("c", "a", "b"),
    ("c", "b", "a"),
];

// One of the edits, with the folder in its text.
fn edit(script: &mut Script, folder: &str, number: u8, edit: (&str, &str)) -> Result<(), Fail> {
    let (verb, text) = edit;
    if text.is_empty() {
        script.printed(&[folder, verb, "$B"], number)?;
        return Ok(());
    }
    let text = format!(in script.disk.alloc; "{text} of {folder}")?;
    script.printed(&[folder, verb, "$B", text.as_str()], number)?;
    Ok(())
}

// The edits of a folder, with numbers from this one on.
fn edits(script: &mut Script, folder: &str, start: u8) -> Result<(), Fail> {
    let mut number = start;
    for pair in EDITS {
        edit(script, folder, number, *pair)?;
        number = number.saturating_add(1);
    }
    Ok(())
}

fn pull(script: &mut Script, own: &str, peer: &str) -> Result<(), Fail> {
    script.printed(&[own, "pull", peer, peer], 200)?;
    Ok(())
}

// Three folders with one bug, each with ten edits of its own.
fn apart(alloc: Global) -> Result<Script, Fail> {
    let mut script = Script::new(alloc, "a")?;
    script.play(BEGIN)?;
    pull(&mut script, "b", "a")?;
    pull(&mut script, "c", "a")?;
    edits(&mut script, "a", 10)?;
    edits(&mut script, "b", 30)?;
    edits(&mut script, "c", 50)?;
    Ok(script)
}

// All show the first text, which is given where there is none yet.
fn see(script: &mut Script, text: &mut String) -> Result<(), Fail> {
    for folder in ["a", "b", "c"] {
        let shown = script.printed(&[folder, "show", "$B"], 201)?;
        if text.is_empty() {
            text.push_str(shown.as_str())?;
        }
        if shown.as_str() != text.as_str() {
            return Err(Fail::new(format_args!("{folder}: {shown:?}, not {text:?}")));
        }
    }
    Ok(())
}

// The last folder collects the edits, and the others take them from it.
fn by_one(script: &mut Script, order: (&str, &str, &str)) -> Result<(), Fail> {
    let (x, y, z) = order;
    pull(script, y, x)?;
    pull(script, z, y)?;
    pull(script, x, z)?;
    pull(script, y, z)
}

// Two join each for itself, the third one joins both, and they take that.
fn by_two(script: &mut Script, order: (&str, &str, &str)) -> Result<(), Fail> {
    let (x, y, z) = order;
    pull(script, x, y)?;
    pull(script, y, x)?;
    pull(script, z, x)?;
    pull(script, z, y)?;
    pull(script, x, z)?;
    pull(script, y, z)
}

// How many lines of a text begin with a word.
fn count(text: &str, word: &str) -> usize {
    text.lines().filter(|line| line.starts_with(word)).count()
}

// What all three say at the end: the edits of each are there.
fn says_all(rt: &impl Abort, text: &str) {
    assert_eq!(rt; count(text, "comment "), 10);
    assert_eq!(rt; count(text, "label y of "), 3);
    assert_eq!(rt; count(text, "label "), 3);
    assert_eq!(rt; count(text, "actor "), 3);
    assert!(rt; text.contains("\ntitle two of "));
    assert!(rt; text.contains("\nedited 11 "));
}

#[test]
fn three_folders_agree_where_one_collects(rt: HostRuntime) -> Result<(), Fail> {
    let mut script = apart(rt.alloc())?;
    let begun = script.disk.store.writes();
    let mut text = String::new(rt.alloc());
    for order in ORDERS {
        script.disk.store.cut(rt.alloc(), begun)?;
        by_one(&mut script, *order)?;
        see(&mut script, &mut text)?;
    }
    says_all(&rt, text.as_str());
    Ok(())
}

#[test]
fn three_folders_agree_where_two_join_first(rt: HostRuntime) -> Result<(), Fail> {
    let mut script = apart(rt.alloc())?;
    let begun = script.disk.store.writes();
    let mut text = String::new(rt.alloc());
    for order in ORDERS {
        script.disk.store.cut(rt.alloc(), begun)?;
        by_two(&mut script, *order)?;
        see(&mut script, &mut text)?;
    }
    says_all(&rt, text.as_str());
    Ok(())
}
