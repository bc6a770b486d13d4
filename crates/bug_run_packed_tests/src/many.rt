//! Ten thousand packed refs, of which an exchange finds nothing new: each file of packed refs is read a few
//! times, and not once for each ref.
use gb_text::{Id, push_id};
use run_fixtures::Script;
use std::alloc::Global;
use std::test::Fail;

const MANY: u16 = 10_000;

const HEAD: &str = "0123456789012345678901234567890123456789 ";

// A line for each ref in a dir: that of each id with this number as its last two bytes.
fn packed(alloc: Global, dir: &str) -> Result<String, Fail> {
    let mut text = String::new(alloc);
    for number in 0..MANY {
        let [high, low] = number.to_be_bytes();
        let mut bytes = [0; 32];
        bytes[30] = high;
        bytes[31] = low;
        text.push_str(HEAD)?;
        text.push_str(dir)?;
        push_id(&mut text, &Id::from_bytes(bytes))?;
        text.push('\n')?;
    }
    Ok(text)
}

// Sees that the words have a line for each ref, which says that it is the same, and write nothing.
fn finds_nothing_new(script: &mut Script, words: &[&str]) -> Result<(), Fail> {
    let before = script.disk.store.writes();
    let text = script.printed(words, 1)?;
    let lines = text.as_str().lines().filter(|line| line.ends_with(" same"));
    let found = lines.count();
    if found == usize::from(MANY) && script.disk.store.writes() == before {
        return Ok(());
    }
    Err(Fail::new(format_args!("{words:?}: {found} refs are the same")))
}

#[test]
fn ten_thousand_refs_are_found_the_same(rt: HostRuntime) -> Result<(), Fail> {
    let mut script = Script::new(rt.alloc(), "f")?;
    let theirs = packed(rt.alloc(), "refs/bugs/")?;
    let ours = packed(rt.alloc(), "refs/remotes/p/bugs/")?;
    script.disk.put("f/packed-refs", ours.as_bytes())?;
    script.disk.put("g/packed-refs", theirs.as_bytes())?;
    script.disk.put("k/packed-refs", theirs.as_bytes())?;
    finds_nothing_new(&mut script, &["f", "fetch", "p", "g"])?;
    finds_nothing_new(&mut script, &["g", "push", "k"])
}
