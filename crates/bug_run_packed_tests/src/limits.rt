//! The limit of packed refs, many of them, and packs that stop or fail.
use fixtures::{filled, text_at};
use run_fixtures::Step::{Does, Has};
use run_fixtures::{DONE, REFUSED, Script, Step, goes_on};
use std::alloc::Global;
use std::test::Fail;

const BEGIN: &[Step] = &[
    Does(&["f", "user-new", "Ana", "ana@x"], 1, "$A\n"),
    Has("f/refs/identities/$A", "$P\n"),
];

const DIGITS: &str = "0123456789012345678901234567890123456789 ";

// Packs one loose ref beside a packed one with a name of so many bytes. Answers how that ended.
fn packs_beside(alloc: Global, bytes: usize) -> Result<(u8, String), Fail> {
    let mut script = Script::new(alloc, "f")?;
    script.play(BEGIN)?;
    let name = filled(alloc, b'x', bytes)?;
    let text = fixtures::joined(alloc, &[DIGITS.as_bytes(), &name, b"\n"])?;
    script.disk.put("f/packed-refs", &text)?;
    script.run(&["f", "pack-refs"], 2)
}

// The line of the loose ref has 122 bytes, and that of the packed one 42 more than its name.
const ROOM: usize = 16_777_216 - 122 - 42;

#[test]
fn packed_refs_have_at_most_16_mebibytes(rt: HostRuntime) -> Result<(), Fail> {
    let (status, text) = packs_beside(rt.alloc(), ROOM)?;
    assert_eq!(rt; status, DONE);
    assert!(rt; text.as_str() == "packed 1\n");
    Ok(())
}

#[test]
fn a_byte_more_is_too_large(rt: HostRuntime) -> Result<(), Fail> {
    let (status, text) = packs_beside(rt.alloc(), ROOM + 1)?;
    assert_eq!(rt; status, REFUSED);
    assert!(rt; text.as_str() == "refused 13 too large 16777217\n");
    Ok(())
}

#[test]
fn a_pack_goes_on_after_each_failure(rt: HostRuntime) -> Result<(), Fail> {
    goes_on(
        rt.alloc(),
        &[
            &["a", "user-new", "Ana", "ana@x"],
            &["a", "new", "One", "m"],
            &["a", "new", "Two", "m"],
        ],
        &["a", "pack-refs"],
    )
}

const BUGS: &[Step] = &[
    Does(&["f", "user-new", "Ana", "ana@x"], 1, "$A\n"),
    Does(&["f", "new", "One", "m"], 2, "$B\n"),
    Does(&["f", "new", "Two", "m"], 3, "$C\n"),
    Does(&["f", "pack-refs"], 4, "packed 3\n"),
    Does(&["f", "comment", "$B", "hi"], 5, "$D\n"),
    Does(&["f", "new", "Three", "m"], 6, "$E\n"),
];

// Each command that may be asked for, but `pack-refs`.
const EACH: [&[&str]; 21] = [
    &["f", "users"],
    &["f", "ls"],
    &["f", "board"],
    &["f", "show", "$B"],
    &["f", "show", "$E"],
    &["f", "log", "$C"],
    &["f", "user-new", "Bo", "bo@x"],
    &["f", "user-edit", "Ana", "ana@y"],
    &["f", "user-set", "$A"],
    &["f", "new", "Four", "m"],
    &["f", "comment", "$B", "more"],
    &["f", "title", "$E", "Five"],
    &["f", "close", "$C"],
    &["f", "label-add", "$C", "x"],
    &["f", "meta", "$B", "k", "v"],
    &["f", "noop", "$E"],
    &["f", "push", "h"],
    &["f", "fetch", "g", "g"],
    &["f", "merge", "g"],
    &["f", "pull", "g", "g"],
    &["g", "fetch", "f", "f"],
];

// A peer that has gone on with a bug.
const PEER: &[Step] = &[
    Does(
        &["f", "push", "g"],
        7,
        "push identity $A pushed\npush bug $E pushed\npush bug $B pushed\npush bug $C pushed\n",
    ),
    Does(&["g", "user-set", "$A"], 8, "$A\n"),
    Does(&["g", "comment", "$C", "there"], 9, "$F\n"),
];

// What a command prints over the first writes of the store and a front of those of a pack.
fn printed_at(
    script: &mut Script,
    begun: u64,
    count: u64,
    words: &[&str],
) -> Result<(u8, String), Fail> {
    let alloc = script.disk.alloc;
    script.disk.store.cut(alloc, begun)?;
    script.printed(&["f", "pack-refs"], 10)?;
    script.disk.store.cut(alloc, begun.saturating_add(count))?;
    script.run(words, 11)
}

// Sees that a command ends and prints the same, wherever a pack stopped before it.
fn is_the_same(script: &mut Script, begun: u64, words: &[&str]) -> Result<(), Fail> {
    let wanted = printed_at(script, begun, 0, words)?;
    for count in 1..4 {
        let found = printed_at(script, begun, count, words)?;
        if found.0 != wanted.0 || found.1.as_str() != wanted.1.as_str() {
            return Err(Fail::new(format_args!("{words:?}, cut at {count}: {found:?}")));
        }
    }
    Ok(())
}

#[test]
fn every_command_goes_on_where_a_pack_stopped(rt: HostRuntime) -> Result<(), Fail> {
    let mut script = Script::new(rt.alloc(), "f")?;
    script.play(BUGS)?;
    script.play(PEER)?;
    let begun = script.disk.store.writes();
    for words in EACH {
        is_the_same(&mut script, begun, words)?;
    }
    Ok(())
}

#[test]
fn a_pack_goes_on_where_it_stopped(rt: HostRuntime) -> Result<(), Fail> {
    let mut script = Script::new(rt.alloc(), "f")?;
    script.play(BUGS)?;
    let begun = script.disk.store.writes();
    script.play(&[Does(&["f", "pack-refs"], 10, "packed 2\n")])?;
    let packed = text_at(&mut script.disk, "f/packed-refs")?.ok_or("packed refs")?;
    assert_eq!(rt; script.disk.store.writes(), begun.saturating_add(3));
    for count in 0..4 {
        printed_at(&mut script, begun, count, &["f", "pack-refs"])?;
        let again = text_at(&mut script.disk, "f/packed-refs")?.ok_or("packed refs")?;
        assert!(rt; again.as_str() == packed.as_str());
    }
    Ok(())
}
