//! A file of packed refs that does not read refuses each command in its folder, and nothing is written.
use run_fixtures::Step::{Does, Puts, Refuses, Wrote};
use run_fixtures::{REFUSED, Script, Step};
use std::test::Fail;

const BEGIN: &[Step] = &[
    Does(&["f", "user-new", "Ana", "ana@x"], 1, "$A\n"),
    Does(&["f", "new", "One", "m"], 2, "$B\n"),
    Does(&["g", "user-new", "Bo", "bo@x"], 1, "$C\n"),
];

// Each command, with its refusals by arguments before and those of the user after.
const COMMANDS: [&[&str]; 17] = [
    &["f", "users"],
    &["f", "show", "$B"],
    &["f", "log", "$B"],
    &["f", "ls"],
    &["f", "board", "status:open"],
    &["f", "user-new", "Bo", "bo@x"],
    &["f", "user-edit", "Bo", "bo@x"],
    &["f", "user-set", "$A"],
    &["f", "new", "Two", "m"],
    &["f", "comment", "$B", "m"],
    &["f", "close", "$B"],
    &["f", "pack-refs"],
    &["f", "merge", "p"],
    &["f", "fetch", "p", "g"],
    &["f", "push", "g"],
    &["f", "pull", "p", "g"],
    &["f", "show", "0"],
];

// Texts that are no packed refs.
const TEXTS: [&str; 8] = [
    "x\n",
    "\n",
    "$A refs/bugs/$B\n",
    "0000000000000000000000000000000000000000 \n",
    "0000000000000000000000000000000000000000\trefs/bugs/x\n",
    "000000000000000000000000000000000000000A refs/bugs/x\n",
    "^000000000000000000000000000000000000000\n",
    "# a comment\n\n",
];

// Sees that a command is refused, and writes nothing.
fn refuses(script: &mut Script, words: &[&str]) -> Result<(), Fail> {
    let (status, text) = script.run(words, 9)?;
    script.play(&[Wrote(0)])?;
    if (status, text.as_str()) == (REFUSED, "refused 14 damaged f/packed-refs\n") {
        return Ok(());
    }
    Err(Fail::new(format_args!("{words:?}: ended with {status} and {text:?}")))
}

#[test]
fn damage_refuses_each_command(rt: HostRuntime) -> Result<(), Fail> {
    let mut script = Script::new(rt.alloc(), "f")?;
    script.play(BEGIN)?;
    script.play(&[Puts("f/packed-refs", "x\n")])?;
    for words in COMMANDS {
        refuses(&mut script, words)?;
    }
    Ok(())
}

#[test]
fn other_texts_are_damage(rt: HostRuntime) -> Result<(), Fail> {
    let mut script = Script::new(rt.alloc(), "f")?;
    script.play(BEGIN)?;
    for text in TEXTS {
        script.play(&[
            Puts("f/packed-refs", text),
            Refuses(&["f", "ls"], 9, "refused 14 damaged f/packed-refs\n"),
            Wrote(0),
        ])?;
    }
    script.play(&[
        Puts("f/packed-refs", ""),
        Does(&["f", "ls", "title:x"], 9, ""),
    ])
}

#[test]
fn arguments_come_first(rt: HostRuntime) -> Result<(), Fail> {
    let mut script = Script::new(rt.alloc(), "f")?;
    script.play(&[
        Puts("f/packed-refs", "x\n"),
        Refuses(&["f", "ls", "x:y"], 9, "refused 16 bad query 1 0\n"),
        Refuses(&["f", "new", "", "m"], 9, "refused 4 bad text 1\n"),
    ])
}
