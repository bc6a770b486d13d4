//! Packs of refs: what is packed, printed and written, and what refuses a pack.
use run_fixtures::Step::{Does, Has, Lacks, Puts, Refuses, Removes, Shortens, Wrote};
use run_fixtures::{DONE, Script, Step, USAGE, USAGE_LINE};
use std::test::Fail;

const BEGIN: &[Step] = &[
    Does(&["f", "user-new", "Ana", "ana@x"], 1, "$A\n"),
    Does(&["f", "new", "One", "m"], 2, "$B\n"),
    Does(&["f", "new", "Two", "m"], 3, "$C\n"),
    Shortens('b', 'B'),
    Shortens('c', 'C'),
    Has("f/refs/identities/$A", "$P\n"),
    Has("f/refs/bugs/$B", "$H\n"),
    Has("f/refs/bugs/$C", "$I\n"),
];

// All refs are packed, and again those that were set since.
const PACKED: &[Step] = &[
    Does(&["f", "pack-refs"], 4, "packed 3\n"),
    Wrote(4),
    Has(
        "f/packed-refs",
        "$H refs/bugs/$B\n$I refs/bugs/$C\n$P refs/identities/$A\n",
    ),
    Lacks("f/refs/bugs/$B"),
    Lacks("f/refs/bugs/$C"),
    Lacks("f/refs/identities/$A"),
    Does(&["f", "pack-refs"], 5, "packed 0\n"),
    Wrote(0),
    Does(&["f", "comment", "$b", "hi"], 6, "$D\n"),
    Has("f/refs/bugs/$B", "$J\n"),
    Does(&["f", "pack-refs"], 7, "packed 1\n"),
    Wrote(2),
    Has(
        "f/packed-refs",
        "$J refs/bugs/$B\n$I refs/bugs/$C\n$P refs/identities/$A\n",
    ),
    Lacks("f/refs/bugs/$B"),
    Does(
        &["f", "ls"],
        8,
        "$c\topen\tTwo\tAna\t1\n$b\topen\tOne\tAna\t2\n",
    ),
];

// Other names keep the head of their last line. Comments, peeled lines and lines that are not the last
// of their name go. The refs of remotes stay loose.
const OTHERS: &[Step] = &[
    Does(
        &["f", "push", "g"],
        4,
        "push identity $A pushed\npush bug $B pushed\npush bug $C pushed\n",
    ),
    Does(
        &["f", "fetch", "g", "g"],
        4,
        "fetch identity $A fetched\nfetch bug $B fetched\nfetch bug $C fetched\n",
    ),
    Puts(
        "f/packed-refs",
        "# a comment\n$H refs/tags/x\n$I refs/bugs/$B\n$I refs/tags/x\n^$P\n$P refs/bugs/main",
    ),
    Puts("f/refs/bugs/main", "x"),
    Does(&["f", "pack-refs"], 5, "packed 3\n"),
    Wrote(4),
    Has(
        "f/packed-refs",
        "$H refs/bugs/$B\n$I refs/bugs/$C\n$P refs/bugs/main\n$P refs/identities/$A\n$I refs/tags/x\n",
    ),
    Has("f/refs/remotes/g/bugs/$B", "$H\n"),
    Has("f/refs/bugs/main", "x"),
];

// The first bad ref in the order of paths is told, after packed refs that do not read.
const REFUSED: &[Step] = &[
    Puts("f/refs/identities/$A", "x\n"),
    Refuses(
        &["f", "pack-refs"],
        4,
        "refused 14 damaged f/refs/identities/$A\n",
    ),
    Wrote(0),
    Puts("f/refs/bugs/$C", ""),
    Refuses(
        &["f", "pack-refs"],
        4,
        "refused 14 damaged f/refs/bugs/$C\n",
    ),
    Wrote(0),
    Puts("f/packed-refs", "x\n"),
    Refuses(&["f", "pack-refs"], 4, "refused 14 damaged f/packed-refs\n"),
    Wrote(0),
    Removes("f/packed-refs"),
    Puts("f/refs/bugs/$C", "$I\n"),
    Puts("f/refs/identities/$A", "$P\n"),
    Does(&["f", "pack-refs"], 4, "packed 3\n"),
];

#[test]
fn refs_are_packed(rt: HostRuntime) -> Result<(), Fail> {
    let mut script = Script::new(rt.alloc(), "f")?;
    script.play(BEGIN)?;
    let before = script.printed(&["f", "show", "$B"], 4)?;
    script.play(&PACKED[..7])?;
    let after = script.printed(&["f", "show", "$B"], 4)?;
    assert!(rt; before.as_str() == after.as_str());
    script.play(&PACKED[7..])
}

#[test]
fn other_names_keep_their_last_line(rt: HostRuntime) -> Result<(), Fail> {
    let mut script = Script::new(rt.alloc(), "f")?;
    script.play(BEGIN)?;
    script.play(OTHERS)
}

#[test]
fn bad_refs_refuse_a_pack(rt: HostRuntime) -> Result<(), Fail> {
    let mut script = Script::new(rt.alloc(), "f")?;
    script.play(BEGIN)?;
    script.play(REFUSED)
}

#[test]
fn a_folder_with_nothing_has_nothing_to_pack(rt: HostRuntime) -> Result<(), Fail> {
    let mut script = Script::new(rt.alloc(), "f")?;
    let (status, text) = script.run(&["f", "pack-refs", "x"], 1)?;
    assert_eq!(rt; status, USAGE);
    assert!(rt; text.as_str() == USAGE_LINE);
    let (status, text) = script.run(&["f", "pack-refs"], 1)?;
    assert_eq!(rt; status, DONE);
    assert!(rt; text.as_str() == "packed 0\n");
    assert_eq!(rt; script.disk.store.writes(), 0);
    Ok(())
}
