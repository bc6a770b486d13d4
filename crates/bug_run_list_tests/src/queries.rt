//! Queries over one folder, each with the titles that it lists.
use run_fixtures::Step::Does;
use run_fixtures::{Script, Step};
use std::alloc::Global;
use std::test::Fail;

// Two people and four bugs: Strasse is Ana's with the label ui; Login is Bo's, with a comment by Ana, closed;
// Board has two labels and metadata; Zero has none of these.
const FOLDER: &[Step] = &[
    Does(&["f", "user-new", "Ana", "ana@x"], 1, "$A\n"),
    Does(&["f", "user-new", "Bo", "bo@x"], 2, "$C\n"),
    Does(&["f", "new", "Straße", "m"], 3, "$S\n"),
    Does(&["f", "label-add", "$S", "ui"], 4, "$1\n"),
    Does(&["f", "user-set", "$C"], 5, "$C\n"),
    Does(&["f", "new", "Login fails", "m"], 6, "$L\n"),
    Does(&["f", "close", "$L"], 7, "$2\n"),
    Does(&["f", "user-set", "$A"], 8, "$A\n"),
    Does(&["f", "comment", "$L", "m"], 9, "$3\n"),
    Does(&["f", "new", "Board", "m"], 10, "$B\n"),
    Does(&["f", "label-add", "$B", "needs info", "ui"], 11, "$4\n"),
    Does(&["f", "meta", "$B", "key", "a value"], 12, "$5\n"),
    Does(&["f", "new", "Zero", "m"], 13, "$Z\n"),
];

// Arguments, and the first letters of the titles in the order in which they are listed.
type Query = (&'static [&'static str], &'static str);

// By nothing, by an order, and by a status.
const ORDERS_AND_STATUS: &[Query] = &[
    (&[], "ZBLS"),
    (&[""], "ZBLS"),
    (&[" \t "], "ZBLS"),
    (&["sort:creation"], "ZBLS"),
    (&["sort:creation-desc"], "ZBLS"),
    (&["sort:creation-asc"], "SLBZ"),
    (&["sort:edit-asc"], "SLBZ"),
    (&["sort:edit"], "ZBLS"),
    (&["sort:edit-desc"], "ZBLS"),
    (&["status:open"], "ZBS"),
    (&["status:closed"], "L"),
    (&["status:open", "status:closed"], "ZBLS"),
    (&["status:open status:closed"], "ZBLS"),
    (&["status:open", "sort:creation-asc"], "SBZ"),
];

// By authors, participants and actors.
const PEOPLE: &[Query] = &[
    (&["author:ana"], "ZBS"),
    (&["author:ANA"], "ZBS"),
    (&["author:a"], "ZBS"),
    (&["author:bo"], "L"),
    (&["author:ana", "author:bo"], "ZBLS"),
    (&["author:nobody"], ""),
    (&["author:\"Ana\""], "ZBS"),
    (&["author:ana@x"], ""),
    (&["participant:ana"], "ZBLS"),
    (&["participant:bo"], "L"),
    (&["actor:bo"], "L"),
    (&["actor:ana"], "ZBLS"),
    (&["actor:ana", "participant:bo"], "L"),
    (&["author:ana", "actor:bo"], ""),
];

// By labels.
const LABELS: &[Query] = &[
    (&["label:ui"], "BS"),
    (&["label:UI"], ""),
    (&["label:u"], ""),
    (&["label:\"needs info\""], "B"),
    (&["label:ui", "label:\"needs info\""], "B"),
    (&["label:\"needs", "info\""], "B"),
    (&["label:ui", "status:closed"], ""),
    (&["no:label"], "ZL"),
    (&["no:label", "status:open"], "Z"),
    (&["no:label", "label:ui"], ""),
];

// By words of titles.
const TITLES: &[Query] = &[
    (&["title:strasse"], "S"),
    (&["title:STRASSE"], "S"),
    (&["title:straße"], "S"),
    (&["title:fails"], "L"),
    (&["title:FAILS", "title:log"], "L"),
    (&["title:fails", "title:board"], ""),
    (&["title:\"login fails\""], "L"),
    (&["title:\"n f\""], "L"),
    (&["title:r"], "ZBS"),
    (&["title:r", "sort:creation-asc"], "SBZ"),
    (&["title:o", "author:ana"], "ZB"),
];

// By metadata, and by several fields.
const METADATA: &[Query] = &[
    (&["metadata:key:\"a value\""], "B"),
    (&["metadata:\"key\":\"a value\""], "B"),
    (&["metadata:key:a"], ""),
    (&["metadata:other:\"a value\""], ""),
    (&["metadata:key:\"a value\"", "metadata:x:y"], "B"),
    (&["metadata:key:\"a value\"", "status:closed"], ""),
    (&["status:open", "author:ana", "label:ui", "title:b"], "B"),
    (&["status:closed", "author:bo", "no:label"], "L"),
    (&["sort:edit-asc", "status:open"], "SBZ"),
    (&["title:\"\""], "ZBLS"),
    (&["--", "title:zero"], "Z"),
];

// The first letters of the titles of a list.
fn titles(alloc: Global, list: &str) -> Result<String, Fail> {
    let mut letters = String::new(alloc);
    for line in list.lines() {
        let title = line.split('\t').nth(2).ok_or("a title")?;
        letters.push(title.chars().next().ok_or("a letter")?)?;
    }
    Ok(letters)
}

// The first letters of the titles that a query lists.
fn listed(script: &mut Script, words: &[&str]) -> Result<String, Fail> {
    let mut all = Vec::new(script.disk.alloc);
    all.push("f")?;
    all.push("ls")?;
    for word in words {
        all.push(*word)?;
    }
    let list = script.printed(&all, 50)?;
    titles(script.disk.alloc, list.as_str())
}

// Sees that each query lists what it asks for.
fn hold(script: &mut Script, queries: &[Query]) -> Result<(), Fail> {
    for (words, wanted) in queries {
        let found = listed(script, words)?;
        if found.as_str() != *wanted {
            return Err(Fail::new(format_args!("{words:?}: {found:?}, not {wanted:?}")));
        }
    }
    Ok(())
}

#[test]
fn queries_list_what_they_ask_for(rt: HostRuntime) -> Result<(), Fail> {
    let mut script = Script::new(rt.alloc(), "f")?;
    script.play(FOLDER)?;
    hold(&mut script, ORDERS_AND_STATUS)?;
    hold(&mut script, PEOPLE)?;
    hold(&mut script, LABELS)?;
    hold(&mut script, TITLES)?;
    hold(&mut script, METADATA)
}
