//! Tests of `columns`.
use columns::cut_to_columns;
use gb_text::Text;
use std::alloc::Global;
use std::test::Fail;

// Texts, columns and cells.
const CELLS: [(&str, usize, &str); 17] = [
    ("ab", 4, "ab  "),
    ("abcd", 4, "abcd"),
    ("abcde", 4, "abc~"),
    ("", 2, "  "),
    ("abc", 2, "a~"),
    (
        "aaaaaaaaaaaaaaaaaaaaaaaaaaaaaaaaaaaaaaaaa",
        40,
        "aaaaaaaaaaaaaaaaaaaaaaaaaaaaaaaaaaaaaaa~",
    ),
    ("語語語語語語語語語語語語語語語語語語語語語", 40, "語語語語語語語語語語語語語語語語語語語~ "),
    ("日本", 4, "日本"),
    ("日本語", 5, "日本~"),
    ("日本語", 4, "日~ "),
    ("日本語", 2, "~ "),
    ("e\u{301}e\u{301}e\u{301}", 2, "e\u{301}~"),
    ("👩\u{200d}🔬", 2, "👩\u{200d}🔬"),
    ("👩\u{200d}🔬ab", 4, "👩\u{200d}🔬ab"),
    ("👩\u{200d}🔬abc", 4, "👩\u{200d}🔬a~"),
    ("🇩🇪🇫🇷", 3, "🇩🇪~"),
    ("\u{fe0f}\u{fe0f}abc", 2, "\u{fe0f}\u{fe0f}a~"),
];

fn cell(alloc: Global, text: &str, columns: usize) -> Result<Text, Fail> {
    if columns < 2 || columns > 200 {
        return Err(Fail::from("columns"));
    }
    Ok(cut_to_columns(alloc, text, columns)?)
}

#[test]
fn texts_are_cut_to_columns(rt: HostRuntime) -> Result<(), Fail> {
    for (text, columns, wanted) in &CELLS {
        let found = cell(rt.alloc(), text, *columns)?;
        assert_eq!(rt; found.as_str(), *wanted);
    }
    Ok(())
}
