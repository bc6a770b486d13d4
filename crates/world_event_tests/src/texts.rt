//! What asks for a world, and what is printed of one.
use gb_text::Id;
use std::alloc::Global;
use std::test::Fail;
use world_texts::{Asked, Digest, Tally, read_asked, summary_text};

// What these arguments ask for.
fn asked(alloc: Global, words: &[&str]) -> Result<Option<Asked>, Fail> {
    let mut all = Vec::new(alloc);
    for word in words {
        all.push(String::from_str(alloc, word)?)?;
    }
    Ok(read_asked(&all))
}

#[test]
fn three_numbers_ask_for_a_world(rt: HostRuntime) -> Result<(), Fail> {
    let alloc = rt.alloc();
    let greatest = asked(alloc, &["18446744073709551615", "16", "100000"])?;
    assert_eq!(rt;
        greatest,
        Some(Asked {
            number: u64::MAX,
            folders: 16,
            events: 100_000
        })
    );
    assert!(rt; asked(alloc, &["0", "2", "2"])?.is_some());
    let refused: [&[&str]; 10] = [
        &["1", "1", "5"],
        &["1", "17", "20"],
        &["1", "2", "1"],
        &["1", "2", "100001"],
        &["01", "2", "2"],
        &["18446744073709551616", "2", "2"],
        &["1", "2"],
        &["1", "2", "2", "2"],
        &["+1", "2", "2"],
        &[],
    ];
    for words in refused {
        assert!(rt; asked(alloc, words)?.is_none());
    }
    Ok(())
}

// The hash of no bytes.
const EMPTY: &str = "e3b0c44298fc1c149afbf4c8996fb92427ae41e4649b934ca495991b7852b855";

const EQUAL: &str = "events 9
done 2
refused 3
skipped 4
folder w0 bugs 5 digest e3b0c44298fc1c149afbf4c8996fb92427ae41e4649b934ca495991b7852b855
folder w1 bugs 6 digest e3b0c44298fc1c149afbf4c8996fb92427ae41e4649b934ca495991b7852b855
equal
";

#[test]
fn worlds_are_told(rt: HostRuntime) -> Result<(), Fail> {
    let hash = Id::read(EMPTY.as_bytes()).ok_or("an id")?;
    let tally = Tally {
        events: 9,
        done: 2,
        refused: 3,
        skipped: 4,
    };
    let one = Digest { bugs: 5, hash };
    let two = Digest { bugs: 6, hash };
    let text = summary_text(rt.alloc(), &tally, &[one, two])?;
    assert_eq!(rt; text.as_str(), EQUAL);
    let other = Digest {
        bugs: 5,
        hash: Id::from_bytes([0; 32]),
    };
    let text = summary_text(rt.alloc(), &tally, &[one, one, other])?;
    assert!(rt; text.as_str().ends_with("\ndiffer\n"));
    Ok(())
}
