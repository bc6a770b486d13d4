//! What is printed of the world that arguments ask for.
use bug_run::Status;
use gb_store::MemSink;
use gb_text::List;
use std::alloc::Global;
use std::test::Fail;
use world::{Unwatched, Watch, run_world};

// What asking for a world with these arguments answers and prints, in writes of at most 100 bytes.
fn asked<W: Watch>(
    alloc: Global,
    words: &[&str],
    watch: &mut W,
) -> Result<(Status, MemSink), Fail> {
    let mut all = Vec::new(alloc);
    for word in words {
        all.push(String::from_str(alloc, word)?)?;
    }
    let mut out = MemSink::new(alloc, List::new(alloc), 100);
    let status = run_world(alloc, &all, &mut out, watch);
    Ok((status, out))
}

#[test]
fn other_arguments_print_the_usage(rt: HostRuntime) -> Result<(), Fail> {
    let refused: [&[&str]; 4] = [&["1", "1", "5"], &["1", "2"], &["01", "2", "2"], &[]];
    for words in refused {
        let (status, out) = asked(rt.alloc(), words, &mut Unwatched)?;
        assert!(rt; matches!(status, Status::Usage));
        assert!(rt; out.bytes() == b"usage: gb_world NUMBER FOLDERS EVENTS\n".as_slice());
    }
    Ok(())
}

// Notes how far the world has come.
#[derive(Drop)]
struct Last(u64, u64);

impl Watch for Last {
    ghost use Rattle.std.specs.Prelude.{[], false};

    ghost tells = { false };

    ghost told = { λ _. [] };

    fn played(&mut self, count: u64, all: u64) {
        self.0 = count;
        self.1 = all;
    }
}

#[test]
fn a_world_is_told_and_watched(rt: HostRuntime) -> Result<(), Fail> {
    let mut last = Last(0, 0);
    let (status, out) = asked(rt.alloc(), &["7", "2", "60"], &mut last)?;
    assert!(rt; matches!(status, Status::Done));
    let text = String::from_utf8_lossy(rt.alloc(), out.bytes())?;
    assert!(rt; text.as_str().starts_with("events 60\n"));
    assert!(rt; text.as_str().ends_with("\nequal\n"));
    assert_eq!(rt; (last.0, last.1), (60, 60));
    Ok(())
}

#[test]
fn a_sink_that_fails_ends_it(rt: HostRuntime) -> Result<(), Fail> {
    let alloc = rt.alloc();
    let words = vec![in alloc;
        String::from_str(alloc, "1")?,
        String::from_str(alloc, "2")?,
        String::from_str(alloc, "2")?,
    ]?;
    let mut fails = List::new(alloc);
    fails.push(1)?;
    let mut out = MemSink::new(alloc, fails, 20);
    let status = run_world(alloc, &words, &mut out, &mut Unwatched);
    assert!(rt; matches!(status, Status::OutFault));
    assert!(rt; out.bytes() == b"events 2\ndone 2\nrefu".as_slice());
    Ok(())
}
