//! Stores and sinks: that each call can succeed, and what a writer that fails is asked.
use gb_store::{
    Content, MemSink, MemStore, Sink, SinkFault, Store, StoreFault, WriteSink, write_whole,
};
use gb_text::List;
use std::alloc::Global;
use std::io;
use std::test::Fail;

// A store with two files in a folder and one below another.
fn filled(alloc: Global) -> Result<MemStore, StoreFault> {
    let mut store = MemStore::new(alloc, List::new(alloc));
    for path in ["d/b", "d/a", "d/b/c"] {
        store.put(alloc, path, path.as_bytes())?;
    }
    Ok(store)
}

// The names right in a folder, each with a space after it.
fn listed(store: &mut MemStore, alloc: Global, dir: &str) -> Result<String, StoreFault> {
    let mut text = String::new(alloc);
    for name in store.list(alloc, dir)?.as_slice() {
        text.push_str(name.as_str())?;
        text.push_str(" ")?;
    }
    Ok(text)
}

// Whether a file is whole, and its own path.
fn is_whole(store: &mut MemStore, alloc: Global, path: &str) -> bool {
    match store.read(alloc, path, 3) {
        Ok(Content::Whole(found)) => found.as_slice() == path.as_bytes(),
        _ => false,
    }
}

// Whether files are kept and listed, and gone once they are removed or cut.
fn are_kept(store: &mut MemStore, alloc: Global) -> Result<bool, Fail> {
    let are_kept = is_whole(store, alloc, "d/a") && listed(store, alloc, "d")?.as_str() == "a b ";
    store.remove(alloc, "d/b")?;
    let is_removed = listed(store, alloc, "d")?.as_str() == "a ";
    store.cut(alloc, 1)?;
    Ok(are_kept && is_removed && listed(store, alloc, "d")?.as_str() == "b ")
}

#[test]
fn files_are_kept_and_listed_in_order(rt: HostRuntime) -> Result<(), Fail> {
    let are_kept = are_kept(&mut filled(rt.alloc())?, rt.alloc());
    assert!(rt; are_kept?);
    Ok(())
}

// Whether a sink takes a piece in steps.
fn is_taken(sink: &mut MemSink, alloc: Global) -> Result<bool, SinkFault> {
    write_whole(alloc, sink, b"hello world")?;
    Ok(sink.bytes() == b"hello world".as_slice())
}

#[test]
fn a_sink_takes_a_piece_in_steps(rt: HostRuntime) -> Result<(), Fail> {
    let is_taken = is_taken(
        &mut MemSink::new(rt.alloc(), List::new(rt.alloc()), 5),
        rt.alloc(),
    );
    assert_eq!(rt; is_taken, Ok(true));
    Ok(())
}

// Takes at most two bytes a write, fails at its third write, and takes all after it.
#[derive(Drop)]
struct Faltering {
    calls: u64,
}

impl io::Write for Faltering {
    fn write(&mut self, buf: &[u8]) -> io::Result<usize> {
        self.calls = self.calls.saturating_add(1);
        if self.calls == 3 {
            return Err(io::Error::from(io::ErrorKind::StorageFull));
        }
        Ok(buf.len().min(2))
    }

    fn flush(&mut self) -> io::Result<()> {
        Ok(())
    }
}

// Writes a piece to a writer.
fn write_to(writer: &mut Faltering, alloc: Global, bytes: &[u8]) -> Result<(), SinkFault> {
    write_whole(alloc, &mut WriteSink::new(writer), bytes)
}

// The contract of a writer does not tell its errors, so only this shows that the sink asks once and no more.
#[test]
fn a_writer_that_fails_is_not_asked_again(rt: HostRuntime) {
    let mut writer = Faltering { calls: 0 };
    assert_eq!(rt; write_to(&mut writer, rt.alloc(), b"abc"), Ok(()));
    assert_eq!(rt;
        write_to(&mut writer, rt.alloc(), b"d"),
        Err(SinkFault::Failed)
    );
    assert_eq!(rt; writer.calls, 3);
}
