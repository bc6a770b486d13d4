//! A sink over any writer.
ghost use Rattle.std.specs.Prelude.{◌≡◌, ◌≤◌, ◌<◌, length, false, IfOk, IsErrOf};
ghost use Rattle.gb_store.specs.Faults.{KeepsFaults};

use crate::{Sink, SinkFault};
use std::alloc::Global;
use std::io::Write;
use std::marker::Model;

/// A sink over a writer. It tells no bytes, never answers want of memory, and counts each write
/// that the writer refuses.
#[derive(Drop)]
pub struct WriteSink<W: Write + Drop> {
    out: W,
    faults: u64,
}

impl<W: Write + Drop> Model for WriteSink<W> {
    ghost use Rattle.gb_store.specs.WriteSink.{WriterState};

    ghost Value = { WriterState W };

    ghost view = { λ s. record { writer = s.out; faults = s.faults } };
}

impl<W: Write + Drop> WriteSink<W> {
    /// The sink over this writer, which has failed 0 times. Takes no memory.
    pub fn new(out: W) -> WriteSink<W>
        ensures { result ≡ record { writer = out; faults = 0 } }
    {
        WriteSink { out, faults: 0 }
    }
}

impl<W: Write + Drop> Sink for WriteSink<W> {
    ghost use Rattle.std.specs.Prelude.{[], false};
    ghost use Rattle.gb_store.specs.WriteSink.{WriterAnswers};

    ghost tells = { false };

    ghost takes_memory = { false };

    ghost written = { λ _. [] };

    ghost faults = { λ s. s.faults };

    ghost never_fails = { λ _. false };

    fn write(&mut self, _alloc: Global, bytes: &[u8]) -> Result<usize, SinkFault>
        ensures exact { WriterAnswers W.contents bytes.now self.old self.new result }
        ensures within { IfOk result (λ n. n ≤ length bytes.now) }
        ensures progress { IfOk result (λ n. 0 < length bytes.now → 0 < n) }
        ensures memory { IsErrOf result SinkFault.Memory → ⊥ }
        ensures caused { KeepsFaults (λ _. false) (λ s. s.faults)
            (IsErrOf result SinkFault.Failed) self.old self.new }
    {
        let faults = self.faults;
        match self.out.write(bytes) {
            Ok(n) if n > 0 || bytes.is_empty() => Ok(n),
            _ => {
                self.faults = faults.saturating_add(1);
                Err(SinkFault::Failed)
            }
        }
    }
}
