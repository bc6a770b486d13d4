//! A sink in memory.
ghost use Rattle.std.specs.Prelude.{◌≡◌, ◌≤◌, ◌<◌, length, IfOk, IsTrue, IsErrOf};
ghost use Rattle.gb_store.specs.Faults.{KeepsFaults};

use crate::{Sink, SinkFault};
use gb_text::List;
use std::alloc::Global;
use std::marker::Model;

/// A sink that keeps the bytes that it is given, and refuses the writes that it is told to.
#[derive(Drop)]
pub struct MemSink {
    bytes: Vec<u8>,
    fails: List<u64>,
    step: usize,
    calls: u64,
    faults: u64,
}

impl Model for MemSink {
    ghost use Rattle.std.specs.Prelude.{◌≤◌};
    ghost use Rattle.gb_store.specs.MemSink.{SinkState};

    ghost Value = { SinkState };

    ghost view = { λ s. record {
      written = s.bytes.items;
      fails = s.fails;
      step = s.step;
      calls = s.calls;
      faults = s.faults;
    } };

    ghost invariant = { λ s. 1 ≤ s.step };
}

impl MemSink {
    ghost use Rattle.gb_store.specs.MemSink.{empty_sink, is_listed, counted, has_no_fails, fault_count};

    /// An empty sink, which takes at most `step` bytes a write. Its writes are numbered from 0, and
    /// those listed fail. Takes no memory.
    pub fn new(alloc: Global, fails: List<u64>, step: usize) -> MemSink
        requires { 1 ≤ step }
        ensures { result ≡ empty_sink fails step }
    {
        MemSink {
            bytes: Vec::new(alloc),
            fails,
            step,
            calls: 0,
            faults: 0,
        }
    }

    /// All that was written, in order.
    pub fn bytes(&self) -> &[u8]
        ensures { result.now ≡ self.now.written }
    {
        self.bytes.as_slice()
    }

    // Counts a write, and a fault if it is listed.
    fn begin(&mut self) -> bool
        ensures listed { result ≡ is_listed self.old }
        ensures state { self.new ≡ counted self.old }
        ensures caused { KeepsFaults has_no_fails fault_count (IsTrue result) self.old self.new }
    {
        let call = self.calls;
        let faults = self.faults;
        let listed = self.fails.as_slice().contains(&call);
        self.calls = call.saturating_add(1);
        if listed {
            self.faults = faults.saturating_add(1);
        }
        listed
    }
}

impl Sink for MemSink {
    ghost use Rattle.std.specs.Prelude.{true};
    ghost use Rattle.gb_store.specs.MemSink.{SinkAnswers, has_no_fails, fault_count};

    ghost tells = { true };

    ghost takes_memory = { true };

    ghost written = { λ s. s.written };

    ghost faults = { fault_count };

    ghost never_fails = { has_no_fails };

    fn write(&mut self, _alloc: Global, bytes: &[u8]) -> Result<usize, SinkFault>
        ensures exact { SinkAnswers bytes.now self.old self.new result }
        ensures progress { IfOk result (λ n. 0 < length bytes.now → 0 < n) }
        ensures caused { KeepsFaults has_no_fails fault_count (IsErrOf result SinkFault.Failed)
            self.old self.new }
    {
        if self.begin() {
            return Err(SinkFault::Failed);
        }
        let n = bytes.len().min(self.step);
        self.bytes.extend_from_slice(&bytes[..n])?;
        Ok(n)
    }
}
