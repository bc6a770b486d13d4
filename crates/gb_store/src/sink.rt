//! A sink of bytes, and the writing of a whole piece.
ghost use Rattle.std.specs.Prelude.{◌≡◌, ◌<◌, ◌≤◌, ◌++◌, ℕ, List, Bool, length, take, IsTrue, IfOk, OnOk, OnErr, IsErrOf};
ghost use Rattle.gb_store.specs.Faults.{KeepsFaults};

use crate::SinkFault;
use std::alloc::Global;

/// What takes bytes in order.
pub trait Sink {
    /// Whether the sink tells what was written.
    ghost tells: { Bool };

    /// Whether a call of it may answer want of memory.
    ghost takes_memory: { Bool };

    /// The bytes written, where it tells them.
    ghost written: { Self → List ℕ };

    /// How often it has failed, up to the last number of its type.
    ghost faults: { Self → ℕ };

    /// Whether no call of it will ever answer `Failed`.
    ghost never_fails: { Self → Bool };

    /// Takes some first bytes of a piece, at least one where there is one, and answers how many. A
    /// refusal takes none.
    fn write(&mut self, alloc: Global, bytes: &[u8]) -> Result<usize, SinkFault>
        ensures within { IfOk result (λ n. n ≤ length bytes.now) }
        ensures progress { IfOk result (λ n. 0 < length bytes.now → 0 < n) }
        ensures appended { IsTrue tells → IfOk result (λ n. written self.new
            ≡ written self.old ++ take n bytes.now) }
        ensures refused { IsTrue tells → OnErr result (written self.new ≡ written self.old) }
        ensures memory { IsErrOf result SinkFault.Memory → IsTrue takes_memory }
        ensures caused { KeepsFaults never_fails faults (IsErrOf result SinkFault.Failed)
            self.old self.new };
}

/// Writes all of a piece, in as many calls as the sink wants. Where the sink refuses, some first
/// bytes were written and not all, and the answer is the sink's.
pub fn write_whole<K: Sink>(alloc: Global, out: &mut K, bytes: &[u8]) -> Result<(), SinkFault>
    ensures appended { IsTrue K.tells → OnOk result (K.written out.new
        ≡ K.written out.old ++ bytes.now) }
    ensures prefix { IsTrue K.tells → OnErr result ((n : ℕ) × (n < length bytes.now)
        × (K.written out.new ≡ K.written out.old ++ take n bytes.now)) }
    ensures empty { OnErr result (0 < length bytes.now) }
    ensures memory { IsErrOf result SinkFault.Memory → IsTrue K.takes_memory }
    ensures caused { KeepsFaults K.never_fails K.faults (IsErrOf result SinkFault.Failed)
        out.old out.new }
{
    let mut done = 0;
    while done < bytes.len() {
        done += out.write(alloc, &bytes[done..])?;
    }
    Ok(())
}
