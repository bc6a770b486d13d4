//! Telling a text to the sink, and how that ended.
ghost use Rattle.std.specs.Prelude.{◌≡◌, ◌≢◌};
ghost use Rattle.gb_store.specs.Faults.{KeepsFaults};
ghost use Rattle.bug_run.specs.Printed.{Printed};

use crate::status::Status;
use gb_store::{Sink, SinkFault, write_whole};
use std::alloc::Global;

/// Prints the whole text, and answers the status that was to be told, which is another than the
/// sink's. Where the sink refuses, or itself wants memory, that is the answer, and a front of the text
/// was printed.
pub fn print<K: Sink>(alloc: Global, out: &mut K, text: &[u8], told: Status) -> Status
    requires { told ≢ Status.OutFault }
    ensures printed { Printed K.tells K.takes_memory text.now told
        (K.written out.old) (K.written out.new) result }
    ensures caused { KeepsFaults K.never_fails K.faults (result ≡ Status.OutFault)
        out.old out.new }
{
    match write_whole(alloc, out, text) {
        Ok(()) => told,
        Err(SinkFault::Memory) => Status::Memory,
        Err(SinkFault::Failed) => Status::OutFault,
    }
}
