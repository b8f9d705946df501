//! Writing what is told.
ghost use Rattle.std.specs.Prelude.{◌≡◌, ◌≢◌, ℕ, ◌⊎◌, IfOk, OnOk, OnErr};
ghost use Rattle.bf_io.specs.Causes.{FailsOnlyAt, Rose};
ghost use Rattle.bf_io.specs.Told.{Appends, AppendsFront};
ghost use Rattle.bf_answers.specs.Answers.{IsWholeAnswer};
ghost use Rattle.bf_answers.specs.Devices.{met_sink};
ghost use Rattle.bf_answers.specs.Ready.{SaysAnswer};
ghost use Rattle.bf_answers.specs.Writes.{HasWriteCause, IsWritten};

use crate::answer::{Answer, Fault};
use bf_io::{Sink, SinkFault, write_whole};
use bf_output::Status;

/// Writes an answer, or the line of what stood in its way, and returns the status: `ReadFault` where the source could
/// not be read, `ShelfFault` where a file could not. `WriteFault` and `NoMemory` come as those of `say`.
pub fn say_answer<K: Sink>(out: &mut K, answer: Result<Answer, Fault>) -> Status
    requires whole { IfOk answer IsWholeAnswer }
    ensures told { SaysAnswer answer (met_sink K.Sink out.old out.new) result }
    ensures no_test { (place : ℕ) → result ≢ Status.TestFault place }
    ensures no_journal { result ≢ Status.JournalFault }
    ensures write { result ≡ Status.WriteFault → Rose (K.faults out.old) (K.faults out.new) }
{
    match answer {
        Ok(answer) => say(out, answer.text.as_slice(), answer.status),
        Err(Fault::Read) => say(out, b"read fault\n", Status::ReadFault),
        Err(Fault::Shelf) => say(out, b"file fault\n", Status::ShelfFault),
        Err(Fault::NoMemory) => Status::NoMemory,
    }
}

/// Writes a text, and returns its status. `WriteFault` and `NoMemory` come where it was not written whole; then
/// some front of it was.
pub fn say<K: Sink>(out: &mut K, text: &[u8], status: Status) -> Status
    ensures written { IsWritten (K.held out.old) (K.held out.new) text.now status result }
    ensures cause { HasWriteCause status (K.faults out.old) (K.faults out.new) result }
{
    match write_and_flush(out, text) {
        Ok(()) => status,
        Err(fault) => status_of_fault(fault),
    }
}

/// The status of a text that was not written whole.
pub fn status_of_fault(fault: SinkFault) -> Status
    ensures cut { (result ≡ Status.WriteFault) ⊎ (result ≡ Status.NoMemory) }
    ensures cause { result ≡ Status.WriteFault → fault ≡ SinkFault.Failed }
    ensures memory { fault ≡ SinkFault.NoMemory → result ≡ Status.NoMemory }
{
    match fault {
        SinkFault::Failed => Status::WriteFault,
        SinkFault::NoMemory => Status::NoMemory,
    }
}

/// Writes a text, and passes it on at once.
pub fn write_and_flush<K: Sink>(out: &mut K, text: &[u8]) -> Result<(), SinkFault>
    ensures whole { OnOk result (Appends (K.held out.old) (K.held out.new) text.now) }
    ensures front { OnErr result (AppendsFront (K.held out.old) (K.held out.new) text.now) }
    ensures cause { FailsOnlyAt SinkFault.Failed (K.faults out.old) (K.faults out.new) result }
{
    write_whole(out, text)?;
    out.flush()
}
