//! Devices over the readers and writers of the system. They tell nothing but their count of faults, and
//! hand on what the reader or writer does.
ghost use Rattle.std.specs.Prelude.{◌≡◌, ◌<◌, ◌≤◌, length, None, IfOk, IsErrOf};
ghost use Rattle.std.specs.Io.{ReadsAtMost};
ghost use Rattle.bf_io.specs.Causes.{HasCause, FailsOnlyAt};
ghost use Rattle.bf_io.specs.Told.{ReadTakes, WriteAppends, Keeps, Consumes, Gains};

use crate::{Failed, Sink, SinkFault, Source};
use std::io::{Read, Write};

/// A source over a reader, as the standard input. An error of the reader is a fault.
#[derive(Drop)]
pub struct StdSource<R: Read + Drop> {
    reader: R,
    faults: u64,
}

impl<R: Read + Drop> StdSource<R> {
    /// A source that reads from `reader`, with no fault so far.
    pub fn new(reader: R) -> StdSource<R>
        ensures { result.faults ≡ 0 }
    {
        StdSource { reader, faults: 0 }
    }
}

impl<R: Read + Drop> Source for StdSource<R> {
    ghost left = { λ _. None };

    ghost faults = { λ s. s.faults };

    /// Reads once from the reader.
    fn read(&mut self, buf: &mut [u8]) -> Result<usize, Failed>
        requires { 0 < length buf.old }
        ensures bound { ReadsAtMost result buf.new }
        ensures bytes { ReadTakes None None result buf.new }
        ensures cause { HasCause self.old.faults self.new.faults result }
        ensures reader { Consumes R.remaining self.old.reader self.new.reader result buf.new }
    {
        match self.reader.read(buf) {
            Ok(count) => Ok(count),
            Err(_) => {
                self.faults = self.faults.saturating_add(1);
                Err(Failed)
            }
        }
    }
}

/// A sink over a writer, as the standard output. An error of the writer is a fault, and so is a write
/// that takes nothing.
#[derive(Drop)]
pub struct StdSink<W: Write + Drop> {
    writer: W,
    faults: u64,
}

impl<W: Write + Drop> StdSink<W> {
    /// A sink that writes to `writer`, with no fault so far.
    pub fn new(writer: W) -> StdSink<W>
        ensures { result.faults ≡ 0 }
    {
        StdSink { writer, faults: 0 }
    }
}

impl<W: Write + Drop> Sink for StdSink<W> {
    ghost held = { λ _. None };

    ghost faults = { λ s. s.faults };

    /// Writes once to the writer.
    fn write(&mut self, piece: &[u8]) -> Result<usize, SinkFault>
        requires { 0 < length piece.now }
        ensures bound { IfOk result (λ n. (0 < n) × (n ≤ length piece.now)) }
        ensures bytes { WriteAppends None None result piece.now }
        ensures cause { FailsOnlyAt SinkFault.Failed self.old.faults self.new.faults result }
        ensures memory { IsErrOf result SinkFault.NoMemory → self.new.faults ≡ self.old.faults }
        ensures writer { Gains W.contents self.old.writer self.new.writer result piece.now }
    {
        match self.writer.write(piece) {
            Ok(count) if count > 0 => Ok(count),
            _ => {
                self.faults = self.faults.saturating_add(1);
                Err(SinkFault::Failed)
            }
        }
    }

    fn flush(&mut self) -> Result<(), SinkFault> {
        match self.writer.flush() {
            Ok(()) => Ok(()),
            Err(_) => {
                self.faults = self.faults.saturating_add(1);
                Err(SinkFault::Failed)
            }
        }
    }
}
