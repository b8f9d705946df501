//! The traits through which bytes come in and go out.
ghost use Rattle.std.specs.Prelude.{◌≡◌, ℕ, ◌<◌, ◌≤◌, List, [], length, Option, Ok, IfOk, OnOk, OnErr, IsErrOf};
ghost use Rattle.std.specs.Io.{ReadsAtMost};
ghost use Rattle.bf_io.specs.Causes.{HasCause, FailsOnlyAt};
ghost use Rattle.bf_io.specs.Told.{ReadTakes, WriteAppends, Keeps, Appends, AppendsFront};
ghost use Rattle.bf_io.specs.declared.device.SinkFault.TheVariants.{NoMemory};

use std::alloc::{AllocError, AllocFailed};
use thiserror::Error;

/// A device failed. Its count of faults rose, and its bytes are as before.
#[derive(Clone, Copy, Debug, PartialEq, Eq, Error)]
#[error("the device failed")]
pub struct Failed;

/// Why a sink took nothing.
#[derive(Clone, Copy, Debug, PartialEq, Eq, Error)]
pub enum SinkFault {
    /// The device failed. Its count of faults rose, and the bytes that it holds are as before.
    #[error("the device failed")]
    Failed,
    /// Memory ran out. All is as before.
    #[error("out of memory")]
    NoMemory,
}

impl From<AllocError> for SinkFault {
    ghost from_gives = { λ _ e. e ≡ NoMemory };

    fn from(_error: AllocError) -> SinkFault {
        SinkFault::NoMemory
    }
}

impl<T: Drop> From<AllocFailed<T>> for SinkFault {
    ghost from_gives = { λ _ e. e ≡ NoMemory };

    fn from(_error: AllocFailed<T>) -> SinkFault {
        SinkFault::NoMemory
    }
}

/// Where bytes come from.
pub trait Source {
    // The bytes that are still to come, where the source tells them.
    ghost left: { Self → Option (List ℕ) };

    // The count of faults, up to the last value of 64 bits.
    ghost faults: { Self → ℕ };

    /// Reads bytes into the front of the buffer, and returns how many. 0 is the end, and comes exactly
    /// where nothing is left. It fails only where the count of faults rose.
    fn read(&mut self, buf: &mut [u8]) -> Result<usize, Failed>
        requires { 0 < length buf.old }
        ensures bound { ReadsAtMost result buf.new }
        ensures bytes { ReadTakes (left self.old) (left self.new) result buf.new }
        ensures cause { HasCause (faults self.old) (faults self.new) result };
}

/// Where bytes go to.
pub trait Sink {
    // The bytes that were taken, where the sink tells them.
    ghost held: { Self → Option (List ℕ) };

    // The count of faults, up to the last value of 64 bits.
    ghost faults: { Self → ℕ };

    /// Takes bytes from the front of the piece, at least one, and returns how many. A device that takes
    /// nothing fails.
    fn write(&mut self, piece: &[u8]) -> Result<usize, SinkFault>
        requires { 0 < length piece.now }
        ensures bound { IfOk result (λ n. (0 < n) × (n ≤ length piece.now)) }
        ensures bytes { WriteAppends (held self.old) (held self.new) result piece.now }
        ensures cause { FailsOnlyAt SinkFault.Failed (faults self.old) (faults self.new) result }
        ensures memory { IsErrOf result SinkFault.NoMemory → faults self.new ≡ faults self.old };

    /// Passes on what was taken.
    fn flush(&mut self) -> Result<(), SinkFault>
        ensures bytes { Keeps (held self.old) (held self.new) }
        ensures cause { FailsOnlyAt SinkFault.Failed (faults self.old) (faults self.new) result }
        ensures memory { IsErrOf result SinkFault.NoMemory → faults self.new ≡ faults self.old };
}

/// Writes all the bytes. After an error some front of them was taken. No bytes make no call.
pub fn write_whole<K: Sink>(sink: &mut K, bytes: &[u8]) -> Result<(), SinkFault>
    ensures whole { OnOk result (Appends (K.held sink.old) (K.held sink.new) bytes.now) }
    ensures front { OnErr result (AppendsFront (K.held sink.old) (K.held sink.new) bytes.now) }
    ensures cause { FailsOnlyAt SinkFault.Failed (K.faults sink.old) (K.faults sink.new) result }
    ensures no_call { bytes.now ≡ [] → (result ≡ Ok tt) × (sink.new ≡ sink.old) }
{
    let mut at = 0;
    while at < bytes.len() {
        at += sink.write(&bytes[at..])?;
    }
    Ok(())
}
