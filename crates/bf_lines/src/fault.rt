//! Why requests are not served on.
ghost use Rattle.std.specs.Prelude.{◌≡◌};
ghost use Rattle.bf_lines.specs.Faults.{fault_of_sink};
ghost use Rattle.bf_lines.specs.declared.fault.ServeFault.TheVariants as faults;

use bf_io::{Failed, SinkFault};
use std::alloc::{AllocError, AllocFailed};
use thiserror::Error;

/// Why requests are not served on.
#[derive(Clone, Copy, Debug, PartialEq, Eq, Error)]
pub enum ServeFault {
    /// The source failed.
    #[error("the source failed")]
    Read,
    /// The sink failed.
    #[error("the sink failed")]
    Write,
    /// Memory ran out; or there were more lines, or pieces of one, than can be counted.
    #[error("out of memory")]
    NoMemory,
}

impl From<Failed> for ServeFault {
    ghost from_gives = { λ _ e. e ≡ faults.Read };

    fn from(_failed: Failed) -> ServeFault {
        ServeFault::Read
    }
}

impl From<SinkFault> for ServeFault {
    ghost from_gives = { λ fault e. e ≡ fault_of_sink fault };

    fn from(fault: SinkFault) -> ServeFault {
        match fault {
            SinkFault::Failed => ServeFault::Write,
            SinkFault::NoMemory => ServeFault::NoMemory,
        }
    }
}

impl From<AllocError> for ServeFault {
    ghost from_gives = { λ _ e. e ≡ faults.NoMemory };

    fn from(_error: AllocError) -> ServeFault {
        ServeFault::NoMemory
    }
}

impl<T: Drop> From<AllocFailed<T>> for ServeFault {
    ghost from_gives = { λ _ e. e ≡ faults.NoMemory };

    fn from(_error: AllocFailed<T>) -> ServeFault {
        ServeFault::NoMemory
    }
}
