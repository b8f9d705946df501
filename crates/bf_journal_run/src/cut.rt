//! What cuts a kept run short.
ghost use Rattle.std.specs.Prelude.{◌≡◌};
ghost use Rattle.bf_journal_run.specs.declared.cut.Cut.TheVariants as cuts;
ghost use Rattle.bf_journal_run.specs.Cuts.{cut_of_journal, cut_of_sink};

use bf_io::SinkFault;
use bf_journal::JournalFault;
use std::alloc::{AllocError, AllocFailed};

/// What cuts a kept run short.
#[derive(Clone, Copy, Debug, PartialEq, Eq)]
pub(crate) enum Cut {
    /// The journal could not be written.
    Journal,
    /// The output could not be written.
    Output,
    /// Memory ran out.
    NoMemory,
}

impl From<SinkFault> for Cut {
    ghost from_gives = { λ fault e. e ≡ cut_of_sink fault };

    fn from(fault: SinkFault) -> Cut {
        match fault {
            SinkFault::Failed => Cut::Output,
            SinkFault::NoMemory => Cut::NoMemory,
        }
    }
}

impl From<JournalFault> for Cut {
    ghost from_gives = { λ fault e. e ≡ cut_of_journal fault };

    fn from(fault: JournalFault) -> Cut {
        match fault {
            JournalFault::Failed | JournalFault::Mismatch { .. } => Cut::Journal,
            JournalFault::NoMemory => Cut::NoMemory,
        }
    }
}

impl From<AllocError> for Cut {
    ghost from_gives = { λ _ e. e ≡ cuts.NoMemory };

    fn from(_: AllocError) -> Cut {
        Cut::NoMemory
    }
}

impl<T: Drop> From<AllocFailed<T>> for Cut {
    ghost from_gives = { λ _ e. e ≡ cuts.NoMemory };

    fn from(_: AllocFailed<T>) -> Cut {
        Cut::NoMemory
    }
}
