//! Why a log leads to no state.
ghost use Rattle.std.specs.Prelude.{◌≡◌};
ghost use Rattle.bf_replay.specs.declared.fault.ReplayFault.TheVariants as faults;

use bf_names::NameFault;
use std::alloc::{AllocError, AllocFailed};
use thiserror::Error;

/// Why a log leads to no state, at the first line that goes wrong. Lines are counted from 1.
#[derive(Clone, Copy, Debug, Drop, PartialEq, Eq, Error)]
pub enum ReplayFault {
    /// A name means no commit.
    #[error("line {line} of the log has a name that means no commit: {fault}")]
    Name {
        /// The line.
        line: u32,
        /// Why the name means none. It is not want of memory.
        fault: NameFault,
    },
    /// A mark stands before any start; a log without a command line says so at line 1.
    #[error("no search has started at line {line} of the log")]
    NotStarted {
        /// The line.
        line: u32,
    },
    /// The terms of a start are refused, or the word of a mark is neither a term nor `skip`.
    #[error("line {line} of the log has a word that is no term")]
    Term {
        /// The line.
        line: u32,
    },
    /// Memory ran out.
    #[error("out of memory")]
    NoMemory,
}

impl From<AllocError> for ReplayFault {
    ghost from_gives = { λ _ e. e ≡ faults.NoMemory };

    fn from(_: AllocError) -> ReplayFault {
        ReplayFault::NoMemory
    }
}

impl<T: Drop> From<AllocFailed<T>> for ReplayFault {
    ghost from_gives = { λ _ e. e ≡ faults.NoMemory };

    fn from(_: AllocFailed<T>) -> ReplayFault {
        ReplayFault::NoMemory
    }
}
