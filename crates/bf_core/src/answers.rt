//! What the calls of a core answer.
ghost use Rattle.std.specs.Prelude.{◌≡◌};
ghost use Rattle.bf_core.specs.declared.answers.ApplyFault.TheVariants as faults;

use bf_search::{Ending, Entry, Event};
use bf_spec::Table;
use bf_state::State;
use std::alloc::{AllocError, AllocFailed};
use thiserror::Error;

/// What a worker is to do next.
#[derive(Clone, Copy, PartialEq, Eq, Debug)]
pub enum Pick {
    /// Test this place, which it has claimed.
    Work(u32),
    /// Wait: each place that may still be asked for is claimed.
    NotYet,
    /// Stop: the run has ended.
    Ended,
}

/// The workers whose tests nobody waits for any more.
#[derive(Debug, Drop)]
pub struct Withdrawn {
    /// The numbers of the workers, ascending.
    pub workers: Vec<u32>,
}

/// What a core hands over.
#[derive(Drop)]
pub struct CoreParts {
    /// The log entries of the run, without the one that began the search.
    pub entries: Vec<Entry>,
    /// The search that the run reached.
    pub state: State,
    /// How the run ended, where it has.
    pub ending: Option<Ending>,
    /// The outcomes by place, where they are known.
    pub table: Table,
}

/// Why an event was not done.
#[derive(Clone, Copy, PartialEq, Eq, Debug, Error)]
pub enum ApplyFault {
    /// This event is not legal here.
    #[error("the event is not legal here: {event:?}")]
    Illegal { event: Event },
    /// Want of memory.
    #[error("out of memory")]
    NoMemory,
}

impl From<AllocError> for ApplyFault {
    ghost from_gives = { λ _ e. e ≡ faults.NoMemory };

    fn from(_: AllocError) -> ApplyFault {
        ApplyFault::NoMemory
    }
}

impl<T: Drop> From<AllocFailed<T>> for ApplyFault {
    ghost from_gives = { λ _ e. e ≡ faults.NoMemory };

    fn from(_: AllocFailed<T>) -> ApplyFault {
        ApplyFault::NoMemory
    }
}
