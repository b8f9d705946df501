//! What the program is about to write.
ghost use Rattle.std.specs.Prelude.{◌≡◌};
ghost use Rattle.bf_answers.specs.declared.answer.Fault.TheVariants as cuts;
ghost use Rattle.bf_answers.specs.declared.answer.Stop.TheVariants as stops;

use bf_io::Bytes;
use bf_output::Status;
use std::alloc::{AllocError, AllocFailed};

/// A status, and the text that is written with it.
#[derive(Drop)]
pub struct Answer {
    pub status: Status,
    pub text: Bytes,
}

/// Why there is no answer.
#[derive(Clone, Copy, Debug, PartialEq, Eq)]
pub enum Fault {
    /// The stream could not be read.
    Read,
    /// A file of the shelf could not be read.
    Shelf,
    /// Memory ran out.
    NoMemory,
}

impl From<AllocError> for Fault {
    ghost from_gives = { λ _ e. e ≡ cuts.NoMemory };

    fn from(_: AllocError) -> Fault {
        Fault::NoMemory
    }
}

impl<T: Drop> From<AllocFailed<T>> for Fault {
    ghost from_gives = { λ _ e. e ≡ cuts.NoMemory };

    fn from(_: AllocFailed<T>) -> Fault {
        Fault::NoMemory
    }
}

/// Why a step of a command gives no value.
#[derive(Drop)]
pub enum Stop {
    /// The command is refused, with this answer.
    Refused(Answer),
    /// Memory ran out.
    NoMemory,
}

impl From<AllocError> for Stop {
    ghost from_gives = { λ _ e. e ≡ stops.NoMemory };

    fn from(_: AllocError) -> Stop {
        Stop::NoMemory
    }
}

impl<T: Drop> From<AllocFailed<T>> for Stop {
    ghost from_gives = { λ _ e. e ≡ stops.NoMemory };

    fn from(_: AllocFailed<T>) -> Stop {
        Stop::NoMemory
    }
}
