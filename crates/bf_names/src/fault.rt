//! How a name is refused.
ghost use Rattle.std.specs.Prelude.{◌≡◌};
ghost use Rattle.bf_names.specs.declared.fault.NameFault.TheVariants as faults;

use std::alloc::{AllocError, AllocFailed};
use thiserror::Error;

/// Why a text names no commit, or no range of commits. The variants are tried in the order `BadForm`,
/// then `Unknown` and `Ambiguous`, then `NoParent`.
#[derive(Clone, Copy, Debug, Drop, PartialEq, Eq, Error)]
pub enum NameFault {
    /// The base names no commit.
    #[error("unknown")]
    Unknown,
    /// The base begins the names of several commits, and means no ref.
    #[error("ambiguous {count}")]
    Ambiguous {
        /// How many commits have names that begin so: 2 or more.
        count: u32,
    },
    /// A step leads to a parent that its commit doesn't have.
    #[error("no parent")]
    NoParent,
    /// The text is in no form of a name or of a range.
    #[error("bad form")]
    BadForm,
    /// Memory ran out.
    #[error("out of memory")]
    NoMemory,
}

impl From<AllocError> for NameFault {
    ghost from_gives = { λ _ e. e ≡ faults.NoMemory };

    fn from(_: AllocError) -> NameFault {
        NameFault::NoMemory
    }
}

impl<T: Drop> From<AllocFailed<T>> for NameFault {
    ghost from_gives = { λ _ e. e ≡ faults.NoMemory };

    fn from(_: AllocFailed<T>) -> NameFault {
        NameFault::NoMemory
    }
}
