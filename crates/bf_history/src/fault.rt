//! How a stream is refused.
ghost use Rattle.std.specs.Prelude.{◌≡◌};
ghost use Rattle.bf_grammar.specs.declared.fault.StreamFault.TheVariants as stream;
ghost use Rattle.bf_history.specs.declared.fault.ImportFault.TheVariants as faults;

use bf_grammar::{Limit, StreamFault};
use std::alloc::{AllocError, AllocFailed};
use thiserror::Error;

/// Why a stream gave no history. Lines are counted from 1, and are those of the target, of the change or of
/// the commit that is refused.
#[derive(Clone, Copy, Debug, Drop, PartialEq, Eq, Error)]
pub enum ImportFault {
    /// The stream is refused for its form, or for a commit that lacks its original name, or it could not be
    /// read. Want of memory has its own variant.
    #[error("{0}")]
    Stream(StreamFault),
    /// A target that names no commit.
    #[error("line {line}: bad from")]
    BadFrom { line: u64 },
    /// A file whose content is no blob of the stream.
    #[error("line {line}: bad mark")]
    BadMark { line: u64 },
    /// A path that is in no form of a path.
    #[error("line {line}: bad path")]
    BadPath { line: u64 },
    /// A target outside the stream, or a tag of something other than a commit.
    #[error("line {line}: unsupported")]
    Unsupported { line: u64 },
    /// A file that is no submodule, whose path is not UTF-8 or whose content is no blob of the stream so
    /// far. An import that keeps no contents never says so.
    #[error("line {line}: no content")]
    NoContent { line: u64 },
    /// The limit on commits or on the entries of trees was passed.
    #[error("too large: {what:?}")]
    TooLarge { what: Limit },
    /// Memory ran out.
    #[error("out of memory")]
    NoMemory,
}

impl From<AllocError> for ImportFault {
    ghost from_gives = { λ _ e. e ≡ faults.NoMemory };

    fn from(_: AllocError) -> ImportFault {
        ImportFault::NoMemory
    }
}

impl<T: Drop> From<AllocFailed<T>> for ImportFault {
    ghost from_gives = { λ _ e. e ≡ faults.NoMemory };

    fn from(_: AllocFailed<T>) -> ImportFault {
        ImportFault::NoMemory
    }
}
