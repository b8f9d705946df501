//! The limits on a stream, and the ways in which a stream is refused.
ghost use Rattle.std.specs.Prelude.{◌≡◌};
ghost use Rattle.bf_grammar.specs.declared.fault.StreamFault.TheVariants as faults;
ghost use Rattle.bf_grammar.specs.Limits.{standard_limits, with_original_names};

use bf_io::Failed;
use std::alloc::{AllocError, AllocFailed};
use thiserror::Error;

/// What was too large.
#[derive(Clone, Copy, Debug, PartialEq, Eq)]
pub enum Limit {
    /// A line without its LF.
    Line,
    /// A data part.
    Data,
    /// The stream.
    Stream,
    /// The number of commits.
    Commits,
    /// The entries of all trees together.
    Entries,
    /// A log that is read.
    Log,
}

/// The limits on a stream, and by which names its commits are known.
#[derive(Clone, Copy, Debug, PartialEq, Eq)]
pub struct Limits {
    /// The most bytes of a line, without its LF.
    pub line: u32,
    /// The most bytes of a data part.
    pub part: u64,
    /// The most bytes of the stream.
    pub stream: u64,
    /// The most commits of different names.
    pub commits: u32,
    /// The most entries of the different trees together.
    pub entries: u32,
    /// Whether each commit keeps the name of its line `original-oid`, as `git fast-export
    /// --show-original-ids` writes it, in place of the name that is computed from what it is here.
    pub original_names: bool,
}

impl Limits {
    /// The limits of the program.
    pub fn standard() -> Limits
        ensures { result ≡ standard_limits }
    {
        Limits {
            line: 65_535,
            part: 67_108_864,
            stream: 1_073_741_824,
            commits: 100_000,
            entries: 40_000_000,
            original_names: false,
        }
    }

    /// The same limits, where each commit keeps the name that it had before it was exported.
    pub fn with_original_names(self) -> Limits
        ensures { result ≡ with_original_names self }
    {
        Limits {
            original_names: true,
            ..self
        }
    }
}

/// Why no further command of a stream came. Lines are counted from 1.
#[derive(Clone, Copy, Debug, Drop, PartialEq, Eq, Error)]
pub enum StreamFault {
    /// A line that is not in its form, or that stands where a part must stand. An import says so of a
    /// commit that lacks its original name, too.
    #[error("line {line}: syntax")]
    Syntax { line: u64 },
    /// A command, feature, date or mode of git that is not taken here.
    #[error("line {line}: unsupported")]
    Unsupported { line: u64 },
    /// The input ended where more must come.
    #[error("line {line}: truncated")]
    Truncated { line: u64 },
    /// The input ended without the line `done` that `feature done` had promised.
    #[error("line {line}: no done")]
    NoDone { line: u64 },
    /// The source failed.
    #[error("the stream could not be read")]
    Read,
    /// A limit was passed.
    #[error("too large: {what:?}")]
    TooLarge { what: Limit },
    /// Memory ran out.
    #[error("out of memory")]
    NoMemory,
}

impl From<AllocError> for StreamFault {
    ghost from_gives = { λ _ e. e ≡ faults.NoMemory };

    fn from(_: AllocError) -> StreamFault {
        StreamFault::NoMemory
    }
}

impl<T: Drop> From<AllocFailed<T>> for StreamFault {
    ghost from_gives = { λ _ e. e ≡ faults.NoMemory };

    fn from(_: AllocFailed<T>) -> StreamFault {
        StreamFault::NoMemory
    }
}

impl From<Failed> for StreamFault {
    ghost from_gives = { λ _ e. e ≡ faults.Read };

    fn from(_: Failed) -> StreamFault {
        StreamFault::Read
    }
}
