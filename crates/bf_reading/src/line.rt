//! The command lines of a log, and why a log is refused.
ghost use Rattle.std.specs.Prelude.{◌≡◌};
ghost use Rattle.bf_reading.specs.declared.line.LogFault.TheVariants as faults;
ghost use Rattle.bf_reading.specs.declared.line.LineFault.TheVariants as line_faults;

use bf_io::{Bytes, List};
use std::alloc::{AllocError, AllocFailed};
use thiserror::Error;

/// The names of a start line, in order.
pub type Revs = List<Bytes>;

/// The command lines of a log, in order.
pub type LogLines = List<LogLine>;

/// What a command line of a log says, as it is written: no name is looked up, and no word is tried as a term.
#[derive(Debug, Drop)]
pub enum LogWord {
    /// A search starts: `start`, its options and its names.
    Start {
        /// Whether `--first-parent` is among the options.
        first_parent: bool,
        /// The word for the bad side, where an option gives one.
        new: Option<Bytes>,
        /// The word for the good side, where an option gives one.
        old: Option<Bytes>,
        /// The names, in order: the bad one, then the good ones.
        revs: Revs,
    },
    /// A commit is marked: the word of the mark, and the name of the commit.
    MarkWord {
        /// The word, which is not `start`.
        term: Bytes,
        /// The name.
        rev: Bytes,
    },
}

/// A command line of a log.
#[derive(Debug, Drop)]
pub struct LogLine {
    /// The number of the line, from 1. All lines of the log are counted.
    pub line: u32,
    /// What the line says.
    pub word: LogWord,
}

/// Why a log is not read.
#[derive(Clone, Copy, Debug, PartialEq, Eq, Error)]
pub enum LogFault {
    /// The first command line that is in no form.
    #[error("line {line} of the log is in no form")]
    Line {
        /// The number of the line, from 1.
        line: u32,
    },
    /// Memory ran out.
    #[error("out of memory")]
    NoMemory,
}

impl From<AllocError> for LogFault {
    ghost from_gives = { λ _ e. e ≡ faults.NoMemory };

    fn from(_: AllocError) -> LogFault {
        LogFault::NoMemory
    }
}

/// Why a single command line is not read.
#[derive(Clone, Copy)]
pub(crate) enum LineFault {
    /// The line is in no form.
    NoForm,
    /// Memory ran out.
    NoMemory,
}

impl From<AllocError> for LineFault {
    ghost from_gives = { λ _ e. e ≡ line_faults.NoMemory };

    fn from(_: AllocError) -> LineFault {
        LineFault::NoMemory
    }
}
