//! How the program ends.
//!
//! A status is a variant with what it tells; only `number_of` knows its number. Definitions over statuses write out every
//! arm, since a new variant that is taken for another one would weaken a clause. They divide statuses by `stage_of` alone.
ghost use Rattle.std.specs.Prelude.{◌≡◌};
ghost use Rattle.bf_output.specs.Statuses.{number_of};

use bf_grammar::Limit;
use bf_names::NameFault;
use bf_oid::Oid;

/// Why a line of a stream is refused.
#[derive(Clone, Copy, Debug, PartialEq, Eq)]
pub enum StreamKind {
    /// The line is not in its form, or stands where a part must stand.
    Syntax,
    /// A command, feature, date, mode or target of git that is not taken here.
    Unsupported,
    /// The input ended where more must come.
    Truncated,
    /// The input ended without the line `done` that `feature done` had promised.
    NoDone,
    /// A target that names no commit.
    BadFrom,
    /// A file whose content is no blob of the stream.
    BadMark,
    /// A path that is in no form of a path.
    BadPath,
}

/// How the program ends: its exit status, with what it says of a refusal.
#[derive(Clone, Copy, Debug, PartialEq, Eq)]
pub enum Status {
    /// The search found the first bad commit, or the command did what it was asked.
    Done,
    /// The word of this index is at fault. A word that is missing has the number of words as its index.
    Usage {
        /// The index of the word, from 0.
        word: u32,
    },
    /// Only skipped commits are left to test.
    OnlySkipped,
    /// A merge base was tested and is bad.
    MergeBaseBad,
    /// Some good commit is no ancestor of the bad one.
    GoodNotAncestor,
    /// One commit is both bad and good.
    BothSides,
    /// A test ended in an outcome that aborts the run.
    Aborted,
    /// The stream is refused.
    StreamRefused {
        /// The line, from 1.
        line: u64,
        /// Why it is refused.
        kind: StreamKind,
    },
    /// The name in a word is refused.
    NameRefused {
        /// The index of the word, from 0.
        word: u32,
        /// Why it is refused.
        fault: NameFault,
    },
    /// A limit was passed.
    TooLarge {
        /// The limit.
        what: Limit,
    },
    /// The log is refused.
    LogRefused {
        /// The line, from 1.
        line: u32,
    },
    /// The test of a commit could not be made.
    TestFault {
        /// The place of the commit.
        place: u32,
    },
    /// The stream could not be read.
    ReadFault,
    /// The output could not be written.
    WriteFault,
    /// The log could not be read.
    ShelfFault,
    /// Memory ran out.
    NoMemory,
    /// There is no log of this name.
    NoFile,
    /// No bad or no good commit is known.
    Waiting,
    /// A file of the stream has no content there, or a path that is no text.
    NoContent {
        /// The line, from 1.
        line: u64,
    },
    /// The certificate is refused.
    CertRefused {
        /// The line, from 1.
        line: u32,
    },
    /// The journal was kept for another run.
    JournalRefused {
        /// The identity of the run that it was kept for.
        kept: Oid,
    },
    /// The journal could not be read or written.
    JournalFault,
    /// The list of searches is refused.
    ListRefused {
        /// The line, from 1.
        line: u32,
    },
}

impl Status {
    /// The number with which the program ends.
    pub fn number(self) -> u8
        ensures { result ≡ number_of self }
    {
        match self {
            Status::Done => 0,
            Status::Usage { .. } => 1,
            Status::OnlySkipped => 2,
            Status::MergeBaseBad => 3,
            Status::GoodNotAncestor => 4,
            Status::BothSides => 5,
            Status::Aborted => 6,
            Status::StreamRefused { .. } => 7,
            Status::NameRefused { .. } => 8,
            Status::TooLarge { .. } => 9,
            Status::LogRefused { .. } => 10,
            Status::TestFault { .. } => 11,
            Status::ReadFault => 12,
            Status::WriteFault => 13,
            Status::ShelfFault => 14,
            Status::NoMemory => 15,
            Status::NoFile => 16,
            Status::Waiting => 17,
            Status::NoContent { .. } => 19,
            Status::CertRefused { .. } => 20,
            Status::JournalRefused { .. } => 21,
            Status::JournalFault => 22,
            Status::ListRefused { .. } => 23,
        }
    }
}
