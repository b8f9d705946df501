//! The commands of a git fast-import stream (git-fast-import(1)).

use bf_io::{Bytes, List};
use bf_oid::{Mode, Oid};

/// A commit that `from` or `merge` names, as it is written.
#[derive(Debug, Drop)]
pub struct Target {
    /// The line of the stream, from 1.
    pub line: u64,
    /// The text after `from ` or `merge `.
    pub text: Bytes,
}

/// The content that a change gives a file.
#[derive(Debug, Drop)]
pub enum DataRef {
    /// The blob of this mark, which is 1 to 2^64 - 1.
    Mark(u64),
    /// The object of this name.
    Name(Oid),
    /// The bytes of the data part after the line.
    Inline(Bytes),
}

/// A change of the files of a commit.
#[derive(Debug, Drop)]
pub enum Change {
    /// Sets a file: `M`.
    Modify {
        line: u64,
        mode: Mode,
        dataref: DataRef,
        path: Bytes,
    },
    /// Removes a file or a directory: `D`.
    Delete {
        line: u64,
        path: Bytes,
    },
    /// Removes all files: `deleteall`.
    DeleteAll {
        line: u64,
    },
}

/// The targets of the `merge` lines of a commit, in order.
pub type Targets = List<Target>;

/// The changes of a commit, in order.
pub type Changes = List<Change>;

/// What a commit says of itself beside its tree and its parents: bytes as the stream gives them.
#[derive(Debug, Drop)]
pub struct Header {
    /// The name that it had before it was exported, as its line `original-oid` gives it: where such names
    /// are asked for.
    pub original: Option<Bytes>,
    /// Who wrote it and when. Without an author the committer stands for it.
    pub author: Option<Bytes>,
    /// Who committed it and when.
    pub committer: Bytes,
    /// The encoding of the message, where it is told.
    pub encoding: Option<Bytes>,
    /// The message, taken as it is. It may be empty.
    pub message: Bytes,
}

/// A commit as its command gives it.
#[derive(Debug, Drop)]
pub struct Commit {
    /// The line of its first line in the stream, from 1.
    pub line: u64,
    /// The ref that the commit becomes the present one of.
    pub branch: Bytes,
    /// The mark that stands for it from now on, 1 to 2^64 - 1.
    pub mark: Option<u64>,
    /// Who wrote and who committed it, and what they say of it.
    pub header: Header,
    /// The commit that it follows, where one is named.
    pub from: Option<Target>,
    /// The commits that are merged into it, in order.
    pub merges: Targets,
    /// How its files differ from those of the commit that it follows, in order.
    pub changes: Changes,
}

/// A command of a stream. `line` is the line of its first line, from 1; a mark is 1 to 2^64 - 1.
#[derive(Debug, Drop)]
pub enum Command {
    /// A content, which `M` may name by its mark.
    Blob {
        line: u64,
        mark: Option<u64>,
        content: Bytes,
    },
    /// A commit on a branch.
    Commit(Commit),
    /// An annotated tag. Its tagger and message are read and dropped.
    Tag {
        line: u64,
        name: Bytes,
        mark: Option<u64>,
        from: Target,
    },
    /// Sets a ref, or removes it where no `from` is given.
    Reset {
        line: u64,
        branch: Bytes,
        from: Option<Target>,
    },
    /// A line `progress`, which is dropped.
    Progress {
        line: u64,
    },
    /// A line `feature` or `option` that is taken, and changes nothing but that `feature done` wants
    /// the line `done`.
    Feature {
        line: u64,
    },
}

/// How a line `data` announces the bytes that follow it.
#[derive(Clone, Copy, Debug, PartialEq, Eq)]
pub enum DataForm {
    /// `data <count>`: so many bytes.
    Counted(u64),
    /// `data <<DELIM`: lines up to one that is DELIM alone.
    Delimited,
}

/// How a line `M` names the content of its file.
#[derive(Clone, Copy, Debug)]
pub enum ContentForm {
    /// `:<n>`: the blob of a mark.
    Mark(u64),
    /// 40 hexadecimal digits: an object.
    Name(Oid),
    /// `inline`: the data part after the line.
    Inline,
}

/// What a command's first line begins.
#[derive(Clone, Copy, Debug, PartialEq, Eq)]
pub enum Head {
    /// `done`: the stream ends here.
    Done,
    Blob,
    Commit,
    Tag,
    Reset,
    /// `progress`: dropped.
    Progress,
    /// `option`, or `feature date-format=raw`: dropped.
    Feature,
    /// `feature done`: the stream must end with `done`.
    FeatureDone,
}
