//! What a mark of a stream stands for.
use bf_oid::Oid;

/// What a mark stands for (git-fast-import(1), `mark`).
#[derive(Clone, Copy, Debug, Drop, PartialEq, Eq)]
pub enum Marked {
    /// A blob, by its name.
    Blob(Oid),
    /// A commit, by its place: the number of the commit in the order of the stream, from 0.
    Commit(u32),
    /// A tag.
    Tag,
}
