//! Edits of a list of files.

use bf_oid::{Mode, Oid};
use bf_paths::Path;

/// A change of the files of a tree (git-fast-import(1), `filemodify`, `filedelete`, `filedeleteall`).
#[derive(Debug, Drop)]
pub enum Edit {
    /// Sets a file. It takes the place of a file or a directory at its path, and of a file where it needs
    /// a directory.
    Set { path: Path, mode: Mode, oid: Oid },
    /// Removes a file, or a whole directory. It changes nothing where the path is missing.
    Remove { path: Path },
    /// Removes all files.
    Clear,
}

/// Which of the files of a list are meant, beside a path. Only clauses speak of it.
#[derive(Clone, Copy, Debug, PartialEq, Eq)]
pub(crate) enum Part {
    /// Those that may stand beside the path, before it.
    Before,
    /// Those that may stand beside the path, behind it.
    Behind,
    /// Those that are not at the path nor in the directory there.
    Outside,
}
