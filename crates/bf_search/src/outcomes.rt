//! What a test can end in, and what that says of its commit.

/// How a test command ended: by exiting with a status, or killed by a signal.
#[derive(Clone, Copy, PartialEq, Eq, Debug)]
pub enum Outcome {
    Exit(u8),
    Killed,
}

/// A mark of a commit, as in `git bisect good`, `git bisect bad` and `git bisect skip`.
#[derive(Clone, Copy, PartialEq, Eq, Debug)]
pub enum Mark {
    Good,
    Bad,
    Skip,
}

/// What an outcome says of its commit: a mark, or that the run has to end (git-bisect(1), "Bisect run").
#[derive(Clone, Copy, PartialEq, Eq, Debug)]
pub enum Verdict {
    Mark(Mark),
    Abort,
}
