//! The steps of a name.

/// A step from a commit to one of its ancestors.
#[derive(Clone, Copy, Debug, PartialEq, Eq)]
pub(crate) enum Step {
    /// To the ancestor of this generation along first parents; 0 stays at the commit.
    Ancestor(u64),
    /// To the parent of this number, counted from 1; 0 stays at the commit.
    Parent(u64),
}
