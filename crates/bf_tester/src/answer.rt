//! What a tester answers.
ghost use Rattle.std.specs.Prelude.{◌≡◌, ◌↔◌, IsTrue};

use bf_oid::Oid;
use bf_search::Outcome;

/// One answer of a tester: the test of the commit of this name, at this place of its history, ended so.
#[derive(Clone, Copy, Debug, PartialEq, Eq)]
pub struct Answer {
    /// The place of the commit in its history.
    pub place: u32,
    /// The name of the commit.
    pub name: Oid,
    /// How the test ended.
    pub outcome: Outcome,
}

impl Answer {
    /// Whether both are the same answer.
    pub fn is_same(&self, other: &Answer) -> bool
        ensures { IsTrue result ↔ (self.now ≡ other.now) }
    {
        self.place == other.place && self.name == other.name && self.outcome == other.outcome
    }
}

/// A test that was made in a folder: at this place of a history, where the folder had the files of the tree
/// of this name.
#[derive(Clone, Copy, Debug, PartialEq, Eq)]
pub struct Tested {
    /// The place of the commit in its history.
    pub place: u32,
    /// The name of the tree.
    pub tree: Oid,
}

/// What a tester replies to a request for a test.
#[derive(Clone, Copy, Debug, PartialEq, Eq)]
pub enum TestReply {
    /// The test ended so. The tester has this answer from now on.
    Done(Outcome),
    /// The request was withdrawn, before its test began or while it ran.
    Dropped,
    /// The test could not be made. The tester's count of faults rose.
    Failed,
    /// Memory ran out.
    NoMemory,
}
