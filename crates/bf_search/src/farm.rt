//! What happens where several workers test commits of one search, and how it ends.
use crate::Outcome;
use bf_graph::Places;

/// A worker tests a place.
#[derive(Clone, Copy, PartialEq, Eq, Debug)]
pub struct Claim {
    /// The number of the worker.
    pub worker: u32,
    /// The place that it tests.
    pub place: u32,
}

/// What a worker does.
#[derive(Clone, Copy, PartialEq, Eq, Debug)]
pub enum Event {
    /// It takes a place to test.
    Claim {
        worker: u32,
        place: u32,
    },
    /// Its test of a claimed place has ended.
    Post {
        worker: u32,
        place: u32,
        outcome: Outcome,
    },
    /// It gives a claimed place back untested.
    Give {
        worker: u32,
        place: u32,
    },
}

/// How a run of tests ended.
#[derive(PartialEq, Eq, Debug, Drop)]
pub enum Ending {
    /// This place is the first bad commit.
    FirstBad(u32),
    /// Only skipped candidates are left beside the bad one. All candidates are listed, by place.
    OnlySkipped(Places),
    /// A merge base was asked and is bad, so the change was made and undone before it.
    MergeBaseBad(u32),
    /// Some good commit is no ancestor of this bad one.
    GoodNotAncestor(u32),
    /// A good commit reaches this bad one, so no candidate is left.
    BothSides(u32),
    /// The outcome of this place's test says that the run has to end.
    Aborted { place: u32, outcome: Outcome },
    /// As many marks were made as a leg has.
    Leg,
    /// The test of this place could not be made.
    TestFault(u32),
}
