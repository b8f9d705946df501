//! What a search asks next.
use bf_graph::Places;

/// What the check of the merge bases says (git-bisect-lk2009, "Checking merge bases").
#[derive(PartialEq, Eq, Debug, Drop)]
pub enum Check {
    /// The search may go on. The skipped bases that are not known to be good are listed, by place.
    Passed { warned: Places },
    /// The bad commit is a merge base, so a good commit is not its ancestor.
    Bad(u32),
    /// This merge base has to be tested first.
    Test(u32),
}

/// What a search asks next, or how it ended.
#[derive(PartialEq, Eq, Debug, Drop)]
pub enum Ask {
    /// Neither a bad commit nor a good one is known.
    WaitBoth,
    /// No bad commit is known.
    WaitBad,
    /// No good commit is known.
    WaitGood,
    /// This place has to be tested.
    Test(u32),
    /// A merge base was asked and is bad, so the change was made and undone before it.
    MergeBaseBad(u32),
    /// Some good commit is no ancestor of this bad one.
    GoodNotAncestor(u32),
    /// A good commit reaches this bad one, so no candidate is left.
    BothSides(u32),
    /// This place is the first bad commit.
    FirstBad(u32),
    /// Only skipped candidates are left beside the bad one. All candidates are listed, by place.
    OnlySkipped(Places),
}

/// One step of a search: the skipped merge bases to warn of, by place, and the ask.
#[derive(PartialEq, Eq, Debug, Drop)]
pub struct Step {
    pub warned: Places,
    pub ask: Ask,
}
