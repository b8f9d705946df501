//! The entries of a log.
ghost use Rattle.std.specs.Prelude.{◌≡◌, ◌++◌, OnOk};
ghost use Rattle.bf_search.specs.Run.{warnings};

use crate::Mark;
use bf_graph::Places;
use std::alloc::AllocError;

/// One entry of a log (git-bisect(1), "Bisect log and bisect replay").
#[derive(PartialEq, Eq, Debug, Drop)]
pub enum Entry {
    /// A search began with these ends; `terms_given` says whether its words named the terms.
    Start {
        first_parent: bool,
        terms_given: bool,
        bad: Option<u32>,
        goods: Places,
    },
    /// A place was marked.
    Marked {
        mark: Mark,
        place: u32,
    },
    /// A merge base was skipped, so what follows may miss a change on its other side.
    SkippedBase {
        place: u32,
    },
    /// The first bad commit was found.
    FirstBadFound {
        place: u32,
    },
    /// Only skipped candidates were left beside the bad one.
    OnlySkippedLeft {
        places: Places,
    },
}

/// Adds an entry for each skipped merge base that an ask passes over.
pub fn push_warnings(entries: &mut Vec<Entry>, warned: &[u32]) -> Result<(), AllocError>
    ensures { OnOk result (entries.new.items ≡ entries.old.items ++ warnings warned.now) }
{
    for place in warned {
        entries.push(Entry::SkippedBase { place: *place })?;
    }
    Ok(())
}
