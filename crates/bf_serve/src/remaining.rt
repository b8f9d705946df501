//! What is left of a search.
ghost use Rattle.std.specs.Prelude.{◌≡◌, IfOk};
ghost use Rattle.bf_graph.specs.Graph.{IsGraph};
ghost use Rattle.bf_search.specs.State.{IsSearchOver};
ghost use Rattle.bf_serve.specs.Searches.{remaining_in};

use bf_choice::candidates;
use bf_reach::Reach;
use bf_state::State;
use std::alloc::{AllocError, Global};

/// What is left of a search.
#[derive(Clone, Copy, PartialEq, Eq, Debug)]
pub struct Remaining {
    /// How many commits may still be the first bad one.
    pub left: u32,
    /// How many of these are skipped.
    pub away: u32,
}

/// What is left of a search.
pub(crate) fn remaining_in(
    alloc: Global,
    reach: &Reach,
    state: &State,
) -> Result<Remaining, AllocError>
    requires { IsSearchOver reach.now state.now.search }
    ensures { IfOk result (λ remaining. remaining ≡ remaining_in reach.now state.now.search) }
{
    match state.bad {
        None => Ok(Remaining { left: 0, away: 0 }),
        Some(bad) => {
            let goods = state.goods.as_slice();
            let mut row = candidates(alloc, reach, bad, goods, state.first_parent)?;
            let left = row.count();
            row.and_from(&state.skips);
            let away = row.count();
            Ok(Remaining { left, away })
        }
    }
}
