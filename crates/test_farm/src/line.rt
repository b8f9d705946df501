//! A search on a line of eight commits.
ghost use Rattle.std.specs.Prelude.{◌≡◌, length, IfOk};
ghost use Rattle.bf_state.specs.Ends.{HasEnds};

use bf_graph::Graph;
use bf_reach::Reach;
use bf_state::State;
use bf_terms::Terms;
use std::alloc::{AllocError, Global};

/// Eight commits, each the child of the one before.
pub(crate) fn line(alloc: Global) -> Result<Reach, AllocError>
    ensures { IfOk result (λ reach. length reach ≡ 8) }
{
    let mut graph = Graph::new(alloc);
    graph.push(&[])?;
    for place in 1..8 {
        graph.push(&[place - 1])?;
    }
    Reach::build(alloc, &graph)
}

/// The last commit is bad and the first one good.
pub(crate) fn search(alloc: Global) -> Result<State, AllocError>
    ensures len { IfOk result (λ state. state.len ≡ 8) }
    ensures ends { IfOk result (λ state. HasEnds state.search) }
{
    let terms = Terms::standard(alloc)?;
    State::new(alloc, 8, terms, false, false, Some(7), &[0])
}
