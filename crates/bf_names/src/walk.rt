//! The steps of a name over the graph of a history.
ghost use Rattle.std.specs.Prelude.{◌≡◌, ◌<◌, length, slice_get, IfOk, IfSome};
ghost use Rattle.bf_graph.specs.Graph.{parents_of};
ghost use Rattle.bf_names.specs.Leaps.{AreLeaps};
ghost use Rattle.bf_names.specs.Names.{after_step, after_steps, ancestor};

use crate::NameFault;
use crate::leap::Leaps;
use crate::step::Step;
use bf_graph::Graph;

/// The place that steps lead to, one after another.
pub(crate) fn after_steps(
    graph: &Graph,
    leaps: Option<&Leaps>,
    steps: &[Step],
    place: u32,
) -> Result<u32, NameFault>
    requires leaps { IfSome leaps (λ leaps. AreLeaps graph.now leaps.now) }
    requires place { place < length graph.now }
    ensures value { result ≡ after_steps graph.now steps.now place }
    ensures within { IfOk result (λ place. place < length graph.now) }
{
    let mut place = place;
    for step in steps {
        place = after_step(graph, leaps, *step, place).ok_or(NameFault::NoParent)?;
    }
    Ok(place)
}

fn after_step(graph: &Graph, leaps: Option<&Leaps>, step: Step, place: u32) -> Option<u32>
    requires leaps { IfSome leaps (λ leaps. AreLeaps graph.now leaps.now) }
    requires place { place < length graph.now }
    ensures value { result ≡ after_step graph.now step place }
    ensures within { IfSome result (λ place. place < length graph.now) }
{
    match step {
        Step::Ancestor(generation) => ancestor_by(graph, leaps, generation, place),
        Step::Parent(0) => Some(place),
        Step::Parent(number) => parent(graph, number - 1, place),
    }
}

// The ancestor of a generation along first parents: by leaps where they are given, else by a walk.
fn ancestor_by(graph: &Graph, leaps: Option<&Leaps>, generation: u64, place: u32) -> Option<u32>
    requires leaps { IfSome leaps (λ leaps. AreLeaps graph.now leaps.now) }
    requires place { place < length graph.now }
    ensures value { result ≡ ancestor graph.now generation place }
    ensures within { IfSome result (λ place. place < length graph.now) }
{
    match leaps {
        Some(leaps) => leaps.ancestor(graph, generation, place),
        None => ancestor(graph, generation, place),
    }
}

// The ancestor of a generation along first parents. A walk that goes past the first commit ends there.
fn ancestor(graph: &Graph, generation: u64, place: u32) -> Option<u32>
    requires place { place < length graph.now }
    ensures value { result ≡ ancestor graph.now generation place }
    ensures within { IfSome result (λ place. place < length graph.now) }
{
    let mut place = place;
    let mut left = generation;
    while left > 0 {
        place = parent(graph, 0, place)?;
        left -= 1;
    }
    Some(place)
}

/// The parent with an index, from 0.
pub(crate) fn parent(graph: &Graph, index: u64, place: u32) -> Option<u32>
    requires place { place < length graph.now }
    ensures value { result ≡ slice_get (parents_of graph.now place) index }
    ensures within { IfSome result (λ parent. parent < place) }
{
    graph.parents(place).get(index as usize).copied()
}
