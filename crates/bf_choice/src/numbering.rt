//! The candidates by their numbers, and the graph of the candidates alone.
ghost use Rattle.std.specs.Prelude.{◌≡◌, ◌<◌, ◌≤◌, length, take, All, IfOk, OnOk, if◌then◌else◌};
ghost use Rattle.bf_graph.specs.Graph.{IsGraph};
ghost use Rattle.bf_choice.specs.Numbering.{candidate_numbers, numbers_of, IsCandidateGraph};

use bf_graph::Graph;
use bf_reach::Row;
use std::alloc::{AllocError, Global};

/// By place, how many candidates stand before it. For a candidate this is its number.
pub(crate) fn candidate_numbers(alloc: Global, mask: &Row) -> Result<Vec<u32>, AllocError>
    ensures { IfOk result (λ numbers. numbers.items ≡ candidate_numbers mask.now) }
{
    let mut numbers = Vec::with_capacity(alloc, mask.len() as usize)?;
    let mut next: u32 = 0;
    for place in 0..mask.len() {
        numbers.push(next)?;
        if mask.get(place) {
            next += 1;
        }
    }
    Ok(numbers)
}

/// The graph of the candidates alone, by their numbers.
pub(crate) fn candidate_graph(
    alloc: Global,
    graph: &Graph,
    mask: &Row,
    numbers: &[u32],
    first_parent: bool,
) -> Result<Graph, AllocError>
    requires mask { length mask.now ≡ length graph.now }
    requires numbers { numbers.now ≡ candidate_numbers mask.now }
    ensures graph { IsGraph graph.now }
    ensures numbered { IfOk result (IsCandidateGraph graph.now mask.now first_parent) }
{
    let mut small = Graph::new(alloc);
    let mut parents = Vec::new(alloc);
    for place in 0..graph.len() {
        if mask.get(place) {
            let followed = parents_in_mode(graph.parents(place), first_parent);
            number_parents(followed, mask, numbers, &mut parents)?;
            small.push(parents.as_slice())?;
        }
    }
    Ok(small)
}

/// The parents that a mode follows.
fn parents_in_mode(parents: &[u32], first_parent: bool) -> &[u32]
    ensures { result.now ≡ (if first_parent then take 1 parents.now else parents.now) }
{
    if first_parent && parents.len() > 1 {
        &parents[..1]
    } else {
        parents
    }
}

/// Makes `into` the numbers of the candidates among these parents.
fn number_parents(
    parents: &[u32],
    mask: &Row,
    numbers: &[u32],
    into: &mut Vec<u32>,
) -> Result<(), AllocError>
    requires parents { All (λ parent. parent < length mask.now) parents.now }
    requires numbers { numbers.now ≡ candidate_numbers mask.now }
    ensures { OnOk result (into.new.items ≡ numbers_of mask.now parents.now) }
{
    into.clear();
    for parent in parents {
        if mask.get(*parent) {
            into.push(numbers[*parent as usize])?;
        }
    }
    Ok(())
}
