//! How many places each place of a graph reaches.
ghost use Rattle.std.specs.Prelude.{◌≡◌, ◌<◌, ◌^◌, length, IfOk};
ghost use Rattle.bf_graph.specs.Graph.{IsGraph};
ghost use Rattle.bf_choice.specs.Sizes.{reach_size, reach_sizes, CountsMerges, SizesKnown};

use crate::merges::merge_sizes;
use crate::parents::{Parentage, parentage_of};
use bf_graph::Graph;
use std::alloc::{AllocError, Global};

/// By place, how many places it reaches, itself included.
///
/// A place with one parent reaches one more than it, however often that parent is listed. Only what
/// merges reach is counted.
pub(crate) fn reach_sizes(alloc: Global, graph: &Graph) -> Result<Vec<u32>, AllocError>
    ensures graph { IsGraph graph.now }
    ensures sizes { IfOk result (λ sizes. sizes.items ≡ reach_sizes graph.now) }
{
    let mut sizes = merge_sizes(alloc, graph)?;
    fill_chains(graph, sizes.as_mut_slice());
    Ok(sizes)
}

/// Gives the places that are no merges their sizes.
fn fill_chains(graph: &Graph, sizes: &mut [u32])
    requires { CountsMerges graph.now (length graph.now) sizes.old }
    ensures graph { IsGraph graph.now }
    ensures sizes { sizes.new ≡ reach_sizes graph.now }
{
    for place in 0..graph.len() {
        sizes[place as usize] = size_at(graph, sizes, place);
    }
}

/// The size of a place, where those of the places before it are known, and its own if it is a merge.
fn size_at(graph: &Graph, sizes: &[u32], place: u32) -> u32
    requires graph { IsGraph graph.now }
    requires few { length graph.now < 2 ^ 32 }
    requires place { place < length graph.now }
    requires known { SizesKnown graph.now place sizes.now }
    ensures { result ≡ reach_size graph.now place }
{
    match parentage_of(graph.parents(place)) {
        Parentage::Root => 1,
        Parentage::Single(parent) => sizes[parent as usize] + 1,
        Parentage::Merge => sizes[place as usize],
    }
}
