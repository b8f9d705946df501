//! The edges of a graph, in an order in which each is found fast.
ghost use Rattle.std.specs.Prelude.{◌≡◌, ◌<◌, length, IfOk};
ghost use Rattle.std.specs.List.Sorted.{IsNonDecreasing};
ghost use Rattle.bf_cert.specs.Edges.{AreSorted};
ghost use Rattle.bf_graph.specs.Graph.{parents_of};
ghost use Rattle.bf_search.specs.Bases.{has_place};

use bf_graph::Graph;
use std::alloc::{AllocError, Global};
use std::marker::Model;

/// A graph with a second one, in which the parents of each place stand in rising order: so a parent among
/// many is found by halving, and not by a walk through all of them. Contracts see the graph.
#[derive(Drop)]
pub(crate) struct Edges<'g> {
    graph: &'g Graph,
    sorted: Graph,
}

impl<'g> Model for Edges<'g> {
    ghost use Rattle.std.specs.Prelude.{List, ℕ};
    ghost use Rattle.bf_cert.specs.Edges.{AreSorted};

    ghost Value = { List (List ℕ) };

    ghost view = { λ edges. edges.graph.now };

    ghost invariant = { λ edges. AreSorted edges.graph.now edges.sorted };
}

impl<'g> Edges<'g> {
    /// The edges of a graph. They take as much memory as the graph itself.
    pub(crate) fn of(alloc: Global, graph: &'g Graph) -> Result<Edges<'g>, AllocError>
        ensures { IfOk result (λ edges. edges ≡ graph.entry.now) }
    {
        Ok(Edges {
            graph,
            sorted: sorted_graph(alloc, graph)?,
        })
    }

    /// The graph.
    pub(crate) fn graph(&self) -> &Graph
        ensures { result.now ≡ self.now }
    {
        self.graph
    }

    /// Whether a place has this parent.
    pub(crate) fn has_parent(&self, place: u32, parent: u32) -> bool
        requires { place < length self.now }
        ensures { result ≡ has_place (parents_of self.now place) parent }
    {
        has_sorted(self.sorted.parents(place), parent)
    }
}

/// Whether a place is among these, which stand in rising order.
fn has_sorted(places: &[u32], place: u32) -> bool
    requires { IsNonDecreasing places.now }
    ensures { result ≡ has_place places.now place }
{
    places.binary_search(&place).is_ok()
}

/// The graph with the parents of each place in rising order.
fn sorted_graph(alloc: Global, graph: &Graph) -> Result<Graph, AllocError>
    ensures { IfOk result (AreSorted graph.now) }
{
    let mut sorted = Graph::new(alloc);
    let mut parents = Vec::new(alloc);
    for place in 0..graph.len() {
        parents.clear();
        parents.extend_from_slice(graph.parents(place))?;
        parents.sort_unstable();
        sorted.push(parents.as_slice())?;
    }
    Ok(sorted)
}
