//! Both bodies over a few graphs.
ghost use Rattle.std.specs.Prelude.{◌<◌, ◌↔◌, All, IsTrue};

use bf_choice::{candidates, weights, weights_plain};
use bf_graph::Graph;
use bf_reach::Reach;
use std::alloc::{AllocError, Global};
use std::process::Abort;
use std::test::Fail;

fn all_below(places: &[u32], end: u32) -> bool
    ensures { IsTrue result ↔ All (λ place. place < end) places.now }
{
    places.iter().all(|place| *place < end)
}

fn add(graph: &mut Graph, parents: &[u32]) -> Result<(), AllocError> {
    let len = graph.len();
    if len < 10_000 && all_below(parents, len) {
        graph.push(parents)?;
    }
    Ok(())
}

fn graph_of(alloc: Global, parents: &[&[u32]]) -> Result<Graph, AllocError> {
    let mut graph = Graph::new(alloc);
    for list in parents {
        add(&mut graph, list)?;
    }
    Ok(graph)
}

/// The weights where both bodies agree on them, and else nothing.
fn agreed(
    alloc: Global,
    graph: &Graph,
    bad: u32,
    goods: &[u32],
    first_parent: bool,
) -> Result<Vec<u32>, AllocError> {
    if bad >= graph.len() || !all_below(goods, graph.len()) {
        return Ok(Vec::new(alloc));
    }
    let reach = Reach::build(alloc, graph)?;
    let mask = candidates(alloc, &reach, bad, goods, first_parent)?;
    let plain = weights_plain(alloc, &reach, &mask, first_parent)?;
    let mut found = weights(alloc, &reach, &mask, first_parent)?;
    if plain.as_slice() != found.as_slice() {
        found.clear();
    }
    Ok(found)
}

/// Asserts the weights of a graph whose first commit is good and whose last is bad.
fn has_weights(
    rt: &impl Abort,
    alloc: Global,
    parents: &[&[u32]],
    first_parent: bool,
    wanted: &[u32],
) -> Result<(), AllocError> {
    let graph = graph_of(alloc, parents)?;
    let bad = graph.len().saturating_sub(1);
    let found = agreed(alloc, &graph, bad, &[0], first_parent)?;
    assert_eq!(rt; found.as_slice(), wanted);
    Ok(())
}

#[test]
fn a_diamond(rt: HostRuntime) -> Result<(), Fail> {
    let parents: [&[u32]; 4] = [&[], &[0], &[0], &[1, 2]];
    has_weights(&rt, rt.alloc(), &parents, false, &[0, 1, 1, 3])?;
    has_weights(&rt, rt.alloc(), &parents, true, &[0, 1, 0, 2])?;
    Ok(())
}

#[test]
fn crossed_and_repeated_parents(rt: HostRuntime) -> Result<(), Fail> {
    let crossed: [&[u32]; 6] = [&[], &[0], &[0], &[1, 2], &[2, 1], &[3, 4]];
    has_weights(&rt, rt.alloc(), &crossed, false, &[0, 1, 1, 3, 3, 5])?;
    let repeated: [&[u32]; 4] = [&[], &[0], &[1, 1], &[2, 2, 2]];
    has_weights(&rt, rt.alloc(), &repeated, false, &[0, 1, 2, 3])?;
    Ok(())
}

/// Adds six hundred children of the root, and their merge.
fn add_children(graph: &mut Graph, children: &mut Vec<u32>) -> Result<(), AllocError> {
    for place in 1..601 {
        add(graph, &[0])?;
        children.push(place)?;
    }
    add(graph, children.as_slice())
}

fn wide_merge(alloc: Global) -> Result<Graph, AllocError> {
    let mut graph = graph_of(alloc, &[&[]])?;
    add_children(&mut graph, &mut Vec::new(alloc))?;
    Ok(graph)
}

#[test]
fn a_merge_of_six_hundred(rt: HostRuntime) -> Result<(), Fail> {
    let graph = wide_merge(rt.alloc())?;
    let found = agreed(rt.alloc(), &graph, 601, &[0], false)?;
    assert_eq!(rt; found.get(600).copied(), Some(1));
    assert_eq!(rt; found.get(601).copied(), Some(601));
    Ok(())
}

/// Adds merges, one parent of each some places back.
fn add_merges(graph: &mut Graph, halved: bool) -> Result<(), AllocError> {
    for place in 2u32..1_100 {
        let back = if halved { place / 2 } else { place % 3 };
        add(graph, &[place - 1, place.saturating_sub(back + 1)])?;
    }
    Ok(())
}

fn merges(alloc: Global, halved: bool) -> Result<Graph, AllocError> {
    let mut graph = graph_of(alloc, &[&[], &[0]])?;
    add_merges(&mut graph, halved)?;
    Ok(graph)
}

#[test]
fn every_commit_a_merge(rt: HostRuntime) -> Result<(), Fail> {
    for halved in [false, true] {
        let graph = merges(rt.alloc(), halved)?;
        let found = agreed(rt.alloc(), &graph, 1_099, &[2], false)?;
        assert_eq!(rt; found.len(), 1_100);
    }
    Ok(())
}
