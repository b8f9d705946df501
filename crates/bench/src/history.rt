//! Generated histories of many commits.

use bf_graph::Graph;
use std::alloc::{AllocError, Global};

/// Which commits of a generated history are merges.
#[derive(Clone, Copy)]
pub enum Shape {
    /// None.
    Line,
    /// About one of eight.
    Mixed,
    /// Every one from the third on.
    Merges,
}

/// The shape of this name.
pub fn shape_named(name: &str) -> Option<Shape> {
    match name {
        "line" => Some(Shape::Line),
        "mixed" => Some(Shape::Mixed),
        "merges" => Some(Shape::Merges),
        _ => None,
    }
}

/// A history of so many commits: each follows the one before it, and a merge an earlier one too.
pub fn history(alloc: Global, shape: Shape, count: u32) -> Result<Graph, AllocError> {
    let mut graph = Graph::new(alloc);
    let mut random = 1;
    for _ in 0..count {
        random = next_random(random);
        push_commit(&mut graph, shape, random)?;
    }
    Ok(graph)
}

/// The next number of a linear congruence of 31 bits.
fn next_random(random: u32) -> u32 {
    ((u64::from(random) * 1_103_515_245 + 12_345) % 2_147_483_648) as u32
}

fn push_commit(graph: &mut Graph, shape: Shape, random: u32) -> Result<(), AllocError> {
    let len = graph.len();
    if len == 0 {
        graph.push(&[])?;
    } else if len > 1 && len < u32::MAX && is_merge(shape, random) {
        graph.push(&[len - 1, random / 8 % (len - 1)])?;
    } else if len < u32::MAX {
        graph.push(&[len - 1])?;
    }
    Ok(())
}

fn is_merge(shape: Shape, random: u32) -> bool {
    match shape {
        Shape::Line => false,
        Shape::Mixed => random / 65_536 % 8 == 0,
        Shape::Merges => true,
    }
}
