//! All weights of a history.
use crate::history::{Shape, history};
use bf_choice::{candidates, weights};
use bf_graph::Graph;
use bf_reach::Reach;
use std::alloc::{AllocError, Global};

/// How many candidates stand between the first commit and the last of a generated history, and the sum of
/// their weights.
pub fn weighed(alloc: Global, shape: Shape, count: u32) -> Result<String, AllocError> {
    let (found, sum) = weigh(alloc, &history(alloc, shape, count)?)?;
    format!(in alloc; "{found} candidates, {sum} in all")
}

/// The number of candidates between the first commit and the last, and the sum of their weights.
fn weigh(alloc: Global, graph: &Graph) -> Result<(u32, u64), AllocError> {
    if graph.is_empty() {
        return Ok((0, 0));
    }
    let reach = Reach::build(alloc, graph)?;
    let mask = candidates(alloc, &reach, reach.len() - 1, &[0], false)?;
    let weights = weights(alloc, &reach, &mask, false)?;
    Ok((mask.count(), sum_of(weights.as_slice())))
}

fn sum_of(weights: &[u32]) -> u64 {
    let mut sum = 0u64;
    for weight in weights {
        sum = sum.wrapping_add(u64::from(*weight));
    }
    sum
}
