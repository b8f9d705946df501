//! The weights by way of the graph of the candidates alone.
ghost use Rattle.std.specs.Prelude.{◌≡◌, ◌<◌, length, IfOk};
ghost use Rattle.bf_search.specs.Candidates.{IsCandidateRow, weights};
ghost use Rattle.bf_choice.specs.Numbering.{number_of, candidate_numbers, size_of_number, sizes_by_place};

use crate::numbering::{candidate_graph, candidate_numbers};
use crate::pieces::sizes_by_pieces;
use bf_reach::{Reach, Row};
use std::alloc::{AllocError, Global};

/// By place, how many candidates each candidate reaches in the mode, itself included, and 0 for a place
/// that is no candidate.
///
/// `mask` has the candidates of some bad and good places in this mode: then a path between two of them
/// has candidates alone, so the weights can be counted among the candidates.
pub fn weights(
    alloc: Global,
    reach: &Reach,
    mask: &Row,
    first_parent: bool,
) -> Result<Vec<u32>, AllocError>
    requires { IsCandidateRow reach.now first_parent mask.now }
    ensures { IfOk result (λ w. w.items ≡ weights reach.now mask.now first_parent) }
{
    let numbers = candidate_numbers(alloc, mask)?;
    let small = candidate_graph(alloc, reach.graph(), mask, numbers.as_slice(), first_parent)?;
    let sizes = sizes_by_pieces(alloc, &small)?;
    by_place(alloc, mask, numbers.as_slice(), sizes.as_slice())
}

/// Gives each candidate the size of its number.
fn by_place(
    alloc: Global,
    mask: &Row,
    numbers: &[u32],
    sizes: &[u32],
) -> Result<Vec<u32>, AllocError>
    requires numbers { numbers.now ≡ candidate_numbers mask.now }
    requires sizes { length sizes.now ≡ number_of mask.now (length mask.now) }
    ensures { IfOk result (λ w. w.items ≡ sizes_by_place mask.now sizes.now) }
{
    let mut weights = Vec::with_capacity(alloc, numbers.len())?;
    for place in 0..mask.len() {
        weights.push(weight_at(mask, numbers, sizes, place))?;
    }
    Ok(weights)
}

fn weight_at(mask: &Row, numbers: &[u32], sizes: &[u32], place: u32) -> u32
    requires place { place < length mask.now }
    requires numbers { numbers.now ≡ candidate_numbers mask.now }
    requires sizes { length sizes.now ≡ number_of mask.now (length mask.now) }
    ensures { result ≡ size_of_number mask.now sizes.now place }
{
    if mask.get(place) {
        sizes[numbers[place as usize] as usize]
    } else {
        0
    }
}
