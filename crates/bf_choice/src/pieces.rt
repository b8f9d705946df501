//! The sizes of a graph whose last place reaches all others, piece by piece.
//!
//! Where each place from some base on has parents, and none of them lies before the place below the
//! base, each of these places reaches that place, and so all before the base.
ghost use Rattle.std.specs.Prelude.{◌≡◌, ◌+◌, ◌<◌, ◌≤◌, ◌^◌, true, length, map, All, IfOk, OnOk};
ghost use Rattle.std.specs.List.{range_with_len};
ghost use Rattle.bf_graph.specs.Graph.{IsGraph};
ghost use Rattle.bf_choice.specs.Pieces.{HasTop, HasBases, IsBase, IsPiece, MayEndWith, shifted};
ghost use Rattle.bf_choice.specs.Sizes.{reach_size, reach_sizes};

use crate::sizes::reach_sizes;
use bf_graph::Graph;
use std::alloc::{AllocError, Global};

/// A piece has as many places or more, but for the last.
const PIECE: u32 = 512;

/// By place, how many places it reaches, itself included.
pub(crate) fn sizes_by_pieces(alloc: Global, graph: &Graph) -> Result<Vec<u32>, AllocError>
    requires { HasTop graph.now }
    ensures graph { IsGraph graph.now }
    ensures sizes { IfOk result (λ sizes. sizes.items ≡ reach_sizes graph.now) }
{
    let bases = find_bases(alloc, graph)?;
    let mut sizes = Vec::with_capacity(alloc, graph.len() as usize)?;
    let mut base = 0;
    for place in 0..graph.len() {
        if ends_piece(bases.as_slice(), base, place) {
            push_piece(alloc, graph, base, place + 1, &mut sizes)?;
            base = place + 1;
        }
    }
    Ok(sizes)
}

/// Whether a piece from `base` ends with this place: the next place is a base, or there is none.
fn ends_piece(bases: &[bool], base: u32, place: u32) -> bool
    requires base { base ≤ place }
    requires place { place < length bases.now }
    ensures last { place + 1 ≡ length bases.now → result ≡ true }
    ensures next { result ≡ true → MayEndWith bases.now place }
{
    match bases.get(place as usize + 1) {
        None => true,
        Some(next) => *next && place - base >= PIECE - 1,
    }
}

/// Adds the sizes of the places from `base` up to `end`.
fn push_piece(
    alloc: Global,
    graph: &Graph,
    base: u32,
    end: u32,
    sizes: &mut Vec<u32>,
) -> Result<(), AllocError>
    requires graph { IsGraph graph.now }
    requires few { length graph.now < 2 ^ 32 }
    requires order { base ≤ end }
    requires end { end ≤ length graph.now }
    requires base { IsBase graph.now base }
    requires sizes { sizes.old.items ≡ map (reach_size graph.now) (range_with_len 0 base) }
    ensures { OnOk result (sizes.new.items ≡ map (reach_size graph.now) (range_with_len 0 end)) }
{
    let piece = piece_of(alloc, graph, base, end)?;
    let found = reach_sizes(alloc, &piece)?;
    for size in found.as_slice() {
        sizes.push(base + *size)?;
    }
    Ok(())
}

/// The graph of the places from `base` up to `end` alone, which are numbered from 0.
fn piece_of(alloc: Global, graph: &Graph, base: u32, end: u32) -> Result<Graph, AllocError>
    requires order { base ≤ end }
    requires end { end ≤ length graph.now }
    ensures { IfOk result (IsPiece graph.now base end) }
{
    let mut piece = Graph::new(alloc);
    let mut parents = Vec::new(alloc);
    for place in base..end {
        shift_parents(graph.parents(place), base, &mut parents)?;
        piece.push(parents.as_slice())?;
    }
    Ok(piece)
}

/// Makes `into` the parents from `base` on, counted from there.
fn shift_parents(parents: &[u32], base: u32, into: &mut Vec<u32>) -> Result<(), AllocError>
    ensures { OnOk result (into.new.items ≡ shifted base parents.now) }
{
    into.clear();
    for parent in parents {
        if base <= *parent {
            into.push(*parent - base)?;
        }
    }
    Ok(())
}

/// By place, whether it is a base. Not every base is found.
fn find_bases(alloc: Global, graph: &Graph) -> Result<Vec<bool>, AllocError>
    requires { HasTop graph.now }
    ensures graph { IsGraph graph.now }
    ensures bases { IfOk result (λ bases. HasBases graph.now bases.items) }
{
    let mut bases = vec![in alloc; false; graph.len() as usize]?;
    let mut bound = u32::MAX;
    for place in (0..graph.len()).rev() {
        bound = bound.min(lowest(graph.parents(place)));
        bases[place as usize] = may_start(place, bound);
    }
    Ok(bases)
}

/// Whether a place is a base, where no parent of it or a later place lies below the bound.
fn may_start(place: u32, bound: u32) -> bool
    ensures { result ≡ true → (1 < place) × (place ≤ bound + 1) }
{
    place > 1 && place - 1 <= bound
}

/// The lowest of some places, and 0 of none.
fn lowest(places: &[u32]) -> u32
    ensures some { 0 < result → 0 < length places.now }
    ensures lowest { All (λ place. result ≤ place) places.now }
{
    places.iter().copied().min().unwrap_or(0)
}
