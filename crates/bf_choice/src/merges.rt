//! How many places each merge of a graph reaches, counted in blocks of 512.
ghost use Rattle.std.specs.Prelude.{◌≡◌, ◌↔◌, ◌+◌, ◌<◌, ◌≤◌, ◌^◌, true, false, length, IfOk, OnOk};
ghost use Rattle.bf_graph.specs.Graph.{IsGraph};
ghost use Rattle.bf_choice.specs.Sizes.{parentage_of, HasNoMerge, CountsMerges, CountsBlock};
ghost use Rattle.bf_choice.specs.BlockRows.{FitsGraph, HasBlockRows};

use crate::parents::{Parentage, parentage_of};
use crate::sharing::SharedRows;
use bf_graph::Graph;
use bf_reach::COLUMNS;
use std::alloc::{AllocError, Global};

/// The sizes of the merges. What stands at other places says nothing.
pub(crate) fn merge_sizes(alloc: Global, graph: &Graph) -> Result<Vec<u32>, AllocError>
    ensures graph { IsGraph graph.now }
    ensures sizes { IfOk result (λ sizes. CountsMerges graph.now (length graph.now) sizes.items) }
{
    let mut sizes = vec![in alloc; 0u32; graph.len() as usize]?;
    if !has_merge(graph) {
        return Ok(sizes);
    }
    count_merges(alloc, graph, sizes.as_mut_slice())?;
    Ok(sizes)
}

fn has_merge(graph: &Graph) -> bool
    ensures { result ≡ false → HasNoMerge graph.now }
{
    for place in 0..graph.len() {
        if is_merge(graph.parents(place)) {
            return true;
        }
    }
    false
}

fn is_merge(parents: &[u32]) -> bool
    ensures { (result ≡ true) ↔ (parentage_of parents.now ≡ Parentage.Merge) }
{
    matches!(parentage_of(parents), Parentage::Merge)
}

fn count_merges(alloc: Global, graph: &Graph, sizes: &mut [u32]) -> Result<(), AllocError>
    requires { CountsMerges graph.now 0 sizes.old }
    ensures { OnOk result (CountsMerges graph.now (length graph.now) sizes.new) }
{
    let mut rows = SharedRows::new(alloc, graph)?;
    for block in 0..graph.len().div_ceil(COLUMNS) {
        count_block(graph, block * COLUMNS, &mut rows, sizes);
    }
    Ok(())
}

/// Counts for each merge the places of one block that it reaches.
fn count_block(graph: &Graph, start: u32, rows: &mut SharedRows, sizes: &mut [u32])
    requires graph { IsGraph graph.now }
    requires rows { FitsGraph graph.now rows.old }
    requires counted { CountsMerges graph.now start sizes.old }
    ensures rows { FitsGraph graph.now rows.new }
    ensures counted { CountsMerges graph.now (start + 512) sizes.new }
{
    rows.clear(graph, start);
    for place in start..graph.len() {
        rows.fill(graph, start, place);
        count_row(graph, start, place, rows, sizes);
    }
}

/// Adds what a merge reaches in the block.
fn count_row(graph: &Graph, start: u32, place: u32, rows: &SharedRows, sizes: &mut [u32])
    requires graph { IsGraph graph.now }
    requires place { place < length graph.now }
    requires few { length graph.now < 2 ^ 32 }
    requires start { start ≤ place }
    requires rows { HasBlockRows graph.now start (place + 1) rows.now }
    requires counted { CountsBlock graph.now start place sizes.old }
    ensures { CountsBlock graph.now start (place + 1) sizes.new }
{
    if is_merge(graph.parents(place)) {
        sizes[place as usize] += rows.count(start, place);
    }
}
