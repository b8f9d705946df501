//! The rows of one block of 512 places.
ghost use Rattle.std.specs.Prelude.{◌≡◌, ◌+◌, ◌<◌, ◌≤◌, ◌^◌, length, slice_set, count_by, IfOk, IfSome};
ghost use Rattle.bf_graph.specs.Graph.{IsGraph};
ghost use Rattle.bf_reach.specs.Blocks.{row_at, empty_row};
ghost use Rattle.bf_choice.specs.Sizes.{parentage_of};
ghost use Rattle.bf_choice.specs.BlockRows.{number_in, numbered_row, own_row, block_row, is_apart, rows_needed, FitsGraph, AreFilled, HasBlockRows};

use crate::parents::{Parentage, parentage_of};
use bf_graph::Graph;
use bf_reach::{Blocks, COLUMNS};
use std::alloc::{AllocError, Global};

/// Which places of a block the places from its start on reach. Past the block, a place with a single
/// parent shares the row of its parent: only roots and merges have rows of their own there.
#[derive(Drop)]
pub(crate) struct SharedRows {
    /// The rows. Those that are not taken are empty.
    blocks: Blocks,
    /// How many rows are taken.
    taken: u32,
    /// By place, the number of its row. A place without one reaches no place of the block.
    numbers: Vec<Option<u32>>,
}

impl SharedRows {
    /// As many rows as a block of this graph may need.
    pub(crate) fn new(alloc: Global, graph: &Graph) -> Result<SharedRows, AllocError>
        ensures { IfOk result (FitsGraph graph.now) }
    {
        let blocks = Blocks::new(alloc, rows_needed(graph))?;
        let numbers = vec![in alloc; None; graph.len() as usize]?;
        Ok(SharedRows {
            blocks,
            taken: 0,
            numbers,
        })
    }

    /// Takes all rows back, for the block that starts here.
    pub(crate) fn clear(&mut self, graph: &Graph, start: u32)
        requires graph { IsGraph graph.now }
        requires rows { FitsGraph graph.now self.old }
        ensures { HasBlockRows graph.now start start self.new }
    {
        self.blocks.clear();
        self.taken = 0;
    }

    /// Gives a place its row, where the places before it have theirs.
    pub(crate) fn fill(&mut self, graph: &Graph, start: u32, place: u32)
        requires graph { IsGraph graph.now }
        requires few { length graph.now < 2 ^ 32 }
        requires place { place < length graph.now }
        requires start { start ≤ place }
        requires rows { HasBlockRows graph.now start place self.old }
        ensures { HasBlockRows graph.now start (place + 1) self.new }
    {
        match parentage_of(graph.parents(place)) {
            Parentage::Single(parent) if place - start >= COLUMNS => self.share_row(
                start, place, parent,
            ),
            _ => self.take_row(graph, start, place),
        }
    }

    /// Gives a place the row of its parent.
    fn share_row(&mut self, start: u32, place: u32, parent: u32)
        requires parent { parent < length self.old.numbers.items }
        requires place { place < length self.old.numbers.items }
        ensures blocks { self.new.blocks ≡ self.old.blocks }
        ensures taken { self.new.taken ≡ self.old.taken }
        ensures numbers { self.new.numbers.items ≡ slice_set self.old.numbers.items place (number_in start self.old.numbers.items parent) }
    {
        let number = self.number(start, parent);
        self.numbers[place as usize] = number;
    }

    /// Gives a place a row of its own.
    fn take_row(&mut self, graph: &Graph, start: u32, place: u32)
        requires graph { IsGraph graph.now }
        requires few { length graph.now < 2 ^ 32 }
        requires place { place < length graph.now }
        requires start { start ≤ place }
        requires room { self.old.taken < length self.old.blocks }
        requires rows { HasBlockRows graph.now start place self.old }
        ensures blocks { self.new.blocks ≡ slice_set self.old.blocks self.old.taken (block_row graph.now start place) }
        ensures taken { self.new.taken ≡ self.old.taken + 1 }
        ensures numbers { self.new.numbers.items ≡ slice_set self.old.numbers.items place (Some self.old.taken) }
    {
        self.mark_own(start, place);
        self.join_parents(graph, start, place);
        self.numbers[place as usize] = Some(self.taken);
        self.taken += 1;
    }

    /// Marks a place in the next row, where it is a place of the block.
    fn mark_own(&mut self, start: u32, place: u32)
        requires start { start ≤ place }
        requires room { self.old.taken < length self.old.blocks }
        requires empty { row_at self.old.blocks self.old.taken ≡ empty_row }
        ensures blocks { self.new.blocks ≡ slice_set self.old.blocks self.old.taken (own_row start place) }
        ensures taken { self.new.taken ≡ self.old.taken }
        ensures numbers { self.new.numbers ≡ self.old.numbers }
    {
        let column = place - start;
        if column < COLUMNS {
            self.blocks.set(self.taken, column);
        }
    }

    /// Joins the rows of its parents to the next row.
    fn join_parents(&mut self, graph: &Graph, start: u32, place: u32)
        requires graph { IsGraph graph.now }
        requires place { place < length graph.now }
        requires numbers { length self.old.numbers.items ≡ length graph.now }
        requires room { self.old.taken < length self.old.blocks }
        requires own { row_at self.old.blocks self.old.taken ≡ own_row start place }
        requires filled { AreFilled graph.now start place self.old }
        ensures blocks { self.new.blocks ≡ slice_set self.old.blocks self.old.taken (block_row graph.now start place) }
        ensures taken { self.new.taken ≡ self.old.taken }
        ensures numbers { self.new.numbers ≡ self.old.numbers }
    {
        for parent in graph.parents(place) {
            if let Some(number) = self.number(start, *parent) {
                self.blocks.or_row(self.taken, number);
            }
        }
    }

    /// How many places of the block a place reaches.
    pub(crate) fn count(&self, start: u32, place: u32) -> u32
        requires place { place < length self.now.numbers.items }
        requires row { IfSome (number_in start self.now.numbers.items place) (λ number. number < length self.now.blocks) }
        ensures { result ≡ count_by (λ value. value) (numbered_row self.now.blocks (number_in start self.now.numbers.items place)) }
    {
        match self.number(start, place) {
            Some(number) => self.blocks.count(number),
            None => 0,
        }
    }

    /// The number of a place's row. A place before the block has none: it reaches no place of it.
    fn number(&self, start: u32, place: u32) -> Option<u32>
        requires { place < length self.now.numbers.items }
        ensures { result ≡ number_in start self.now.numbers.items place }
    {
        if place < start {
            None
        } else {
            self.numbers[place as usize]
        }
    }
}

/// How many rows a block may need: one for each of its places, and one for each root and merge.
fn rows_needed(graph: &Graph) -> u32
    ensures { result ≡ rows_needed graph.now }
{
    let mut apart: u32 = 0;
    for place in 0..graph.len() {
        if is_apart(graph.parents(place)) {
            apart += 1;
        }
    }
    apart.saturating_add(COLUMNS).min(graph.len())
}

fn is_apart(parents: &[u32]) -> bool
    ensures { result ≡ is_apart (parentage_of parents.now) }
{
    !matches!(parentage_of(parents), Parentage::Single(_))
}
