//! Whether some path asks for a place.
ghost use Rattle.std.specs.Prelude.{◌≡◌, ◌<◌, length, IfOk, IsTrue};
ghost use Rattle.std.specs.Arc.{arc_value};
ghost use Rattle.bf_spec.specs.Nodes as nodes_;
ghost use Rattle.bf_spec.specs.Ways.{is_no_candidate, is_told, may_be_asked, way_from, TellsIfAskedFrom, GoesTowards};
ghost use Rattle.bf_spec.specs.Ways.{IsSure, IsUntold};

use crate::kept::Kept;
use crate::node::Node;
use crate::nodes::Nodes;
use crate::table::Table;
use crate::walk::child;
use bf_reach::{Reach, Row};
use bf_search::{Ask, Mark, Outcome, Verdict};
use bf_terms::verdict_of;
use std::alloc::{AllocError, Global};

/// Where a path that asks for a place goes on from a node.
#[derive(Clone, Copy)]
pub enum Way {
    /// The node asks for the place.
    Here,
    /// No path from here asks for it.
    Nowhere,
    /// By this mark of the place that the node asks for.
    Goes(u32, Mark),
    /// By a guess at the place that the node asks for.
    Guesses(u32),
}

/// Whether only candidates are asked for from a search on.
fn is_checked(state: &Kept) -> bool
    ensures { result ≡ state.now.search.checked }
{
    state.is_checked()
}

/// Whether only candidates are asked for from a node on, and a place is none of them.
fn is_no_candidate(node: &Node, place: u32) -> bool
    requires { place < length (arc_value node.now.sight.mask) }
    ensures { result ≡ is_no_candidate node.now place }
{
    is_checked(&node.state) && !node.sight.mask.get(place)
}

/// A node whose check has passed asks for candidates alone, and so do those that follow it.
fn way_at(node: &Node, table: &Table, place: u32) -> Way
    requires { place < length (arc_value node.now.sight.mask) }
    ensures { result ≡ way_from table.now node.now place }
{
    let Ask::Test(asked) = node.step.ask else {
        return Way::Nowhere;
    };
    if asked == place {
        return Way::Here;
    }
    if is_no_candidate(node, place) {
        return Way::Nowhere;
    }
    match table.find(asked) {
        Some(outcome) => match verdict_of(outcome) {
            Verdict::Mark(mark) => Way::Goes(asked, mark),
            Verdict::Abort => Way::Nowhere,
        },
        None => Way::Guesses(asked),
    }
}

/// The node that follows by the one guess that can lead on to a place. After a passed check that is bad exactly
/// where the place is a candidate there.
fn child_towards(
    alloc: Global,
    reach: &Reach,
    nodes: &mut Nodes,
    index: usize,
    asked: u32,
    place: u32,
) -> Result<usize, AllocError>
    requires index { index < length nodes.old.items }
    requires nodes { nodes_.AreNodes reach.now nodes.old.items }
    requires asks { nodes_.AsksFor nodes.old.items index asked }
    requires place { place < length reach.now }
    ensures extends { nodes_.Extends reach.now nodes.old.items nodes.new.items }
    ensures child { IfOk result
        (GoesTowards reach.now nodes.old.items index asked place nodes.new.items) }
{
    if !is_checked(&nodes[index].state) {
        return child(alloc, reach, nodes, index, Mark::Good, asked);
    }
    let bad = child(alloc, reach, nodes, index, Mark::Bad, asked)?;
    if nodes[bad].sight.mask.get(place) {
        return Ok(bad);
    }
    child(alloc, reach, nodes, index, Mark::Good, asked)
}

/// Whether a place may be asked from a node on: it is a candidate, neither the bad place nor
/// skipped.
fn may_be_asked(node: &Node, skips: &Row, place: u32) -> bool
    requires mask { place < length (arc_value node.now.sight.mask) }
    requires skips { skips.now ≡ node.now.state.search.skips }
    requires within { place < length skips.now }
    ensures { result ≡ may_be_asked node.now place }
{
    node.sight.mask.get(place) && node.state.bad() != Some(place) && !skips.get(place)
}

/// Whether an outcome is known that says more than that its place is skipped.
fn is_told(outcome: Option<Outcome>) -> bool
    ensures { result ≡ is_told outcome }
{
    match outcome {
        None => false,
        Some(outcome) => match verdict_of(outcome) {
            Verdict::Mark(Mark::Skip) => false,
            Verdict::Mark(Mark::Good | Mark::Bad) | Verdict::Abort => true,
        },
    }
}

/// Whether the places that may be asked from a node on have no outcome but skips.
fn is_untold(node: &Node, skips: &Row, table: &Table) -> bool
    requires skips { skips.now ≡ node.now.state.search.skips }
    requires len { length skips.now ≡ length (arc_value node.now.sight.mask) }
    ensures { IsTrue result → IsUntold table.now node.now }
{
    for place in 0..node.sight.mask.len() {
        if is_told(table.find(place)) && may_be_asked(node, skips, place) {
            return false;
        }
    }
    true
}

/// Whether some path from a node asks for a place, since every guess is left open there: the
/// check has passed, the place may be asked, and those that may be have no outcome but skips.
fn is_sure(node: &Node, table: &Table, place: u32) -> Result<bool, AllocError>
    requires mask { place < length (arc_value node.now.sight.mask) }
    requires skips { length node.now.state.search.skips ≡ length (arc_value node.now.sight.mask) }
    ensures { IfOk result (λ sure. IsTrue sure → IsSure table.now node.now place) }
{
    if !is_checked(&node.state) {
        return Ok(false);
    }
    let state = node.state.state()?;
    Ok(may_be_asked(node, &state.skips, place) && is_untold(node, &state.skips, table))
}

/// Whether a node has not yet been followed by both guesses.
fn is_edge(nodes: &Nodes, index: usize) -> bool {
    nodes.child(index, Mark::Good).is_none() || nodes.child(index, Mark::Bad).is_none()
}

/// Whether some path from a node asks for a place. Where every guess is left open it makes no node.
pub(crate) fn is_asked_from(
    alloc: Global,
    reach: &Reach,
    nodes: &mut Nodes,
    start: usize,
    table: &Table,
    place: u32,
) -> Result<bool, AllocError>
    requires start { start < length nodes.old.items }
    requires nodes { nodes_.AreNodes reach.now nodes.old.items }
    requires place { place < length reach.now }
    ensures extends { nodes_.Extends reach.now nodes.old.items nodes.new.items }
    ensures asked { IfOk result
        (TellsIfAskedFrom reach.now table.now nodes.old.items start place) }
{
    let mut index = start;
    loop {
        match way_at(&nodes[index], table, place) {
            Way::Here => return Ok(true),
            Way::Nowhere => return Ok(false),
            Way::Goes(asked, mark) => index = child(alloc, reach, nodes, index, mark, asked)?,
            Way::Guesses(asked) => {
                if is_edge(nodes, index) && is_sure(&nodes[index], table, place)? {
                    return Ok(true);
                }
                index = child_towards(alloc, reach, nodes, index, asked, place)?;
            }
        }
    }
}
