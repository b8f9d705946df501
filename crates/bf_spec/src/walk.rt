//! The walk through the nodes.
ghost use Rattle.std.specs.Prelude.{◌≡◌, ◌↔◌, ◌<◌, length, IfSome, IfNone, IfOk, IsTrue};
ghost use Rattle.bf_search.specs.Outcomes.{outcomes_of_table};
ghost use Rattle.bf_search.specs.OpenPaths.{is_claimed};
ghost use Rattle.bf_spec.specs.Guessed.{look_of};
ghost use Rattle.bf_spec.specs.Nodes as nodes_;

use crate::grow::grown;
use crate::node::Node;
use crate::nodes::Nodes;
use crate::reroot::is_same;
use crate::table::Table;
use bf_reach::Reach;
use bf_search::{Ask, Claim, Mark, Verdict};
use bf_terms::verdict_of;
use std::alloc::{AllocError, Global};

/// What is to be done at the place that a node asks.
#[derive(Clone, Copy)]
pub enum Look {
    /// The path ends.
    Ended,
    /// Nobody tests the place.
    Free(u32),
    /// Its outcome is known.
    Known(u32, Mark),
    /// Its outcome is to be guessed.
    Guess(u32),
}

/// Where a walk along known outcomes stops.
pub enum Stop {
    /// The path ends.
    Ended,
    /// At this node, whose place nobody tests.
    Free(usize, u32),
    /// At this node, whose outcome is to be guessed.
    Guess(usize, u32),
}

/// The best open path so far: the place that it asks, how many candidates are left there, and its length.
#[derive(Clone, Copy)]
pub struct Found {
    pub place: u32,
    pub left: u32,
    pub depth: usize,
}

/// What a visit to a node comes to.
#[derive(Clone, Copy)]
pub enum Visit {
    /// The paths below it are one that ends, or this open one.
    Leaf(Option<Found>),
    /// The outcome of a place is guessed, and these nodes follow by good and by bad.
    Fork(usize, usize),
}

/// The node of a path.
pub(crate) fn find(nodes: &[Node], path: &[Mark]) -> Option<usize>
    ensures found { IfSome result (nodes_.IsAt nodes.now path.now) }
    ensures none { IfNone result (nodes_.HasPath nodes.now path.now → ⊥) }
{
    for (i, node) in nodes.iter().enumerate() {
        if is_same(node.path.as_slice(), path) {
            return Some(i);
        }
    }
    None
}

fn is_claimed(claims: &[Claim], place: u32) -> bool
    ensures { result ≡ is_claimed claims.now place }
{
    claims.iter().any(|claim| claim.place == place)
}

fn look_at(ask: &Ask, table: &Table, claims: &[Claim]) -> Look
    ensures { result ≡ look_of (outcomes_of_table table.now) claims.now ask.now }
{
    let Ask::Test(place) = ask else {
        return Look::Ended;
    };
    match table.find(*place) {
        Some(outcome) => match verdict_of(outcome) {
            Verdict::Mark(mark) => Look::Known(*place, mark),
            Verdict::Abort => Look::Ended,
        },
        None => {
            if is_claimed(claims, *place) {
                Look::Guess(*place)
            } else {
                Look::Free(*place)
            }
        }
    }
}

/// The node that follows a node by one mark, which is made where it is not there.
pub(crate) fn child(
    alloc: Global,
    reach: &Reach,
    nodes: &mut Nodes,
    index: usize,
    mark: Mark,
    place: u32,
) -> Result<usize, AllocError>
    requires index { index < length nodes.old.items }
    requires nodes { nodes_.AreNodes reach.now nodes.old.items }
    requires asks { nodes_.AsksFor nodes.old.items index place }
    ensures extends { nodes_.Extends reach.now nodes.old.items nodes.new.items }
    ensures child { IfOk result (nodes_.Follows nodes.old.items index mark nodes.new.items) }
{
    if let Some(found) = nodes.child(index, mark) {
        return Ok(found);
    }
    let child = grown(alloc, reach, &nodes[index], mark, place)?;
    let number = nodes.add(index, mark, child)?;
    Ok(number)
}

/// The better one of what was found first, below a good guess, and later, below a bad one.
fn better(good: Option<Found>, bad: Option<Found>) -> Option<Found>
    ensures { result ≡ nodes_.better_found good bad }
{
    match (good, bad) {
        (None, bad) => bad,
        (good, None) => good,
        (Some(good), Some(bad)) => {
            if good.left < bad.left || (bad.left == good.left && bad.depth < good.depth) {
                Some(bad)
            } else {
                Some(good)
            }
        }
    }
}

/// Walks along the known outcomes.
fn settle(
    alloc: Global,
    reach: &Reach,
    nodes: &mut Nodes,
    start: usize,
    table: &Table,
    claims: &[Claim],
) -> Result<Stop, AllocError>
    requires start { start < length nodes.old.items }
    requires nodes { nodes_.AreNodes reach.now nodes.old.items }
    ensures extends { nodes_.Extends reach.now nodes.old.items nodes.new.items }
    ensures stops { IfOk result (nodes_.StopsFrom
        (nodes_.known_by reach.now table.now claims.now) nodes.old.items start nodes.new.items) }
{
    let mut index = start;
    loop {
        match look_at(&nodes[index].step.ask, table, claims) {
            Look::Ended => return Ok(Stop::Ended),
            Look::Free(place) => return Ok(Stop::Free(index, place)),
            Look::Guess(place) => return Ok(Stop::Guess(index, place)),
            Look::Known(place, mark) => index = child(alloc, reach, nodes, index, mark, place)?,
        }
    }
}

/// What a visit to a node comes to. A place whose outcome is guessed gets both of its children.
fn visited(
    alloc: Global,
    reach: &Reach,
    nodes: &mut Nodes,
    start: usize,
    table: &Table,
    claims: &[Claim],
) -> Result<Visit, AllocError>
    requires start { start < length nodes.old.items }
    requires nodes { nodes_.AreNodes reach.now nodes.old.items }
    ensures extends { nodes_.Extends reach.now nodes.old.items nodes.new.items }
    ensures visit { IfOk result (nodes_.VisitsFrom
        (nodes_.known_by reach.now table.now claims.now) nodes.old.items start nodes.new.items) }
{
    match settle(alloc, reach, nodes, start, table, claims)? {
        Stop::Ended => Ok(Visit::Leaf(None)),
        Stop::Free(index, place) => Ok(Visit::Leaf(Some(Found {
            place,
            left: nodes[index].sight.mask.count(),
            depth: nodes[index].path.as_slice().len(),
        }))),
        Stop::Guess(index, place) => {
            let good = child(alloc, reach, nodes, index, Mark::Good, place)?;
            let bad = child(alloc, reach, nodes, index, Mark::Bad, place)?;
            Ok(Visit::Fork(good, bad))
        }
    }
}

/// The best open path below a node. Paths may be as long as there are claims, so the nodes that are still to
/// be visited stand in a list, and not on the stack: those behind good come before those behind bad.
pub(crate) fn best_from(
    alloc: Global,
    reach: &Reach,
    nodes: &mut Nodes,
    start: usize,
    table: &Table,
    claims: &[Claim],
) -> Result<Option<Found>, AllocError>
    requires start { start < length nodes.old.items }
    requires nodes { nodes_.AreNodes reach.now nodes.old.items }
    ensures extends { nodes_.Extends reach.now nodes.old.items nodes.new.items }
    ensures found { IfOk result (nodes_.IsBestFrom
        (nodes_.known_by reach.now table.now claims.now) nodes.old.items start nodes.new.items) }
{
    let mut pending = Vec::new(alloc);
    let mut best = None;
    let mut index = start;
    loop {
        match visited(alloc, reach, nodes, index, table, claims)? {
            Visit::Leaf(found) => {
                best = better(best, found);
                match pending.pop() {
                    Some(next) => index = next,
                    None => return Ok(best),
                }
            }
            Visit::Fork(good, bad) => {
                pending.push(bad)?;
                index = good;
            }
        }
    }
}
