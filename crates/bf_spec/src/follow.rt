//! The run over the outcomes that are known.
ghost use Rattle.std.specs.Prelude.{◌≡◌, ℕ, ◌<◌, ◌++◌, ◌∷◌, [], false, List, length, IfOk, OnOk};
ghost use Rattle.std.specs.List.{slice_index_or};
ghost use Rattle.bf_search.specs.Farm.{end_of};
ghost use Rattle.bf_search.specs.Outcomes.{outcomes_of_table};
ghost use Rattle.bf_search.specs.Run as runs;
ghost use Rattle.bf_spec.specs.Nodes as nodes_;
ghost use Rattle.bf_spec.specs.Walks.{IsAnswer, answer_entries, next_of, is_over, run_at};
ghost use Rattle.bf_spec.specs.Walks.{HaltsAt, IsEndedAt, IsOverAt, WalksHalted, WalksRun};
ghost use Rattle.bf_spec.specs.declared.node.Node.{Node as NodeValue};

use crate::node::Node;
use crate::nodes::Nodes;
use crate::table::Table;
use crate::walk::child;
use bf_reach::Reach;
use bf_search::{Ask, Ending, Entry, Mark, Outcome, Verdict, push_warnings};
use bf_state::State;
use bf_terms::verdict_of;
use std::alloc::{AllocError, Global};

/// A run of a search as far as its outcomes are known.
#[derive(Drop)]
pub struct Walked {
    /// What it logs, in order.
    pub entries: Vec<Entry>,
    /// How it ended, and none exactly where it waits for an outcome.
    pub ending: Option<Ending>,
    /// The state that it reached. At the end of a leg it has not asked since its last mark.
    pub state: State,
    /// Its marks, in order.
    pub path: Vec<Mark>,
}

/// What follows an ask.
#[derive(Clone, Copy)]
pub enum Next {
    /// No test is asked.
    Answered,
    /// The outcome of the place is not known.
    Waits,
    /// The outcome of the place ends the run.
    Aborted(u32, Outcome),
    /// The place is marked.
    Marked(u32, Mark),
}

/// Where a run halts.
#[derive(Clone, Copy)]
pub enum Halt {
    /// This node asks for no test.
    Answered(usize),
    /// The outcome that this node asks for is not known.
    Waits(usize),
    /// The outcome that this node asks for ends the run.
    Aborted(usize, u32, Outcome),
    /// The leg is over after this node's mark of this place, which leads to the other node.
    Over(usize, usize, Mark, u32),
}

fn next_at(ask: &Ask, table: &Table) -> Next
    ensures { result ≡ next_of (outcomes_of_table table.now) ask.now }
{
    let Ask::Test(place) = ask else {
        return Next::Answered;
    };
    match table.find(*place) {
        Some(outcome) => match verdict_of(outcome) {
            Verdict::Mark(mark) => Next::Marked(*place, mark),
            Verdict::Abort => Next::Aborted(*place, outcome),
        },
        None => Next::Waits,
    }
}

fn is_over(left: Option<u32>) -> bool
    ensures { result ≡ is_over left }
{
    matches!(left, Some(0))
}

fn one_less(left: Option<u32>) -> Option<u32>
    ensures { result ≡ runs.marked_one left }
{
    match left {
        Some(left) => Some(left.saturating_sub(1)),
        None => None,
    }
}

/// Adds the entry of an answer, if it has one, and returns the ending that it tells.
fn answer(entries: &mut Vec<Entry>, ask: &Ask) -> Result<Ending, AllocError>
    requires { IsAnswer ask.now }
    ensures entries { OnOk result
        (entries.new.items ≡ entries.old.items ++ answer_entries ask.now) }
    ensures ending { IfOk result (λ ending. end_of ending ≡ runs.End.Answered ask.now) }
{
    match ask {
        Ask::FirstBad(place) => {
            entries.push(Entry::FirstBadFound { place: *place })?;
            Ok(Ending::FirstBad(*place))
        }
        Ask::OnlySkipped(places) => {
            entries.push(Entry::OnlySkippedLeft {
                places: places.try_clone()?,
            })?;
            Ok(Ending::OnlySkipped(places.try_clone()?))
        }
        Ask::MergeBaseBad(place) => Ok(Ending::MergeBaseBad(*place)),
        Ask::GoodNotAncestor(place) => Ok(Ending::GoodNotAncestor(*place)),
        Ask::BothSides(place) => Ok(Ending::BothSides(*place)),
        Ask::Test(_) | Ask::WaitBoth | Ask::WaitBad | Ask::WaitGood => unreachable!(),
    }
}

/// Follows the known outcomes from a node to where the run halts.
fn follow(
    alloc: Global,
    reach: &Reach,
    nodes: &mut Nodes,
    start: usize,
    table: &Table,
    left: Option<u32>,
    entries: &mut Vec<Entry>,
) -> Result<Halt, AllocError>
    requires start { start < length nodes.old.items }
    requires nodes { nodes_.AreNodes reach.now nodes.old.items }
    requires left { is_over left ≡ false }
    requires entries { entries.old.items ≡ [] }
    requires root { (d : NodeValue) → nodes_.path_of (slice_index_or nodes.old.items start d) ≡ [] }
    ensures extends { nodes_.Extends reach.now nodes.old.items nodes.new.items }
    ensures halts { IfOk result (λ halt. (d : NodeValue) →
        HaltsAt nodes.new.items entries.new.items halt
        (run_at reach.now table.now left nodes.old.items start d)) }
{
    let mut index = start;
    let mut left = left;
    loop {
        match next_at(&nodes[index].step.ask, table) {
            Next::Answered => return Ok(Halt::Answered(index)),
            Next::Waits => return Ok(Halt::Waits(index)),
            Next::Aborted(place, outcome) => return Ok(Halt::Aborted(index, place, outcome)),
            Next::Marked(place, mark) => {
                let next = child(alloc, reach, nodes, index, mark, place)?;
                entries.push(Entry::Marked { mark, place })?;
                left = one_less(left);
                if is_over(left) {
                    return Ok(Halt::Over(index, next, mark, place));
                }
                push_warnings(entries, nodes[next].step.warned.as_slice())?;
                index = next;
            }
        }
    }
}

/// A run that halts at a node.
fn ended_at(
    alloc: Global,
    node: &Node,
    entries: Vec<Entry>,
    ending: Option<Ending>,
) -> Result<Walked, AllocError>
    ensures { IfOk result (IsEndedAt node.now entries.items ending) }
{
    let state = node.state.state()?;
    let path = Vec::from_slice(alloc, node.path.as_slice())?;
    Ok(Walked {
        entries,
        ending,
        state,
        path,
    })
}

/// A run whose leg is over after a mark that leads from one node to another.
fn over_at(
    alloc: Global,
    from: &Node,
    to: &Node,
    mark: Mark,
    place: u32,
    entries: Vec<Entry>,
) -> Result<Walked, AllocError>
    requires { place < from.now.state.len }
    ensures { IfOk result (IsOverAt from.now to.now mark place entries.items) }
{
    let mut state = from.state.state()?;
    state.mark(mark, place)?;
    let path = Vec::from_slice(alloc, to.path.as_slice())?;
    Ok(Walked {
        entries,
        ending: Some(Ending::Leg),
        state,
        path,
    })
}

/// The run that halted there.
fn halted(
    alloc: Global,
    nodes: &[Node],
    halt: Halt,
    mut entries: Vec<Entry>,
) -> Result<Walked, AllocError>
    requires halts { (run : runs.Run) × HaltsAt nodes.now entries.items halt run }
    requires places { (graph : List (List ℕ)) × nodes_.AreNodes graph nodes.now }
    ensures { IfOk result (WalksHalted nodes.now entries.items halt) }
{
    match halt {
        Halt::Answered(index) => {
            let ending = answer(&mut entries, &nodes[index].step.ask)?;
            ended_at(alloc, &nodes[index], entries, Some(ending))
        }
        Halt::Waits(index) => ended_at(alloc, &nodes[index], entries, None),
        Halt::Aborted(index, place, outcome) => ended_at(
            alloc,
            &nodes[index],
            entries,
            Some(Ending::Aborted { place, outcome }),
        ),
        Halt::Over(index, next, mark, place) => {
            over_at(alloc, &nodes[index], &nodes[next], mark, place, entries)
        }
    }
}

/// The run from the root.
pub(crate) fn run_from(
    alloc: Global,
    reach: &Reach,
    nodes: &mut Nodes,
    start: usize,
    table: &Table,
    left: Option<u32>,
) -> Result<Walked, AllocError>
    requires start { start < length nodes.old.items }
    requires nodes { nodes_.AreNodes reach.now nodes.old.items }
    requires root { (d : NodeValue) → nodes_.path_of (slice_index_or nodes.old.items start d) ≡ [] }
    ensures extends { nodes_.Extends reach.now nodes.old.items nodes.new.items }
    ensures walked { IfOk result
        (WalksRun reach.now table.now left nodes.old.items nodes.new.items) }
{
    let mut entries = Vec::new(alloc);
    if is_over(left) {
        return ended_at(alloc, &nodes[start], entries, Some(Ending::Leg));
    }
    let halt = follow(alloc, reach, nodes, start, table, left, &mut entries)?;
    halted(alloc, nodes.as_slice(), halt, entries)
}
