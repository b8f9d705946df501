//! How nodes are made.
ghost use Rattle.std.specs.Prelude.{◌≡◌, ◌<◌, ◌++◌, ◌∷◌, [], length, IfOk, IsTrue, Some};
ghost use Rattle.std.specs.Arc.{arc_value};
ghost use Rattle.bf_search.specs.declared.asks.Ask.TheVariants.{Test};
ghost use Rattle.bf_state.specs.Ends.{HasEnds};
ghost use Rattle.bf_spec.specs.Nodes as nodes_;
ghost use Rattle.bf_spec.specs.Sights.{IsSight, IsOrder, IsFresh};

use crate::kept::Kept;
use crate::node::{Node, Order, Sight};
use bf_reach::{Reach, Row};
use bf_search::Mark;
use bf_state::{State, Weighed};
use std::alloc::{AllocError, Global};
use std::sync::Arc;

/// Whether two rows are the same.
fn is_same_row(row: &Row, other: &Row) -> Result<bool, AllocError>
    requires { length row.now ≡ length other.now }
    ensures { IfOk result (λ same. IsTrue same → row.now ≡ other.now) }
{
    let mut rest = row.try_clone()?;
    rest.and_not(other);
    if rest.count() != 0 {
        return Ok(false);
    }
    let mut back = other.try_clone()?;
    back.and_not(row);
    if back.count() != 0 {
        return Ok(false);
    }
    Ok(true)
}

/// A row, which is that of a node near by where it is the same.
fn shared(alloc: Global, near: Option<&Arc<Row>>, row: Row) -> Result<Arc<Row>, AllocError>
    ensures { IfOk result (λ shared. arc_value shared ≡ row) }
{
    if let Some(near) = near {
        if near.len() == row.len() && is_same_row(near, &row)? {
            return Arc::try_clone(near);
        }
    }
    Ok(Arc::new(alloc, row)?)
}

/// A node of a search that has asked, with the candidates that its ask had in hand.
fn fresh(
    alloc: Global,
    near: Option<&Arc<Row>>,
    path: Vec<Mark>,
    state: Kept,
    weighed: Weighed,
) -> Result<Node, AllocError>
    ensures { IfOk result (IsFresh path.items state weighed.step weighed.mask) }
{
    let sight = Sight {
        mask: shared(alloc, near, weighed.mask)?,
        order: None,
    };
    Ok(Node {
        path,
        state,
        step: weighed.step,
        sight,
    })
}

/// The root of a tree: a search that asks.
pub(crate) fn first(alloc: Global, reach: &Reach, mut state: State) -> Result<Node, AllocError>
    requires len { length reach.now ≡ state.len }
    requires ends { HasEnds state.search }
    ensures tree { IfOk result (nodes_.IsFirst reach.now state) }
    ensures path { IfOk result (λ node. nodes_.path_of node ≡ []) }
{
    let weighed = state.weigh(reach)?;
    prove!(state.len() == reach.len());
    let path = Vec::new(alloc);
    let kept = Kept::new(alloc, state)?;
    fresh(alloc, None, path, kept, weighed)
}

/// The path to a node that follows another by a mark.
fn longer(alloc: Global, parent: &Node, mark: Mark) -> Result<Vec<Mark>, AllocError>
    ensures { IfOk result (λ path. path.items ≡ nodes_.path_of parent.now ++ mark ∷ []) }
{
    let mut path = Vec::with_capacity(alloc, parent.path.len() + 1)?;
    path.extend_from_slice(parent.path.as_slice())?;
    path.push(mark)?;
    Ok(path)
}

/// The node that follows another by one mark of the place that it asks, whose candidates are looked at anew.
fn guessed(
    alloc: Global,
    reach: &Reach,
    parent: &Node,
    mark: Mark,
    place: u32,
) -> Result<Node, AllocError>
    requires len { length reach.now ≡ parent.now.state.len }
    requires asks { parent.now.step.ask ≡ Test place }
    requires below { place < length reach.now }
    ensures { IfOk result (λ child. nodes_.IsChild reach.now parent.now mark child) }
{
    let mut state = parent.state.state()?;
    state.mark(mark, place)?;
    let weighed = state.weigh(reach)?;
    prove!(state.len() == reach.len());
    let path = longer(alloc, parent, mark)?;
    let kept = parent.state.next(alloc, mark, place, state)?;
    fresh(alloc, Some(&parent.sight.mask), path, kept, weighed)
}

/// The order of the candidates of a node.
fn order_of(alloc: Global, reach: &Reach, node: &Node, bad: u32) -> Result<Order, AllocError>
    requires len { length reach.now ≡ node.now.state.len }
    requires bad { node.now.state.search.bad ≡ Some bad }
    requires sight { IsSight reach.now node.now.state.search node.now.sight }
    ensures { IfOk result (IsOrder reach.now node.now.state.search) }
{
    match &node.sight.order {
        Some(order) => Ok(Order {
            ranking: Arc::try_clone(&order.ranking)?,
            passed: order.passed,
        }),
        None => Ok(Order {
            ranking: Arc::new(
                alloc,
                node.state.state()?.rank(reach, bad, &node.sight.mask)?,
            )?,
            passed: 0,
        }),
    }
}

/// The node that follows another by a skip of the place that it asks. It shares the candidates.
fn skipped(
    alloc: Global,
    reach: &Reach,
    parent: &Node,
    bad: u32,
    place: u32,
) -> Result<Node, AllocError>
    requires len { length reach.now ≡ parent.now.state.len }
    requires bad { parent.now.state.search.bad ≡ Some bad }
    requires asks { parent.now.step.ask ≡ Test place }
    requires below { place < length reach.now }
    requires sight { IsSight reach.now parent.now.state.search parent.now.sight }
    ensures { IfOk result (λ child. nodes_.IsChild reach.now parent.now Mark.Skip child) }
{
    let before = order_of(alloc, reach, parent, bad)?;
    let mut state = parent.state.state()?;
    state.mark(Mark::Skip, place)?;
    let mask = Arc::try_clone(&parent.sight.mask)?;
    let ranked = state.advance_ranked(reach, &mask, &before.ranking, before.passed)?;
    prove!(state.len() == reach.len());
    let order = Some(Order {
        ranking: before.ranking,
        passed: ranked.passed,
    });
    let path = longer(alloc, parent, Mark::Skip)?;
    let kept = parent.state.next(alloc, Mark::Skip, place, state)?;
    Ok(Node {
        path,
        state: kept,
        step: ranked.step,
        sight: Sight { mask, order },
    })
}

/// The node that follows another by one mark of the place that it asks.
pub(crate) fn grown(
    alloc: Global,
    reach: &Reach,
    parent: &Node,
    mark: Mark,
    place: u32,
) -> Result<Node, AllocError>
    requires len { length reach.now ≡ parent.now.state.len }
    requires asks { parent.now.step.ask ≡ Test place }
    requires below { place < length reach.now }
    requires sight { IsSight reach.now parent.now.state.search parent.now.sight }
    ensures { IfOk result (λ child. nodes_.IsChild reach.now parent.now mark child) }
{
    match (mark, parent.state.bad()) {
        (Mark::Skip, Some(bad)) => skipped(alloc, reach, parent, bad, place),
        _ => guessed(alloc, reach, parent, mark, place),
    }
}
