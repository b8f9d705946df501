//! Searches over small graphs.
ghost use Rattle.std.specs.Prelude.{◌≡◌, ◌<◌, [], length, All, IfOk, OnOk};
ghost use Rattle.bf_state.specs.Weighed.{mask_of, AreNeeded};

use bf_graph::{Graph, Places};
use bf_reach::{Reach, Row};
use bf_search::{Ask, Mark, Step};
use bf_state::{State, Weighed};
use bf_terms::Terms;
use std::alloc::{AllocError, Global};
use std::process::Abort;
use std::test::Fail;

/// Two branches of one root.
fn push_fork(graph: &mut Graph) -> Result<(), AllocError>
    requires { graph.old ≡ [] }
    ensures { OnOk result (length graph.new ≡ 3) }
{
    graph.push(&[])?;
    graph.push(&[0])?;
    graph.push(&[0])?;
    Ok(())
}

fn fork(alloc: Global) -> Result<Reach, AllocError>
    ensures { IfOk result (λ reach. length reach ≡ 3) }
{
    let mut graph = Graph::new(alloc);
    push_fork(&mut graph)?;
    Reach::build(alloc, &graph)
}

/// A root, two branches and their merge.
fn push_diamond(graph: &mut Graph) -> Result<(), AllocError>
    requires { graph.old ≡ [] }
    ensures { OnOk result (length graph.new ≡ 4) }
{
    push_fork(graph)?;
    graph.push(&[1, 2])?;
    Ok(())
}

fn diamond(alloc: Global) -> Result<Reach, AllocError>
    ensures { IfOk result (λ reach. length reach ≡ 4) }
{
    let mut graph = Graph::new(alloc);
    push_diamond(&mut graph)?;
    Reach::build(alloc, &graph)
}

/// A search with these ends, a bad place and a good one.
fn between(alloc: Global, len: u32, ends: (u32, u32)) -> Result<State, AllocError>
    requires bad { ends.0 < len }
    requires good { ends.1 < len }
    ensures { IfOk result (λ state. state.len ≡ len) }
{
    let terms = Terms::standard(alloc)?;
    State::new(alloc, len, terms, false, false, Some(ends.0), &[ends.1])
}

/// Whether this is asked after each place that was asked got the next of these marks.
fn asks(
    alloc: Global,
    reach: &Reach,
    ends: (u32, u32),
    marks: &[Mark],
    wanted: &Ask,
) -> Result<bool, AllocError>
    requires bad { ends.0 < length reach.now }
    requires good { ends.1 < length reach.now }
{
    let mut state = between(alloc, reach.len(), ends)?;
    for mark in marks {
        mark_asked(&mut state, reach, *mark)?;
    }
    asks_next(&mut state, reach, wanted)
}

fn asks_next(state: &mut State, reach: &Reach, wanted: &Ask) -> Result<bool, AllocError>
    requires { length reach.now ≡ state.old.len }
{
    Ok(state.advance(reach)?.ask == *wanted)
}

fn mark_asked(state: &mut State, reach: &Reach, mark: Mark) -> Result<(), AllocError>
    requires { length reach.now ≡ state.old.len }
    ensures { state.new.len ≡ state.old.len }
{
    if let Ask::Test(place) = state.advance(reach)?.ask {
        state.mark(mark, place)?;
    }
    Ok(())
}

/// A search with these good places and no bad one, whose terms are open.
fn without_bad(alloc: Global, len: u32, goods: &[u32]) -> Result<State, AllocError>
    requires { All (λ good. good < len) goods.now }
    ensures { IfOk result (λ state. state.len ≡ len) }
{
    let terms = Terms::standard(alloc)?;
    State::new(alloc, len, terms, true, false, None, goods)
}

/// What a mark warns of that is made after these.
fn warned_by(
    alloc: Global,
    reach: &Reach,
    marks: &[(Mark, u32)],
    last: (Mark, u32),
) -> Result<Vec<u32>, AllocError>
    requires marks { All (λ m. m.1 < length reach.now) marks.now }
    requires last { last.1 < length reach.now }
{
    let mut state = without_bad(alloc, reach.len(), &[])?;
    for (mark, place) in marks {
        state.take(reach, *mark, *place)?;
    }
    state.take(reach, last.0, last.1)
}

fn mask_of_ask(reach: &Reach, state: &mut State) -> Result<Row, AllocError>
    requires { length reach.now ≡ state.old.len }
    ensures { IfOk result (λ mask. mask ≡ mask_of reach.now state.old.search) }
{
    Ok(state.weigh(reach)?.mask)
}

/// The candidates that an ask of a state hands out.
fn mask_again(reach: &Reach, state: &State) -> Result<Row, AllocError>
    requires { length reach.now ≡ state.now.len }
    ensures { IfOk result (λ mask. mask ≡ mask_of reach.now state.now.search) }
{
    let mut copy = state.try_clone()?;
    mask_of_ask(reach, &mut copy)
}

/// A second ask over the candidates of a first, each of the same state.
fn weighed_again(reach: &Reach, state: &State) -> Result<Weighed, AllocError>
    requires { length reach.now ≡ state.now.len }
    ensures mask { IfOk result (λ weighed. weighed.mask ≡ mask_of reach.now state.now.search) }
    ensures weights { IfOk result (λ weighed. AreNeeded reach.now state.now weighed.weights) }
{
    let mask = mask_again(reach, state)?;
    state.try_clone()?.weigh_over(reach, mask)
}

/// The weights of a state, and what is asked over them. There are none where an ask needs none.
fn asked_over(reach: &Reach, state: &State) -> Result<Option<(Vec<u32>, Step)>, AllocError>
    requires { length reach.now ≡ state.now.len }
{
    let Weighed { mask, weights, .. } = weighed_again(reach, state)?;
    let Some(weights) = weights else {
        return Ok(None);
    };
    let step = state
        .try_clone()?
        .advance_over(reach, &mask, weights.as_slice())?;
    Ok(Some((weights, step)))
}

fn fork_asks(rt: &impl Abort, alloc: Global, reach: &Reach) -> Result<(), AllocError>
    requires { length reach.now ≡ 3 }
{
    let ends = (1, 2);
    assert!(rt; asks(alloc, reach, ends, &[], &Ask::Test(0))?);
    assert!(rt; asks(alloc, reach, ends, &[Mark::Good], &Ask::FirstBad(1))?);
    assert!(rt; asks(alloc, reach, ends, &[Mark::Bad], &Ask::MergeBaseBad(0))?);
    assert!(rt; asks(alloc, reach, ends, &[Mark::Skip], &Ask::FirstBad(1))?);
    Ok(())
}

#[test]
fn the_base_of_a_fork(rt: HostRuntime) -> Result<(), Fail> {
    let reach = fork(rt.alloc())?;
    fork_asks(&rt, rt.alloc(), &reach)?;
    Ok(())
}

fn diamond_asks(rt: &impl Abort, alloc: Global, reach: &Reach) -> Result<(), AllocError>
    requires { length reach.now ≡ 4 }
{
    let twice = [Mark::Good, Mark::Good];
    assert!(rt; asks(alloc, reach, (3, 0), &[Mark::Good], &Ask::Test(2))?);
    assert!(rt; asks(alloc, reach, (3, 0), &twice, &Ask::FirstBad(3))?);
    assert!(rt; asks(alloc, reach, (1, 3), &[], &Ask::GoodNotAncestor(1))?);
    Ok(())
}

#[test]
fn the_sides_of_a_diamond(rt: HostRuntime) -> Result<(), Fail> {
    let reach = diamond(rt.alloc())?;
    diamond_asks(&rt, rt.alloc(), &reach)?;
    Ok(())
}

#[test]
fn a_skipped_base_is_warned_of(rt: HostRuntime) -> Result<(), Fail> {
    let reach = fork(rt.alloc())?;
    let marks = [(Mark::Skip, 0), (Mark::Good, 2), (Mark::Bad, 1)];
    let warned = warned_by(rt.alloc(), &reach, &marks, (Mark::Good, 0))?;
    assert_eq!(rt; warned.as_slice(), [0].as_slice());
    Ok(())
}

/// The good places of a copy of a search.
fn copied_goods(state: &State) -> Result<Places, AllocError> {
    let copy = state.try_clone()?;
    copy.goods.to_places()
}

#[test]
fn a_copy_has_each_good_place_once(rt: HostRuntime) -> Result<(), Fail> {
    let state = without_bad(rt.alloc(), 3, &[2, 0, 2])?;
    let goods = copied_goods(&state)?;
    assert_eq!(rt; goods.as_slice(), [2, 0].as_slice());
    Ok(())
}

fn diamond_weighs(rt: &impl Abort, reach: &Reach, state: &State) -> Result<(), AllocError>
    requires { length reach.now ≡ state.now.len }
{
    let (weights, step) = asked_over(reach, state)?.expect(rt, "weights");
    assert!(rt; step.ask == Ask::Test(1));
    assert_eq!(rt; weights.as_slice(), [0, 1, 1, 3].as_slice());
    Ok(())
}

#[test]
fn the_weights_of_a_diamond(rt: HostRuntime) -> Result<(), Fail> {
    let reach = diamond(rt.alloc())?;
    let state = between(rt.alloc(), 4, (3, 0))?;
    diamond_weighs(&rt, &reach, &state)?;
    Ok(())
}
