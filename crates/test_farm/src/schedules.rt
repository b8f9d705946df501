//! Cores under random schedules, beside the open paths as states alone tell them.
ghost use Rattle.std.specs.Prelude.{◌≡◌, ◌<◌, length, IfOk, IfSome};
ghost use Rattle.bf_state.specs.Ends.{HasEnds};

use bf_core::{Core, Pick};
use bf_graph::Graph;
use bf_reach::Reach;
use bf_search::{Ask, Claim, Mark, Outcome, Verdict};
use bf_spec::Table;
use bf_state::State;
use bf_terms::{Terms, verdict_of};
use std::alloc::{AllocError, Global};
use std::process::Abort;
use std::test::Fail;

/// Forty commits; every fifth one merges an earlier one.
fn history(alloc: Global) -> Result<Reach, AllocError>
    ensures { IfOk result (λ reach. length reach ≡ 40) }
{
    let mut graph = Graph::new(alloc);
    graph.push(&[])?;
    for place in 1..40 {
        if place >= 4 && place % 5 == 4 {
            graph.push(&[place - 1, place - 4])?;
        } else {
            graph.push(&[place - 1])?;
        }
    }
    Reach::build(alloc, &graph)
}

/// The last commit is bad and the first one good.
fn search(alloc: Global) -> Result<State, AllocError>
    ensures len { IfOk result (λ state. state.len ≡ 40) }
    ensures ends { IfOk result (λ state. HasEnds state.search) }
{
    let terms = Terms::standard(alloc)?;
    State::new(alloc, 40, terms, false, false, Some(39), &[0])
}

/// A core over them.
fn started<'r>(alloc: Global, reach: &'r Reach) -> Result<Core<'r>, AllocError>
    requires { length reach.now ≡ 40 }
{
    let state = search(alloc)?;
    let table = Table::new(alloc, 40)?;
    Core::start(alloc, reach, state, table, 0)
}

/// Commits from 23 on are bad, some cannot be tested, and some abort.
fn outcome(place: u32) -> Outcome {
    if place % 7 == 3 {
        Outcome::Exit(125)
    } else if place % 13 == 5 {
        Outcome::Killed
    } else if place < 23 {
        Outcome::Exit(0)
    } else {
        Outcome::Exit(1)
    }
}

/// A number below 64.
fn draw(seed: &mut u64) -> u32
    ensures { result < 64 }
{
    *seed = seed.wrapping_mul(6_364_136_223_846_793_005).wrapping_add(1);
    ((*seed >> 33) % 64) as u32
}

/// A path: the state at its end, and its length.
#[derive(Drop)]
struct Path {
    state: State,
    depth: u32,
}

/// An open path: the candidates left, its length, and the place that it asks for.
#[derive(Clone, Copy)]
struct Open {
    left: u32,
    depth: u32,
    place: u32,
}

/// Goes on with a mark.
fn follow(path: &mut Path, mark: Mark, place: u32) -> Result<(), AllocError>
    requires { place < path.old.state.len }
    ensures { path.new.state.len ≡ path.old.state.len }
{
    path.depth = path.depth.saturating_add(1);
    path.state.mark(mark, place)
}

/// Goes on as the outcomes that are known force it, and returns the first place without one.
fn settle(reach: &Reach, table: &Table, path: &mut Path) -> Result<Option<u32>, AllocError>
    requires reach { length reach.now ≡ path.old.state.len }
    requires table { length table.now ≡ path.old.state.len }
    ensures len { path.new.state.len ≡ path.old.state.len }
    ensures place { IfOk result (λ place. IfSome place (λ p. p < path.old.state.len)) }
{
    for _ in 0..=reach.len() {
        let Ask::Test(place) = path.state.advance(reach)?.ask else {
            return Ok(None);
        };
        let Some(outcome) = table.get(place) else {
            return Ok(Some(place));
        };
        match verdict_of(outcome) {
            Verdict::Abort => return Ok(None),
            Verdict::Mark(mark) => follow(path, mark, place)?,
        }
    }
    Ok(None)
}

/// Whether a worker has claimed a place.
fn is_claimed(claims: &[Claim], place: u32) -> bool {
    claims.iter().any(|claim| claim.place == place)
}

/// The same path once more, which goes on with a mark.
fn branch(path: &Path, mark: Mark, place: u32) -> Result<Path, AllocError>
    requires { place < path.now.state.len }
    ensures { IfOk result (λ branch. branch.state.len ≡ path.now.state.len) }
{
    let mut branch = Path {
        state: path.state.try_clone()?,
        depth: path.depth,
    };
    follow(&mut branch, mark, place)?;
    Ok(branch)
}

/// A path that asks for a place, as an open one.
fn opened(reach: &Reach, path: &mut Path, place: u32) -> Result<Open, AllocError>
    requires { length reach.now ≡ path.old.state.len }
{
    Ok(Open {
        left: path.state.weigh(reach)?.mask.count(),
        depth: path.depth,
        place,
    })
}

/// The better of two paths of which the first goes on with a good mark where they part.
fn better(good: Option<Open>, bad: Option<Open>) -> Option<Open> {
    match (good, bad) {
        (Some(first), Some(second)) => {
            if (first.left, second.depth) >= (second.left, first.depth) {
                good
            } else {
                bad
            }
        }
        (None, _) => bad,
        (_, None) => good,
    }
}

/// The best open path that goes on from a path by so many guesses at most.
fn best_from(
    reach: &Reach,
    core: &Core,
    path: &mut Path,
    guesses: usize,
) -> Result<Option<Open>, AllocError>
    requires reach { length reach.now ≡ path.old.state.len }
    requires table { length core.now.table ≡ path.old.state.len }
{
    let Some(place) = settle(reach, core.table(), path)? else {
        return Ok(None);
    };
    if !is_claimed(core.claims(), place) {
        return Ok(Some(opened(reach, path, place)?));
    }
    if guesses == 0 {
        return Ok(None);
    }
    let bad = best_from(
        reach,
        core,
        &mut branch(path, Mark::Bad, place)?,
        guesses - 1,
    )?;
    follow(path, Mark::Good, place)?;
    let good = best_from(reach, core, path, guesses - 1)?;
    Ok(better(good, bad))
}

/// The place of the best open path.
fn best_place(rt: &impl Abort, reach: &Reach, core: &Core) -> Result<Option<u32>, AllocError> {
    assert_eq!(rt; core.state().len(), reach.len());
    assert_eq!(rt; core.state().len(), core.table().len());
    let mut path = Path {
        state: core.state().try_clone()?,
        depth: 0,
    };
    let best = best_from(reach, core, &mut path, core.claims().len())?;
    Ok(best.map(|open| open.place))
}

/// What a pick has to answer.
fn due(rt: &impl Abort, reach: &Reach, core: &Core) -> Result<Pick, AllocError> {
    if core.ending().is_some() {
        return Ok(Pick::Ended);
    }
    match best_place(rt, reach, core)? {
        Some(place) => Ok(Pick::Work(place)),
        None => Ok(Pick::NotYet),
    }
}

/// A worker without a claim picks.
fn pick(rt: &impl Abort, reach: &Reach, core: &mut Core, worker: u32) -> Result<(), AllocError> {
    let due = due(rt, reach, core)?;
    assert!(rt; !core.has_claim(worker));
    assert_eq!(rt; core.pick(worker)?, due);
    Ok(())
}

/// A claim ends, one in eight without an outcome.
fn end(rt: &impl Abort, core: &mut Core, claim: Claim, draw: u32) -> Result<(), AllocError> {
    let Claim { worker, place } = claim;
    assert!(rt; core.stands(worker, place));
    if draw < 8 {
        core.give(worker, place);
    } else {
        core.post(worker, place, outcome(place))?;
    }
    Ok(())
}

/// The claim of a worker.
fn claim_of(claims: &[Claim], worker: u32) -> Option<Claim> {
    claims.iter().find(|claim| claim.worker == worker).copied()
}

/// A worker that is drawn picks, or ends its claim.
fn step(rt: &impl Abort, reach: &Reach, core: &mut Core, seed: &mut u64) -> Result<(), AllocError> {
    let worker = 1 + draw(seed);
    match claim_of(core.claims(), worker) {
        None => pick(rt, reach, core, worker),
        Some(claim) => end(rt, core, claim, draw(seed)),
    }
}

/// Sixty steps of a core.
fn schedule(rt: &impl Abort, alloc: Global, reach: &Reach, seed: &mut u64) -> Result<(), AllocError>
    requires { length reach.now ≡ 40 }
{
    let mut core = started(alloc, reach)?;
    for _ in 0..60 {
        step(rt, reach, &mut core, seed)?;
    }
    Ok(())
}

#[test]
fn random_schedules(rt: HostRuntime) -> Result<(), Fail> {
    let reach = history(rt.alloc())?;
    let mut seed = 1;
    for _ in 0..8 {
        schedule(&rt, rt.alloc(), &reach, &mut seed)?;
    }
    Ok(())
}
