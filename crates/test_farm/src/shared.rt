//! Two searches over a line of eight commits.
ghost use Rattle.std.specs.Prelude.{◌≡◌, ◌≤◌, length, All, IfOk};
ghost use Rattle.bf_state.specs.Ends.{HasEnds};
ghost use Rattle.bf_many.specs.Teams.{AreWhole};
ghost use Rattle.test_farm.specs.Searches.{AreFresh, IsFresh, IsOfEight};

use crate::late::{Late, Watch};
use bf_core::Core;
use bf_graph::Graph;
use bf_many::{ManyCase, ManyCore, ManyEvent, ManyPick, ReadySearch, Shared, run_shared};
use bf_oid::Oid;
use bf_reach::Reach;
use bf_search::{Ending, Event, Outcome};
use bf_spec::Table;
use bf_state::State;
use bf_terms::Terms;
use bf_tester::{Gate, PlanTester, ScriptTester, Tester};
use std::alloc::{AllocError, Global};
use std::process::{Abort, Processes, SystemProcess};
use std::sync::{Arc, Wait};
use std::test::Fail;
use std::thread::Threads;
use std::time::Clock;

static NAMES: [Oid; 8] = [
    Oid([0; 20]),
    Oid([1; 20]),
    Oid([2; 20]),
    Oid([3; 20]),
    Oid([4; 20]),
    Oid([5; 20]),
    Oid([6; 20]),
    Oid([7; 20]),
];

/// Eight commits, each the child of the one before.
fn line(alloc: Global) -> Result<Reach, AllocError>
    ensures { IfOk result (λ reach. length reach ≡ 8) }
{
    let mut graph = Graph::new(alloc);
    graph.push(&[])?;
    for place in 1..8 {
        graph.push(&[place - 1])?;
    }
    Reach::build(alloc, &graph)
}

/// The last commit is bad and the first one good.
fn state(alloc: Global) -> Result<State, AllocError>
    ensures len { IfOk result (λ state. state.len ≡ 8) }
    ensures ends { IfOk result (λ state. HasEnds state.search) }
{
    let terms = Terms::standard(alloc)?;
    State::new(alloc, 8, terms, false, false, Some(7), &[0])
}

/// That search, of which no outcome is known.
fn search(alloc: Global) -> Result<ReadySearch, AllocError>
    ensures { IfOk result IsFresh }
{
    let state = state(alloc)?;
    let table = Table::new(alloc, 8)?;
    Ok(ReadySearch { state, table })
}

/// Two such searches.
fn two(alloc: Global) -> Result<Vec<ReadySearch>, AllocError>
    ensures { IfOk result (λ searches. AreFresh searches.items) }
{
    let first = search(alloc)?;
    let second = search(alloc)?;
    let mut searches = Vec::new(alloc);
    searches.push(first)?;
    searches.push(second)?;
    Ok(searches)
}

/// What so many workers come to in two searches.
fn shared_by<R, T>(
    rt: &R,
    alloc: Global,
    workers: u32,
    testers: &mut [T],
) -> Result<Shared, AllocError>
where
    R: Threads + Wait + Processes<Started = SystemProcess> + Clock + Eprint + Sync,
    T: Tester,
    requires some { 1 ≤ workers }
    requires most { workers ≤ 64 }
    requires two { length testers.old ≡ 2 }
    requires is_split { AreWhole T.Tester testers.old }
    ensures { IfOk result (λ shared. All IsOfEight shared.tables.items) }
{
    let reach = line(alloc)?;
    let case = ManyCase {
        reach: &reach,
        names: &NAMES,
        searches: two(alloc)?,
    };
    let shared = run_shared(rt, alloc, case, workers, testers)?;
    Ok(shared)
}

/// Whether a search finds the first bad commit at a place, on a table.
fn finds(alloc: Global, place: u32, table: &Table) -> Result<bool, AllocError>
    requires { IsOfEight table.now }
{
    let reach = line(alloc)?;
    let state = state(alloc)?;
    let table = table.try_clone()?;
    let core = Core::start(alloc, &reach, state, table, 0)?;
    Ok(core.ending() == Some(&Ending::FirstBad(place)))
}

/// Asserts that the searches found the commits at these places.
fn have_found(
    rt: &impl Abort,
    alloc: Global,
    shared: &Shared,
    places: [u32; 2],
) -> Result<(), AllocError>
    requires { All IsOfEight shared.now.tables.items }
{
    assert_eq!(rt; shared.tables.len(), 2);
    for (table, place) in shared.tables.iter().zip(places) {
        assert!(rt; finds(alloc, place, table)?);
    }
    Ok(())
}

#[test]
fn each_search_has_its_own_outcomes(rt: HostRuntime) -> Result<(), Fail> {
    for workers in 1..9 {
        let mut testers = Vec::new(rt.alloc());
        testers.push(PlanTester::new(rt.alloc(), b"ggggbbbb")?)?;
        testers.push(PlanTester::new(rt.alloc(), b"gbbbbbbb")?)?;
        let shared = shared_by(&rt, rt.alloc(), workers, testers.as_mut_slice())?;
        have_found(&rt, rt.alloc(), &shared, [4, 1])?;
    }
    Ok(())
}

/// How many claims of a search there are.
fn claims_of(search: u32, events: &[ManyEvent]) -> usize {
    let mut count = 0usize;
    for e in events {
        if e.search == search && matches!(e.event, Event::Claim { .. }) {
            count = count.saturating_add(1);
        }
    }
    count
}

// The first test ends only after another one has begun. One worker tests in each search at first.
#[test]
fn workers_share_searches(rt: HostRuntime) -> Result<(), Fail> {
    let alloc = rt.alloc();
    let gate = Arc::new(alloc, Gate::new())?;
    let first = Some(Arc::try_clone(&gate)?);
    let mut testers = Vec::new(alloc);
    testers.push(ScriptTester::new(alloc, b"ggggbbbb", Vec::new(alloc), first)?)?;
    testers.push(ScriptTester::new(alloc, b"gbbbbbbb", Vec::new(alloc), Some(gate))?)?;
    let shared = shared_by(&rt, alloc, 2, testers.as_mut_slice())?;
    have_found(&rt, alloc, &shared, [4, 1])?;
    for search in 0..2 {
        assert!(rt; claims_of(search, shared.events.as_slice()) > 0);
    }
    Ok(())
}

// The test of place 5 in the first search is needless, as place 3 is bad there. The second search has no watch.
#[test]
fn a_needless_test_of_one_search_sees_its_flag_raised(rt: HostRuntime) -> Result<(), Fail> {
    let alloc = rt.alloc();
    let watch = Arc::new(alloc, Watch::new(3, 5))?;
    let mut testers = Vec::new(alloc);
    testers.push(Late {
        inner: PlanTester::new(alloc, b"gbbbbbbb")?,
        watch: watch.clone()?,
    })?;
    testers.push(Late {
        inner: PlanTester::new(alloc, b"ggggbbbb")?,
        watch: Arc::new(alloc, Watch::new(8, 8))?,
    })?;
    let shared = shared_by(&rt, alloc, 2, testers.as_mut_slice())?;
    assert!(rt; watch.was_raised());
    have_found(&rt, alloc, &shared, [1, 4])?;
    Ok(())
}

/// What a worker is to do, where it has no claim.
fn pick(many: &mut ManyCore<'_>, worker: u32) -> Result<Option<ManyPick>, AllocError> {
    if many.is_busy(worker) {
        return Ok(None);
    }
    Ok(Some(many.pick(worker)?))
}

/// Whether a claim stood, whose test this outcome ends.
fn post(
    many: &mut ManyCore<'_>,
    search: u32,
    worker: u32,
    place: u32,
    outcome: Outcome,
) -> Result<bool, AllocError> {
    if !many.stands(search, worker, place) {
        return Ok(false);
    }
    many.post(search, worker, place, outcome)?;
    Ok(true)
}

/// Whether a claim stood, which is given back.
fn give(many: &mut ManyCore<'_>, search: u32, worker: u32, place: u32) -> bool {
    if !many.stands(search, worker, place) {
        return false;
    }
    many.give(search, worker, place);
    true
}

/// Work at a place of a search.
fn work(search: u32, place: u32) -> Option<ManyPick> {
    Some(ManyPick::Work { search, place })
}

// The search that has the fewest workers comes next and, of two that have as many, the first one.
#[test]
fn picks_take_turns(rt: HostRuntime) -> Result<(), Fail> {
    let reach = line(rt.alloc())?;
    let mut many = ManyCore::start(rt.alloc(), &reach, two(rt.alloc())?)?;
    assert!(rt; pick(&mut many, 1)? == work(0, 3));
    assert!(rt; pick(&mut many, 2)? == work(1, 3));
    assert!(rt; pick(&mut many, 3)? == work(0, 5));
    assert!(rt; pick(&mut many, 3)?.is_none());
    assert!(rt; post(&mut many, 1, 2, 3, Outcome::Exit(1))?);
    assert!(rt; pick(&mut many, 2)? == work(1, 1));
    assert!(rt; !give(&mut many, 1, 1, 3));
    assert!(rt; give(&mut many, 0, 1, 3));
    assert!(rt; pick(&mut many, 1)? == work(0, 3));
    Ok(())
}
