//! A core on the line of eight.
ghost use Rattle.std.specs.Prelude.{◌≡◌, ◌<◌, length, IfOk};
ghost use Rattle.bf_state.specs.Ends.{HasEnds};

use crate::line::{line, search};
use bf_core::{ApplyFault, Core, Pick};
use bf_reach::Reach;
use bf_search::{Ending, Entry, Event, Mark, Outcome};
use bf_spec::Table;
use bf_state::State;
use std::alloc::{AllocError, Global};
use std::process::Abort;
use std::test::Fail;

const GOOD: Outcome = Outcome::Exit(0);

const BAD: Outcome = Outcome::Exit(1);

const SKIP: Outcome = Outcome::Exit(125);

const ABORT: Outcome = Outcome::Exit(128);

/// A core with an empty table.
fn started<'r>(alloc: Global, reach: &'r Reach, leg: u32) -> Result<Core<'r>, AllocError>
    requires { length reach.now ≡ 8 }
{
    let state = search(alloc)?;
    let table = Table::new(alloc, 8)?;
    Core::start(alloc, reach, state, table, leg)
}

/// Asserts that a worker picks this place.
fn picks(rt: &impl Abort, core: &mut Core, worker: u32, place: u32) -> Result<(), AllocError> {
    assert!(rt; !core.has_claim(worker));
    assert_eq!(rt; core.pick(worker)?, Pick::Work(place));
    Ok(())
}

/// Asserts what six workers pick.
fn six_pick(rt: &impl Abort, core: &mut Core) -> Result<(), AllocError> {
    picks(rt, core, 1, 3)?;
    picks(rt, core, 2, 5)?;
    picks(rt, core, 3, 1)?;
    picks(rt, core, 4, 6)?;
    picks(rt, core, 5, 4)?;
    picks(rt, core, 6, 2)
}

/// Asserts which workers are withdrawn by the outcome of a worker's place.
fn withdraws(
    rt: &impl Abort,
    core: &mut Core,
    claim: (u32, u32),
    outcome: Outcome,
    wanted: &[u32],
) -> Result<(), AllocError> {
    let (worker, place) = claim;
    assert!(rt; core.stands(worker, place));
    let withdrawn = core.post(worker, place, outcome)?;
    assert_eq!(rt; withdrawn.workers.as_slice(), wanted);
    Ok(())
}

/// Asserts that an event is done.
fn does(rt: &impl Abort, core: &mut Core, event: Event) {
    assert_eq!(rt; core.apply(event), Ok(()));
}

/// Asserts that an event is not legal.
fn refuses(rt: &impl Abort, core: &mut Core, event: Event) {
    assert_eq!(rt; core.apply(event), Err(ApplyFault::Illegal { event }));
}

/// Asserts that one place is marked, and how.
fn has_marked(rt: &impl Abort, core: &Core, mark: Mark, place: u32) {
    assert_eq!(rt; core.entries(), [Entry::Marked { mark, place }].as_slice());
}

fn a_good_place_withdraws(rt: &impl Abort, core: &mut Core) -> Result<(), AllocError> {
    six_pick(rt, core)?;
    assert!(rt; core.has_node(&[Mark::Bad, Mark::Good]));
    withdraws(rt, core, (1, 3), GOOD, &[3, 6])?;
    let claim = Event::Claim {
        worker: 8,
        place: 3,
    };
    refuses(rt, core, claim);
    has_marked(rt, core, Mark::Good, 3);
    Ok(())
}

#[test]
fn six_workers_on_the_line_of_eight(rt: HostRuntime) -> Result<(), Fail> {
    let reach = line(rt.alloc())?;
    let mut core = started(rt.alloc(), &reach, 0)?;
    a_good_place_withdraws(&rt, &mut core)?;
    Ok(())
}

fn an_abort_waits(rt: &impl Abort, core: &mut Core) -> Result<(), AllocError> {
    six_pick(rt, core)?;
    withdraws(rt, core, (3, 1), ABORT, &[6])?;
    assert!(rt; core.ending().is_none());
    withdraws(rt, core, (1, 3), SKIP, &[])?;
    has_marked(rt, core, Mark::Skip, 3);
    Ok(())
}

#[test]
fn an_abort_beside_the_path(rt: HostRuntime) -> Result<(), Fail> {
    let reach = line(rt.alloc())?;
    let mut core = started(rt.alloc(), &reach, 0)?;
    an_abort_waits(&rt, &mut core)?;
    Ok(())
}

/// At the end of a leg, and behind it, only those are withdrawn that the rest of the search does not ask for.
fn a_mark_is_made(rt: &impl Abort, core: &mut Core) -> Result<(), AllocError> {
    six_pick(rt, core)?;
    withdraws(rt, core, (1, 3), GOOD, &[3, 6])?;
    withdraws(rt, core, (2, 5), BAD, &[3, 4, 6])
}

#[test]
fn a_leg_of_one_mark(rt: HostRuntime) -> Result<(), Fail> {
    let reach = line(rt.alloc())?;
    let mut core = started(rt.alloc(), &reach, 1)?;
    a_mark_is_made(&rt, &mut core)?;
    assert!(rt; core.into_parts().ending == Some(Ending::Leg));
    Ok(())
}

fn another_worker_takes_it(rt: &impl Abort, core: &mut Core) -> Result<(), AllocError> {
    picks(rt, core, 1, 3)?;
    let give = Event::Give {
        worker: 1,
        place: 3,
    };
    does(rt, core, give);
    refuses(rt, core, give);
    picks(rt, core, 2, 3)?;
    let post = Event::Post {
        worker: 2,
        place: 3,
        outcome: BAD,
    };
    does(rt, core, post);
    has_marked(rt, core, Mark::Bad, 3);
    Ok(())
}

#[test]
fn a_claim_that_is_given_back(rt: HostRuntime) -> Result<(), Fail> {
    let reach = line(rt.alloc())?;
    let mut core = started(rt.alloc(), &reach, 0)?;
    another_worker_takes_it(&rt, &mut core)?;
    Ok(())
}

/// Asserts what an outcome that is known from elsewhere leaves: it withdraws these workers.
fn learns(
    rt: &impl Abort,
    core: &mut Core,
    place: u32,
    outcome: Outcome,
    wanted: &[u32],
) -> Result<(), AllocError> {
    assert!(rt; core.is_free(place));
    let withdrawn = core.learn(place, outcome)?;
    assert_eq!(rt; withdrawn.workers.as_slice(), wanted);
    assert!(rt; core.has_outcome(place));
    assert!(rt; !core.is_free(place));
    Ok(())
}

/// Asserts which places some path asks for, from these on.
fn wants(rt: &impl Abort, core: &mut Core, wanted: &[u32]) -> Result<(), AllocError> {
    for place in 0..9 {
        let is_wanted = core.wants(place)?;
        assert_eq!(rt; is_wanted, wanted.contains(&place));
    }
    Ok(())
}

/// An outcome that is learnt before its place is asked for waits, and is used when a mark leads there.
fn an_outcome_is_learnt(rt: &impl Abort, core: &mut Core) -> Result<(), AllocError> {
    wants(rt, core, &[1, 2, 3, 4, 5, 6])?;
    picks(rt, core, 1, 3)?;
    assert!(rt; core.is_under_test(3) && !core.has_outcome(3));
    picks(rt, core, 2, 5)?;
    picks(rt, core, 3, 1)?;
    wants(rt, core, &[1, 2, 3, 4, 5, 6])?;
    learns(rt, core, 4, BAD, &[])?;
    wants(rt, core, &[1, 2, 3, 5, 6])?;
    assert_eq!(rt; core.entries().len(), 0);
    assert_eq!(rt; core.claims().len(), 3);
    withdraws(rt, core, (1, 3), GOOD, &[3])?;
    has_marked(rt, core, Mark::Good, 3);
    wants(rt, core, &[5, 6])?;
    withdraws(rt, core, (2, 5), BAD, &[3])?;
    assert!(rt; core.ending() == Some(&Ending::FirstBad(4)));
    wants(rt, core, &[])
}

#[test]
fn an_outcome_from_elsewhere(rt: HostRuntime) -> Result<(), Fail> {
    let reach = line(rt.alloc())?;
    let mut core = started(rt.alloc(), &reach, 0)?;
    an_outcome_is_learnt(&rt, &mut core)?;
    Ok(())
}
